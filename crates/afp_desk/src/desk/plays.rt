//! The kinds of step.
use crate::desk::view::View;
use afp_core::Core;
use atomic_table::{Join, Play, Split, TableRule};
use record_keeper::Keeper;
use std::marker::{Brand, PhantomData};
use std::snapshot::Snapshot;

/// Word 0 is the next ticket, and word 1 the ticket that is served. Slot 0 has the core.
pub(crate) struct InTurn;

impl<K: Keeper> TableRule<Option<Core<K>>, View, Snapshot<Core<K>>> for InTurn {
    ghost use Rattle.afp_desk.specs.desk.Rule.{IsKept, newcomer};

    ghost holds = { λ key. IsKept key.value };

    ghost first = { λ key. newcomer key.value };
}

/// It draws a ticket.
pub(crate) struct Draw;

impl<K: Keeper> Play<Option<Core<K>>, View> for Draw {
    ghost use Rattle.afp_desk.specs.desk.Plays.{Draws};

    ghost then = { Draws };
}

/// It looks whether its ticket is served, and takes the core then.
pub(crate) struct Look;

impl<K: Keeper> Play<Option<Core<K>>, View> for Look {
    ghost use Rattle.afp_desk.specs.desk.Plays.{Looks};

    ghost then = { Looks };
}

/// It looks how many tickets were drawn.
pub(crate) struct Glance;

impl<K: Keeper> Play<Option<Core<K>>, View> for Glance {
    ghost use Rattle.afp_desk.specs.desk.Plays.{Glances};

    ghost then = { Glances };
}

/// With no ticket it looks, after a join, which history is longer.
pub(crate) struct Settle;

impl<K: Keeper> Play<Option<Core<K>>, View> for Settle {
    ghost use Rattle.afp_desk.specs.desk.Plays.{Settles};

    ghost then = { Settles };
}

/// Which call a turn was.
pub(crate) trait Made {
    ghost use Rattle.afp_desk.specs.desk.Plays.{Call};

    ghost call: { Call };
}

impl Made for Brand {
    ghost use Rattle.afp_desk.specs.desk.Plays.{no_call};

    ghost call = { no_call };
}

/// It ends its turn: the core goes back, and the next ticket is served.
pub(crate) struct Decide<E> {
    made: PhantomData<E>,
}

impl<K: Keeper, E: Made> Play<Option<Core<K>>, View> for Decide<E> {
    ghost use Rattle.afp_desk.specs.desk.Plays.{Decides};

    ghost then = { Decides E.call };
}

/// It cuts the share in halves.
pub(crate) struct Halves;

impl Split<View> for Halves {
    ghost use Rattle.afp_desk.specs.desk.Rule.{left_of, right_of};

    ghost left = { left_of };

    ghost right = { right_of };
}

/// A spent seat beside it, which remembers what it shows.
pub(crate) struct Echo;

impl Split<View> for Echo {
    ghost use Rattle.afp_desk.specs.desk.Rule.{echo_of};

    ghost left = { λ v. v };

    ghost right = { echo_of };
}

/// One seat has what both had.
pub(crate) struct Both;

impl Join<View> for Both {
    ghost use Rattle.afp_desk.specs.desk.Rule.{both_of, spent};

    ghost both = { both_of };

    ghost spent = { spent };
}
