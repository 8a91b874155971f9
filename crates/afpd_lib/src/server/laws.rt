//! Laws of whole runs: what is served where nothing is in the way. Their functions do nothing.
ghost use Rattle.afp_desk.specs.workers.Keeping.{keeping};
ghost use Rattle.afpd_lib.specs.server.Complete.{MeetsNoFault, ServesGoodKeepers, ServesGoodWords};

use afp_outside::{Gate, Listener};
use record_keeper::Keeper;

/// Where the words are good, there are as many keepers as volumes and as many doors as workers, and neither a door nor the report fails, the server ends well, or
/// a keeper gave no volume, or there was no memory.
pub fn good_words_are_served<N: Listener, G: Gate, K: Keeper>()
    ensures { ServesGoodWords N.Link.link_state G.passed N.door_state (keeping K.records K.steady K.sure K.faults K.settles) }
{}

/// Where besides all keepers are sure, and their records are those of volumes of their names, the server ends well, or there was no memory.
pub fn good_words_over_good_keepers_are_served<N: Listener, G: Gate, K: Keeper>()
    ensures { ServesGoodKeepers N.Link.link_state G.passed N.door_state (keeping K.records K.steady K.sure K.faults K.settles) }
{}

/// Where no keeper's count rose, no ask of a served link met a fault: each had its outcome, or was refused.
pub fn no_ask_meets_a_fault<N: Listener, G: Gate, K: Keeper>()
    ensures { MeetsNoFault N.Link.link_state G.passed N.door_state (keeping K.records K.steady K.sure K.faults K.settles) }
{}
