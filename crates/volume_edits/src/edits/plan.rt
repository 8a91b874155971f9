//! What a call will do to a volume.
ghost use Rattle.std.specs.Prelude.{◌≡◌, ◌≤◌, ◌==◌, length, option_map, true};
ghost use Rattle.std.specs.Option.{option_copied};
ghost use Rattle.volume_edits.specs.edits.Planned.{all_take, writes_alone};
ghost use Rattle.volume_edits.specs.edits.lemma.Writes.{IsLoneWrite, write_value};

use crate::edits::edit::{DatedWrite, Edit};
use afp_base::Moment;
use std::marker::Model;

/// What a call will do: its edits, in their order, and its moment, which is the volume's modified date then. A plan of no edits does nothing. At
/// most one edit of a plan takes room, and a write of a fork is the one edit of its plan.
///
/// Contracts see the moment and the list of edits.
#[derive(Drop)]
pub struct Plan {
    pub(crate) moment: Moment,
    pub(crate) edits: Vec<Edit>,
}

impl Model for Plan {
    ghost use Rattle.std.specs.Prelude.{◌≡◌, ◌≤◌, true};
    ghost use Rattle.volume_edits.specs.edits.Planned.{PlanValue, all_take, writes_alone};

    ghost Value = { PlanValue };

    ghost view = { λ a. record { moment = a.moment; edits = a.edits.items } };

    ghost invariant = { λ a. (all_take a.edits.items ≤ 1) × (writes_alone a.edits.items ≡ true) };
}

impl Plan {
    /// These edits at a moment.
    pub fn new(moment: Moment, edits: Vec<Edit>) -> Plan
        requires few { all_take edits.items ≤ 1 }
        requires alone { writes_alone edits.items ≡ true }
        ensures moment { result.moment ≡ moment }
        ensures edits { result.edits ≡ edits.items }
    {
        Plan { moment, edits }
    }

    /// Whether there is no edit, so that the plan does nothing.
    pub fn is_empty(&self) -> bool
        ensures { result ≡ (length self.now.edits == 0) }
    {
        self.edits.len() == 0
    }

    /// The edits, in their order, lent.
    pub fn edits(&self) -> &[Edit]
        ensures { result.now ≡ self.now.edits }
    {
        self.edits.as_slice()
    }

    /// The write of a fork, where the plan is one.
    pub(crate) fn write(&self) -> Option<&DatedWrite>
        ensures { IsLoneWrite self.now.edits (option_map write_value (option_copied result)) }
    {
        let edits = self.edits.as_slice();
        if edits.len() != 1 {
            return None;
        }
        edits[0].write()
    }
}
