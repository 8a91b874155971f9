//! The dates of a volume, and its next node id.
ghost use Rattle.std.specs.Prelude.{◌≡◌, pos};
ghost use Rattle.volume_spec.specs.VolumeState.{never};

use afp_base::Moment;
use volume_spec::limits::NEVER;

/// The dates of a volume, in seconds from 2000-01-01 00:00 GMT (AFP Reference, "Volume parameters").
#[derive(Clone, Copy)]
pub(crate) struct Dates {
    pub created: i32,
    pub modified: i32,
    pub backup: i32,
}

impl Dates {
    /// The dates of a volume that is made at a moment.
    pub fn new(now: Moment) -> Dates
        ensures created { result.created ≡ pos now }
        ensures modified { result.modified ≡ pos now }
        ensures backup { result.backup ≡ never }
    {
        Dates {
            created: now.seconds() as i32,
            modified: now.seconds() as i32,
            backup: NEVER,
        }
    }

    /// The dates of a volume that is changed at a moment.
    pub fn touched(self, now: Moment) -> Dates
        ensures { result ≡ record self { modified = pos now } }
    {
        Dates {
            created: self.created,
            modified: now.seconds() as i32,
            backup: self.backup,
        }
    }
}

impl Dates {
    /// The dates of a volume that is backed up on a date.
    pub fn backed_up(self, date: i32) -> Dates
        ensures { result ≡ record self { backup = date } }
    {
        Dates {
            created: self.created,
            modified: self.modified,
            backup: date,
        }
    }
}

/// The dates of a volume, in seconds from 2000-01-01 00:00 GMT, and the id that its next new node
/// draws, up to 4,294,967,296, where the ids have ended.
#[derive(Clone, Copy, Debug, PartialEq, Eq)]
pub struct VolumeHead {
    pub created: i32,
    pub modified: i32,
    pub backup: i32,
    pub next_id: u64,
}
