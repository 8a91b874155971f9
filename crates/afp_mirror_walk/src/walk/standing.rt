//! Where a mirror stands.
ghost use Rattle.std.specs.Prelude.{◌≡◌, IfOk};
ghost use Rattle.afp_mirror_walk.specs.Follows.{first};

use crate::walk::ends::Line;
use afp_base::{Bytes, ForkRef, NodeId, OutOfMemory, VolumeId};
use afp_names::Name;
use std::alloc::Global;
use std::marker::Model;

/// A directory, and the one that was made for it.
#[derive(Clone, Copy, Debug, PartialEq, Eq)]
pub struct Pair {
    pub source: NodeId,
    pub target: NodeId,
}

/// What is to be set of a node: its attributes, by a word that sets them, three dates, and Finder information.
#[derive(Clone, Copy, Debug, PartialEq, Eq)]
pub struct Settings {
    pub word: u16,
    pub created: i32,
    pub modified: i32,
    pub backup: i32,
    pub finder: [u8; 32],
}

/// A node that a list told and that is not made yet.
#[derive(Drop)]
pub struct Found {
    pub id: NodeId,
    pub dir: bool,
    pub name: Name,
    /// What is to be set of it.
    pub settings: Settings,
}

/// A node that was made.
#[derive(Drop)]
pub struct Made {
    pub source: NodeId,
    pub target: NodeId,
    pub parent: Pair,
    pub dir: bool,
    pub name: Name,
    /// What is to be set of it.
    pub settings: Settings,
}

/// The directory whose children are listed, where its next list begins, and from which node on the next directory is sought.
#[derive(Clone, Copy, Debug, PartialEq, Eq)]
pub struct Place {
    pub here: Pair,
    pub start: u32,
    pub next: usize,
}

/// A fork that is copied: of which file that was made, the two open forks, and how many bytes were copied.
#[derive(Clone, Copy, Debug, PartialEq, Eq)]
pub struct Copying {
    pub target: NodeId,
    pub resource: bool,
    pub from: ForkRef,
    pub to: ForkRef,
    pub len: u64,
}

/// A fork that is compared: of which node, the two open forks, how many bytes were found equal, and how many bytes the data fork has.
#[derive(Clone, Copy, Debug, PartialEq, Eq)]
pub struct Checking {
    pub index: usize,
    pub resource: bool,
    pub from: ForkRef,
    pub to: ForkRef,
    pub len: u64,
    pub data_len: u64,
}

/// What is asked next.
#[derive(Clone, Copy, Debug, PartialEq, Eq)]
pub enum Stage {
    OpensSource,
    OpensTarget,
    /// Whether the target is empty.
    Looks,
    Lists,
    /// The first node of the page.
    Makes,
    /// The id of the file that was made.
    Finds,
    OpensFrom(Copying),
    OpensTo(Copying),
    Reads(Copying),
    /// `last`: these are the last bytes.
    Writes { copying: Copying, last: bool },
    ClosesFrom(Copying),
    ClosesTo(Copying),
    SetsFile { target: NodeId },
    /// The directory of this index.
    SetsDir { index: usize },
    ChecksFrom(Checking),
    ChecksTo(Checking),
    ReadsFrom(Checking),
    /// `last`: these were the last bytes.
    ReadsTo { checking: Checking, last: bool },
    ShutsFrom(Checking),
    ShutsTo(Checking),
}

/// Where a mirror stands: the names of the two volumes and their ids, the nodes that were made, those of the last list that are not yet, the lines
/// of nodes that were compared, the bytes that were read last, and what is asked next.
#[derive(Drop)]
pub struct Walk {
    pub(crate) alloc: Global,
    pub(crate) source: Name,
    pub(crate) target: Name,
    pub(crate) from: VolumeId,
    pub(crate) to: VolumeId,
    pub(crate) place: Place,
    pub(crate) nodes: Vec<Made>,
    pub(crate) page: Vec<Found>,
    pub(crate) lines: Vec<Line>,
    pub(crate) piece: Bytes,
    pub(crate) stage: Stage,
}

/// The root of a volume.
pub const ROOT: NodeId = NodeId(2);

/// The roots of the two volumes.
pub const ROOTS: Pair = Pair {
    source: ROOT,
    target: ROOT,
};

impl Model for Walk {
    ghost use Rattle.std.specs.Prelude.{length};
    ghost use Rattle.afp_mirror_walk.specs.Standing.{Fits, Standing};

    ghost Value = { Standing };

    ghost view = { λ w. record {
      source = w.source;
      target = w.target;
      from_volume = w.from;
      to_volume = w.to;
      place = w.place;
      nodes = w.nodes.items;
      page = w.page.items;
      lines = w.lines.items;
      piece = w.piece;
      stage = w.stage;
    } };

    ghost invariant = { λ w. Fits w.stage (length w.page.items) (length w.nodes.items) (length w.piece) };
}

impl Walk {
    /// Where a mirror begins.
    pub fn new(alloc: Global, source: &Name, target: &Name) -> Result<Walk, OutOfMemory>
        ensures { IfOk result (λ w. w ≡ first source.now target.now) }
    {
        Ok(Walk {
            alloc,
            source: source.copy(alloc)?,
            target: target.copy(alloc)?,
            from: VolumeId(0),
            to: VolumeId(0),
            place: Place {
                here: ROOTS,
                start: 1,
                next: 0,
            },
            nodes: Vec::new(alloc),
            page: Vec::new(alloc),
            lines: Vec::new(alloc),
            piece: Bytes::new(alloc),
            stage: Stage::OpensSource,
        })
    }
}
