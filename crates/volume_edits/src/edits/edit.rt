//! Edits of a volume.
ghost use Rattle.std.specs.Prelude.{◌≡◌, [], option_map};
ghost use Rattle.std.specs.Option.{option_copied};
ghost use Rattle.volume_spec.specs.Desktop.{icon_under};
ghost use Rattle.volume_spec.specs.Edit as spec;
ghost use Rattle.volume_edits.specs.edits.Planned.{plain};
ghost use Rattle.volume_edits.specs.edits.lemma.Steps.{write_of};
ghost use Rattle.volume_edits.specs.edits.lemma.Writes.{write_value};

use afp_base::{Bytes, Moment, NodeId};
use fork_bytes::ForkWrite;
use std::marker::Model;
use volume_tree::{NewName, NodeWithForks, Settings};

/// A write of a fork of a file, at a moment.
#[derive(Drop)]
pub(crate) struct DatedWrite {
    pub(crate) moment: Moment,
    pub(crate) id: NodeId,
    pub(crate) resource: bool,
    pub(crate) write: ForkWrite,
}

/// The kinds of edits, each with what it brings.
#[derive(Drop)]
pub(crate) enum Kind {
    Comes {
        new: NodeWithForks,
    },
    Goes {
        id: NodeId,
    },
    Renames {
        id: NodeId,
        name: NewName,
    },
    Moves {
        id: NodeId,
        parent: NodeId,
        name: NewName,
    },
    Sets {
        id: NodeId,
        settings: Settings,
    },
    Files {
        id: NodeId,
        filed: bool,
    },
    Writes {
        write: DatedWrite,
    },
    Exchanges {
        a: NodeId,
        b: NodeId,
    },
    PutsIcon {
        key: [u8; 9],
        tag: u32,
        bits: Bytes,
    },
    PutsAppl {
        creator: [u8; 4],
        node: NodeId,
        tag: u32,
    },
    TakesAppl {
        creator: [u8; 4],
        node: NodeId,
    },
    Comments {
        node: NodeId,
        text: Bytes,
    },
    BacksUp {
        date: i32,
    },
}

/// One edit of a volume, all that it takes memory for included.
///
/// Contracts see the definition's edit, and the bytes of the fork that it writes as they are before it.
#[derive(Drop)]
pub struct Edit(pub(crate) Kind);

impl Model for Edit {
    ghost use Rattle.volume_edits.specs.declared.edits.edit.Kind.TheVariants as kind;
    ghost use Rattle.volume_spec.specs.Desktop.{icon_under};
    ghost use Rattle.volume_spec.specs.Edit as spec;
    ghost use Rattle.volume_edits.specs.edits.Planned.{EditValue, plain};

    ghost Value = { EditValue };

    ghost view = { λ a. elim a.0 [ kind.Comes new ↦ plain (spec.Comes new) | kind.Goes id ↦ plain (spec.Goes id.0) | kind.Renames id name ↦ plain (spec.Renames id.0 name) | kind.Moves id parent name ↦ plain (spec.Moves id.0 parent.0 name) | kind.Sets id settings ↦ plain (spec.Sets id.0 settings) | kind.Files id filed ↦ plain (spec.Files id.0 filed) | kind.Writes write ↦ record { edit = spec.Writes write.moment write.id.0 write.resource write.write.after; before = write.write.before } | kind.Exchanges a b ↦ plain (spec.Exchanges a.0 b.0) | kind.PutsIcon key tag bits ↦ plain (spec.PutsIcon (icon_under key tag bits)) | kind.PutsAppl creator node tag ↦ plain (spec.PutsAppl (record { creator = creator; node = node.0; tag = tag })) | kind.TakesAppl creator node ↦ plain (spec.TakesAppl creator node.0) | kind.Comments node text ↦ plain (spec.Comments node.0 text) | kind.BacksUp date ↦ plain (spec.BacksUp date) ] };
}

impl Edit {
    /// A node comes with its forks, and draws the next id.
    pub fn comes(new: NodeWithForks) -> Edit
        ensures { result ≡ plain (spec.Comes new) }
    {
        Edit(Kind::Comes { new })
    }

    /// A node goes, with its forks, its comment and its mappings.
    pub fn goes(id: NodeId) -> Edit
        ensures { result ≡ plain (spec.Goes id.0) }
    {
        Edit(Kind::Goes { id })
    }

    /// A node gets another name.
    pub fn renames(id: NodeId, name: NewName) -> Edit
        ensures { result ≡ plain (spec.Renames id.0 name) }
    {
        Edit(Kind::Renames { id, name })
    }

    /// A node gets another parent and another name.
    pub fn moves(id: NodeId, parent: NodeId, name: NewName) -> Edit
        ensures { result ≡ plain (spec.Moves id.0 parent.0 name) }
    {
        Edit(Kind::Moves { id, parent, name })
    }

    /// Some fields of a node are set.
    pub fn sets(id: NodeId, settings: Settings) -> Edit
        ensures { result ≡ plain (spec.Sets id.0 settings) }
    {
        Edit(Kind::Sets { id, settings })
    }

    /// A node's modified date is set to a moment.
    pub fn dated(now: Moment, id: NodeId) -> Edit
        ensures { result ≡ plain (spec.dated now id.0) }
    {
        Edit::sets(id, Settings::dated(now))
    }

    /// A file is filed, or not.
    pub fn files(id: NodeId, filed: bool) -> Edit
        ensures { result ≡ plain (spec.Files id.0 filed) }
    {
        Edit(Kind::Files { id, filed })
    }

    /// A fork of a file gets the bytes of a write of it as it is, at a moment that is the file's modified date then.
    pub fn writes(now: Moment, id: NodeId, resource: bool, write: ForkWrite) -> Edit
        ensures edit { result.edit ≡ spec.Writes now id.0 resource write.after }
        ensures before { result.before ≡ write.before }
    {
        let write = DatedWrite {
            moment: now,
            id,
            resource,
            write,
        };
        Edit(Kind::Writes { write })
    }

    /// Two files exchange their forks and modified dates.
    pub fn exchanges(a: NodeId, b: NodeId) -> Edit
        ensures { result ≡ plain (spec.Exchanges a.0 b.0) }
    {
        Edit(Kind::Exchanges { a, b })
    }

    /// An icon is put under a key: creator, type, icon type. Of its bits the first 65,535 are kept.
    pub fn puts_icon(key: [u8; 9], tag: u32, bits: Bytes) -> Edit
        ensures { result ≡ plain (spec.PutsIcon (icon_under key tag bits)) }
    {
        Edit(Kind::PutsIcon { key, tag, bits })
    }

    /// The mapping of a creator and a file is put.
    pub fn puts_appl(creator: [u8; 4], node: NodeId, tag: u32) -> Edit
        ensures { result ≡ plain (spec.PutsAppl (record { creator = creator; node = node.0; tag = tag })) }
    {
        Edit(Kind::PutsAppl { creator, node, tag })
    }

    /// The mapping of a creator and a file is taken.
    pub fn takes_appl(creator: [u8; 4], node: NodeId) -> Edit
        ensures { result ≡ plain (spec.TakesAppl creator node.0) }
    {
        Edit(Kind::TakesAppl { creator, node })
    }

    /// The comment of a node is put, or taken where the text is empty.
    pub fn comments(node: NodeId, text: Bytes) -> Edit
        ensures { result ≡ plain (spec.Comments node.0 text) }
    {
        Edit(Kind::Comments { node, text })
    }

    /// The volume's backup date is set, in seconds since 2000-01-01 00:00 GMT.
    pub fn backs_up(date: i32) -> Edit
        ensures { result ≡ plain (spec.BacksUp date) }
    {
        Edit(Kind::BacksUp { date })
    }

    /// The write of a fork, where the edit is one.
    pub(crate) fn write(&self) -> Option<&DatedWrite>
        ensures { option_map write_value (option_copied result) ≡ write_of self.now }
    {
        match &self.0 {
            Kind::Writes { write } => Some(write),
            _ => None,
        }
    }
}
