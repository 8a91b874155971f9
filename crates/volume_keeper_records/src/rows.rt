//! What the records of a volume say.
use afp_base::Bytes;
use std::fmt;
use std::marker::Model;
use thiserror::Error;

/// The version of a volume's records, its dates, in seconds from 2000-01-01 00:00 GMT, and the next id that it draws (17 to 2^32, where the ids have ended).
#[derive(Drop)]
pub struct Head {
    pub version: u16,
    pub created: i32,
    pub modified: i32,
    pub backup: i32,
    pub next_id: u64,
}

/// Who owns a directory, its group, and the rights of everyone, of the group and of the owner; a file's are 0. Contracts see it as the
/// definition's.
#[derive(Drop)]
pub struct Privileges {
    pub owner: u32,
    pub group: u32,
    pub rights: [u8; 3],
}

impl Model for Privileges {
    ghost use Rattle.volume_spec.specs.VolumeState.{privileges_of};
    ghost use Rattle.volume_spec.specs.VolumeState.{Privileges as PrivilegesState};

    ghost Value = { PrivilegesState };

    ghost view = { λ a. privileges_of a.owner a.group a.rights };
}

/// A file or directory, with the lengths of its forks in bytes. Dates are seconds from 2000-01-01 00:00 GMT.
#[derive(Drop)]
pub struct Node {
    pub id: u32,
    pub is_directory: bool,
    pub parent: u32,
    pub attributes: u16,
    pub created: i32,
    pub modified: i32,
    pub backup: i32,
    pub finder: [u8; 32],
    pub is_filed: bool,
    pub data_length: u64,
    pub resource_length: u64,
    pub privileges: Option<Privileges>,
    pub name: Bytes,
}

/// A block of a file's fork: the fork, the index, counted in blocks from the fork's start, and the bytes without the zeros at their end.
#[derive(Drop)]
pub struct ForkBlock {
    pub node: u32,
    pub is_resource: bool,
    pub index: u32,
    pub bytes: Bytes,
}

/// The comment of a node, 1 to 199 bytes. Contracts see it as the definition's.
#[derive(Drop)]
pub struct Comment {
    pub node: u32,
    pub text: Bytes,
}

impl Model for Comment {
    ghost use Rattle.volume_spec.specs.VolumeState.{Comment as CommentState};

    ghost Value = { CommentState };

    ghost view = { λ a. record { node = a.node; text = a.text } };
}

/// An icon of the desktop database. Contracts see it as the definition's.
#[derive(Drop)]
pub struct Icon {
    pub creator: [u8; 4],
    pub kind: [u8; 4],
    pub icon_kind: u8,
    pub tag: u32,
    pub bits: Bytes,
}

impl Model for Icon {
    ghost use Rattle.volume_spec.specs.VolumeState.{Icon as IconState};

    ghost Value = { IconState };

    ghost view = { λ a. record { creator = a.creator; kind = a.kind; icon_kind = a.icon_kind; tag = a.tag; bits = a.bits } };
}

/// An APPL mapping of the desktop database. Contracts see it as the definition's.
#[derive(Drop)]
pub struct Appl {
    pub creator: [u8; 4],
    pub node: u32,
    pub tag: u32,
}

impl Model for Appl {
    ghost use Rattle.volume_spec.specs.VolumeState.{Appl as ApplState};

    ghost Value = { ApplState };

    ghost view = { λ a. record { creator = a.creator; node = a.node; tag = a.tag } };
}

/// What a record says.
#[derive(Drop)]
pub enum TableRow {
    Head(Head),
    Node(Node),
    Block(ForkBlock),
    Comment(Comment),
    Icon(Icon),
    Appl(Appl),
}

/// Why a record is refused: it is none of a volume's; its node or the way to the root is missing; another node has that place and name; an
/// id or a block lies outside; there is one too many.
#[derive(Clone, Copy, Debug, PartialEq, Eq)]
pub enum Reason {
    Shape,
    Parent,
    Twin,
    Range,
    Limit,
}

impl fmt::Display for Reason {
    fn fmt<W: fmt::Write>(&self, f: &mut fmt::Formatter<W>) -> fmt::Result {
        f.write_str(match self {
            Reason::Shape => "it is none of a volume's",
            Reason::Parent => "its node, or the way to the root, is missing",
            Reason::Twin => "another node has that place and name",
            Reason::Range => "an id or a block lies outside",
            Reason::Limit => "there is one too many",
        })
    }
}

/// The key of a record that is refused, and why.
#[derive(Debug, Drop, Error)]
#[error("the record with key {key} is refused: {reason}")]
pub struct BadRecord {
    pub key: Bytes,
    pub reason: Reason,
}
