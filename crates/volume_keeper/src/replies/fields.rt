//! What is told of files and directories alike, each where its bit is asked (AFP Reference, "File Bitmap", "Directory Bitmap").
ghost use Rattle.std.specs.Prelude.{◌≡◌, ◌<◌, [], pos, replicate, IfOk, length};
ghost use Rattle.afp_names.specs.LongName.{long_name_of};
ghost use Rattle.volume_spec.specs.Parms.{asked_or};

use crate::replies::asked::{date_or, finder_or, long_or};
use crate::replies::names::name_or;
use afp_base::{Bytes, OutOfMemory};
use afp_bitmap::is_asked;
use afp_names::long_name;
use node_rows::Node;
use std::alloc::Global;

pub(crate) fn parent_or(bits: u16, node: &Node) -> u32
    ensures { result ≡ asked_or bits 1 0 node.now.parent }
{
    long_or(bits, 1, node.parent.0)
}

pub(crate) fn created_or(bits: u16, node: &Node) -> i32
    ensures { result ≡ asked_or bits 2 (pos 0) node.now.created }
{
    date_or(bits, 2, node.created)
}

pub(crate) fn modified_or(bits: u16, node: &Node) -> i32
    ensures { result ≡ asked_or bits 3 (pos 0) node.now.modified }
{
    date_or(bits, 3, node.modified)
}

pub(crate) fn backup_or(bits: u16, node: &Node) -> i32
    ensures { result ≡ asked_or bits 4 (pos 0) node.now.backup }
{
    date_or(bits, 4, node.backup)
}

pub(crate) fn finder_info_or(bits: u16, node: &Node) -> [u8; 32]
    ensures { result ≡ asked_or bits 5 (replicate 32 0) node.now.finder }
{
    finder_or(bits, 5, node.finder)
}

/// The long name. Where the name is ASCII and short enough it is a copy of that.
pub(crate) fn long_name_or(alloc: Global, bits: u16, node: &Node) -> Result<Bytes, OutOfMemory>
    ensures name { IfOk result (λ bytes. bytes ≡ asked_or bits 6 [] (long_name_of node.now.name node.now.id)) }
    ensures short { IfOk result (λ bytes. length bytes < 256) }
{
    if is_asked(bits, 6) {
        long_name(alloc, &node.name, node.id)
    } else {
        Ok(Bytes::new(alloc))
    }
}

pub(crate) fn id_or(bits: u16, node: &Node) -> u32
    ensures { result ≡ asked_or bits 8 0 node.now.id }
{
    long_or(bits, 8, node.id.0)
}

pub(crate) fn utf8_name_or(alloc: Global, bits: u16, node: &Node) -> Result<Bytes, OutOfMemory>
    ensures name { IfOk result (λ bytes. bytes ≡ asked_or bits 13 [] node.now.name) }
    ensures short { IfOk result (λ bytes. length bytes < 256) }
{
    name_or(alloc, bits, 13, &node.name)
}
