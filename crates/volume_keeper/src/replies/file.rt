//! What is told of a file.
ghost use Rattle.std.specs.Prelude.{◌≡◌, ◌++◌, ◌<◌, ◌^◌, ◌||◌, Bool, List, true, IfOk, OnOk, OnErr, length, nat_lt, if◌then◌else◌};
ghost use Rattle.std.specs.Option.{option_copied};
ghost use Rattle.afp_bitmap.specs.Bits.{IsWithin, file_mask, is_asked};
ghost use Rattle.afp_bitmap.specs.Params.{params};
ghost use Rattle.afp_bitmap.specs.declared.params.Values.TheVariants as told;
ghost use Rattle.volume_spec.specs.NodeValues.{has_open_fork, told_attributes, file_values};
ghost use Rattle.volume_spec.specs.Parms.{asked_or};
ghost use Rattle.volume_spec.specs.Shared.{Opened};
ghost use Rattle.volume_keeper.specs.replies.lemma.Told.{bytes_in, whole, with_these};
ghost use Rattle.volume_tree.specs.Shown.{IsNode, opened};

use crate::replies::fields::{
    backup_or, created_or, finder_info_or, id_or, long_name_or, modified_or, parent_or,
    utf8_name_or,
};
use afp_base::{Bytes, NodeId, OutOfMemory};
use afp_bitmap::{FileValues, Values, is_asked, put_params};
use deny_modes::VolumeOpens;
use node_rows::Node;
use std::alloc::Global;
use volume_tree::{FileForks, Volume};

/// The attributes that tell of open forks (AFP Reference, "File attributes").
const DATA_FORK_OPEN: u16 = 0x0008;

const RESOURCE_FORK_OPEN: u16 = 0x0010;

/// Whether this fork of a node is open.
fn is_open(opens: &VolumeOpens<'_>, id: NodeId, resource: bool) -> bool
    ensures { result ≡ has_open_fork (opened opens.now) id.0 resource }
{
    opens.has_fork(id, resource)
}

fn attribute_if(is: bool, attribute: u16) -> u16
    ensures { result ≡ (if is then attribute else 0) }
{
    if is { attribute } else { 0 }
}

/// The attributes of a file: those that are set, and whether its forks are open.
#[tactic(auto, unfolding(volume_spec::specs::NodeValues::told_attributes))]
fn told_attributes(opens: &VolumeOpens<'_>, node: &Node) -> u16
    ensures { result ≡ told_attributes (opened opens.now) node.now }
{
    let data_fork = attribute_if(is_open(opens, node.id, false), DATA_FORK_OPEN);
    let resource_fork = attribute_if(is_open(opens, node.id, true), RESOURCE_FORK_OPEN);
    node.attributes | (data_fork | resource_fork)
}

/// The attributes of a file, where they are asked.
fn attributes_or(bits: u16, opens: &VolumeOpens<'_>, node: &Node) -> u16
    ensures { result ≡ asked_or bits 0 0 (told_attributes (opened opens.now) node.now) }
{
    if is_asked(bits, 0) {
        told_attributes(opens, node)
    } else {
        0
    }
}

/// Whether the length of a fork is asked.
fn asks_length(bits: u16) -> bool
    ensures { result ≡ (is_asked bits 9 || is_asked bits 10) || (is_asked bits 11 || is_asked bits 14) }
{
    (is_asked(bits, 9) || is_asked(bits, 10)) || (is_asked(bits, 11) || is_asked(bits, 14))
}

/// The forks of a file whose lengths are told, found by one look-up, where any is asked.
fn asked_forks<'a>(volume: &'a Volume, node: &Node, bits: u16) -> Option<&'a FileForks>
    requires { IsNode volume.now.state.rows node.now }
    ensures small { (resource : Bool) → length (bytes_in (option_copied result) resource) < 2 ^ 32 }
    ensures values { (opens : List Opened) → file_values opens bits (with_these (option_copied result) node.now) ≡ file_values opens bits (whole volume.now.state.rows node.now) }
{
    volume.keeps_sound();
    if asks_length(bits) {
        volume.forks(node)
    } else {
        None
    }
}

/// How many bytes a fork of a file has.
fn fork_length(forks: Option<&FileForks>, resource: bool) -> u32
    requires { length (bytes_in (option_copied forks) resource) < 2 ^ 32 }
    ensures { result ≡ length (bytes_in (option_copied forks.entry) resource) }
{
    match forks {
        Some(forks) => forks.fork(resource).len() as u32,
        None => 0,
    }
}

/// How many bytes a fork of a file has, where that is asked.
fn length_or(bits: u16, bit: u32, forks: Option<&FileForks>, resource: bool) -> u32
    requires bit { nat_lt bit 16 ≡ true }
    requires small { length (bytes_in (option_copied forks) resource) < 2 ^ 32 }
    ensures { result ≡ asked_or bits bit 0 (length (bytes_in (option_copied forks.entry) resource)) }
{
    if is_asked(bits, bit) {
        fork_length(forks, resource)
    } else {
        0
    }
}

/// What is told of a file: each value whose bit is asked.
#[tactic(auto, unfolding(volume_spec::specs::NodeValues::file_values))]
fn file_values(
    alloc: Global,
    forks: Option<&FileForks>,
    opens: &VolumeOpens<'_>,
    node: &Node,
    bits: u16,
) -> Result<FileValues, OutOfMemory>
    requires { (resource : Bool) → length (bytes_in (option_copied forks) resource) < 2 ^ 32 }
    ensures values { IfOk result (λ values. values ≡ file_values (opened opens.now) bits (with_these (option_copied forks.entry) node.now)) }
    ensures long_name { IfOk result (λ values. length values.long_name < 256) }
    ensures utf8_name { IfOk result (λ values. length values.utf8_name < 256) }
{
    let long_name = long_name_or(alloc, bits, node)?;
    let utf8_name = utf8_name_or(alloc, bits, node)?;
    Ok(FileValues {
        attributes: attributes_or(bits, opens, node),
        parent: parent_or(bits, node),
        created: created_or(bits, node),
        modified: modified_or(bits, node),
        backup: backup_or(bits, node),
        finder: finder_info_or(bits, node),
        long_name,
        id: id_or(bits, node),
        data_length: length_or(bits, 9, forks, false),
        resource_length: length_or(bits, 10, forks, true),
        ext_data_length: u64::from(length_or(bits, 11, forks, false)),
        utf8_name,
        ext_resource_length: u64::from(length_or(bits, 14, forks, true)),
    })
}

/// Appends the parameters of a file. An error changes nothing.
pub(crate) fn put_file(
    alloc: Global,
    volume: &Volume,
    opens: &VolumeOpens<'_>,
    node: &Node,
    bits: u16,
    out: &mut Bytes,
) -> Result<(), OutOfMemory>
    requires bits { IsWithin file_mask bits }
    requires node { IsNode volume.now.state.rows node.now }
    ensures ok { OnOk result (out.new ≡ out.old ++ params bits (told.File (file_values (opened opens.now) bits (whole volume.now.state.rows node.now)))) }
    ensures err { OnErr result (out.new ≡ out.old) }
{
    let forks = asked_forks(volume, node, bits);
    let values = file_values(alloc, forks, opens, node, bits)?;
    put_params(bits, &Values::File(values), out)
}
