//! What is told of a directory.
ghost use Rattle.std.specs.Prelude.{◌≡◌, ◌++◌, ◌<◌, true, IfOk, OnOk, OnErr, length, min};
ghost use Rattle.afp_bitmap.specs.Bits.{IsWithin, dir_mask};
ghost use Rattle.afp_bitmap.specs.Params.{params};
ghost use Rattle.afp_bitmap.specs.declared.params.Values.TheVariants as told;
ghost use Rattle.volume_spec.specs.Listing.{children};
ghost use Rattle.volume_spec.specs.NodeValues.{most_offspring, dir_values, own_rights, told_rights};
ghost use Rattle.volume_spec.specs.Parms.{asked_or};
ghost use Rattle.volume_spec.specs.SoundVolume.{has_fit_privileges};

use crate::replies::asked::{long_or, short_or};
use crate::replies::fields::{
    backup_or, created_or, finder_info_or, id_or, long_name_or, modified_or, parent_or,
    utf8_name_or,
};
use afp_base::{Bytes, NodeId, OutOfMemory};
use afp_bitmap::{DirValues, Values, is_asked, put_params};
use node_rows::Node;
use std::alloc::Global;
use volume_tree::{Volume, rights_of};

/// How many children are told of a directory at most (AFP Reference, "Directory Bitmap").
const MOST_OFFSPRING: usize = 65_535;

/// The bit of the owner in a user's own rights (AFP Reference, "Access rights").
const OWNER_BIT: u8 = 0x80;

/// How many children are told of a directory.
fn offspring(volume: &Volume, dir: NodeId) -> u16
    ensures { result ≡ min most_offspring (length (children volume.now.state.rows dir.0)) }
{
    volume.child_count(dir).min(MOST_OFFSPRING) as u16
}

/// How many children are told of a directory, where that is asked.
fn offspring_or(bits: u16, volume: &Volume, node: &Node) -> u16
    ensures { result ≡ asked_or bits 9 0 (min most_offspring (length (children volume.now.state.rows node.now.id))) }
{
    if is_asked(bits, 9) {
        offspring(volume, node.id)
    } else {
        0
    }
}

/// The rights that a user is told to have of a directory: the user's own, with the bit of the owner.
fn own_rights(node: &Node, user: u32) -> u8
    requires { has_fit_privileges true node.now.privileges ≡ true }
    ensures { result ≡ own_rights node.now.privileges user }
{
    let own = rights_of(node, user);
    if node.owner == user {
        own + OWNER_BIT
    } else {
        own
    }
}

/// The access rights of a directory as a user is told them: the user's own, then those of everyone, of the group and of the owner.
#[tactic(auto, unfolding(volume_spec::specs::NodeValues::told_rights))]
fn told_rights(node: &Node, user: u32) -> u32
    requires { has_fit_privileges true node.now.privileges ≡ true }
    ensures { result ≡ told_rights node.now.privileges user }
{
    u32::from_be_bytes([
        own_rights(node, user),
        node.rights[0],
        node.rights[1],
        node.rights[2],
    ])
}

/// The attributes of a directory, where they are asked.
fn attributes_or(bits: u16, node: &Node) -> u16
    ensures { result ≡ asked_or bits 0 0 node.now.attributes }
{
    short_or(bits, 0, node.attributes)
}

/// What a user is told of a directory: each value whose bit is asked.
#[tactic(auto, unfolding(volume_spec::specs::NodeValues::dir_values))]
fn dir_values(
    alloc: Global,
    volume: &Volume,
    user: u32,
    node: &Node,
    bits: u16,
) -> Result<DirValues, OutOfMemory>
    requires { has_fit_privileges true node.now.privileges ≡ true }
    ensures values { IfOk result (λ values. values ≡ dir_values volume.now.state.rows user bits node.now) }
    ensures long_name { IfOk result (λ values. length values.long_name < 256) }
    ensures utf8_name { IfOk result (λ values. length values.utf8_name < 256) }
{
    let long_name = long_name_or(alloc, bits, node)?;
    let utf8_name = utf8_name_or(alloc, bits, node)?;
    Ok(DirValues {
        attributes: attributes_or(bits, node),
        parent: parent_or(bits, node),
        created: created_or(bits, node),
        modified: modified_or(bits, node),
        backup: backup_or(bits, node),
        finder: finder_info_or(bits, node),
        long_name,
        id: id_or(bits, node),
        offspring: offspring_or(bits, volume, node),
        owner: long_or(bits, 10, node.owner),
        group: long_or(bits, 11, node.group),
        rights: long_or(bits, 12, told_rights(node, user)),
        utf8_name,
    })
}

/// Appends the parameters of a directory as a user is told them. An error changes nothing.
pub(crate) fn put_dir(
    alloc: Global,
    volume: &Volume,
    user: u32,
    node: &Node,
    bits: u16,
    out: &mut Bytes,
) -> Result<(), OutOfMemory>
    requires bits { IsWithin dir_mask bits }
    requires privileges { has_fit_privileges true node.now.privileges ≡ true }
    ensures ok { OnOk result (out.new ≡ out.old ++ params bits (told.Dir (dir_values volume.now.state.rows user bits node.now))) }
    ensures err { OnErr result (out.new ≡ out.old) }
{
    let values = dir_values(alloc, volume, user, node, bits)?;
    put_params(bits, &Values::Dir(values), out)
}
