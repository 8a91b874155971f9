//! The volume that rows say.
ghost use Rattle.std.specs.Prelude.{◌≡◌, ◌<◌, ◌++◌, ◌∷◌, [], List, None, false, flat_map, length, true, unwrap_or, IfOk, OnOk};
ghost use Rattle.std.specs.List.{list_all};
ghost use Rattle.afp_names.specs.Name.{name_fault};
ghost use Rattle.volume_spec.specs.Desktop.{has_no_appl_room, has_no_icon_room};
ghost use Rattle.volume_spec.specs.SoundVolume.{icon_key as icon_key_of};
ghost use Rattle.volume_spec.specs.VolumeState.{VolumeState, guest, new_privileges};
ghost use Rattle.volume_keeper_records.specs.declared.rows.TableRow.{TableRow};
ghost use Rattle.volume_keeper_records.specs.declared.rows.TableRow.TheVariants as row;
ghost use Rattle.volume_keeper_records.specs.Image.{rows_of, tables_of};
ghost use Rattle.volume_keeper_records.specs.Records.{version};
ghost use Rattle.volume_keeper.specs.loading.lemma.Rebuilt.{FitRows, FitsRow, HasApplRoom, HasIconRoom, HaveRoom, appls_with, comments_with, has_name, head_said, icons_with, nodes_said, with_all, with_block, with_blocks, without_desktop};
ghost use Rattle.volume_edits.specs.edits.lemma.Whole.{IsWhole};

use afp_base::laws::splice_puts_between;
use afp_base::{NodeId, OutOfMemory};
use afp_names::{Name, NameFault};
use desktop_db::{DeskFault, Desktop, icon_key};
use fork_bytes::laws::{blocks_are_bytes, blocks_of_bytes_are_kept};
use node_rows::Node as TreeNode;
use std::alloc::Global;
use volume_edits::WholeVolume;
use volume_keeper_records::laws::{records_are_images, tables_say_volumes};
use volume_keeper_records::{
    Appl, Comment, ForkBlock, Icon, Node, Privileges, TableRow, guest_privileges,
};
use volume_spec::desktop_laws::{desktops_keep_volumes_sound, icons_have_their_keys};
use volume_tree::{LoadedNode, Volume, VolumeHead};

const NO_HEAD: VolumeHead = VolumeHead {
    created: 0,
    modified: 0,
    backup: 0,
    next_id: 0,
};

/// The head that a row is.
fn head_of(row: &TableRow) -> VolumeHead
    ensures { result ≡ head_said row.now }
{
    match row {
        TableRow::Head(head) => VolumeHead {
            created: head.created,
            modified: head.modified,
            backup: head.backup,
            next_id: head.next_id,
        },
        TableRow::Node(_) => NO_HEAD,
        TableRow::Block(_) => NO_HEAD,
        TableRow::Comment(_) => NO_HEAD,
        TableRow::Icon(_) => NO_HEAD,
        TableRow::Appl(_) => NO_HEAD,
    }
}

/// The head, which is the first of rows.
fn head_in(rows: &[TableRow]) -> VolumeHead
    requires { 0 < length rows.now }
    ensures { (first : TableRow) (rest : List TableRow) → rows.now ≡ first ∷ rest → result ≡ head_said first }
{
    head_of(&rows[0])
}

/// Owner, group and rights of a node; where none are said, a directory is the guest's.
fn privileges_of(node: &Node) -> Privileges
    ensures { result ≡ unwrap_or node.now.privileges (new_privileges node.now.is_directory guest) }
{
    match &node.privileges {
        Some(privileges) => {
            let rights = privileges.rights;
            Privileges {
                owner: privileges.owner,
                group: privileges.group,
                rights,
            }
        }
        None => guest_privileges(node.is_directory),
    }
}

/// A node with the lengths of its forks.
fn loaded_of(alloc: Global, node: &Node) -> Result<LoadedNode, OutOfMemory>
    requires { name_fault node.now.name ≡ None }
    ensures { IfOk result (λ loaded. loaded ∷ [] ≡ nodes_said (row.Node node.now)) }
{
    let privileges = privileges_of(node);
    let rights = privileges.rights;
    match Name::new(alloc, node.name.as_slice()) {
        Ok(name) => Ok(LoadedNode {
            node: TreeNode {
                id: NodeId(node.id),
                parent: NodeId(node.parent),
                dir: node.is_directory,
                attributes: node.attributes,
                created: node.created,
                modified: node.modified,
                backup: node.backup,
                finder: node.finder,
                filed: node.is_filed,
                owner: privileges.owner,
                group: privileges.group,
                rights,
                name,
            },
            data_len: node.data_length,
            resource_len: node.resource_length,
        }),
        Err(fault) => match fault {
            NameFault::Memory => Err(OutOfMemory),
            _ => unreachable!(),
        },
    }
}

fn put_loaded(alloc: Global, nodes: &mut Vec<LoadedNode>, row: &TableRow) -> Result<(), OutOfMemory>
    requires { has_name row.now ≡ true }
    ensures { OnOk result (nodes.new.items ≡ nodes.old.items ++ nodes_said row.now) }
{
    match row {
        TableRow::Node(node) => {
            nodes.push(loaded_of(alloc, node)?)?;
            Ok(())
        }
        TableRow::Head(_) => Ok(()),
        TableRow::Block(_) => Ok(()),
        TableRow::Comment(_) => Ok(()),
        TableRow::Icon(_) => Ok(()),
        TableRow::Appl(_) => Ok(()),
    }
}

/// The nodes among rows, with the lengths of their forks.
fn all_loaded(alloc: Global, rows: &[TableRow]) -> Result<Vec<LoadedNode>, OutOfMemory>
    requires { list_all has_name rows.now ≡ true }
    ensures { IfOk result (λ nodes. nodes.items ≡ flat_map nodes_said rows.now) }
{
    let mut nodes = Vec::new(alloc);
    for row in rows {
        put_loaded(alloc, &mut nodes, row)?;
    }
    Ok(nodes)
}

/// Puts the block that a row is in its place.
fn fill_block(alloc: Global, volume: &mut Volume, block: &ForkBlock) -> Result<(), OutOfMemory>
    requires { FitsRow (row.Block block.now) volume.old.state }
    ensures { OnOk result (volume.new.state ≡ with_block (row.Block block.now) volume.old.state) }
{
    volume.fill(
        alloc,
        NodeId(block.node),
        block.is_resource,
        block.index,
        block.bytes.as_slice(),
    )
}

fn fill_row(alloc: Global, volume: &mut Volume, row: &TableRow) -> Result<(), OutOfMemory>
    requires { FitsRow row.now volume.old.state }
    ensures { OnOk result (volume.new.state ≡ with_block row.now volume.old.state) }
{
    match row {
        TableRow::Block(block) => fill_block(alloc, volume, block),
        TableRow::Head(_) => Ok(()),
        TableRow::Node(_) => Ok(()),
        TableRow::Comment(_) => Ok(()),
        TableRow::Icon(_) => Ok(()),
        TableRow::Appl(_) => Ok(()),
    }
}

/// Puts the blocks among rows in their places.
fn fill_all(alloc: Global, volume: &mut Volume, rows: &[TableRow]) -> Result<(), OutOfMemory>
    requires { FitRows rows.now volume.old.state }
    ensures { OnOk result (volume.new.state ≡ with_blocks rows.now volume.old.state) }
{
    for i in 0..rows.len() {
        fill_row(alloc, volume, &rows[i])?;
    }
    Ok(())
}

fn put_comment(desktop: &mut Desktop, comment: &Comment) -> Result<(), OutOfMemory>
    ensures comments { OnOk result (desktop.new.comments ≡ comments_with (row.Comment comment.now) desktop.old.comments) }
    ensures icons { desktop.new.icons ≡ desktop.old.icons }
    ensures appls { desktop.new.appls ≡ desktop.old.appls }
{
    desktop.put_comment(NodeId(comment.node), comment.text.copy()?)
}

fn put_icon(desktop: &mut Desktop, icon: &Icon) -> Result<(), OutOfMemory>
    requires { has_no_icon_room (icon_key_of icon.now) desktop.old.icons ≡ false }
    ensures icons { OnOk result (desktop.new.icons ≡ icons_with (row.Icon icon.now) desktop.old.icons) }
    ensures comments { desktop.new.comments ≡ desktop.old.comments }
    ensures appls { desktop.new.appls ≡ desktop.old.appls }
{
    let key = icon_key(icon.creator, icon.kind, icon.icon_kind);
    match desktop.put_icon(key, icon.tag, icon.bits.copy()?) {
        Ok(()) => Ok(()),
        Err(DeskFault::Full) => unreachable!(),
        Err(DeskFault::Memory) => Err(OutOfMemory),
    }
}

fn put_appl(desktop: &mut Desktop, appl: &Appl) -> Result<(), OutOfMemory>
    requires { has_no_appl_room appl.now.creator appl.now.node desktop.old.appls ≡ false }
    ensures appls { OnOk result (desktop.new.appls ≡ appls_with (row.Appl appl.now) desktop.old.appls) }
    ensures comments { desktop.new.comments ≡ desktop.old.comments }
    ensures icons { desktop.new.icons ≡ desktop.old.icons }
{
    match desktop.put_appl(appl.creator, NodeId(appl.node), appl.tag) {
        Ok(()) => Ok(()),
        Err(DeskFault::Full) => unreachable!(),
        Err(DeskFault::Memory) => Err(OutOfMemory),
    }
}

/// Puts what a row is into the desktop database, where it belongs there.
fn put_row(desktop: &mut Desktop, row: &TableRow) -> Result<(), OutOfMemory>
    requires icon { HasIconRoom row.now desktop.old.icons }
    requires appl { HasApplRoom row.now desktop.old.appls }
    ensures comments { OnOk result (desktop.new.comments ≡ comments_with row.now desktop.old.comments) }
    ensures icons { OnOk result (desktop.new.icons ≡ icons_with row.now desktop.old.icons) }
    ensures appls { OnOk result (desktop.new.appls ≡ appls_with row.now desktop.old.appls) }
{
    match row {
        TableRow::Comment(comment) => put_comment(desktop, comment),
        TableRow::Icon(icon) => put_icon(desktop, icon),
        TableRow::Appl(appl) => put_appl(desktop, appl),
        TableRow::Head(_) => Ok(()),
        TableRow::Node(_) => Ok(()),
        TableRow::Block(_) => Ok(()),
    }
}

/// Puts what rows are into the desktop database.
fn put_all(desktop: &mut Desktop, rows: &[TableRow]) -> Result<(), OutOfMemory>
    requires icons { HaveRoom HasIconRoom icons_with rows.now desktop.old.icons }
    requires appls { HaveRoom HasApplRoom appls_with rows.now desktop.old.appls }
    ensures comments { OnOk result (desktop.new.comments ≡ with_all comments_with rows.now desktop.old.comments) }
    ensures icons { OnOk result (desktop.new.icons ≡ with_all icons_with rows.now desktop.old.icons) }
    ensures appls { OnOk result (desktop.new.appls ≡ with_all appls_with rows.now desktop.old.appls) }
{
    for i in 0..rows.len() {
        put_row(desktop, &rows[i])?;
    }
    Ok(())
}

/// The tree that rows say.
fn tree_of(alloc: Global, rows: &[TableRow]) -> Result<Volume, OutOfMemory>
    requires { (v : VolumeState) × IsWhole v × (rows.now ≡ rows_of (tables_of version v)) }
    ensures { IfOk result (λ volume. (v : VolumeState) → IsWhole v → rows.now ≡ rows_of (tables_of version v) → volume.state ≡ without_desktop v) }
{
    tables_say_volumes();
    blocks_are_bytes();
    blocks_of_bytes_are_kept();
    splice_puts_between();
    records_are_images();
    let head = head_in(rows);
    let nodes = all_loaded(alloc, rows)?;
    let mut volume = Volume::restore(alloc, head, nodes)?;
    fill_all(alloc, &mut volume, rows)?;
    Ok(volume)
}

/// The desktop database that rows say.
fn desktop_of(alloc: Global, rows: &[TableRow]) -> Result<Desktop, OutOfMemory>
    requires { (v : VolumeState) × IsWhole v × (rows.now ≡ rows_of (tables_of version v)) }
    ensures comments { IfOk result (λ desktop. (v : VolumeState) → IsWhole v → rows.now ≡ rows_of (tables_of version v) → desktop.comments ≡ v.comments) }
    ensures icons { IfOk result (λ desktop. (v : VolumeState) → IsWhole v → rows.now ≡ rows_of (tables_of version v) → desktop.icons ≡ v.icons) }
    ensures appls { IfOk result (λ desktop. (v : VolumeState) → IsWhole v → rows.now ≡ rows_of (tables_of version v) → desktop.appls ≡ v.appls) }
{
    desktops_keep_volumes_sound();
    icons_have_their_keys();
    let mut desktop = Desktop::new(alloc);
    put_all(&mut desktop, rows)?;
    Ok(desktop)
}

/// The volume that these rows say, with its desktop database. The one error is want of memory.
pub(crate) fn whole_of(alloc: Global, rows: Vec<TableRow>) -> Result<WholeVolume, OutOfMemory>
    requires { (v : VolumeState) × IsWhole v × (rows.items ≡ rows_of (tables_of version v)) }
    ensures { IfOk result (λ whole. (v : VolumeState) → IsWhole v → rows.items ≡ rows_of (tables_of version v) → whole.state ≡ v) }
{
    let tree = tree_of(alloc, rows.as_slice())?;
    let desktop = desktop_of(alloc, rows.as_slice())?;
    Ok(WholeVolume { tree, desktop })
}
