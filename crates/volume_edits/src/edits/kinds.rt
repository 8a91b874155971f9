//! The kinds of edits, each carried out on a tree and a desktop database. None of these takes memory.
ghost use Rattle.std.specs.Prelude.{◌≡◌, ◌≤◌, true, Some, length};
ghost use Rattle.volume_spec.specs.Desktop.{icon_under};
ghost use Rattle.volume_spec.specs.DesktopLaws.{with_desktop};
ghost use Rattle.volume_spec.specs.Edit as spec;
ghost use Rattle.volume_spec.specs.EditLaws.{MayCome, MayExchange, MayGo, MayMove, MayPutAppl, MayPutIcon, MayRename, MayWrite};
ghost use Rattle.volume_spec.specs.SetFileDirParms.{are_fit_settings};
ghost use Rattle.volume_spec.specs.SoundVolume.{has_file};
ghost use Rattle.volume_tree.specs.Shown.{fork_at};

use crate::edits::edit::DatedWrite;
use afp_base::{Bytes, NodeId};
use desktop_db::Desktop;
use std::alloc::Global;
use volume_tree::{NewName, NodeWithForks, Settings, Volume};

/// A key of an icon has nine bytes. The call does nothing.
pub(crate) fn nine_bytes(key: &[u8; 9])
    ensures { length key.now ≡ 9 }
{}

/// A node comes with its forks, and draws the next id.
pub(crate) fn comes(tree: &mut Volume, desktop: &Desktop, new: NodeWithForks)
    requires may { MayCome (with_desktop tree.old.state desktop.now.comments desktop.now.icons desktop.now.appls) new }
    requires room { 1 ≤ tree.old.spare }
    ensures { with_desktop tree.new.state desktop.now.comments desktop.now.icons desktop.now.appls ≡ spec.edited (with_desktop tree.old.state desktop.now.comments desktop.now.icons desktop.now.appls) (spec.Comes new) }
{
    tree.insert_node(new);
}

/// A node goes, with its forks, its comment and its mappings.
pub(crate) fn goes(tree: &mut Volume, desktop: &mut Desktop, id: NodeId)
    requires { MayGo (with_desktop tree.old.state desktop.old.comments desktop.old.icons desktop.old.appls) id.0 }
    ensures state { with_desktop tree.new.state desktop.new.comments desktop.new.icons desktop.new.appls ≡ spec.edited (with_desktop tree.old.state desktop.old.comments desktop.old.icons desktop.old.appls) (spec.Goes id.0) }
    ensures tree_spare { tree.old.spare ≤ tree.new.spare }
    ensures desktop_spare { desktop.old.spare ≤ desktop.new.spare }
{
    tree.remove_node(id);
    desktop.forget(id);
}

/// A node gets another name.
pub(crate) fn renames(tree: &mut Volume, desktop: &Desktop, id: NodeId, name: NewName)
    requires { MayRename (with_desktop tree.old.state desktop.now.comments desktop.now.icons desktop.now.appls) id.0 name }
    ensures state { with_desktop tree.new.state desktop.now.comments desktop.now.icons desktop.now.appls ≡ spec.edited (with_desktop tree.old.state desktop.now.comments desktop.now.icons desktop.now.appls) (spec.Renames id.0 name) }
    ensures spare { tree.old.spare ≤ tree.new.spare }
{
    tree.rename_node(id, name);
}

/// A node gets another parent and another name.
pub(crate) fn moves(tree: &mut Volume, desktop: &Desktop, id: NodeId, parent: NodeId, name: NewName)
    requires { MayMove (with_desktop tree.old.state desktop.now.comments desktop.now.icons desktop.now.appls) id.0 parent.0 name }
    ensures state { with_desktop tree.new.state desktop.now.comments desktop.now.icons desktop.now.appls ≡ spec.edited (with_desktop tree.old.state desktop.now.comments desktop.now.icons desktop.now.appls) (spec.Moves id.0 parent.0 name) }
    ensures spare { tree.old.spare ≤ tree.new.spare }
{
    tree.move_node(id, parent, name);
}

/// Some fields of a node are set.
pub(crate) fn sets(tree: &mut Volume, desktop: &Desktop, id: NodeId, settings: Settings)
    requires { are_fit_settings settings ≡ true }
    ensures state { with_desktop tree.new.state desktop.now.comments desktop.now.icons desktop.now.appls ≡ spec.edited (with_desktop tree.old.state desktop.now.comments desktop.now.icons desktop.now.appls) (spec.Sets id.0 settings) }
    ensures spare { tree.old.spare ≤ tree.new.spare }
{
    tree.set_node(id, &settings);
}

/// A file is filed, or not.
pub(crate) fn files(tree: &mut Volume, desktop: &Desktop, id: NodeId, filed: bool)
    requires { has_file tree.old.state.rows id.0 ≡ true }
    ensures state { with_desktop tree.new.state desktop.now.comments desktop.now.icons desktop.now.appls ≡ spec.edited (with_desktop tree.old.state desktop.now.comments desktop.now.icons desktop.now.appls) (spec.Files id.0 filed) }
    ensures spare { tree.old.spare ≤ tree.new.spare }
{
    tree.file_node(id, filed);
}

/// A fork of a file gets the bytes of a write of it as it is.
pub(crate) fn writes(tree: &mut Volume, desktop: &Desktop, alloc: Global, write: DatedWrite)
    requires may { MayWrite (with_desktop tree.old.state desktop.now.comments desktop.now.icons desktop.now.appls) write.id.0 write.resource write.write.after }
    requires before { fork_at tree.old.state.rows write.id.0 write.resource ≡ Some write.write.before }
    ensures state { with_desktop tree.new.state desktop.now.comments desktop.now.icons desktop.now.appls ≡ spec.edited (with_desktop tree.old.state desktop.now.comments desktop.now.icons desktop.now.appls) (spec.Writes write.moment write.id.0 write.resource write.write.after) }
    ensures spare { tree.old.spare ≤ tree.new.spare }
{
    let DatedWrite {
        moment,
        id,
        resource,
        write,
    } = write;
    tree.write_fork(alloc, moment, id, resource, write);
}

/// Two files exchange their forks and modified dates.
pub(crate) fn exchanges(tree: &mut Volume, desktop: &Desktop, a: NodeId, b: NodeId)
    requires { MayExchange (with_desktop tree.old.state desktop.now.comments desktop.now.icons desktop.now.appls) a.0 b.0 }
    ensures state { with_desktop tree.new.state desktop.now.comments desktop.now.icons desktop.now.appls ≡ spec.edited (with_desktop tree.old.state desktop.now.comments desktop.now.icons desktop.now.appls) (spec.Exchanges a.0 b.0) }
    ensures spare { tree.old.spare ≤ tree.new.spare }
{
    tree.exchange_forks(a, b);
}

/// An icon is put under a key.
pub(crate) fn puts_icon(tree: &Volume, desktop: &mut Desktop, key: [u8; 9], tag: u32, bits: Bytes)
    requires may { MayPutIcon (with_desktop tree.now.state desktop.old.comments desktop.old.icons desktop.old.appls) (icon_under key tag bits) }
    requires room { 1 ≤ desktop.old.spare }
    ensures { with_desktop tree.now.state desktop.new.comments desktop.new.icons desktop.new.appls ≡ spec.edited (with_desktop tree.now.state desktop.old.comments desktop.old.icons desktop.old.appls) (spec.PutsIcon (icon_under key tag bits)) }
{
    nine_bytes(&key);
    let _put = desktop.put_icon(key, tag, bits);
}

/// The mapping of a creator and a file is put.
pub(crate) fn puts_appl(
    tree: &Volume,
    desktop: &mut Desktop,
    creator: [u8; 4],
    node: NodeId,
    tag: u32,
)
    requires may { MayPutAppl (with_desktop tree.now.state desktop.old.comments desktop.old.icons desktop.old.appls) (record { creator = creator; node = node.0; tag = tag }) }
    requires room { 1 ≤ desktop.old.spare }
    ensures { with_desktop tree.now.state desktop.new.comments desktop.new.icons desktop.new.appls ≡ spec.edited (with_desktop tree.now.state desktop.old.comments desktop.old.icons desktop.old.appls) (spec.PutsAppl (record { creator = creator; node = node.0; tag = tag })) }
{
    let _put = desktop.put_appl(creator, node, tag);
}

/// The mapping of a creator and a file is taken.
pub(crate) fn takes_appl(tree: &Volume, desktop: &mut Desktop, creator: [u8; 4], node: NodeId)
    ensures state { with_desktop tree.now.state desktop.new.comments desktop.new.icons desktop.new.appls ≡ spec.edited (with_desktop tree.now.state desktop.old.comments desktop.old.icons desktop.old.appls) (spec.TakesAppl creator node.0) }
    ensures spare { desktop.old.spare ≤ desktop.new.spare }
{
    let _taken = desktop.take_appl(&creator, node);
}

/// The comment of a node is put, or taken where the text is empty.
pub(crate) fn comments(tree: &Volume, desktop: &mut Desktop, node: NodeId, text: Bytes)
    requires { 1 ≤ desktop.old.spare }
    ensures { with_desktop tree.now.state desktop.new.comments desktop.new.icons desktop.new.appls ≡ spec.edited (with_desktop tree.now.state desktop.old.comments desktop.old.icons desktop.old.appls) (spec.Comments node.0 text) }
{
    let _put = desktop.put_comment(node, text);
}

/// The volume's backup date is set.
pub(crate) fn backs_up(tree: &mut Volume, desktop: &Desktop, date: i32)
    ensures state { with_desktop tree.new.state desktop.now.comments desktop.now.icons desktop.now.appls ≡ spec.edited (with_desktop tree.old.state desktop.now.comments desktop.now.icons desktop.now.appls) (spec.BacksUp date) }
    ensures spare { tree.new.spare ≡ tree.old.spare }
{
    tree.set_backup(date);
}
