//! One edit carried out on a tree and a desktop database. It takes no memory.
ghost use Rattle.std.specs.Prelude.{◌≡◌, ◌≤◌};
ghost use Rattle.volume_spec.specs.DesktopLaws.{with_desktop};
ghost use Rattle.volume_spec.specs.Edit.{edited};
ghost use Rattle.volume_spec.specs.EditLaws.{MayEdit};
ghost use Rattle.volume_edits.specs.edits.Planned.{StandsOn, takes};

use crate::edits::edit::{Edit, Kind};
use crate::edits::kinds::{
    backs_up, comes, comments, exchanges, files, goes, moves, puts_appl, puts_icon, renames, sets,
    takes_appl, writes,
};
use desktop_db::Desktop;
use std::alloc::Global;
use volume_tree::Volume;

/// Carries out one edit.
pub(crate) fn carry_out(tree: &mut Volume, desktop: &mut Desktop, alloc: Global, edit: Edit)
    requires may { MayEdit (with_desktop tree.old.state desktop.old.comments desktop.old.icons desktop.old.appls) edit.edit }
    requires before { StandsOn tree.old.state edit.edit edit.before }
    requires tree_room { takes edit.edit ≤ tree.old.spare }
    requires desktop_room { takes edit.edit ≤ desktop.old.spare }
    ensures state { with_desktop tree.new.state desktop.new.comments desktop.new.icons desktop.new.appls ≡ edited (with_desktop tree.old.state desktop.old.comments desktop.old.icons desktop.old.appls) edit.edit }
    ensures tree_spare { takes edit.edit ≡ 0 → tree.old.spare ≤ tree.new.spare }
    ensures desktop_spare { takes edit.edit ≡ 0 → desktop.old.spare ≤ desktop.new.spare }
{
    match edit.0 {
        Kind::Comes { new } => comes(tree, desktop, new),
        Kind::Goes { id } => goes(tree, desktop, id),
        Kind::Renames { id, name } => renames(tree, desktop, id, name),
        Kind::Moves { id, parent, name } => moves(tree, desktop, id, parent, name),
        Kind::Sets { id, settings } => sets(tree, desktop, id, settings),
        Kind::Files { id, filed } => files(tree, desktop, id, filed),
        Kind::Writes { write } => writes(tree, desktop, alloc, write),
        Kind::Exchanges { a, b } => exchanges(tree, desktop, a, b),
        Kind::PutsIcon { key, tag, bits } => puts_icon(tree, desktop, key, tag, bits),
        Kind::PutsAppl { creator, node, tag } => puts_appl(tree, desktop, creator, node, tag),
        Kind::TakesAppl { creator, node } => takes_appl(tree, desktop, creator, node),
        Kind::Comments { node, text } => comments(tree, desktop, node, text),
        Kind::BacksUp { date } => backs_up(tree, desktop, date),
    }
}
