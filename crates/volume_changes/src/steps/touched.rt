//! What a plan touches, in the order of its keys. The one error is want of memory.
ghost use Rattle.std.specs.Prelude.{◌≡◌, ◌≤◌, ◌++◌, ◌∷◌, [], length, take, true, Some, option_map, IfOk, OnOk};
ghost use Rattle.afp_base.specs.declared.ids.NodeId.{NodeId as Id};
ghost use Rattle.volume_spec.specs.EditLaws.{MayEditAll};
ghost use Rattle.volume_spec.specs.Order.{rises};
ghost use Rattle.volume_changes.specs.records.EditTouches.{all_touched};
ghost use Rattle.volume_changes.specs.records.Touched.{IsWithin};
ghost use Rattle.volume_changes.specs.records.TouchedOrder.{AreRising};
ghost use Rattle.volume_edits.specs.edits.Changed.{icon_changed};
ghost use Rattle.volume_edits.specs.edits.Planned.{edits_of};
ghost use Rattle.volume_spec.specs.Edit.{after_call};
ghost use Rattle.volume_changes.specs.steps.lemma.Put.{IsWith, fork_key, icon_key, id_key, mapping_key, one_of};
ghost use Rattle.volume_changes.specs.steps.lemma.Touching.{all_appls_in, appls_in, mapping_of, mappings_gone, mappings_to, place_in, places_in};

use crate::records::laws::edits_touch_their_own;
use crate::records::{ForkPlace, Mapping, Touched};
use crate::steps::put::{put_fork, put_id, put_key, put_mapping};
use afp_base::{NodeId, OutOfMemory};
use desktop_db::Appl;
use std::alloc::Global;
use volume_edits::{Edit, Plan, WholeVolume};
use volume_spec::desktop_laws::what_was_put_is_found;

/// Puts a node, where there is one.
fn put_node(ids: &mut Vec<u32>, node: Option<NodeId>) -> Result<(), OutOfMemory>
    requires { rises id_key ids.old.items ≡ true }
    ensures { OnOk result (IsWith id_key (one_of (option_map (λ (n : Id). n.0) node)) ids.old.items ids.new.items) }
{
    match node {
        Some(node) => put_id(ids, node.0),
        None => Ok(()),
    }
}

/// Puts both, the first first.
fn put_nodes(
    ids: &mut Vec<u32>,
    first: Option<NodeId>,
    second: Option<NodeId>,
) -> Result<(), OutOfMemory>
    requires { rises id_key ids.old.items ≡ true }
    ensures { OnOk result (IsWith id_key (one_of (option_map (λ (n : Id). n.0) first) ++ one_of (option_map (λ (n : Id). n.0) second)) ids.old.items ids.new.items) }
{
    let Ok(()) = put_node(ids, first) else {
        return Err(OutOfMemory);
    };
    put_node(ids, second)
}

/// Puts the one fork of a node, where an edit changes it.
fn put_place(
    forks: &mut Vec<ForkPlace>,
    edit: &Edit,
    node: NodeId,
    resource: bool,
) -> Result<(), OutOfMemory>
    requires { rises fork_key forks.old.items ≡ true }
    ensures { OnOk result (IsWith fork_key (place_in edit.now.edit resource node.0) forks.old.items forks.new.items) }
{
    if edit.fork_changed(resource) {
        let fork = ForkPlace {
            node: node.0,
            resource,
        };
        put_fork(forks, fork)
    } else {
        Ok(())
    }
}

/// Puts both forks of a node, as far as an edit changes them.
fn put_both(forks: &mut Vec<ForkPlace>, edit: &Edit, node: NodeId) -> Result<(), OutOfMemory>
    requires { rises fork_key forks.old.items ≡ true }
    ensures { OnOk result (IsWith fork_key (places_in edit.now.edit (Some node.0)) forks.old.items forks.new.items) }
{
    let Ok(()) = put_place(forks, edit, node, false) else {
        return Err(OutOfMemory);
    };
    put_place(forks, edit, node, true)
}

/// Puts them, where there is a node.
fn put_places(
    forks: &mut Vec<ForkPlace>,
    edit: &Edit,
    node: Option<NodeId>,
) -> Result<(), OutOfMemory>
    requires { rises fork_key forks.old.items ≡ true }
    ensures { OnOk result (IsWith fork_key (places_in edit.now.edit (option_map (λ (n : Id). n.0) node)) forks.old.items forks.new.items) }
{
    match node {
        Some(node) => put_both(forks, edit, node),
        None => Ok(()),
    }
}

/// Puts those of the first node and of the second.
fn put_forks(
    forks: &mut Vec<ForkPlace>,
    edit: &Edit,
    first: Option<NodeId>,
    second: Option<NodeId>,
) -> Result<(), OutOfMemory>
    requires { rises fork_key forks.old.items ≡ true }
    ensures { OnOk result (IsWith fork_key (places_in edit.now.edit (option_map (λ (n : Id). n.0) first) ++ places_in edit.now.edit (option_map (λ (n : Id). n.0) second)) forks.old.items forks.new.items) }
{
    let Ok(()) = put_places(forks, edit, first) else {
        return Err(OutOfMemory);
    };
    put_places(forks, edit, second)
}

/// Puts the key of the icon that an edit changes, where it changes one.
fn put_icon(keys: &mut Vec<[u8; 9]>, edit: &Edit) -> Result<(), OutOfMemory>
    requires { rises icon_key keys.old.items ≡ true }
    ensures { OnOk result (IsWith icon_key (one_of (icon_changed edit.now.edit)) keys.old.items keys.new.items) }
{
    match edit.icon_changed() {
        Some(key) => put_key(keys, key),
        None => Ok(()),
    }
}

/// Puts the mapping of a creator and a file, where there is one.
fn put_pair(mappings: &mut Vec<Mapping>, pair: Option<([u8; 4], u32)>) -> Result<(), OutOfMemory>
    requires { rises mapping_key mappings.old.items ≡ true }
    ensures { OnOk result (IsWith mapping_key (one_of (option_map mapping_of pair)) mappings.old.items mappings.new.items) }
{
    match pair {
        Some(pair) => {
            let creator = pair.0;
            let mapping = Mapping {
                creator,
                node: pair.1,
            };
            put_mapping(mappings, mapping)
        }
        None => Ok(()),
    }
}

/// Puts a mapping of a volume, where it is to a node.
fn put_if_to(mappings: &mut Vec<Mapping>, appl: &Appl, node: NodeId) -> Result<(), OutOfMemory>
    requires { rises mapping_key mappings.old.items ≡ true }
    ensures { OnOk result (IsWith mapping_key (mappings_to node.0 (appl.now ∷ [])) mappings.old.items mappings.new.items) }
{
    if appl.node().0 == node.0 {
        let creator = appl.creator();
        let mapping = Mapping {
            creator,
            node: node.0,
        };
        put_mapping(mappings, mapping)
    } else {
        Ok(())
    }
}

/// Puts all mappings of a volume to a node.
fn put_all_to(mappings: &mut Vec<Mapping>, appls: &[Appl], node: NodeId) -> Result<(), OutOfMemory>
    requires { rises mapping_key mappings.old.items ≡ true }
    ensures { OnOk result (IsWith mapping_key (mappings_to node.0 appls.now) mappings.old.items mappings.new.items) }
{
    for i in 0..appls.len() {
        let Ok(()) = put_if_to(mappings, &appls[i], node) else {
            return Err(OutOfMemory);
        };
    }
    Ok(())
}

/// Puts them, where a node goes.
fn put_gone(
    mappings: &mut Vec<Mapping>,
    appls: &[Appl],
    node: Option<NodeId>,
) -> Result<(), OutOfMemory>
    requires { rises mapping_key mappings.old.items ≡ true }
    ensures { OnOk result (IsWith mapping_key (mappings_gone (option_map (λ (n : Id). n.0) node) appls.now) mappings.old.items mappings.new.items) }
{
    match node {
        Some(node) => put_all_to(mappings, appls, node),
        None => Ok(()),
    }
}

/// Puts the mapping that an edit changes, and those of a volume to the node that goes.
fn put_appls(mappings: &mut Vec<Mapping>, appls: &[Appl], edit: &Edit) -> Result<(), OutOfMemory>
    requires { rises mapping_key mappings.old.items ≡ true }
    ensures { OnOk result (IsWith mapping_key (appls_in edit.now.edit appls.now) mappings.old.items mappings.new.items) }
{
    let Ok(()) = put_pair(mappings, edit.appl_changed()) else {
        return Err(OutOfMemory);
    };
    put_gone(mappings, appls, edit.node_gone())
}

/// The nodes that so many edits touch.
fn nodes_touched(
    alloc: Global,
    whole: &WholeVolume,
    edits: &[Edit],
    count: usize,
) -> Result<Vec<u32>, OutOfMemory>
    requires within { count ≤ length edits.now }
    requires may { MayEditAll whole.now.state (edits_of (take count edits.now)) }
    ensures { IfOk result (λ ids. IsWith id_key (all_touched whole.now.state (edits_of (take count edits.now))).nodes [] ids.items) }
{
    if count == 0 {
        return Ok(Vec::new(alloc));
    }
    let edit = &edits[count - 1];
    let next = whole.next_behind(edits, count - 1);
    let mut ids = nodes_touched(alloc, whole, edits, count - 1)?;
    put_nodes(&mut ids, edit.node_changed(next), edit.other_changed())?;
    Ok(ids)
}

/// The forks that so many edits touch.
fn forks_touched(
    alloc: Global,
    whole: &WholeVolume,
    edits: &[Edit],
    count: usize,
) -> Result<Vec<ForkPlace>, OutOfMemory>
    requires within { count ≤ length edits.now }
    requires may { MayEditAll whole.now.state (edits_of (take count edits.now)) }
    ensures { IfOk result (λ forks. IsWith fork_key (all_touched whole.now.state (edits_of (take count edits.now))).forks [] forks.items) }
{
    if count == 0 {
        return Ok(Vec::new(alloc));
    }
    let edit = &edits[count - 1];
    let next = whole.next_behind(edits, count - 1);
    let mut forks = forks_touched(alloc, whole, edits, count - 1)?;
    put_forks(
        &mut forks,
        edit,
        edit.node_changed(next),
        edit.other_changed(),
    )?;
    Ok(forks)
}

/// The comments that so many edits touch.
fn comments_touched(
    alloc: Global,
    whole: &WholeVolume,
    edits: &[Edit],
    count: usize,
) -> Result<Vec<u32>, OutOfMemory>
    requires within { count ≤ length edits.now }
    requires may { MayEditAll whole.now.state (edits_of (take count edits.now)) }
    ensures { IfOk result (λ ids. IsWith id_key (all_touched whole.now.state (edits_of (take count edits.now))).comments [] ids.items) }
{
    if count == 0 {
        return Ok(Vec::new(alloc));
    }
    let edit = &edits[count - 1];
    let mut ids = comments_touched(alloc, whole, edits, count - 1)?;
    put_node(&mut ids, edit.comment_changed())?;
    Ok(ids)
}

/// The icons that so many edits touch.
fn icons_touched(
    alloc: Global,
    whole: &WholeVolume,
    edits: &[Edit],
    count: usize,
) -> Result<Vec<[u8; 9]>, OutOfMemory>
    requires within { count ≤ length edits.now }
    requires may { MayEditAll whole.now.state (edits_of (take count edits.now)) }
    ensures { IfOk result (λ keys. IsWith icon_key (all_touched whole.now.state (edits_of (take count edits.now))).icons [] keys.items) }
{
    if count == 0 {
        return Ok(Vec::new(alloc));
    }
    let edit = &edits[count - 1];
    let mut keys = icons_touched(alloc, whole, edits, count - 1)?;
    put_icon(&mut keys, edit)?;
    Ok(keys)
}

/// The mappings that so many edits change by themselves, and those of a volume to the nodes that go.
fn appls_touched(
    alloc: Global,
    appls: &[Appl],
    edits: &[Edit],
    count: usize,
) -> Result<Vec<Mapping>, OutOfMemory>
    requires { count ≤ length edits.now }
    ensures { IfOk result (λ mappings. IsWith mapping_key (all_appls_in (edits_of (take count edits.now)) appls.now) [] mappings.items) }
{
    if count == 0 {
        return Ok(Vec::new(alloc));
    }
    let edit = &edits[count - 1];
    let mut mappings = appls_touched(alloc, appls, edits, count - 1)?;
    put_appls(&mut mappings, appls, edit)?;
    Ok(mappings)
}

/// What a plan of this volume as it is touches: beyond it the volume is the same behind the plan.
pub(crate) fn touched(
    alloc: Global,
    whole: &WholeVolume,
    plan: &Plan,
) -> Result<Touched, OutOfMemory>
    requires { MayEditAll whole.now.state (edits_of plan.now.edits) }
    ensures within { IfOk result (λ touched. IsWithin touched whole.now.state (after_call whole.now.state plan.now.moment (edits_of plan.now.edits))) }
    ensures rising { IfOk result (λ touched. AreRising touched) }
{
    edits_touch_their_own();
    what_was_put_is_found();
    let edits = plan.edits();
    let count = edits.len();
    let nodes = nodes_touched(alloc, whole, edits, count)?;
    let forks = forks_touched(alloc, whole, edits, count)?;
    let comments = comments_touched(alloc, whole, edits, count)?;
    let icons = icons_touched(alloc, whole, edits, count)?;
    let appls = appls_touched(alloc, whole.appls(), edits, count)?;
    Ok(Touched {
        nodes,
        forks,
        comments,
        icons,
        appls,
    })
}
