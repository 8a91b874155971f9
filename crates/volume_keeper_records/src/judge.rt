//! Judging one record, by the tree of all nodes and the records before it.
ghost use Rattle.std.specs.Prelude.{◌≡◌, ◌≤◌, ◌<◌, ◌+◌, ◌||◌, ◌&&◌, ◌==◌, not, bytes_eq, nat_lt, ℕ, List, length, true, None, Some, IfOk, OnOk};
ghost use Rattle.afp_base.specs.Limits.{most_fork_bytes};
ghost use Rattle.afp_names.specs.Name.{name_fault, name_key};
ghost use Rattle.volume_spec.specs.VolumeState.{Icon, Appl};
ghost use Rattle.volume_keeper_records.specs.declared.rows.TableRow.TheVariants as row;
ghost use Rattle.volume_keeper_records.specs.lemma.Judged.{has_seen, Before, HasBefore, KeepsTree, IsTree, IsNamedRow, IsJudged, IsJudgedRow, is_short_row};

use crate::rows::{ForkBlock, Node, Reason, TableRow};
use crate::tree::{Tree, is_stray, reaches_behind};
use afp_base::{MOST_FORK_BYTES, OutOfMemory};
use afp_names::{Name, NameFault};
use std::alloc::Global;
use std::collections::BTreeSet;
use volume_spec::limits::{FIRST_ID, MOST_APPLS, MOST_ICONS, MOST_NODES, ROOT_ID};

/// What is known of the records before the one that is judged.
#[derive(Drop)]
pub(crate) struct Pass {
    pub(crate) tree: Tree,
    pub(crate) next: u64,
    pub(crate) seen: BTreeSet<(u32, Vec<u8>)>,
    pub(crate) nodes: usize,
    pub(crate) bytes: u64,
    pub(crate) icons: usize,
    pub(crate) appls: usize,
}

fn copied(alloc: Global, bytes: &[u8]) -> Result<Vec<u8>, OutOfMemory>
    ensures { IfOk result (λ copy. copy.items ≡ bytes.now) }
{
    let mut copy = Vec::new(alloc);
    copy.extend_from_slice(bytes)?;
    Ok(copy)
}

/// What a name shares with the names that count as it.
fn key_of(alloc: Global, name: &[u8]) -> Result<Vec<u8>, OutOfMemory>
    ensures { name_fault name.now ≡ None → IfOk result (λ key. key.items ≡ name_key name.now) }
{
    match Name::new(alloc, name) {
        Ok(name) => {
            let key = name.key(alloc)?;
            copied(alloc, key.as_slice())
        }
        Err(fault) => match fault {
            NameFault::Memory => Err(OutOfMemory),
            NameFault::Empty => Ok(Vec::new(alloc)),
            NameFault::TooLong => Ok(Vec::new(alloc)),
            NameFault::HasNul => Ok(Vec::new(alloc)),
            NameFault::NotUtf8 => Ok(Vec::new(alloc)),
        },
    }
}

/// Whether a name has not been seen in that directory; from now on it has.
fn is_new(
    alloc: Global,
    seen: &mut BTreeSet<(u32, Vec<u8>)>,
    parent: u32,
    name: &[u8],
) -> Result<bool, OutOfMemory>
    ensures new { name_fault name.now ≡ None → IfOk result (λ new. new ≡ not (has_seen seen.old parent (name_key name.now))) }
    ensures seen { name_fault name.now ≡ None → OnOk result ((p : ℕ) (key : List ℕ) → has_seen seen.new p key ≡ (((p == parent) && bytes_eq key (name_key name.now)) || has_seen seen.old p key)) }
{
    let key = key_of(alloc, name)?;
    let Ok(new) = seen.insert((parent, key)) else {
        return Err(OutOfMemory);
    };
    Ok(new)
}

/// Whether two forks more pass the limit.
fn passes_bytes(bytes: u64, first: u64, second: u64) -> bool
    requires { bytes ≤ most_fork_bytes }
    ensures { result ≡ nat_lt most_fork_bytes (bytes + (first + second)) }
{
    first > MOST_FORK_BYTES || second > MOST_FORK_BYTES || bytes + first + second > MOST_FORK_BYTES
}

/// The first reason behind Parent to refuse a node.
fn judge_node(alloc: Global, pass: &mut Pass, node: &Node) -> Result<Option<Reason>, OutOfMemory>
    requires few { pass.old.bytes ≤ most_fork_bytes }
    ensures same { OnOk result (KeepsTree pass.old pass.new) }
    ensures reason { name_fault node.now.name ≡ None → IfOk result (λ reason. (before : Before) → HasBefore before pass.old → IsJudged pass.old before (row.Node node.now) reason pass.new) }
{
    if !is_new(alloc, &mut pass.seen, node.parent, node.name.as_slice())? {
        return Ok(Some(Reason::Twin));
    }
    if node.id != ROOT_ID && (node.id < FIRST_ID || pass.next <= node.id as u64) {
        return Ok(Some(Reason::Range));
    }
    if MOST_NODES <= pass.nodes
        || passes_bytes(pass.bytes, node.data_length, node.resource_length)
    {
        return Ok(Some(Reason::Limit));
    }
    pass.nodes += 1;
    pass.bytes += node.data_length + node.resource_length;
    Ok(None)
}

fn judge_block(pass: &Pass, block: &ForkBlock) -> Option<Reason>
    requires tree { IsTree pass.now.tree }
    requires short { length block.now.bytes < 5000 }
    ensures { (before : Before) → HasBefore before pass.now → IsJudged pass.now before (row.Block block.now) result pass.now }
{
    if reaches_behind(&pass.tree, block) {
        Some(Reason::Range)
    } else {
        None
    }
}

fn judge_icon(pass: &mut Pass) -> Option<Reason>
    requires few { pass.old.bytes ≤ most_fork_bytes }
    ensures same { KeepsTree pass.old pass.new }
    ensures reason { (icon : Icon) (before : Before) → HasBefore before pass.old → IsJudged pass.old before (row.Icon icon) result pass.new }
{
    if MOST_ICONS <= pass.icons {
        return Some(Reason::Limit);
    }
    pass.icons += 1;
    None
}

fn judge_appl(pass: &mut Pass) -> Option<Reason>
    requires few { pass.old.bytes ≤ most_fork_bytes }
    ensures same { KeepsTree pass.old pass.new }
    ensures reason { (appl : Appl) (before : Before) → HasBefore before pass.old → IsJudged pass.old before (row.Appl appl) result pass.new }
{
    if MOST_APPLS <= pass.appls {
        return Some(Reason::Limit);
    }
    pass.appls += 1;
    None
}

/// The first reason behind Parent to refuse a row.
fn judge_rest(alloc: Global, pass: &mut Pass, row: &TableRow) -> Result<Option<Reason>, OutOfMemory>
    requires tree { IsTree pass.old.tree }
    requires few { pass.old.bytes ≤ most_fork_bytes }
    requires short { is_short_row (Some row.now) ≡ true }
    ensures same { OnOk result (KeepsTree pass.old pass.new) }
    ensures reason { IsNamedRow (Some row.now) → IfOk result (λ reason. (before : Before) → HasBefore before pass.old → IsJudged pass.old before row.now reason pass.new) }
{
    match row {
        TableRow::Head(_) => Ok(None),
        TableRow::Node(node) => judge_node(alloc, pass, node),
        TableRow::Block(block) => Ok(judge_block(pass, block)),
        TableRow::Comment(_) => Ok(None),
        TableRow::Icon(_) => Ok(judge_icon(pass)),
        TableRow::Appl(_) => Ok(judge_appl(pass)),
    }
}

/// The first reason to refuse a record, by what it says.
pub(crate) fn judge_row(
    alloc: Global,
    pass: &mut Pass,
    row: &Option<TableRow>,
) -> Result<Option<Reason>, OutOfMemory>
    requires tree { IsTree pass.old.tree }
    requires few { pass.old.bytes ≤ most_fork_bytes }
    requires short { is_short_row row.now ≡ true }
    ensures same { OnOk result (KeepsTree pass.old pass.new) }
    ensures reason { IsNamedRow row.now → IfOk result (λ reason. (before : Before) → HasBefore before pass.old → IsJudgedRow pass.old before row.now reason pass.new) }
{
    match row {
        None => Ok(Some(Reason::Shape)),
        Some(row) => {
            if is_stray(&pass.tree, row) {
                return Ok(Some(Reason::Parent));
            }
            judge_rest(alloc, pass, row)
        }
    }
}
