//! A volume made of what was kept of it elsewhere.
ghost use Rattle.std.specs.Prelude.{◌≡◌, ◌≤◌, ℕ, true, map, replicate, sum_by, IfOk, OnOk};
ghost use Rattle.std.specs.List.{list_all};
ghost use Rattle.std.specs.Ordering.{nat_cmp};
ghost use Rattle.afp_base.specs.Limits.{most_fork_bytes};
ghost use Rattle.sorted_map.specs.map.Entries.{at};
ghost use Rattle.volume_spec.specs.Shared.{name_of};
ghost use Rattle.volume_spec.specs.SoundVolume.{has_node};
ghost use Rattle.volume_spec.specs.VolumeState.{root_id};
ghost use Rattle.volume_tree.specs.Restored.{IsRestorable, restored};
ghost use Rattle.volume_tree.specs.lemma.Restored.{forks_in, has_short_forks, loaded_bytes, loaded_node, or_forks, own_forks};

use crate::forks::FileForks;
use crate::head::{Dates, VolumeHead};
use crate::volume::{ROOT, Volume};
use afp_base::OutOfMemory;
use afp_names::Name;
use fork_bytes::Fork;
use node_rows::{Node, Rows};
use sorted_map::SortedMap;
use std::alloc::Global;

/// A node with the lengths of its forks in bytes. A directory has forks of no bytes.
#[derive(Drop)]
pub struct LoadedNode {
    pub node: Node,
    pub data_len: u64,
    pub resource_len: u64,
}

/// A fork of so many zeros.
fn zeros(alloc: Global, len: u64) -> Result<Fork, OutOfMemory>
    requires { len ≤ most_fork_bytes }
    ensures { IfOk result (λ fork. fork ≡ replicate len 0) }
{
    let mut fork = Fork::new(alloc);
    let plan = fork.plan_set_length(alloc, len)?;
    fork.apply(plan);
    Ok(fork)
}

impl FileForks {
    /// Forks of so many zeros.
    fn zeros(alloc: Global, data_len: u64, resource_len: u64) -> Result<FileForks, OutOfMemory>
        requires data_fork { data_len ≤ most_fork_bytes }
        requires resource_fork { resource_len ≤ most_fork_bytes }
        ensures { IfOk result (λ forks. forks ≡ record { data_fork = replicate data_len 0; resource_fork = replicate resource_len 0 }) }
    {
        Ok(FileForks {
            data_fork: zeros(alloc, data_len)?,
            resource_fork: zeros(alloc, resource_len)?,
        })
    }
}

/// Keeps the forks of a file.
fn keep_forks(
    forks: &mut SortedMap<u64, FileForks>,
    alloc: Global,
    loaded: &LoadedNode,
) -> Result<(), OutOfMemory>
    requires { has_short_forks loaded.now ≡ true }
    ensures { OnOk result ((q : ℕ) → at nat_cmp forks.new q ≡ or_forks (own_forks loaded.now q) (at nat_cmp forks.old q)) }
{
    if loaded.node.dir {
        return Ok(());
    }
    let new = FileForks::zeros(alloc, loaded.data_len, loaded.resource_len)?;
    let _ = forks.insert(u64::from(loaded.node.id.0), new)?;
    Ok(())
}

/// The forks of all files.
fn all_forks(alloc: Global, nodes: &[LoadedNode]) -> Result<SortedMap<u64, FileForks>, OutOfMemory>
    requires { list_all has_short_forks nodes.now ≡ true }
    ensures { IfOk result (λ forks. (q : ℕ) → at nat_cmp forks q ≡ forks_in nodes.now q) }
{
    let mut forks = SortedMap::new(alloc);
    for loaded in nodes {
        keep_forks(&mut forks, alloc, loaded)?;
    }
    Ok(forks)
}

/// How many bytes all forks have.
fn bytes_of(nodes: &[LoadedNode]) -> u64
    requires { sum_by loaded_bytes nodes.now ≤ most_fork_bytes }
    ensures { result ≡ sum_by loaded_bytes nodes.now }
{
    let mut bytes = 0;
    for loaded in nodes {
        bytes += loaded.data_len + loaded.resource_len;
    }
    bytes
}

/// The nodes without the lengths of their forks.
fn nodes_of(alloc: Global, nodes: Vec<LoadedNode>) -> Result<Vec<Node>, OutOfMemory>
    ensures { IfOk result (λ bare. bare.items ≡ map loaded_node nodes.items) }
{
    Ok(nodes.into_iter().map(|loaded| loaded.node).collect(alloc)?)
}

/// The name of the root.
fn root_name(alloc: Global, rows: &Rows) -> Result<Name, OutOfMemory>
    requires { has_node rows.now.rows root_id ≡ true }
    ensures { IfOk result (λ name. name ≡ name_of rows.now.rows root_id) }
{
    match rows.get(ROOT) {
        Some(root) => root.name.copy(alloc),
        None => unreachable!(),
    }
}

impl VolumeHead {
    fn dates(self) -> Dates
        ensures { result ≡ record { created = self.created; modified = self.modified; backup = self.backup } }
    {
        Dates {
            created: self.created,
            modified: self.modified,
            backup: self.backup,
        }
    }
}

impl Volume {
    /// The volume of these dates, this next id and these nodes, which stand by rising id. Its name is the root's, and all bytes of
    /// its forks are zeros. It takes the time of one sort.
    pub fn restore(
        alloc: Global,
        head: VolumeHead,
        nodes: Vec<LoadedNode>,
    ) -> Result<Volume, OutOfMemory>
        requires { IsRestorable head nodes.items }
        ensures { IfOk result (λ volume. volume.state ≡ restored head nodes.items) }
    {
        let forks = all_forks(alloc, nodes.as_slice())?;
        let used = bytes_of(nodes.as_slice());
        let rows = Rows::of(alloc, nodes_of(alloc, nodes)?, head.next_id)?;
        let name = root_name(alloc, &rows)?;
        Ok(Volume {
            name,
            dates: head.dates(),
            rows,
            forks,
            used,
        })
    }
}
