//! What a change of a volume touches.
ghost use Rattle.std.specs.Prelude.{◌≡◌, ◌==◌, ◌&&◌, true, length};
ghost use Rattle.std.specs.List.{list_all};
ghost use Rattle.volume_spec.specs.TypedVolume.{is_long};
ghost use Rattle.volume_changes.specs.declared.records.touched.ForkPlace.{ForkPlace as Fork};
ghost use Rattle.volume_changes.specs.records.TouchedOrder.{AreInRange, is_fit_mapping};

use std::marker::Model;

/// A fork of a file.
#[derive(Drop)]
pub struct ForkPlace {
    pub node: u32,
    pub resource: bool,
}

/// The APPL mapping of a creator and a file.
#[derive(Drop)]
pub struct Mapping {
    pub creator: [u8; 4],
    pub node: u32,
}

/// The nodes whose records may differ, the forks whose blocks may, and the comments, icons and mappings: beyond these, and the head, two volumes
/// have the same records. Each list rises by key.
#[derive(Drop)]
pub struct Touched {
    pub nodes: Vec<u32>,
    pub forks: Vec<ForkPlace>,
    pub comments: Vec<u32>,
    pub icons: Vec<[u8; 9]>,
    pub appls: Vec<Mapping>,
}

impl Model for Touched {
    ghost use Rattle.volume_changes.specs.records.Touched.{Touched as TouchedKeys};

    ghost Value = { TouchedKeys };

    ghost view = { λ a. record { nodes = a.nodes.items; forks = a.forks.items; comments = a.comments.items; icons = a.icons.items; appls = a.appls.items } };
}

/// A creator has four bytes. The call does nothing.
pub(crate) fn four_bytes(creator: &[u8; 4])
    ensures { length creator.now ≡ 4 }
{}

/// Ids are numbers of four bytes. The call does nothing.
fn ids_in_range(ids: &[u32])
    ensures { list_all is_long ids.now ≡ true }
{}

/// The id of a fork's node is one. The call does nothing.
fn fork_in_range(place: &ForkPlace)
    ensures { is_long place.now.node ≡ true }
{
    let _node = place.node;
}

/// Forks have such ids.
fn forks_in_range(forks: &[ForkPlace])
    ensures { list_all (λ (p : Fork). is_long p.node) forks.now ≡ true }
{
    for i in 0..forks.len() {
        fork_in_range(&forks[i]);
    }
}

/// The id of a mapping's file is one, and its creator has four bytes. The call does nothing.
fn mapping_in_range(mapping: &Mapping)
    ensures { is_fit_mapping mapping.now ≡ true }
{
    let _node = mapping.node;
    four_bytes(&mapping.creator);
}

/// Mappings have such ids and creators.
fn mappings_in_range(mappings: &[Mapping])
    ensures { list_all is_fit_mapping mappings.now ≡ true }
{
    for i in 0..mappings.len() {
        mapping_in_range(&mappings[i]);
    }
}

/// What the types say of what is touched.
pub(crate) fn in_range(touched: &Touched)
    ensures { AreInRange touched.now }
{
    ids_in_range(touched.nodes.as_slice());
    forks_in_range(touched.forks.as_slice());
    ids_in_range(touched.comments.as_slice());
    mappings_in_range(touched.appls.as_slice());
}
