//! FPSetDirParms (AFP Reference, "FPSetDirParms").
ghost use Rattle.std.specs.Prelude.{◌≡◌, ◌==◌, ◌&&◌, ℕ, false, not, option_map, unwrap_or};
ghost use Rattle.std.specs.List.{list_any};
ghost use Rattle.afp_serial.specs.Users.{user_ids};
ghost use Rattle.volume_spec.specs.SetFileDirParms.{names_nobody, set_dir_parms_behind};
ghost use Rattle.volume_spec.specs.VolumeState.{guest, only_group};
ghost use Rattle.afp_core_calls.specs.directory.DirectoryCalls.{SetsDir};
ghost use Rattle.afp_core_state.specs.Running.{RunsRow};

use crate::tree_changes::change_tree;
use afp_base::{Bytes, Code, OutOfMemory, SessionNumber, VolumeId};
use afp_calls::Call;
use afp_core_state::State;
use afp_serial::{Outcome, Told, User};
use record_keeper::Keeper;
use volume_spec::limits::{GUEST, ONLY_GROUP};
use volume_tree::{Settings, is_short_tail, settings_in};

/// Sets what the bits ask of a directory in a volume that the session has open. Behind all that the volume refuses, an owner or a group that is nobody
/// is refused.
pub fn set_dir_parms<K: Keeper>(
    state: &mut State<K>,
    session: SessionNumber,
    volume: VolumeId,
    bits: u16,
    tail: &[u8],
    call: &Call,
) -> Result<(Told, Outcome), OutOfMemory>
    requires { SetsDir call.now volume bits tail.now }
    ensures { RunsRow state.old session.0 call.now result state.new }
{
    let behind = refused_behind(state.house.users(), bits, tail);
    let nothing = Bytes::new(state.alloc);
    change_tree(state, session, volume, behind, call, nothing)
}

/// Why the call is refused behind what the volume refuses.
#[tactic(auto, unfolding(volume_spec::specs::SetFileDirParms::set_dir_parms_behind))]
fn refused_behind(users: &[User], bits: u16, tail: &[u8]) -> Option<Code>
    ensures { result ≡ set_dir_parms_behind (user_ids users.now) bits tail.now }
{
    if is_short_tail(bits, tail) {
        return None;
    }
    let settings = settings_in(bits, tail);
    if names_nobody(users, &settings) {
        Some(Code::ItemNotFound)
    } else {
        None
    }
}

/// Whether the owner that is set, if one is, is neither the guest nor a user of the house, or the group is another than the one.
#[tactic(auto, unfolding(volume_spec::specs::SetFileDirParms::names_nobody))]
fn names_nobody(users: &[User], settings: &Settings) -> bool
    ensures { result ≡ names_nobody (user_ids users.now) settings.now }
{
    is_no_owner(users, settings.owner) || is_no_group(settings.group)
}

/// Whether an id, if there is one, is neither the guest's nor that of a user of the house.
#[tactic(auto, using(crate::proofs::OfDirectory::UserIds::among_ids))]
fn is_no_owner(users: &[User], owner: Option<u32>) -> bool
    ensures { result ≡ unwrap_or (option_map (λ (id : ℕ). not (id == guest) && not (list_any (λ other. other == id) (user_ids users.now))) owner) false }
{
    match owner {
        Some(id) => id != GUEST && !is_user(users, id),
        None => false,
    }
}

/// Whether a user of the house has the id.
fn is_user(users: &[User], id: u32) -> bool
    ensures { result ≡ list_any (λ user. user.id == id) users.now }
{
    users.iter().any(|user| user.id == id)
}

/// Whether an id, if there is one, is another than that of the one group.
fn is_no_group(group: Option<u32>) -> bool
    ensures { result ≡ unwrap_or (option_map (λ (id : ℕ). not (id == only_group)) group) false }
{
    match group {
        Some(id) => id != ONLY_GROUP,
        None => false,
    }
}
