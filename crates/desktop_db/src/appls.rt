//! APPL mappings in a vector, by rising creator and file.
ghost use Rattle.std.specs.Prelude.{◌≡◌, ◌≢◌, ◌↔◌, ◌<◌, ◌≤◌, ◌+◌, true, length, is_some, slice_get, IfOk, IfErr, OnOk, OnErr, vec_len, vec_capacity};
ghost use Rattle.std.specs.Option.{option_copied};
ghost use Rattle.std.specs.List.{list_all, prefix_len};
ghost use Rattle.volume_spec.specs.Desktop.{appl_at, creators_of, has_no_appl_room, is_appl, pair_key, with_appl, without_appl, without_mappings, nth_appl as definition_of_nth};
ghost use Rattle.volume_spec.specs.Order.{rises, stands_before};
ghost use Rattle.volume_spec.specs.SoundVolume.{appl_key};
ghost use Rattle.desktop_db.specs.lemma.Places.{IsPlaceOf, IsGapFor};

use crate::appl::Appl;
use crate::fault::DeskFault;
use crate::place::insert_at;
use afp_base::NodeId;
use volume_spec::limits::MOST_APPLS;

/// Where the mapping of a creator and a file is, or where it would go.
fn find(appls: &[Appl], creator: &[u8; 4], node: NodeId) -> Result<usize, usize>
    requires { rises appl_key appls.now ≡ true }
    ensures found { IfOk result (IsPlaceOf appl_key (pair_key creator.now node.0) appls.now) }
    ensures gap { IfErr result (IsGapFor appl_key (pair_key creator.now node.0) appls.now) }
{
    appls.binary_search_by(|appl| appl.compare(creator, node))
}

/// The mapping of a creator and a file.
pub(crate) fn find_appl<'a>(appls: &'a [Appl], creator: &[u8; 4], node: NodeId) -> Option<&'a Appl>
    requires { rises appl_key appls.now ≡ true }
    ensures { option_copied result ≡ appl_at creator.now node.0 appls.now }
{
    match find(appls, creator, node) {
        Ok(place) => Some(&appls[place]),
        Err(_) => None,
    }
}

/// Puts a mapping in place of the one of its creator and file, or where it goes. An error changes nothing.
pub(crate) fn put_appl(appls: &mut Vec<Appl>, appl: Appl) -> Result<(), DeskFault>
    requires { rises appl_key appls.old.items ≡ true }
    ensures ok { OnOk result (appls.new.items ≡ with_appl appl appls.old.items) }
    ensures err { OnErr result (appls.new.items ≡ appls.old.items) }
    ensures full { (result ≡ Err DeskFault.Full) ↔ (has_no_appl_room appl.creator appl.node appls.old.items ≡ true) }
    ensures room { vec_len appls.old < vec_capacity appls.old → result ≢ Err DeskFault.Memory }
    ensures len { vec_len appls.new ≤ vec_len appls.old + 1 }
    ensures capacity { vec_capacity appls.old ≤ vec_capacity appls.new }
{
    match find(appls.as_slice(), &appl.creator(), appl.node()) {
        Ok(place) => {
            let _old = std::mem::replace(&mut appls[place], appl);
            Ok(())
        }
        Err(place) => {
            if appls.len() >= MOST_APPLS {
                return Err(DeskFault::Full);
            }
            insert_at(appls, place, appl)?;
            Ok(())
        }
    }
}

/// Takes the mapping of a creator and a file away. Whether there was one.
pub(crate) fn take_appl(appls: &mut Vec<Appl>, creator: &[u8; 4], node: NodeId) -> bool
    requires { rises appl_key appls.old.items ≡ true }
    ensures taken { result ≡ is_some (appl_at creator.now node.0 appls.old.items) }
    ensures items { appls.new.items ≡ without_appl creator.now node.0 appls.old.items }
    ensures len { vec_len appls.new ≤ vec_len appls.old }
    ensures capacity { vec_capacity appls.new ≡ vec_capacity appls.old }
{
    match find(appls.as_slice(), creator, node) {
        Ok(place) => {
            let _appl = appls.remove(place);
            true
        }
        Err(_) => false,
    }
}

/// Takes all mappings to a file away.
pub(crate) fn forget_node(appls: &mut Vec<Appl>, node: NodeId)
    ensures items { appls.new.items ≡ without_mappings node.0 appls.old.items }
    ensures len { vec_len appls.new ≤ vec_len appls.old }
    ensures capacity { vec_capacity appls.new ≡ vec_capacity appls.old }
{
    appls.retain(|appl| appl.node().0 != node.0);
}

/// The place of the first mapping whose creator is not below this one.
fn first_of(appls: &[Appl], creator: &[u8; 4]) -> usize
    requires order { rises appl_key appls.now ≡ true }
    requires formed { list_all is_appl appls.now ≡ true }
    ensures place { result ≡ prefix_len (λ appl. stands_before appl.creator creator.now) appls.now }
    ensures within { result ≤ length appls.now }
{
    appls.partition_point(|appl| appl.compare_creator(creator).is_lt())
}

/// A mapping of a creator, counted from 1 in the order of files.
pub(crate) fn nth_appl<'a>(appls: &'a [Appl], creator: &[u8; 4], n: u16) -> Option<&'a Appl>
    requires order { rises appl_key appls.now ≡ true }
    requires formed { list_all is_appl appls.now ≡ true }
    ensures { option_copied result ≡ definition_of_nth creator.now n appls.now }
{
    if n == 0 {
        return None;
    }
    let first = first_of(appls, creator);
    let behind = n as usize - 1;
    if behind >= appls.len() - first {
        return None;
    }
    let appl = &appls[first + behind];
    if !appl.is_of(creator) {
        return None;
    }
    Some(appl)
}

/// A creator that has a mapping to a file, counted from 0 in rising order.
pub(crate) fn nth_creator(appls: &[Appl], node: NodeId, i: usize) -> Option<[u8; 4]>
    ensures { result ≡ slice_get (creators_of node.0 appls.now) i }
{
    let mut left = i;
    for appl in appls {
        if appl.node().0 == node.0 {
            if left == 0 {
                return Some(appl.creator());
            }
            left -= 1;
        }
    }
    None
}
