//! Icons in a vector, by rising key.
ghost use Rattle.std.specs.Prelude.{◌≡◌, ◌≢◌, ◌↔◌, ◌<◌, ◌≤◌, ◌+◌, true, length, IfOk, IfErr, OnOk, OnErr, vec_len, vec_capacity};
ghost use Rattle.std.specs.Option.{option_copied};
ghost use Rattle.std.specs.List.{list_all, prefix_len};
ghost use Rattle.volume_spec.specs.Desktop.{has_no_icon_room, icon_at, with_icon, nth_icon as definition_of_nth};
ghost use Rattle.volume_spec.specs.Order.{rises, stands_before};
ghost use Rattle.volume_spec.specs.SoundVolume.{icon_key, is_icon};
ghost use Rattle.desktop_db.specs.lemma.Places.{IsPlaceOf, IsGapFor};

use crate::fault::DeskFault;
use crate::icon::Icon;
use crate::place::insert_at;
use volume_spec::limits::MOST_ICONS;

/// Where the icon of a key is, or where it would go.
fn find(icons: &[Icon], key: &[u8; 9]) -> Result<usize, usize>
    requires { rises icon_key icons.now ≡ true }
    ensures found { IfOk result (IsPlaceOf icon_key key.now icons.now) }
    ensures gap { IfErr result (IsGapFor icon_key key.now icons.now) }
{
    icons.binary_search_by(|icon| icon.compare(key))
}

/// The icon of a key.
pub(crate) fn find_icon<'a>(icons: &'a [Icon], key: &[u8; 9]) -> Option<&'a Icon>
    requires { rises icon_key icons.now ≡ true }
    ensures { option_copied result ≡ icon_at key.now icons.now }
{
    match find(icons, key) {
        Ok(place) => Some(&icons[place]),
        Err(_) => None,
    }
}

/// Puts an icon in place of the one of its key, or where it goes. An error changes nothing.
pub(crate) fn put_icon(icons: &mut Vec<Icon>, icon: Icon) -> Result<(), DeskFault>
    requires { rises icon_key icons.old.items ≡ true }
    ensures ok { OnOk result (icons.new.items ≡ with_icon icon icons.old.items) }
    ensures err { OnErr result (icons.new.items ≡ icons.old.items) }
    ensures full { (result ≡ Err DeskFault.Full) ↔ (has_no_icon_room (icon_key icon) icons.old.items ≡ true) }
    ensures room { vec_len icons.old < vec_capacity icons.old → result ≢ Err DeskFault.Memory }
    ensures len { vec_len icons.new ≤ vec_len icons.old + 1 }
    ensures capacity { vec_capacity icons.old ≤ vec_capacity icons.new }
{
    match find(icons.as_slice(), icon.key()) {
        Ok(place) => {
            let _old = std::mem::replace(&mut icons[place], icon);
            Ok(())
        }
        Err(place) => {
            if icons.len() >= MOST_ICONS {
                return Err(DeskFault::Full);
            }
            insert_at(icons, place, icon)?;
            Ok(())
        }
    }
}

/// The place of the first icon whose creator is not below this one.
fn first_of(icons: &[Icon], creator: &[u8; 4]) -> usize
    requires order { rises icon_key icons.now ≡ true }
    requires formed { list_all is_icon icons.now ≡ true }
    ensures place { result ≡ prefix_len (λ icon. stands_before icon.creator creator.now) icons.now }
    ensures within { result ≤ length icons.now }
{
    icons.partition_point(|icon| icon.compare_creator(creator).is_lt())
}

/// An icon of a creator, counted from 1 in the order of type and icon type.
pub(crate) fn nth_icon<'a>(icons: &'a [Icon], creator: &[u8; 4], n: u16) -> Option<&'a Icon>
    requires order { rises icon_key icons.now ≡ true }
    requires formed { list_all is_icon icons.now ≡ true }
    ensures { option_copied result ≡ definition_of_nth creator.now n icons.now }
{
    if n == 0 {
        return None;
    }
    let first = first_of(icons, creator);
    let behind = n as usize - 1;
    if behind >= icons.len() - first {
        return None;
    }
    let icon = &icons[first + behind];
    if !icon.is_of(creator) {
        return None;
    }
    Some(icon)
}
