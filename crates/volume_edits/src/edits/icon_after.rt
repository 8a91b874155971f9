//! What a plan leaves of an icon, told before it is carried out. None of these takes memory.
ghost use Rattle.std.specs.Prelude.{◌≡◌, ◌≤◌, length, take, option_map, bytes_eq, Some, None, if◌then◌else◌};
ghost use Rattle.desktop_db.specs.Kept.{shown_icon};
ghost use Rattle.volume_spec.specs.Desktop as database;
ghost use Rattle.volume_spec.specs.Desktop.{icon_at};
ghost use Rattle.volume_spec.specs.Edit.{after_call, after_edits};
ghost use Rattle.volume_spec.specs.EditLaws.{MayEditAll};
ghost use Rattle.volume_spec.specs.SoundVolume.{icon_key, longest_icon};
ghost use Rattle.volume_spec.specs.VolumeState.{Icon};
ghost use Rattle.volume_edits.specs.edits.Planned.{edits_of};
ghost use Rattle.volume_edits.specs.edits.lemma.Steps.{icon_put};

use crate::edits::edit::{Edit, Kind};
use crate::edits::kinds::nine_bytes;
use crate::edits::plan::Plan;
use crate::edits::whole::WholeVolume;
use afp_base::Bytes;
use volume_spec::desktop_laws::what_was_put_is_found;
use volume_spec::limits::LONGEST_ICON;

/// What is kept of the bits of an icon.
fn bits_of(bits: &Bytes) -> &[u8]
    ensures { result.now ≡ take longest_icon bits.now }
{
    let bytes = bits.as_slice();
    if bytes.len() < LONGEST_ICON {
        return bytes;
    }
    &bytes[..LONGEST_ICON]
}

/// An icon as it is kept, where it stands under this key.
fn icon_under<'a>(
    put: &[u8; 9],
    tag: u32,
    bits: &'a Bytes,
    key: &[u8; 9],
) -> Option<(u32, &'a [u8])>
    ensures { option_map shown_icon result ≡ (if bytes_eq (icon_key (database.icon_under put.now tag bits.now)) key.now then Some (tag, take longest_icon bits.now) else None) }
{
    nine_bytes(put);
    if put.as_slice() == key.as_slice() {
        Some((tag, bits_of(bits)))
    } else {
        None
    }
}

impl Edit {
    /// The tag and the bits of the icon that an edit puts under a key.
    fn icon_put<'a>(&'a self, key: &[u8; 9]) -> Option<(u32, &'a [u8])>
        ensures { option_map shown_icon result ≡ icon_put self.now.edit key.now }
    {
        match &self.0 {
            Kind::PutsIcon {
                key: put,
                tag,
                bits,
            } => icon_under(put, *tag, bits, key),
            _ => None,
        }
    }
}

impl WholeVolume {
    /// The tag and the bits of the icon under a key behind so many edits.
    fn icon_behind<'a>(
        &'a self,
        edits: &'a [Edit],
        count: usize,
        key: &[u8; 9],
    ) -> Option<(u32, &'a [u8])>
        requires within { count ≤ length edits.now }
        requires may { MayEditAll self.now.state (edits_of (take count edits.now)) }
        ensures { option_map shown_icon result ≡ option_map (λ (icon : Icon). (icon.tag, icon.bits)) (icon_at key.now (after_edits self.now.state (edits_of (take count edits.now))).icons) }
    {
        what_was_put_is_found();
        if count == 0 {
            return self.desktop.icon(key);
        }
        let edit = &edits[count - 1];
        match edit.icon_put(key) {
            Some(icon) => Some(icon),
            None => self.icon_behind(edits, count - 1, key),
        }
    }

    /// The tag and the bits of the icon under a key, as a plan of this volume as it is leaves it.
    pub fn icon_after<'a>(&'a self, plan: &'a Plan, key: &[u8; 9]) -> Option<(u32, &'a [u8])>
        requires { MayEditAll self.now.state (edits_of plan.now.edits) }
        ensures { option_map shown_icon result ≡ option_map (λ (icon : Icon). (icon.tag, icon.bits)) (icon_at key.now (after_call self.now.state plan.now.moment (edits_of plan.now.edits)).icons) }
    {
        let edits = plan.edits.as_slice();
        self.icon_behind(edits, edits.len(), key)
    }
}
