//! FPAddIcon, FPGetIcon and FPGetIconInfo (AFP Reference, under these names).
ghost use Rattle.std.specs.Prelude.{◌≡◌, ◌<◌, ℕ, ◌++◌, OnOk, OnErr, drop, length, option_map, slice_index, take};
ghost use Rattle.afp_replies.specs.Replies.{canonical_reply};
ghost use Rattle.afp_replies.specs.declared.reply.Reply.TheVariants.{IconInfo};
ghost use Rattle.afp_calls_grammar.specs.declared.grammar.call.Call.{Call};
ghost use Rattle.afp_serial.specs.Icons.{get_icon_info_reply, get_icon_reply};
ghost use Rattle.volume_spec.specs.Desktop.{nth_icon};
ghost use Rattle.volume_spec.specs.SoundVolume.{icon_key};
ghost use Rattle.volume_spec.specs.Icons.{get_icon_bits, get_icon_info_icon, get_icon_info_refusal, get_icon_refusal};
ghost use Rattle.afp_core_calls.specs.desktop.lemma.ListedIcons.{IsListed};
ghost use Rattle.volume_tree.specs.Answered.{Refuses};
ghost use Rattle.afp_core_state.specs.Running.{RunsRow};

use afp_base::{Bytes, Code, OutOfMemory, SessionNumber, VolumeId};
use afp_core_state::{State, latest, refused, run_plan, told_of, whole_at};
use afp_serial::{Outcome, Told};
use desktop_db::icon_key;
use record_keeper::Keeper;
use volume_edits::{WholeVolume, plan_add_icon};
use volume_spec::desktop_laws::{desktops_keep_volumes_sound, icons_have_their_keys};
use volume_tree::PlanFault;

/// Puts an icon under its creator, type and icon type in the desktop database of a volume that the session has open.
pub fn add_icon<K: Keeper>(
    state: &mut State<K>,
    session: SessionNumber,
    dt: u16,
    creator: [u8; 4],
    kind: [u8; 4],
    icon_kind: u8,
    tag: u32,
    piece: &[u8],
) -> Result<(Told, Outcome), OutOfMemory>
    ensures { (size : ℕ) → RunsRow state.old session.0 (Call.AddIcon dt creator kind icon_kind tag size piece.now) result state.new }
{
    let Some(index) = state.opened(session, VolumeId(dt)) else {
        return Ok((refused(state.alloc, Code::ParamErr), Outcome::Done));
    };
    icons_have_their_keys();
    four_bytes(&creator);
    four_bytes(&kind);
    let bits = Bytes::of(state.alloc, piece)?;
    let key = icon_key(creator, kind, icon_kind);
    let volume = whole_at(state, index);
    let answer = plan_add_icon(
        state.alloc,
        volume,
        state.user(session),
        latest(state),
        key,
        tag,
        bits,
    );
    let nothing = Bytes::new(state.alloc);
    run_plan(state, index, answer, nothing)
}

/// A creator or a type has four bytes. The call does nothing.
fn four_bytes(code: &[u8; 4])
    ensures { length code.now ≡ 4 }
{}

/// Tells the first so many bytes of an icon, or all, of a volume that the session has open.
pub fn get_icon<K: Keeper>(
    state: &State<K>,
    session: SessionNumber,
    dt: u16,
    creator: [u8; 4],
    kind: [u8; 4],
    icon_kind: u8,
    count: u16,
) -> Result<(Told, Outcome), OutOfMemory>
    ensures { RunsRow state.now session.0 (Call.GetIcon dt creator kind icon_kind count) result state.now }
{
    let Some(index) = state.opened(session, VolumeId(dt)) else {
        return Ok((refused(state.alloc, Code::ParamErr), Outcome::Done));
    };
    let mut block = Bytes::new(state.alloc);
    let volume = whole_at(state, index);
    let answer = put_icon(volume, creator, kind, icon_kind, count, &mut block);
    told_of(state.alloc, answer, block)
}

/// Tells what an icon of a creator is for, counted from 1 in the order of type and icon type, of a volume that the session has open.
pub fn get_icon_info<K: Keeper>(
    state: &State<K>,
    session: SessionNumber,
    dt: u16,
    creator: [u8; 4],
    index: u16,
) -> Result<(Told, Outcome), OutOfMemory>
    ensures { RunsRow state.now session.0 (Call.GetIconInfo dt creator index) result state.now }
{
    let Some(place) = state.opened(session, VolumeId(dt)) else {
        return Ok((refused(state.alloc, Code::ParamErr), Outcome::Done));
    };
    let mut block = Bytes::new(state.alloc);
    let volume = whole_at(state, place);
    let answer = put_icon_info(volume, &creator, index, &mut block);
    told_of(state.alloc, answer, block)
}

/// The first so many of some bytes, or all.
fn first_bytes(bytes: &[u8], count: u16) -> &[u8]
    ensures { result.now ≡ take count bytes.now }
{
    &bytes[..usize::from(count).min(bytes.len())]
}

/// Appends the first bytes of an icon, or tells that there is none. An error changes nothing.
#[tactic(auto, unfolding(volume_spec::specs::Icons::get_icon_refusal, volume_spec::specs::Icons::get_icon_bits))]
fn put_icon(
    volume: &WholeVolume,
    creator: [u8; 4],
    kind: [u8; 4],
    icon_kind: u8,
    count: u16,
    out: &mut Bytes,
) -> Result<(), PlanFault>
    ensures refused { Refuses result (get_icon_refusal volume.now.state creator kind icon_kind) }
    ensures ok { OnOk result (out.new ≡ out.old ++ canonical_reply (get_icon_reply (get_icon_bits volume.now.state creator kind icon_kind count))) }
    ensures err { OnErr result (out.new ≡ out.old) }
{
    let Some((_tag, bits)) = volume.icon(&icon_key(creator, kind, icon_kind)) else {
        return Err(PlanFault::Code(Code::ItemNotFound));
    };
    match out.extend(first_bytes(bits, count)) {
        Ok(()) => Ok(()),
        Err(_) => Err(PlanFault::Memory),
    }
}

/// Appends what is told of an icon by its key, its tag and its bits. After an error, any part of them may stand there.
fn put_info(key: &[u8; 9], tag: u32, bits: &[u8], out: &mut Bytes) -> Result<(), OutOfMemory>
    requires { length bits.now < 65536 }
    ensures ok { OnOk result (out.new ≡ out.old ++ canonical_reply (IconInfo tag (take 4 (drop 4 key.now)) (slice_index key.now (8)) (length bits.now))) }
    ensures err { OnErr result (take (length out.old) out.new ≡ out.old) }
{
    out.push_u32(tag)?;
    out.extend(&key[4..8])?;
    out.push_u8(key[8])?;
    out.push_u8(0)?;
    out.push_u16(bits.len() as u16)
}

/// The key of an icon of a creator, counted from 1.
fn nth_icon(volume: &WholeVolume, creator: &[u8; 4], n: u16) -> Option<[u8; 9]>
    ensures { result ≡ option_map icon_key (nth_icon creator.now n volume.now.state.icons) }
{
    volume.desktop.nth_icon(creator, n)
}

/// The key of an icon of a creator, its tag and its bits.
fn listed<'a>(
    volume: &'a WholeVolume,
    creator: &[u8; 4],
    index: u16,
) -> Option<([u8; 9], u32, &'a [u8])>
    ensures { IsListed volume.now.state.icons creator.now index result }
{
    desktops_keep_volumes_sound();
    icons_have_their_keys();
    volume.keeps_sound();
    let Some(key) = nth_icon(volume, creator, index) else {
        return None;
    };
    match volume.icon(&key) {
        Some((tag, bits)) => Some((key, tag, bits)),
        None => unreachable!(),
    }
}

/// Appends what is told of an icon of a creator, or tells why there is none. An error changes nothing.
#[tactic(auto, unfolding(volume_spec::specs::Icons::get_icon_info_refusal, volume_spec::specs::Icons::get_icon_info_icon))]
fn put_icon_info(
    volume: &WholeVolume,
    creator: &[u8; 4],
    index: u16,
    out: &mut Bytes,
) -> Result<(), PlanFault>
    ensures refused { Refuses result (get_icon_info_refusal volume.now.state creator.now index) }
    ensures ok { OnOk result (out.new ≡ out.old ++ canonical_reply (get_icon_info_reply (get_icon_info_icon volume.now.state creator.now index))) }
    ensures err { OnErr result (out.new ≡ out.old) }
{
    if index == 0 {
        return Err(PlanFault::Code(Code::ParamErr));
    }
    let Some(icon) = listed(volume, creator, index) else {
        return Err(PlanFault::Code(Code::ItemNotFound));
    };
    let key = icon.0;
    let before = out.as_slice().len();
    match put_info(&key, icon.1, icon.2, out) {
        Ok(()) => Ok(()),
        Err(_) => {
            out.truncate(before);
            Err(PlanFault::Memory)
        }
    }
}
