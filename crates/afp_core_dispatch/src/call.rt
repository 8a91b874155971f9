//! A call of a session: its steps in their order, and its row.
ghost use Rattle.std.specs.Prelude.{◌≡◌, ◌≤◌, Some, length};
ghost use Rattle.afp_base.specs.Cached.{cached_answer};
ghost use Rattle.afp_base.specs.Limits.{payload_limit};
ghost use Rattle.afp_serial.specs.World.{Session};
ghost use Rattle.afp_core_state.specs.Running.{IsReady, RunsRow};
ghost use Rattle.afp_core_state.specs.lemma.KeptWorld.{table_in};
ghost use Rattle.session_table.specs.Sessions.{AreBelow, HasNone, session_of};
ghost use Rattle.afp_core_dispatch.specs.Asks.{IsReadyToAsk, told_in};
ghost use Rattle.afp_core_dispatch.specs.lemma.Asks.{RunsCall};
ghost use Rattle.afp_core_dispatch.specs.lemma.Fits.{CallFits, HasRoom, VerdictFits};
ghost use Rattle.afp_core_dispatch.specs.lemma.Keeping.{IsThere, IsToldAgain, RunsBlock, RunsKept, again_in};
ghost use Rattle.afp_core_dispatch.specs.lemma.Requests.{as_request};

use crate::keeping::{keep, put_kept};
use crate::request::Request;
use crate::spelling::{Stop, spelled_call};
use afp_base::{LinkNumber, OutOfMemory, SessionNumber};
use afp_calls::Call;
use afp_core_calls::{
    add_appl, add_comment, add_icon, byte_range_lock, byte_range_lock_ext, close_dir, close_dt,
    close_fork, close_vol, copy_file, create_dir, create_file, create_id, delete, delete_id,
    disconnect_old_session, enumerate, enumerate_ext, enumerate_ext2, exchange_files, flush,
    flush_fork, get_appl, get_comment, get_file_dir_parms, get_fork_parms, get_icon, get_icon_info,
    get_session_token, get_srvr_info, get_srvr_msg, get_srvr_parms, get_user_info, get_vol_parms,
    login, login_ext, logout, map_id, map_name, move_and_rename, open_dir, open_dt, open_fork,
    open_vol, read, read_ext, remove_appl, remove_comment, rename, resolve_id, set_dir_parms,
    set_file_dir_parms, set_file_parms, set_fork_parms, set_vol_parms, write, write_ext,
};
use afp_core_state::{State, refused};
use afp_serial::{Answered, Outcome, Told, put_told};
use record_keeper::Keeper;

/// Answers a request on a link, whose block is put at the front of `out`: its session is found, what is kept for it, the call that it spells, and
/// its row.
pub fn call<K: Keeper>(
    state: &mut State<K>,
    link: LinkNumber,
    request: Request,
    out: &mut [u8],
) -> Result<(Answered, Outcome), OutOfMemory>
    requires ready { IsReadyToAsk state.old.world }
    requires fits { CallFits state.old.world link.0 (as_request request) }
    requires room { payload_limit ≤ length out.old }
    ensures runs { RunsCall state.old link.0 (as_request request) (told_in result out.new) state.new }
    ensures length { length out.new ≡ length out.old }
{
    let Some(session) = state.sessions.by_link(link) else {
        return Ok((Answered::Displaced, Outcome::Done));
    };
    match put_again(state, session, &request, out) {
        Some(answered) => Ok((answered, Outcome::Done)),
        None => answer(state, session, request, out),
    }
}

/// Tells again what is kept for an equal request of the session. It takes no memory.
fn put_again<K: Keeper>(
    state: &State<K>,
    session: SessionNumber,
    request: &Request,
    out: &mut [u8],
) -> Option<Answered>
    requires there { IsThere state.now session.0 }
    requires room { HasRoom state.now session.0 (as_request request.now) (length out.old) }
    ensures told { (x : Session) → session_of state.now.world.sessions session.0 ≡ Some x → IsToldAgain (cached_answer x.cache (as_request request.now)) (again_in result out.new) }
    ensures length { length out.new ≡ length out.old }
{
    match state.sessions.kept(
        session,
        request.id,
        request.write,
        request.offset,
        request.payload.as_slice(),
    ) {
        Some(answer) => Some(put_kept(answer, out)),
        None => None,
    }
}

/// Answers a request of a session that keeps no answer for it, and keeps what it tells.
fn answer<K: Keeper>(
    state: &mut State<K>,
    session: SessionNumber,
    request: Request,
    out: &mut [u8],
) -> Result<(Answered, Outcome), OutOfMemory>
    requires ready { IsReadyToAsk state.old.world }
    requires there { IsThere state.old session.0 }
    requires fresh { HasNone (table_in state.old.world) session.0 (as_request request) }
    requires fits { VerdictFits state.old session.0 (as_request request) }
    requires room { payload_limit ≤ length out.old }
    ensures runs { RunsKept state.old session.0 (as_request request) (told_in result out.new) state.new }
    ensures length { length out.new ≡ length out.old }
{
    let (told, outcome) = told_to(state, session, &request)?;
    let answered = put_told(&told, out);
    keep(state, session, request, told);
    Ok((answered, outcome))
}

/// What a request of a session is told for which none is kept: it is refused, or its call comes to its row.
fn told_to<K: Keeper>(
    state: &mut State<K>,
    session: SessionNumber,
    request: &Request,
) -> Result<(Told, Outcome), OutOfMemory>
    requires { IsReadyToAsk state.old.world }
    ensures { RunsBlock state.old session.0 (as_request request.now) result state.new }
{
    let has_user = state.sessions.user(session).is_some();
    match spelled_call(state.alloc, has_user, request) {
        Ok(call) => run(state, session, call),
        Err(Stop::Refused(code)) => Ok((refused(state.alloc, code), Outcome::Done)),
        Err(Stop::Memory) => Err(OutOfMemory),
    }
}

/// Runs the row of a call of a session, and lets go of the call.
fn run<K: Keeper>(
    state: &mut State<K>,
    session: SessionNumber,
    call: Call<'_>,
) -> Result<(Told, Outcome), OutOfMemory>
    requires { IsReadyToAsk state.old.world }
    ensures { RunsRow state.old session.0 call.entry result state.new }
{
    row(state, session, &call)
}

/// The row of a call of a session.
fn row<K: Keeper>(
    state: &mut State<K>,
    session: SessionNumber,
    call: &Call,
) -> Result<(Told, Outcome), OutOfMemory>
    requires ready { IsReady state.old.world }
    requires below { AreBelow (table_in state.old.world) }
    ensures { RunsRow state.old session.0 call.now result state.new }
{
    match call {
        // The session.
        Call::Login { version, uam, tail } => {
            Ok((
                login(
                    state,
                    session,
                    version.as_slice(),
                    uam.as_slice(),
                    tail.as_slice(),
                ),
                Outcome::Done,
            ))
        }
        Call::LoginExt {
            version,
            uam,
            name,
            tail,
            ..
        } => {
            Ok((
                login_ext(
                    state,
                    session,
                    version.as_slice(),
                    uam.as_slice(),
                    name.as_slice(),
                    tail.as_slice(),
                ),
                Outcome::Done,
            ))
        }
        Call::Logout => Ok((logout(state, session), Outcome::Done)),
        Call::GetSessionToken { .. } => get_session_token(state, session),
        Call::DisconnectOldSession { token, .. } => Ok((
            disconnect_old_session(state, session, token.as_slice()),
            Outcome::Done,
        )),
        Call::GetSrvrInfo => get_srvr_info(state),
        Call::GetSrvrParms => get_srvr_parms(state),
        Call::GetSrvrMsg { kind, bits } => get_srvr_msg(state, *kind, *bits),
        Call::GetUserInfo { flag, id, bits } => get_user_info(state, session, *flag, *id, *bits),
        Call::MapID { function, id } => map_id(state, *function, *id),
        Call::MapName { function, name } => map_name(state, *function, name.as_slice()),
        // Volumes.
        Call::OpenVol { bits, name } => open_vol(state, session, *bits, name.as_slice()),
        Call::CloseVol { volume } => close_vol(state, session, *volume),
        Call::GetVolParms { volume, bits } => get_vol_parms(state, session, *volume, *bits),
        Call::SetVolParms { volume, .. } => set_vol_parms(state, session, *volume, call),
        Call::Flush { volume } => flush(state, session, *volume),
        // Directories, and files and directories alike.
        Call::CreateDir { volume, .. } => create_dir(state, session, *volume, call),
        Call::OpenDir { volume, dir, path } => open_dir(state, session, *volume, *dir, path),
        Call::CloseDir { volume, dir } => close_dir(state, session, *volume, *dir),
        Call::Enumerate {
            volume,
            dir,
            file_bits,
            dir_bits,
            count,
            start,
            size,
            path,
        } => enumerate(
            state, session, *volume, *dir, *file_bits, *dir_bits, *count, *start, *size, path,
        ),
        Call::EnumerateExt {
            volume,
            dir,
            file_bits,
            dir_bits,
            count,
            start,
            size,
            path,
        } => enumerate_ext(
            state, session, *volume, *dir, *file_bits, *dir_bits, *count, *start, *size, path,
        ),
        Call::EnumerateExt2 {
            volume,
            dir,
            file_bits,
            dir_bits,
            count,
            start,
            size,
            path,
        } => enumerate_ext2(
            state, session, *volume, *dir, *file_bits, *dir_bits, *count, *start, *size, path,
        ),
        Call::SetDirParms {
            volume,
            bits,
            tail,
            ..
        } => set_dir_parms(state, session, *volume, *bits, tail.as_slice(), call),
        Call::GetFileDirParms {
            volume,
            dir,
            file_bits,
            dir_bits,
            path,
        } => get_file_dir_parms(state, session, *volume, *dir, *file_bits, *dir_bits, path),
        Call::SetFileDirParms { volume, .. } => set_file_dir_parms(state, session, *volume, call),
        Call::Delete { volume, .. } => delete(state, session, *volume, call),
        Call::Rename { volume, .. } => rename(state, session, *volume, call),
        Call::MoveAndRename { volume, .. } => move_and_rename(state, session, *volume, call),
        // Files.
        Call::CreateFile { volume, .. } => create_file(state, session, *volume, call),
        Call::CopyFile {
            volume,
            dir,
            target_volume,
            target_dir,
            path,
            target_path,
            new_path,
        } => copy_file(
            state,
            session,
            *volume,
            *dir,
            *target_volume,
            *target_dir,
            path,
            target_path,
            new_path,
        ),
        Call::SetFileParms { volume, .. } => set_file_parms(state, session, *volume, call),
        Call::ExchangeFiles {
            volume,
            dir,
            second_dir,
            path,
            second_path,
        } => exchange_files(
            state,
            session,
            *volume,
            *dir,
            *second_dir,
            path,
            second_path,
        ),
        Call::CreateID { volume, dir, path } => create_id(state, session, *volume, *dir, path),
        Call::DeleteID { volume, id } => delete_id(state, session, *volume, *id),
        Call::ResolveID { volume, id, bits } => resolve_id(state, session, *volume, *id, *bits),
        // Open forks.
        Call::OpenFork {
            flag,
            volume,
            dir,
            bits,
            mode,
            path,
        } => open_fork(state, session, *flag, *volume, *dir, *bits, *mode, path),
        Call::CloseFork { reference } => close_fork(state, session, *reference),
        Call::FlushFork { reference } => flush_fork(state, session, *reference),
        Call::GetForkParms { reference, bits } => get_fork_parms(state, session, *reference, *bits),
        Call::SetForkParms {
            reference,
            bits,
            tail,
        } => set_fork_parms(state, session, *reference, *bits, tail.as_slice()),
        Call::Read {
            reference,
            offset,
            count,
            mask,
            character,
        } => read(
            state, session, *reference, *offset, *count, *mask, *character,
        ),
        Call::ReadExt {
            reference,
            offset,
            count,
        } => read_ext(state, session, *reference, *offset, *count),
        Call::Write {
            flag,
            reference,
            offset,
            piece,
            ..
        } => write(state, session, *flag, *reference, *offset, piece.as_slice()),
        Call::WriteExt {
            flag,
            reference,
            offset,
            count,
            piece,
        } => write_ext(
            state,
            session,
            *flag,
            *reference,
            *offset,
            *count,
            piece.as_slice(),
        ),
        Call::ByteRangeLock {
            flags,
            reference,
            offset,
            length,
        } => byte_range_lock(state, session, *flags, *reference, *offset, *length),
        Call::ByteRangeLockExt {
            flags,
            reference,
            offset,
            length,
        } => byte_range_lock_ext(state, session, *flags, *reference, *offset, *length),
        // The desktop database.
        Call::OpenDT { volume } => open_dt(state, session, *volume),
        Call::CloseDT { dt } => close_dt(state, session, *dt),
        Call::AddIcon {
            dt,
            creator,
            kind,
            icon_kind,
            tag,
            piece,
            ..
        } => add_icon(
            state,
            session,
            *dt,
            *creator,
            *kind,
            *icon_kind,
            *tag,
            piece.as_slice(),
        ),
        Call::GetIcon {
            dt,
            creator,
            kind,
            icon_kind,
            length,
        } => get_icon(state, session, *dt, *creator, *kind, *icon_kind, *length),
        Call::GetIconInfo { dt, creator, index } => {
            get_icon_info(state, session, *dt, *creator, *index)
        }
        Call::AddAPPL {
            dt,
            dir,
            creator,
            tag,
            path,
        } => add_appl(state, session, *dt, *dir, *creator, *tag, path),
        Call::RemoveAPPL {
            dt,
            dir,
            creator,
            path,
        } => remove_appl(state, session, *dt, *dir, *creator, path),
        Call::GetAPPL {
            dt,
            creator,
            index,
            bits,
        } => get_appl(state, session, *dt, *creator, *index, *bits),
        Call::AddComment {
            dt,
            dir,
            path,
            comment,
        } => add_comment(state, session, *dt, *dir, path, comment),
        Call::RemoveComment { dt, dir, path } => remove_comment(state, session, *dt, *dir, path),
        Call::GetComment { dt, dir, path } => get_comment(state, session, *dt, *dir, path),
    }
}
