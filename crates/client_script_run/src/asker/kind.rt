//! By what the reply to a call is read.
ghost use Rattle.std.specs.Prelude.{◌≡◌};
ghost use Rattle.afp_serial.specs.ReplyKinds.{bits_in_call, command_of, dir_bits_of, reply_kind};

use afp_calls_grammar::Call;
use afp_calls_grammar::grammar::commands::*;
use afp_replies::ReplyKind;

/// The number of its command.
fn command_of(call: &Call) -> u8
    ensures { result ≡ command_of call.now }
{
    match call {
        Call::ByteRangeLock { .. } => BYTE_RANGE_LOCK,
        Call::CloseVol { .. } => CLOSE_VOL,
        Call::CloseDir { .. } => CLOSE_DIR,
        Call::CloseFork { .. } => CLOSE_FORK,
        Call::CopyFile { .. } => COPY_FILE,
        Call::CreateDir { .. } => CREATE_DIR,
        Call::CreateFile { .. } => CREATE_FILE,
        Call::Delete { .. } => DELETE,
        Call::Enumerate { .. } => ENUMERATE,
        Call::Flush { .. } => FLUSH,
        Call::FlushFork { .. } => FLUSH_FORK,
        Call::GetForkParms { .. } => GET_FORK_PARMS,
        Call::GetSrvrInfo => GET_SRVR_INFO,
        Call::GetSrvrParms => GET_SRVR_PARMS,
        Call::GetVolParms { .. } => GET_VOL_PARMS,
        Call::Login { .. } => LOGIN,
        Call::Logout => LOGOUT,
        Call::MapID { .. } => MAP_ID,
        Call::MapName { .. } => MAP_NAME,
        Call::MoveAndRename { .. } => MOVE_AND_RENAME,
        Call::OpenVol { .. } => OPEN_VOL,
        Call::OpenDir { .. } => OPEN_DIR,
        Call::OpenFork { .. } => OPEN_FORK,
        Call::Read { .. } => READ,
        Call::Rename { .. } => RENAME,
        Call::SetDirParms { .. } => SET_DIR_PARMS,
        Call::SetFileParms { .. } => SET_FILE_PARMS,
        Call::SetForkParms { .. } => SET_FORK_PARMS,
        Call::SetVolParms { .. } => SET_VOL_PARMS,
        Call::Write { .. } => WRITE,
        Call::GetFileDirParms { .. } => GET_FILE_DIR_PARMS,
        Call::SetFileDirParms { .. } => SET_FILE_DIR_PARMS,
        Call::GetUserInfo { .. } => GET_USER_INFO,
        Call::GetSrvrMsg { .. } => GET_SRVR_MSG,
        Call::CreateID { .. } => CREATE_ID,
        Call::DeleteID { .. } => DELETE_ID,
        Call::ResolveID { .. } => RESOLVE_ID,
        Call::ExchangeFiles { .. } => EXCHANGE_FILES,
        Call::OpenDT { .. } => OPEN_DT,
        Call::CloseDT { .. } => CLOSE_DT,
        Call::GetIcon { .. } => GET_ICON,
        Call::GetIconInfo { .. } => GET_ICON_INFO,
        Call::AddAPPL { .. } => ADD_APPL,
        Call::RemoveAPPL { .. } => REMOVE_APPL,
        Call::GetAPPL { .. } => GET_APPL,
        Call::AddComment { .. } => ADD_COMMENT,
        Call::RemoveComment { .. } => REMOVE_COMMENT,
        Call::GetComment { .. } => GET_COMMENT,
        Call::ByteRangeLockExt { .. } => BYTE_RANGE_LOCK_EXT,
        Call::ReadExt { .. } => READ_EXT,
        Call::WriteExt { .. } => WRITE_EXT,
        Call::LoginExt { .. } => LOGIN_EXT,
        Call::GetSessionToken { .. } => GET_SESSION_TOKEN,
        Call::DisconnectOldSession { .. } => DISCONNECT_OLD_SESSION,
        Call::EnumerateExt { .. } => ENUMERATE_EXT,
        Call::EnumerateExt2 { .. } => ENUMERATE_EXT2,
        Call::AddIcon { .. } => ADD_ICON,
    }
}

/// The bits that it asks for.
fn bits_of(call: &Call) -> u16
    ensures { result ≡ bits_in_call call.now }
{
    match call {
        Call::Enumerate { file_bits, .. } => *file_bits,
        Call::EnumerateExt { file_bits, .. } => *file_bits,
        Call::EnumerateExt2 { file_bits, .. } => *file_bits,
        Call::GetAPPL { bits, .. } => *bits,
        Call::GetFileDirParms { file_bits, .. } => *file_bits,
        Call::GetForkParms { bits, .. } => *bits,
        Call::GetSrvrMsg { bits, .. } => *bits,
        Call::GetUserInfo { bits, .. } => *bits,
        Call::GetVolParms { bits, .. } => *bits,
        Call::MapID { function, .. } => u16::from(*function),
        Call::OpenFork { bits, .. } => *bits,
        Call::OpenVol { bits, .. } => *bits,
        Call::ResolveID { bits, .. } => *bits,
        _ => 0,
    }
}

/// The bits that it asks for of directories.
fn dir_bits_of(call: &Call) -> u16
    ensures { result ≡ dir_bits_of call.now }
{
    match call {
        Call::Enumerate { dir_bits, .. } => *dir_bits,
        Call::EnumerateExt { dir_bits, .. } => *dir_bits,
        Call::EnumerateExt2 { dir_bits, .. } => *dir_bits,
        Call::GetFileDirParms { dir_bits, .. } => *dir_bits,
        _ => 0,
    }
}

/// By what the reply to a call is read.
pub(crate) fn reply_kind(call: &Call) -> ReplyKind
    ensures { result ≡ reply_kind call.now }
{
    ReplyKind {
        command: command_of(call),
        bits: bits_of(call),
        dir_bits: dir_bits_of(call),
    }
}
