//! The numbers of the commands (AFP Reference, "AFP Commands").
ghost use Rattle.std.specs.Prelude.{◌≡◌, [], ◌∷◌, map};
ghost use Rattle.afp_calls_grammar.specs.grammar.Readers.{session_readers};
ghost use Rattle.afp_calls_grammar.specs.grammar.Readers.{volume_readers};
ghost use Rattle.afp_calls_grammar.specs.grammar.Readers.{directory_readers};
ghost use Rattle.afp_calls_grammar.specs.grammar.Readers.{file_readers};
ghost use Rattle.afp_calls_grammar.specs.grammar.Readers.{fork_readers};
ghost use Rattle.afp_calls_grammar.specs.grammar.Readers.{desktop_readers};

/// FPByteRangeLock: locks or unlocks a range of bytes of an open fork.
pub const BYTE_RANGE_LOCK: u8 = 1;

/// FPCloseVol: closes a volume.
pub const CLOSE_VOL: u8 = 2;

/// FPCloseDir: closes a directory.
pub const CLOSE_DIR: u8 = 3;

/// FPCloseFork: closes an open fork.
pub const CLOSE_FORK: u8 = 4;

/// FPCopyFile: copies a file to another place on the server.
pub const COPY_FILE: u8 = 5;

/// FPCreateDir: creates a directory.
pub const CREATE_DIR: u8 = 6;

/// FPCreateFile: creates a file.
pub const CREATE_FILE: u8 = 7;

/// FPDelete: deletes a file or an empty directory.
pub const DELETE: u8 = 8;

/// FPEnumerate: lists the files and directories in a directory.
pub const ENUMERATE: u8 = 9;

/// FPFlush: has what was changed in a volume written to the disk.
pub const FLUSH: u8 = 10;

/// FPFlushFork: has what was changed in an open fork written to the disk.
pub const FLUSH_FORK: u8 = 11;

/// FPGetForkParms: gets parameters of the file of an open fork.
pub const GET_FORK_PARMS: u8 = 14;

/// FPGetSrvrInfo: gets what a server announces of itself, without a session.
pub const GET_SRVR_INFO: u8 = 15;

/// FPGetSrvrParms: gets the server's time and the list of its volumes.
pub const GET_SRVR_PARMS: u8 = 16;

/// FPGetVolParms: gets parameters of a volume.
pub const GET_VOL_PARMS: u8 = 17;

/// FPLogin: logs a user in.
pub const LOGIN: u8 = 18;

/// FPLogout: ends a session.
pub const LOGOUT: u8 = 20;

/// FPMapID: gets the name of a user or group of an id.
pub const MAP_ID: u8 = 21;

/// FPMapName: gets the id of a user or group of a name.
pub const MAP_NAME: u8 = 22;

/// FPMoveAndRename: moves a file or directory within its volume, and may rename it.
pub const MOVE_AND_RENAME: u8 = 23;

/// FPOpenVol: opens a volume.
pub const OPEN_VOL: u8 = 24;

/// FPOpenDir: opens a directory, and gets its id.
pub const OPEN_DIR: u8 = 25;

/// FPOpenFork: opens the data fork or the resource fork of a file.
pub const OPEN_FORK: u8 = 26;

/// FPRead: reads bytes of an open fork.
pub const READ: u8 = 27;

/// FPRename: renames a file or directory.
pub const RENAME: u8 = 28;

/// FPSetDirParms: sets parameters of a directory.
pub const SET_DIR_PARMS: u8 = 29;

/// FPSetFileParms: sets parameters of a file.
pub const SET_FILE_PARMS: u8 = 30;

/// FPSetForkParms: sets the length of an open fork.
pub const SET_FORK_PARMS: u8 = 31;

/// FPSetVolParms: sets the backup date of a volume.
pub const SET_VOL_PARMS: u8 = 32;

/// FPWrite: writes bytes into an open fork.
pub const WRITE: u8 = 33;

/// FPGetFileDirParms: gets parameters of a file or directory.
pub const GET_FILE_DIR_PARMS: u8 = 34;

/// FPSetFileDirParms: sets parameters that files and directories share.
pub const SET_FILE_DIR_PARMS: u8 = 35;

/// FPGetUserInfo: gets the ids of a user.
pub const GET_USER_INFO: u8 = 37;

/// FPGetSrvrMsg: gets a message of the server.
pub const GET_SRVR_MSG: u8 = 38;

/// FPCreateID: creates a file id for a file.
pub const CREATE_ID: u8 = 39;

/// FPDeleteID: deletes a file id.
pub const DELETE_ID: u8 = 40;

/// FPResolveID: gets parameters of the file of a file id.
pub const RESOLVE_ID: u8 = 41;

/// FPExchangeFiles: exchanges the forks of two files.
pub const EXCHANGE_FILES: u8 = 42;

/// FPOpenDT: opens the desktop database of a volume.
pub const OPEN_DT: u8 = 48;

/// FPCloseDT: closes a desktop database.
pub const CLOSE_DT: u8 = 49;

/// FPGetIcon: gets an icon of a desktop database.
pub const GET_ICON: u8 = 51;

/// FPGetIconInfo: gets what a desktop database knows of an icon.
pub const GET_ICON_INFO: u8 = 52;

/// FPAddAPPL: adds an application's mapping to a desktop database.
pub const ADD_APPL: u8 = 53;

/// FPRemoveAPPL: removes an application's mapping from a desktop database.
pub const REMOVE_APPL: u8 = 54;

/// FPGetAPPL: gets an application's mapping from a desktop database.
pub const GET_APPL: u8 = 55;

/// FPAddComment: adds a comment on a file or directory to a desktop database.
pub const ADD_COMMENT: u8 = 56;

/// FPRemoveComment: removes a comment from a desktop database.
pub const REMOVE_COMMENT: u8 = 57;

/// FPGetComment: gets the comment on a file or directory.
pub const GET_COMMENT: u8 = 58;

/// FPByteRangeLockExt: locks or unlocks a range, by an offset and a length of 8 bytes.
pub const BYTE_RANGE_LOCK_EXT: u8 = 59;

/// FPReadExt: reads bytes of an open fork, by an offset and a count of 8 bytes.
pub const READ_EXT: u8 = 60;

/// FPWriteExt: writes bytes into an open fork, by an offset and a count of 8 bytes.
pub const WRITE_EXT: u8 = 61;

/// FPLoginExt: FPLogin with a user name in UTF-8.
pub const LOGIN_EXT: u8 = 63;

/// FPGetSessionToken: gets the token of a session.
pub const GET_SESSION_TOKEN: u8 = 64;

/// FPDisconnectOldSession: ends an old session, which its token names.
pub const DISCONNECT_OLD_SESSION: u8 = 65;

/// FPEnumerateExt: FPEnumerate with entries whose length has 2 bytes.
pub const ENUMERATE_EXT: u8 = 66;

/// FPEnumerateExt2: FPEnumerateExt with a first place and a greatest size of 4 bytes.
pub const ENUMERATE_EXT2: u8 = 68;

/// FPAddIcon: adds an icon to a desktop database.
pub const ADD_ICON: u8 = 192;

/// Each command has the number that begins its requests.
pub fn commands_begin_requests()
    ensures session { LOGIN ∷ LOGIN_EXT ∷ LOGOUT ∷ GET_SESSION_TOKEN ∷ DISCONNECT_OLD_SESSION ∷ GET_SRVR_INFO ∷ GET_SRVR_PARMS ∷ GET_SRVR_MSG ∷ GET_USER_INFO ∷ MAP_ID ∷ MAP_NAME ∷ [] ≡ map (λ r. r.number) session_readers }
    ensures volume { OPEN_VOL ∷ CLOSE_VOL ∷ GET_VOL_PARMS ∷ SET_VOL_PARMS ∷ FLUSH ∷ [] ≡ map (λ r. r.number) volume_readers }
    ensures directory { CREATE_DIR ∷ OPEN_DIR ∷ CLOSE_DIR ∷ ENUMERATE ∷ ENUMERATE_EXT ∷ ENUMERATE_EXT2 ∷ SET_DIR_PARMS ∷ GET_FILE_DIR_PARMS ∷ SET_FILE_DIR_PARMS ∷ DELETE ∷ RENAME ∷ MOVE_AND_RENAME ∷ [] ≡ map (λ r. r.number) directory_readers }
    ensures file { CREATE_FILE ∷ COPY_FILE ∷ SET_FILE_PARMS ∷ EXCHANGE_FILES ∷ CREATE_ID ∷ DELETE_ID ∷ RESOLVE_ID ∷ [] ≡ map (λ r. r.number) file_readers }
    ensures fork { OPEN_FORK ∷ CLOSE_FORK ∷ FLUSH_FORK ∷ GET_FORK_PARMS ∷ SET_FORK_PARMS ∷ READ ∷ READ_EXT ∷ WRITE ∷ WRITE_EXT ∷ BYTE_RANGE_LOCK ∷ BYTE_RANGE_LOCK_EXT ∷ [] ≡ map (λ r. r.number) fork_readers }
    ensures desktop { OPEN_DT ∷ CLOSE_DT ∷ ADD_ICON ∷ GET_ICON ∷ GET_ICON_INFO ∷ ADD_APPL ∷ REMOVE_APPL ∷ GET_APPL ∷ ADD_COMMENT ∷ REMOVE_COMMENT ∷ GET_COMMENT ∷ [] ≡ map (λ r. r.number) desktop_readers }
{}
