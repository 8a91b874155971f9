//! The group of requests that a command belongs to.
ghost use Rattle.afp_calls.specs.lemma.Known.{IsGroupWith};

use afp_calls_grammar::grammar::commands::{
    ADD_APPL, ADD_COMMENT, ADD_ICON, BYTE_RANGE_LOCK, BYTE_RANGE_LOCK_EXT, CLOSE_DIR, CLOSE_DT,
    CLOSE_FORK, CLOSE_VOL, COPY_FILE, CREATE_DIR, CREATE_FILE, CREATE_ID, DELETE, DELETE_ID,
    DISCONNECT_OLD_SESSION, ENUMERATE, ENUMERATE_EXT, ENUMERATE_EXT2, EXCHANGE_FILES, FLUSH,
    FLUSH_FORK, GET_APPL, GET_COMMENT, GET_FILE_DIR_PARMS, GET_FORK_PARMS, GET_ICON, GET_ICON_INFO,
    GET_SESSION_TOKEN, GET_SRVR_INFO, GET_SRVR_MSG, GET_SRVR_PARMS, GET_USER_INFO, GET_VOL_PARMS,
    LOGIN, LOGIN_EXT, LOGOUT, MAP_ID, MAP_NAME, MOVE_AND_RENAME, OPEN_DIR, OPEN_DT, OPEN_FORK,
    OPEN_VOL, READ, READ_EXT, REMOVE_APPL, REMOVE_COMMENT, RENAME, RESOLVE_ID, SET_DIR_PARMS,
    SET_FILE_DIR_PARMS, SET_FILE_PARMS, SET_FORK_PARMS, SET_VOL_PARMS, WRITE, WRITE_EXT,
};

/// A group of requests.
#[derive(Clone, Copy)]
pub(crate) enum Group {
    Session,
    Volume,
    Directory,
    File,
    Fork,
    Desktop,
}

/// The group whose request has that number, or none.
pub(crate) fn group_with(command: u8) -> Option<Group>
    ensures { IsGroupWith command result }
{
    match command {
        LOGIN
        | LOGIN_EXT
        | LOGOUT
        | GET_SESSION_TOKEN
        | DISCONNECT_OLD_SESSION
        | GET_SRVR_INFO
        | GET_SRVR_PARMS
        | GET_SRVR_MSG
        | GET_USER_INFO
        | MAP_ID
        | MAP_NAME => Some(Group::Session),
        OPEN_VOL | CLOSE_VOL | GET_VOL_PARMS | SET_VOL_PARMS | FLUSH => Some(Group::Volume),
        CREATE_DIR
        | OPEN_DIR
        | CLOSE_DIR
        | ENUMERATE
        | ENUMERATE_EXT
        | ENUMERATE_EXT2
        | SET_DIR_PARMS
        | GET_FILE_DIR_PARMS
        | SET_FILE_DIR_PARMS
        | DELETE
        | RENAME
        | MOVE_AND_RENAME => Some(Group::Directory),
        CREATE_FILE
        | COPY_FILE
        | SET_FILE_PARMS
        | EXCHANGE_FILES
        | CREATE_ID
        | DELETE_ID
        | RESOLVE_ID => Some(Group::File),
        OPEN_FORK
        | CLOSE_FORK
        | FLUSH_FORK
        | GET_FORK_PARMS
        | SET_FORK_PARMS
        | READ
        | READ_EXT
        | WRITE
        | WRITE_EXT
        | BYTE_RANGE_LOCK
        | BYTE_RANGE_LOCK_EXT => Some(Group::Fork),
        OPEN_DT
        | CLOSE_DT
        | ADD_ICON
        | GET_ICON
        | GET_ICON_INFO
        | ADD_APPL
        | REMOVE_APPL
        | GET_APPL
        | ADD_COMMENT
        | REMOVE_COMMENT
        | GET_COMMENT => Some(Group::Desktop),
        _ => None,
    }
}
