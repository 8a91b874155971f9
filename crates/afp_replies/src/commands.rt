//! The commands, and the shapes of their replies.
ghost use Rattle.std.specs.Prelude.{◌≡◌, map};
ghost use Rattle.afp_replies.specs.Commands.{shape_in, shape_of};
ghost use Rattle.afp_replies.specs.lemma.Reading.{row_of};

const BYTE_RANGE_LOCK: u8 = 1;

const CLOSE_VOL: u8 = 2;

const CLOSE_DIR: u8 = 3;

const CLOSE_FORK: u8 = 4;

const COPY_FILE: u8 = 5;

const CREATE_DIR: u8 = 6;

const CREATE_FILE: u8 = 7;

const DELETE: u8 = 8;

const ENUMERATE: u8 = 9;

const FLUSH: u8 = 10;

const FLUSH_FORK: u8 = 11;

const GET_FORK_PARMS: u8 = 14;

const GET_SRVR_INFO: u8 = 15;

const GET_SRVR_PARMS: u8 = 16;

const GET_VOL_PARMS: u8 = 17;

const LOGIN: u8 = 18;

const LOGOUT: u8 = 20;

const MAP_ID: u8 = 21;

const MAP_NAME: u8 = 22;

const MOVE_AND_RENAME: u8 = 23;

const OPEN_VOL: u8 = 24;

const OPEN_DIR: u8 = 25;

const OPEN_FORK: u8 = 26;

const READ: u8 = 27;

const RENAME: u8 = 28;

const SET_DIR_PARMS: u8 = 29;

const SET_FILE_PARMS: u8 = 30;

const SET_FORK_PARMS: u8 = 31;

const SET_VOL_PARMS: u8 = 32;

const WRITE: u8 = 33;

const GET_FILE_DIR_PARMS: u8 = 34;

const SET_FILE_DIR_PARMS: u8 = 35;

const GET_USER_INFO: u8 = 37;

const GET_SRVR_MSG: u8 = 38;

const CREATE_ID: u8 = 39;

const DELETE_ID: u8 = 40;

const RESOLVE_ID: u8 = 41;

const EXCHANGE_FILES: u8 = 42;

const OPEN_DT: u8 = 48;

const CLOSE_DT: u8 = 49;

const GET_ICON: u8 = 51;

const GET_ICON_INFO: u8 = 52;

const ADD_APPL: u8 = 53;

const REMOVE_APPL: u8 = 54;

const GET_APPL: u8 = 55;

const ADD_COMMENT: u8 = 56;

const REMOVE_COMMENT: u8 = 57;

const GET_COMMENT: u8 = 58;

const BYTE_RANGE_LOCK_EXT: u8 = 59;

const READ_EXT: u8 = 60;

const WRITE_EXT: u8 = 61;

const LOGIN_EXT: u8 = 63;

const GET_SESSION_TOKEN: u8 = 64;

const DISCONNECT_OLD_SESSION: u8 = 65;

const ENUMERATE_EXT: u8 = 66;

const ENUMERATE_EXT2: u8 = 68;

const ADD_ICON: u8 = 192;

/// The functions of FPMapID (AFP Reference, "FPMapID").
pub(crate) const USER_ID_TO_NAME: u16 = 1;

pub(crate) const GROUP_ID_TO_NAME: u16 = 2;

pub(crate) const USER_ID_TO_UTF8_NAME: u16 = 3;

pub(crate) const GROUP_ID_TO_UTF8_NAME: u16 = 4;

/// The shapes of replies.
#[derive(Clone, Copy)]
pub(crate) enum Shape {
    /// No command has it.
    Unlisted,
    Empty,
    Start,
    StartExt,
    End,
    EndExt,
    Node,
    NarrowList,
    WideList,
    FileParams,
    VolumeParams,
    FileDirParams,
    Status,
    ServerParams,
    MappedName,
    MappedId,
    Opened,
    /// Bytes of a fork, which a read at its end has too.
    Data,
    Icon,
    IconInfo,
    UserInfo,
    Message,
    Desk,
    Appl,
    Comment,
    Token,
}

/// A command, and the shape of its reply.
#[derive(Clone, Copy)]
struct ShapeRow(u8, Shape);

const ROWS: [ShapeRow; 57] = [
    ShapeRow(BYTE_RANGE_LOCK, Shape::Start),
    ShapeRow(CLOSE_VOL, Shape::Empty),
    ShapeRow(CLOSE_DIR, Shape::Empty),
    ShapeRow(CLOSE_FORK, Shape::Empty),
    ShapeRow(COPY_FILE, Shape::Empty),
    ShapeRow(CREATE_DIR, Shape::Node),
    ShapeRow(CREATE_FILE, Shape::Empty),
    ShapeRow(DELETE, Shape::Empty),
    ShapeRow(ENUMERATE, Shape::NarrowList),
    ShapeRow(FLUSH, Shape::Empty),
    ShapeRow(FLUSH_FORK, Shape::Empty),
    ShapeRow(GET_FORK_PARMS, Shape::FileParams),
    ShapeRow(GET_SRVR_INFO, Shape::Status),
    ShapeRow(GET_SRVR_PARMS, Shape::ServerParams),
    ShapeRow(GET_VOL_PARMS, Shape::VolumeParams),
    ShapeRow(LOGIN, Shape::Empty),
    ShapeRow(LOGOUT, Shape::Empty),
    ShapeRow(MAP_ID, Shape::MappedName),
    ShapeRow(MAP_NAME, Shape::MappedId),
    ShapeRow(MOVE_AND_RENAME, Shape::Empty),
    ShapeRow(OPEN_VOL, Shape::VolumeParams),
    ShapeRow(OPEN_DIR, Shape::Node),
    ShapeRow(OPEN_FORK, Shape::Opened),
    ShapeRow(READ, Shape::Data),
    ShapeRow(RENAME, Shape::Empty),
    ShapeRow(SET_DIR_PARMS, Shape::Empty),
    ShapeRow(SET_FILE_PARMS, Shape::Empty),
    ShapeRow(SET_FORK_PARMS, Shape::Empty),
    ShapeRow(SET_VOL_PARMS, Shape::Empty),
    ShapeRow(WRITE, Shape::End),
    ShapeRow(GET_FILE_DIR_PARMS, Shape::FileDirParams),
    ShapeRow(SET_FILE_DIR_PARMS, Shape::Empty),
    ShapeRow(GET_USER_INFO, Shape::UserInfo),
    ShapeRow(GET_SRVR_MSG, Shape::Message),
    ShapeRow(CREATE_ID, Shape::Node),
    ShapeRow(DELETE_ID, Shape::Empty),
    ShapeRow(RESOLVE_ID, Shape::FileParams),
    ShapeRow(EXCHANGE_FILES, Shape::Empty),
    ShapeRow(OPEN_DT, Shape::Desk),
    ShapeRow(CLOSE_DT, Shape::Empty),
    ShapeRow(GET_ICON, Shape::Icon),
    ShapeRow(GET_ICON_INFO, Shape::IconInfo),
    ShapeRow(ADD_APPL, Shape::Empty),
    ShapeRow(REMOVE_APPL, Shape::Empty),
    ShapeRow(GET_APPL, Shape::Appl),
    ShapeRow(ADD_COMMENT, Shape::Empty),
    ShapeRow(REMOVE_COMMENT, Shape::Empty),
    ShapeRow(GET_COMMENT, Shape::Comment),
    ShapeRow(BYTE_RANGE_LOCK_EXT, Shape::StartExt),
    ShapeRow(READ_EXT, Shape::Data),
    ShapeRow(WRITE_EXT, Shape::EndExt),
    ShapeRow(LOGIN_EXT, Shape::Empty),
    ShapeRow(GET_SESSION_TOKEN, Shape::Token),
    ShapeRow(DISCONNECT_OLD_SESSION, Shape::Empty),
    ShapeRow(ENUMERATE_EXT, Shape::WideList),
    ShapeRow(ENUMERATE_EXT2, Shape::WideList),
    ShapeRow(ADD_ICON, Shape::Empty),
];

/// The shape in the row of a command.
fn shape_in(rows: &[ShapeRow], command: u8) -> Shape
    ensures { result ≡ shape_in (map row_of rows.now) command }
{
    for row in rows {
        if row.0 == command {
            return row.1;
        }
    }
    Shape::Unlisted
}

/// The shape of the reply to a command.
pub(crate) fn shape_of(command: u8) -> Shape
    ensures { result ≡ shape_of command }
{
    shape_in(&ROWS, command)
}
