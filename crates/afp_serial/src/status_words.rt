//! The words by which a server announces itself in its status block, and by which it takes logins (AFP
//! Reference, "FPGetSrvrInfo", "FPLogin").
use afp_calls_grammar::grammar::login_names::{
    CLEARTEXT, NO_USER, VERSION_3_1, VERSION_3_2, VERSION_3_3,
};

/// What kind of machine the server is.
pub const MACHINE_TYPE: &str = "Macintosh";

/// The versions that the server speaks, in the order in which it announces them.
pub const VERSIONS: [&str; 3] = [VERSION_3_3, VERSION_3_2, VERSION_3_1];

/// The user authentication methods (UAMs) that the server announces, in this order.
pub const UAMS: [&str; 2] = [NO_USER, CLEARTEXT];

/// The flag of a server that has FPCopyFile.
pub const COPY_FILE_FLAG: u16 = 0x0001;

/// The flag of a server that has messages.
pub const SERVER_MESSAGES_FLAG: u16 = 0x0008;

/// The flag of a status block with a signature.
pub const SERVER_SIGNATURE_FLAG: u16 = 0x0010;

/// The flag of a server that speaks TCP.
pub const TCP_FLAG: u16 = 0x0020;

/// The flag of a server whose sessions can be taken up again.
pub const RECONNECT_FLAG: u16 = 0x0080;

/// The flag of a status block with the server's name in UTF-8.
pub const UTF8_NAME_FLAG: u16 = 0x0200;

/// The flags that the server sets.
pub const SERVER_FLAGS: u16 = COPY_FILE_FLAG
    | SERVER_MESSAGES_FLAG
    | SERVER_SIGNATURE_FLAG
    | TCP_FLAG
    | RECONNECT_FLAG
    | UTF8_NAME_FLAG;
