//! The AFP versions and the user authentication methods (UAMs) of a login, by their names (AFP Reference,
//! "FPLogin", "User Authentication Methods").

/// AFP 3.3, by its name.
pub const VERSION_3_3: &str = "AFP3.3";

/// AFP 3.2, by its name.
pub const VERSION_3_2: &str = "AFP3.2";

/// AFP 3.1, by its name.
pub const VERSION_3_1: &str = "AFP3.1";

/// The UAM without a user, by its name.
pub const NO_USER: &str = "No User Authent";

/// The UAM by name and password, by its name.
pub const CLEARTEXT: &str = "Cleartxt Passwrd";
