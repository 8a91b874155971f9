//! The kinds of a request that it tells by a number.
ghost use Rattle.std.specs.Prelude.{◌≡◌};
ghost use Rattle.afp_calls_grammar.specs.grammar.Kinds.{first_function, last_function, last_utf8_function, login_without_id, login_with_time_and_id, reconn_with_time_and_id};

/// The functions of FPMapID and FPMapName run from the first to the last (AFP Reference, FPMapID,
/// FPMapName).
pub const FIRST_FUNCTION: u8 = 1;

/// The last function of FPMapID and FPMapName.
pub const LAST_FUNCTION: u8 = 4;

/// The last function of FPMapName that maps a name in UTF-8.
pub const LAST_UTF8_FUNCTION: u8 = 2;

/// The first type of FPGetSessionToken (AFP Reference, FPGetSessionToken).
pub const LOGIN_WITHOUT_ID: u16 = 0;

/// A type of FPGetSessionToken that comes with a time stamp.
pub const LOGIN_WITH_TIME_AND_ID: u16 = 3;

/// The last type of FPGetSessionToken, which comes with a time stamp.
pub const RECONN_WITH_TIME_AND_ID: u16 = 4;

/// Each kind has the number of its definition.
pub fn kinds_are_as_defined()
    ensures first { FIRST_FUNCTION ≡ first_function }
    ensures last { LAST_FUNCTION ≡ last_function }
    ensures utf8 { LAST_UTF8_FUNCTION ≡ last_utf8_function }
    ensures least_token { LOGIN_WITHOUT_ID ≡ login_without_id }
    ensures stamped_token { LOGIN_WITH_TIME_AND_ID ≡ login_with_time_and_id }
    ensures greatest_token { RECONN_WITH_TIME_AND_ID ≡ reconn_with_time_and_id }
{}
