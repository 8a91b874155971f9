//! Laws of users and of the calls about the session. Each function says one, and does nothing.
ghost use Rattle.afp_serial.specs.LoginLaws as login_laws;
ghost use Rattle.afp_serial.specs.SessionExamples as worked;

/// What logins and the calls about users, messages and the server are told, in values that were worked by hand.
pub fn worked_sessions_hold()
    ensures logins { worked.LogsIn }
    ensures users { worked.MapsUsers }
    ensures own { worked.TellsOwnUser }
    ensures messages { worked.TellsMessages }
    ensures closing { worked.TellsClosing }
    ensures volumes { worked.TellsVolumes }
{}

/// Whoever has logged in to a session is the user without a name, or one of the house. A login by name and password that is not refused gave
/// exactly the name of a user of the house, and all 8 bytes of its password; the session is then that user's. By the login without a user it is the one's without
/// a name.
pub fn users_log_in_by_their_passwords()
    ensures known { login_laws.UsersAreKnown }
    ensures login { login_laws.LogsInByPassword }
    ensures login_ext { login_laws.ExtLogsInByPassword }
    ensures no_name { login_laws.LogsInWithoutName }
{}
