//! As whom a person logs in.
ghost use Rattle.std.specs.Prelude.{IfOk, IfSome};
ghost use Rattle.afp_client.specs.session.Opening.{FitsLogin};

use afp_base::Bytes;
use afp_client::Login;
use std::os::unix::fs::PermissionsExt;
use std::{env, fs};

/// The text of a file that nobody else may read.
fn secret_text(rt: &HostRuntime, path: &str) -> Result<String, &'static str> {
    let Ok(data) = fs::metadata(rt, path) else {
        return Err("the password's file is not there");
    };
    if data.permissions().mode() & 0o077 != 0 {
        return Err("others may read the password's file (chmod 600)");
    }
    match fs::read_to_string(rt, path) {
        Ok(text) => Ok(text),
        Err(_) => Err("the password's file can't be read"),
    }
}

/// The text in which the password stands.
fn text_of(rt: &HostRuntime, file: Option<&str>) -> Result<String, &'static str> {
    if let Some(path) = file {
        return secret_text(rt, path);
    }
    match env::var(rt, "AFPCMD_PASSWORD") {
        Ok(text) => Ok(text),
        Err(_) => Err("there is no password (AFPCMD_PASSWORD, --password-file)"),
    }
}

/// The eight bytes of a password, with zeros behind it.
fn padded(line: &[u8]) -> Result<[u8; 8], &'static str> {
    if line.len() > 8 {
        return Err("a password has at most 8 bytes");
    }
    let mut password = [0; 8];
    password[..line.len()].copy_from_slice(line);
    Ok(password)
}

/// The first line of a text.
fn first_line(text: &str) -> &str {
    match text.split_once('\n') {
        Some((line, _)) => line.trim_end(),
        None => text,
    }
}

/// The login of a user, and a guest's where none is named.
pub fn login_of(
    rt: &HostRuntime,
    user: Option<&str>,
    file: Option<&str>,
) -> Result<Login, &'static str>
    ensures { IfOk result FitsLogin }
{
    let Some(user) = user else {
        return Ok(Login { user: None });
    };
    if user.len() > 255 {
        return Err("a user's name has at most 255 bytes");
    }
    let text = text_of(rt, file)?;
    let password = padded(first_line(text.as_str()).as_bytes())?;
    match Bytes::of(rt.alloc(), user.as_bytes()) {
        Ok(name) => Ok(Login {
            user: Some((name, password)),
        }),
        Err(_) => Err("there is no memory"),
    }
}
