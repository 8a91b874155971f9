//! The requests about logging in and out (AFP Reference, "Login Commands").

ghost use Rattle.std.specs.Prelude.{◌≡◌, ◌<◌, ◌^◌, [], ◌∷◌, length, OnOk, OnErr};
ghost use Rattle.afp_names.specs.Path.{long_names, utf8_names};
ghost use Rattle.afp_calls_grammar.specs.grammar.Words.{Counted, Even, Tail, Within, count_size, counted_field};
ghost use Rattle.afp_calls_grammar.specs.grammar.Reading.{Alone, words};
ghost use Rattle.afp_calls_grammar.specs.declared.grammar.call.Call.TheVariants.{LoginExt};
ghost use Rattle.afp_calls_grammar.specs.grammar.Login.{login, login_reader, login_ext, login_ext_reader, logout, logout_reader};
ghost use Rattle.afp_calls_grammar.specs.fields.Input.{read_on};
ghost use Rattle.afp_calls_grammar.specs.fields.Taking.{IsFound, Takes};
ghost use Rattle.afp_calls_grammar.specs.fields.lemma.Taking.{Gives};
ghost use Rattle.afp_base.specs.Appended.{Keeps};
ghost use Rattle.afp_calls_grammar.specs.fields.Putting.{PutsAll, Puts};

use afp_base::{Bytes, OutOfMemory};
use afp_calls_grammar::grammar::commands::{LOGIN, LOGIN_EXT, LOGOUT};
use afp_calls_grammar::{
    Call, Fields, ReadFault, put_bytes, put_command, put_even, put_literal, put_pad, put_str,
    put_text, put_u8, put_u16,
};
use afp_names::{LONG_NAMES, UTF8_NAMES};
use std::alloc::Global;

/// Reads 18 FPLogin: AFP version, UAM (a Pascal string each), user authentication information (all
/// that remains).
pub(crate) fn read_login<'a>(alloc: Global, fields: &mut Fields<'a>) -> Result<Call<'a>, ReadFault>
    ensures { Gives login_reader fields.old result }
{
    let version = fields.str(alloc)?;
    let uam = fields.str(alloc)?;
    let tail = fields.tail(alloc)?;
    fields.alone()?;
    Ok(Call::Login { version, uam, tail })
}

/// Writes FPLogin: 18 and these fields. Version and UAM have at most 255 bytes each.
pub(crate) fn write_login(
    out: &mut Bytes,
    version: &Bytes,
    uam: &Bytes,
    tail: &Bytes,
) -> Result<(), OutOfMemory>
    requires version { length version.now < 256 }
    requires uam { length uam.now < 256 }
    ensures put { OnOk result (PutsAll (login version.now uam.now tail.now).fields out.old out.new) }
    ensures err { OnErr result (Keeps out.old out.new) }
{
    put_command(out, LOGIN)?;
    put_str(out, version.as_slice())?;
    put_str(out, uam.as_slice())?;
    put_bytes(out, tail.as_slice())
}

/// Reads 63 FPLoginExt: pad, flags (2), AFP version, UAM (a Pascal string each), user name type (1; 3), user name (count 2, bytes),
/// path type (1; 2 or 3), pathname (count 1 or 2, bytes), pad to even, user authentication information (all that remains).
pub(crate) fn read_login_ext<'a>(
    alloc: Global,
    fields: &mut Fields<'a>,
) -> Result<Call<'a>, ReadFault>
    ensures { Gives login_ext_reader fields.old result }
{
    fields.pad()?;
    let flags = fields.u16()?;
    let version = fields.str(alloc)?;
    let uam = fields.str(alloc)?;
    fields.literal(UTF8_NAMES)?;
    let name = fields.text(alloc)?;
    read_login_ext_path(alloc, fields, flags, LoginNames { version, uam, name })
}

/// The names of FPLoginExt before its path.
#[derive(Drop)]
struct LoginNames {
    version: Bytes,
    uam: Bytes,
    name: Bytes,
}

/// The path of FPLoginExt, and what follows it.
fn read_login_ext_path<'a>(
    alloc: Global,
    fields: &mut Fields<'a>,
    flags: u16,
    names: LoginNames,
) -> Result<Call<'a>, ReadFault>
    ensures { IsFound (read_on (words (Within 1 long_names utf8_names ∷ []) (λ path_kind. words (Counted (count_size path_kind) ∷ Even ∷ Tail ∷ []) (λ path _ rest. Alone (LoginExt flags names.version names.uam names.name path_kind path rest)))) fields.old) result }
{
    let path_kind = fields.u8_within(LONG_NAMES, UTF8_NAMES)?;
    let path = path_text(alloc, fields, path_kind)?;
    fields.even()?;
    let tail = fields.tail(alloc)?;
    fields.alone()?;
    Ok(Call::LoginExt {
        flags,
        version: names.version,
        uam: names.uam,
        name: names.name,
        path_kind,
        path,
        tail,
    })
}

/// Writes FPLoginExt: 63 and these fields, pads as 0. Each text is short enough for its count,
/// which for the pathname is that of its type.
pub(crate) fn write_login_ext(
    out: &mut Bytes,
    flags: u16,
    version: &Bytes,
    uam: &Bytes,
    name: &Bytes,
    path_kind: u8,
    path: &Bytes,
    tail: &Bytes,
) -> Result<(), OutOfMemory>
    requires version { length version.now < 256 }
    requires uam { length uam.now < 256 }
    requires name { length name.now < 256 ^ 2 }
    requires path { length path.now < 256 ^ (count_size path_kind) }
    ensures put { OnOk result
        (PutsAll (login_ext flags version.now uam.now name.now path_kind path.now tail.now).fields
        out.old out.new) }
    ensures err { OnErr result (Keeps out.old out.new) }
{
    let start = out.as_slice().len();
    put_command(out, LOGIN_EXT)?;
    put_pad(out)?;
    put_u16(out, flags)?;
    put_str(out, version.as_slice())?;
    put_str(out, uam.as_slice())?;
    put_literal(out, UTF8_NAMES)?;
    put_text(out, name.as_slice())?;
    put_u8(out, path_kind)?;
    put_path_text(out, path_kind, path.as_slice())?;
    put_even(out, start)?;
    put_bytes(out, tail.as_slice())
}

/// Reads 20 FPLogout: pad, which may be missing.
pub(crate) fn read_logout<'a>(fields: &mut Fields<'a>) -> Result<Call<'a>, ReadFault>
    ensures { Gives logout_reader fields.old result }
{
    fields.last_pad();
    fields.alone()?;
    Ok(Call::Logout)
}

/// Writes FPLogout: 20 and the pad, as 0.
pub(crate) fn write_logout(out: &mut Bytes) -> Result<(), OutOfMemory>
    ensures put { OnOk result (PutsAll logout.fields out.old out.new) }
    ensures err { OnErr result (Keeps out.old out.new) }
{
    put_command(out, LOGOUT)?;
    put_pad(out)
}

/// The bytes of a path of that type, behind their count.
fn path_text(alloc: Global, fields: &mut Fields<'_>, kind: u8) -> Result<Bytes, ReadFault>
    ensures { Takes (Counted (count_size kind)) fields.old result fields.new }
{
    if kind == LONG_NAMES {
        return fields.str(alloc);
    }
    fields.text(alloc)
}

/// The bytes of a path of that type, behind their count.
fn put_path_text(out: &mut Bytes, kind: u8, text: &[u8]) -> Result<(), OutOfMemory>
    requires { length text.now < 256 ^ count_size kind }
    ensures put { OnOk result (Puts (counted_field (count_size kind) text.now) out.old out.new) }
    ensures err { OnErr result (out.new ≡ out.old) }
{
    if kind == LONG_NAMES {
        return put_str(out, text);
    }
    put_text(out, text)
}
