//! A file's name on the server, and on this machine.
//!
//! A name of the server is any bytes. A local name holds no `/`, is not `.` or `..`, and does not begin with `._`, which is a sidecar's.
//! So `/` is `:`, `:` is `%3A`, and a first `.` that can't stand is `%2E`. A `%` that would be read as one of these is `%25`.
ghost use Rattle.std.specs.Prelude.{◌≡◌, ◌++◌, ◌∷◌, ◌<◌, true, List, ℕ, IfOk, OnOk, length};
ghost use Rattle.client_files.specs.Names.{IsLocal, begins, begins_dotted, begins_hidden, begins_pair, behind_25, is_colon, is_dot, is_hidden, is_nil, local_byte, local_bytes, local_name, server_bytes, server_name, unescaped};

use afp_base::{Bytes, OutOfMemory, rest_of};
use std::alloc::Global;

/// The two names of a file come back from each other, and a local name stands. The function does nothing: its contract is the law.
#[tactic(auto, using(crate::proofs::NameLemmas::server_back, crate::proofs::NameLemmas::local_back, crate::proofs::NameLemmas::local_stands))]
pub fn names_come_back()
    ensures server { (name : List ℕ) → server_name (local_name name) ≡ name }
    ensures local { (name : List ℕ) → IsLocal name → local_name (server_name name) ≡ name }
    ensures stands { (name : List ℕ) → IsLocal (local_name name) }
{}

/// Whether these bytes begin with this one.
fn begins(bytes: &[u8], byte: u8) -> bool
    ensures { result ≡ begins byte bytes.now }
{
    match bytes.first() {
        Some(first) => *first == byte,
        None => false,
    }
}

/// Whether these bytes begin with this pair.
#[tactic(auto, using(crate::proofs::NameSteps::pair_here))]
fn begins_pair(bytes: &[u8], first: u8, second: u8) -> bool
    ensures { result ≡ begins_pair first second bytes.now }
{
    begins(bytes, first) && begins(rest_of(bytes, 1), second)
}

/// The bytes behind each `25` at the front.
#[tactic(auto, using(crate::proofs::NameSteps::behind_step, crate::proofs::NameSteps::pair_some, crate::proofs::NameLemmas::behind_stays))]
fn behind_25(bytes: &[u8]) -> &[u8]
    ensures { result.now ≡ behind_25 bytes.now }
{
    let mut rest = bytes;
    while begins_pair(rest, b'2', b'5') {
        rest = rest_of(rest, 2);
    }
    rest
}

/// Whether a `%` before these bytes stands for a `:`, or for a `%` that would else.
fn is_colon(bytes: &[u8]) -> bool
    ensures { result ≡ is_colon bytes.now }
{
    begins_pair(behind_25(bytes), b'3', b'A')
}

/// Whether a name that goes on like this behind a first `.` can't stand locally.
#[tactic(auto, using(crate::proofs::NameSteps::hidden_here))]
fn is_hidden(bytes: &[u8]) -> bool
    ensures { result ≡ is_hidden bytes.now }
{
    bytes.is_empty() || begins(bytes, b'_') || (begins(bytes, b'.') && bytes.len() == 1)
}

/// Whether a first `%` before these bytes stands for a first `.`, or for a `%` that would else.
#[tactic(auto, using(crate::proofs::NameSteps::dot_here))]
fn is_dot(bytes: &[u8]) -> bool
    ensures { result ≡ is_dot bytes.now }
{
    let rest = behind_25(bytes);
    begins_pair(rest, b'2', b'E') && is_hidden(rest_of(rest, 2))
}

/// Appends what stands locally for a byte of the server's name, before these.
fn put_local(out: &mut Bytes, byte: u8, rest: &[u8]) -> Result<(), OutOfMemory>
    ensures { OnOk result (out.new ≡ out.old ++ local_byte byte rest.now) }
{
    match byte {
        b'/' => out.extend(b":"),
        b':' => out.extend(b"%3A"),
        b'%' => {
            if is_colon(rest) {
                out.extend(b"%25")
            } else {
                out.extend(b"%")
            }
        }
        _ => out.extend(&[byte]),
    }
}

/// Appends what stands locally for these bytes.

fn put_locals(out: &mut Bytes, name: &[u8]) -> Result<(), OutOfMemory>
    ensures { OnOk result (out.new ≡ out.old ++ local_bytes name.now) }
{
    let mut rest = name;
    while !rest.is_empty() {
        let more = rest_of(rest, 1);
        put_local(out, rest[0], more)?;
        rest = more;
    }
    Ok(())
}

/// Whether these bytes are `.` or `..`, or begin with `._`.
#[tactic(auto, using(crate::proofs::NameSteps::hidden_begins))]
fn begins_hidden(name: &[u8]) -> bool
    ensures { result ≡ begins_hidden name.now }
{
    begins(name, b'.') && is_hidden(rest_of(name, 1))
}

/// Whether these bytes begin with a `%` that stands for a first `.`, or for a `%` that would else.
#[tactic(auto, using(crate::proofs::NameSteps::dotted_begins))]
fn begins_dotted(name: &[u8]) -> bool
    ensures { result ≡ begins_dotted name.now }
{
    begins(name, b'%') && is_dot(rest_of(name, 1))
}

/// Appends a first dot that may not be seen, and what stands locally for these bytes.
fn put_dot(out: &mut Bytes, rest: &[u8]) -> Result<(), OutOfMemory>
    ensures { OnOk result (out.new ≡ out.old ++ 37 ∷ 50 ∷ 69 ∷ local_bytes rest.now) }
{
    out.extend(b"%2E")?;
    put_locals(out, rest)?;
    Ok(())
}

/// Appends a first `%` that would be read as such a dot, and what stands locally for these bytes.
fn put_percent(out: &mut Bytes, rest: &[u8]) -> Result<(), OutOfMemory>
    ensures { OnOk result (out.new ≡ out.old ++ 37 ∷ 50 ∷ 53 ∷ local_bytes rest.now) }
{
    out.extend(b"%25")?;
    put_locals(out, rest)?;
    Ok(())
}

/// Appends the local name of a name of the server.
#[tactic(auto, using(crate::proofs::NameSteps::hidden_is, crate::proofs::NameSteps::dotted_is, crate::proofs::NameSteps::other_is))]
fn put_name(out: &mut Bytes, name: &[u8]) -> Result<(), OutOfMemory>
    ensures { OnOk result (out.new ≡ out.old ++ local_name name.now) }
{
    let rest = rest_of(name, 1);
    if begins_hidden(name) {
        put_dot(out, rest)?;
        return Ok(());
    }
    if begins_dotted(name) {
        put_percent(out, rest)?;
        return Ok(());
    }
    put_locals(out, name)?;
    Ok(())
}

/// The local name of a name of the server.
pub fn local_name(alloc: Global, name: &[u8]) -> Result<Bytes, OutOfMemory>
    ensures { IfOk result (λ local. local ≡ local_name name.now) }
{
    let mut out = Bytes::new(alloc);
    put_name(&mut out, name)?;
    Ok(out)
}

/// The byte that a `%` before these stands for, where it stands for one.
fn unescaped(bytes: &[u8]) -> u8
    ensures { (c d : ℕ) (rest : List ℕ) → bytes.now ≡ c ∷ d ∷ rest → result ≡ unescaped c d }
{
    if begins(bytes, b'3') {
        b':'
    } else if begins(rest_of(bytes, 1), b'5') {
        b'%'
    } else {
        b'.'
    }
}

/// Appends the first byte of the server's name of these, and gives the bytes behind it.
#[tactic(auto, using(crate::proofs::NameSteps::server_colon, crate::proofs::NameSteps::server_percent, crate::proofs::NameSteps::server_other, crate::proofs::NameSteps::server_escaped))]
fn put_server<'a>(out: &mut Bytes, name: &'a [u8]) -> Result<&'a [u8], OutOfMemory>
    requires { 0 < length name.now }
    ensures puts { IfOk result (λ rest. out.old ++ server_bytes name.now ≡ out.new ++ server_bytes rest.now) }
    ensures less { IfOk result (λ rest. length rest.now < length name.now) }
{
    let rest = rest_of(name, 1);
    let byte = name[0];
    if byte == b':' {
        out.extend(b"/")?;
        return Ok(rest);
    }
    if byte != b'%' {
        out.extend(&[byte])?;
        return Ok(rest);
    }
    if is_colon(rest) {
        out.extend(&[unescaped(rest)])?;
        return Ok(rest_of(rest, 2));
    }
    out.extend(b"%")?;
    Ok(rest)
}

/// Appends the server's name of these bytes.

fn put_servers(out: &mut Bytes, name: &[u8]) -> Result<(), OutOfMemory>
    ensures { OnOk result (out.new ≡ out.old ++ server_bytes name.now) }
{
    let mut rest = name;
    while !rest.is_empty() {
        let more = put_server(out, rest)?;
        rest = more;
    }
    Ok(())
}

/// Appends the server's name of a local name that begins with a dot, or with a `%`, in such a form.
fn put_dotted(out: &mut Bytes, name: &[u8]) -> Result<(), OutOfMemory>
    requires { begins_dotted name.now ≡ true }
    ensures { OnOk result (out.new ≡ out.old ++ server_name name.now) }
{
    let rest = rest_of(name, 1);
    let byte = unescaped(rest);
    out.extend(&[byte])?;
    let more = rest_of(rest, 2);
    put_servers(out, more)?;
    Ok(())
}

/// The name of the server of a local name.
#[tactic(auto, using(crate::proofs::NameLemmas::name_plain))]
pub fn server_name(alloc: Global, name: &[u8]) -> Result<Bytes, OutOfMemory>
    ensures { IfOk result (λ server. server ≡ server_name name.now) }
{
    let mut out = Bytes::new(alloc);
    if begins_dotted(name) {
        put_dotted(&mut out, name)?;
        return Ok(out);
    }
    put_servers(&mut out, name)?;
    Ok(out)
}
