//! What is at a path.
ghost use Rattle.std.specs.Prelude.{◌≡◌, IfOk};
ghost use Rattle.client_script_lines.specs.calls.Asked.{IsAskable};
ghost use Rattle.client_script_commands.specs.parcels.Found.{found_in, shown_of};
ghost use Rattle.client_script_commands.specs.parts.Told.{MustTell};

use crate::parts::{Asker, Stop, must, replies_tell};
use afp_base::{Bytes, OutOfMemory};
use afp_bitmap::{FileValues, Values};
use afp_calls_grammar::Call;
use afp_replies::Reply;

/// What is shown of a file. Dates are in seconds from 2000-01-01 00:00 GMT; the least number means never.
#[derive(Drop)]
pub struct Shown {
    pub created: i32,
    pub modified: i32,
    pub backup: i32,
    pub finder: [u8; 32],
    pub name: Bytes,
}

/// What is at a path.
#[derive(Drop)]
pub enum Found {
    Shown(Shown),
    Directory,
}

/// Lets a reply go.
fn let_go(_reply: Reply) {}

/// What is shown of a file.
fn shown_of(values: &FileValues) -> Result<Shown, OutOfMemory>
    ensures { IfOk result (λ shown. shown ≡ shown_of values.now) }
{
    Ok(Shown {
        created: values.created,
        modified: values.modified,
        backup: values.backup,
        finder: values.finder,
        name: values.utf8_name.copy()?,
    })
}

/// A file or a directory.
fn found_of(reply: &Reply) -> Result<Option<Found>, OutOfMemory>
    ensures { IfOk result (λ found. found ≡ found_in reply.now) }
{
    match reply {
        Reply::FileDirParams {
            values: Values::File(values),
            ..
        } => Ok(Some(Found::Shown(shown_of(values)?))),
        Reply::FileDirParams {
            values: Values::Dir(_),
            ..
        } => Ok(Some(Found::Directory)),
        _ => Ok(None),
    }
}

/// Asks a call whose reply tells a file or a directory.
pub(crate) fn ask_found<A: Asker>(asker: &mut A, call: Call) -> Result<Found, Stop<A::End>>
    requires { IsAskable call }
    ensures { MustTell found_in call.entry (A.exchanges asker.old) result (A.exchanges asker.new) }
{
    replies_tell::<A, Found>();
    let reply = must(asker, call)?;
    let found = found_of(&reply);
    let_go(reply);
    match found {
        Ok(Some(value)) => Ok(value),
        Ok(None) => Err(Stop::BadReply),
        Err(_) => Err(Stop::Memory),
    }
}
