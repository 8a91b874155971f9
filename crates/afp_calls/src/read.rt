//! Reads requests.
ghost use Rattle.std.specs.Prelude.{◌≡◌, Some, None, MatchResult};
ghost use Rattle.std.specs.Option.{option_copied};
ghost use Rattle.afp_calls_grammar.specs.declared.grammar.call.Call.{Call};
ghost use Rattle.afp_calls_grammar.specs.declared.grammar.call.ReadFault.{ReadFault};
ghost use Rattle.afp_calls_grammar.specs.grammar.Laws.{BeginsWithCommand, BeginsWithNoCommand};
ghost use Rattle.afp_calls_grammar.specs.grammar.Spelt.{is_command, readers, spelt_call};
ghost use Rattle.afp_calls.specs.Answer.{IsReadAnswer, IsReadRefusal};
ghost use Rattle.afp_calls.specs.lemma.Known.{Knows};

use crate::group::{Group, group_with};
use afp_calls_desktop::read_desktop_call;
use afp_calls_directory::read_directory_call;
use afp_calls_file::read_file_call;
use afp_calls_fork::read_fork_call;
use afp_calls_grammar::grammar::laws::{one_request_for_each, what_is_spelt_can_be_written};
use afp_calls_grammar::{Call, Fields, ReadFault};
use afp_calls_session::read_session_call;
use afp_calls_volume::read_volume_call;
use std::alloc::Global;

/// Whether a command has that number.
#[tactic(auto, unfolding(afp_calls_grammar::specs::grammar::Spelt::is_command))]
pub fn is_command(number: u8) -> bool
    ensures { result ≡ is_command number }
{
    match group_with(number) {
        Some(_) => true,
        None => false,
    }
}

/// The request that a block spells, with the bytes that are enclosed in a Write frame; FPWrite,
/// FPWriteExt and FPAddIcon come in a Write frame alone, and the others in none. Bytes behind a
/// request's last field are free, and so are those behind its piece. `NotSupported` exactly where
/// the block's first byte is no command, `Param` exactly where there is no first byte or the command
/// is spelt otherwise.
pub fn read_call<'a>(
    alloc: Global,
    block: &'a [u8],
    enclosed: Option<&'a [u8]>,
) -> Result<Call<'a>, ReadFault>
    ensures answer { IsReadAnswer block.now (option_copied enclosed.entry) result }

    // What is spelt is read, unless memory runs out.
    ensures read { (call : Call) → spelt_call block.now (option_copied enclosed.entry) ≡ Some call
        → MatchResult result (λ c. c ≡ call) (λ fault. fault ≡ ReadFault.Memory) }

    // What is not spelt is refused: as an unknown command, or as a known one or none.
    ensures unknown { BeginsWithNoCommand block.now → IsReadRefusal result ReadFault.NotSupported }
    ensures misspelt { BeginsWithCommand block.now → spelt_call block.now (option_copied enclosed.entry) ≡ None
        → IsReadRefusal result ReadFault.Param }
{
    one_request_for_each();
    read(alloc, block, enclosed)
}

fn read<'a>(
    alloc: Global,
    block: &'a [u8],
    enclosed: Option<&'a [u8]>,
) -> Result<Call<'a>, ReadFault>
    ensures { IsReadAnswer block.now (option_copied enclosed.entry) result }
{
    one_request_for_each();
    what_is_spelt_can_be_written();
    if block.is_empty() {
        return Err(ReadFault::Param);
    }
    let mut fields = Fields::new(block, 1, enclosed);
    read_known(alloc, block[0], &mut fields)
}

/// The request of that number, whose fields stand behind it.
#[tactic(auto, using(crate::proofs::GroupLemmas::group_knows))]
fn read_known<'a>(
    alloc: Global,
    command: u8,
    fields: &mut Fields<'a>,
) -> Result<Call<'a>, ReadFault>
    ensures { Knows readers command fields.old result }
{
    match group_with(command) {
        Some(Group::Session) => read_session_call(alloc, command, fields),
        Some(Group::Volume) => read_volume_call(alloc, command, fields),
        Some(Group::Directory) => read_directory_call(alloc, command, fields),
        Some(Group::File) => read_file_call(alloc, command, fields),
        Some(Group::Fork) => read_fork_call(alloc, command, fields),
        Some(Group::Desktop) => read_desktop_call(alloc, command, fields),
        None => Err(ReadFault::NotSupported),
    }
}
