//! The entries of a list.
ghost use Rattle.std.specs.Prelude.{◌≡◌, ◌++◌, ◌<◌, length, None, Some, IfOk, OnOk, MatchOption};
ghost use Rattle.client_script_commands.specs.ls.Ls.{node_line, rows_in, rows_text};
ghost use Rattle.client_script_commands.specs.ls.lemma.Listing.{PutsList};

use crate::parts::Answer;
use afp_base::{Bytes, OutOfMemory};
use afp_bitmap::Values;
use afp_replies::{ListEntry, Reply};
use client_script_lines::put_entry;
use std::alloc::Global;

fn put_node(alloc: Global, text: &mut Bytes, values: &Values) -> Result<(), OutOfMemory>
    ensures { OnOk result (text.new ≡ text.old ++ node_line values.now) }
{
    match values {
        Values::File(file) => put_entry(alloc, text, b"file ", file.id, file.utf8_name.as_slice()),
        Values::Dir(dir) => put_entry(alloc, text, b"dir ", dir.id, dir.utf8_name.as_slice()),
        Values::Volume(_) => Ok(()),
    }
}

/// Appends the line of the first entry, and gives the rest.
fn put_first<'a>(
    alloc: Global,
    text: &mut Bytes,
    rows: &'a [ListEntry],
) -> Result<&'a [ListEntry], OutOfMemory>
    requires { 0 < length rows.now }
    ensures text { IfOk result (λ rest. text.new ++ rows_text rest.now ≡ text.old ++ rows_text rows.now) }
    ensures less { IfOk result (λ rest. length rest.now < length rows.now) }
{
    let row = &rows[0];
    put_node(alloc, text, &row.values)?;
    Ok(&rows[1..])
}

/// Appends the lines of entries.
#[tactic(auto, using(crate::proofs::OfLs::RowLemmas::all_rows))]
fn put_rows(alloc: Global, text: &mut Bytes, rows: &[ListEntry]) -> Result<(), OutOfMemory>
    ensures { OnOk result (text.new ≡ text.old ++ rows_text rows.now) }
{
    let mut rest = rows;
    while !rest.is_empty() {
        rest = put_first(alloc, text, rest)?;
    }
    Ok(())
}

/// The entries of a list.
fn rows_of(reply: &Reply) -> Option<&[ListEntry]>
    ensures { MatchOption result (rows_in reply.now ≡ None) (λ rows. rows_in reply.now ≡ Some rows.now) }
{
    match reply {
        Reply::List { rows, .. } => Some(rows.as_slice()),
        _ => None,
    }
}

fn put_list(alloc: Global, text: &mut Bytes, reply: &Reply) -> Result<Option<u64>, OutOfMemory>
    ensures { IfOk result (λ size. PutsList (rows_in reply.now) text.old text.new size) }
{
    match rows_of(reply) {
        Some(rows) => {
            put_rows(alloc, text, rows)?;
            Ok(Some(rows.len() as u64))
        }
        None => Ok(None),
    }
}

/// Appends the lines of a list's entries, and tells how many it has; `None` where there is no list.
pub(crate) fn put_answer(
    alloc: Global,
    text: &mut Bytes,
    answer: Answer,
) -> Result<Option<u64>, OutOfMemory>
    ensures { IfOk result (λ size. PutsList (rows_in answer.reply) text.old text.new size) }
{
    put_list(alloc, text, &answer.reply)
}
