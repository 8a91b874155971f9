//! Reads and writes of a fork at any place.
ghost use Rattle.std.specs.Prelude.{◌≡◌, ◌<◌, ◌≤◌, ◌^◌, length};
ghost use Rattle.client_script_lines.specs.calls.Asked.{IsAskable};
ghost use Rattle.client_files.specs.Requests.{most_piece, read_at, write_at};

use afp_base::ForkRef;
use afp_calls_grammar::{Call, Piece};

/// The most bytes of a piece: the quantum that the server answers.
pub const MOST_PIECE: usize = 130_048;

/// FPReadExt of so many bytes from this one on.
#[tactic(auto, using(crate::proofs::AskableLemmas::askable_read_at))]
pub fn read_at(reference: ForkRef, from: u64, count: u64) -> Call<'static>
    requires from { from < 2 ^ 63 }
    requires count { count < 2 ^ 63 }
    ensures call { result ≡ read_at reference from count }
    ensures askable { IsAskable result }
{
    Call::ReadExt {
        reference,
        offset: from as i64,
        count: count as i64,
    }
}

/// FPWriteExt of these bytes from this one on.
#[tactic(auto, using(crate::proofs::AskableLemmas::askable_write_at))]
pub fn write_at<'a>(reference: ForkRef, from: u64, piece: &'a [u8]) -> Call<'a>
    requires from { from < 2 ^ 63 }
    requires piece { length piece.now ≤ most_piece }
    ensures call { result ≡ write_at reference from piece.now }
    ensures askable { IsAskable result }
{
    Call::WriteExt {
        flag: 0,
        reference,
        offset: from as i64,
        count: piece.len() as i64,
        piece: Piece::new(piece),
    }
}
