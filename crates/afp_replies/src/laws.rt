//! What holds of replies without any call.
ghost use Rattle.std.specs.Prelude.{◌≡◌, ◌↔◌, ◌<◌, ◌%◌, ℕ, Bool, true, List, length, slice_index};
ghost use Rattle.afp_base.specs.declared.code.Code.{Code};
ghost use Rattle.afp_replies.specs.declared.list.ListEntry.{ListEntry};
ghost use Rattle.afp_replies.specs.declared.reply.Reply.{Reply};
ghost use Rattle.afp_replies.specs.declared.reply.ReplyKind.{ReplyKind};
ghost use Rattle.afp_replies.specs.Commands.{shape_of};
ghost use Rattle.afp_replies.specs.Entry.{entry_bytes, FitsEntry};
ghost use Rattle.afp_replies.specs.Fitting.{FitsReply};
ghost use Rattle.afp_replies.specs.Replies.{Shows, IsShown, canonical_reply};
ghost use Rattle.afp_replies.specs.Requested.{FitsRequest, tells_nothing};

use afp_bitmap::one_block_for_each;

/// Bytes are one reply to a request at most.
pub fn one_reply_for_each()
    ensures { (r s : Reply) (kind : ReplyKind) (code : Code) (bytes : List ℕ) → ((i : ℕ) → slice_index bytes i < 256)
        → Shows r kind code bytes → Shows s kind code bytes → r ≡ s }
{
    one_block_for_each();
}

/// What is written of a reply is that reply: whatever bytes show it, those that are written do.
pub fn what_is_written_is_shown()
    ensures { (r : Reply) (kind : ReplyKind) (code : Code) (bytes : List ℕ) → Shows r kind code bytes → Shows r kind code (canonical_reply r) }
{}

/// Each entry of a list is even in size, so none needs a pad at its end.
pub fn entries_are_even()
    ensures { (wide : Bool) (file_bits dir_bits : ℕ) (e : ListEntry) → FitsEntry wide file_bits dir_bits e
        → length (entry_bytes wide file_bits dir_bits e) % 2 ≡ 0 }
{}

/// Just those replies are shown by some bytes whose numbers fit their fields, whose texts and lists
/// can be counted, and whose values are those that their bits ask for.
pub fn what_fits_is_shown()
    ensures { (r : Reply) → IsShown r ↔ FitsReply r }
{}

/// Just those replies are shown to a request of this kind, with this code, that fit and have the fields
/// that the request asks for: by the bytes that are written.
pub fn what_fits_a_request_is_shown_to_it()
    ensures shown { (r : Reply) (kind : ReplyKind) (code : Code) → FitsRequest kind code r → Shows r kind code (canonical_reply r) }
    ensures only { (r : Reply) (kind : ReplyKind) (code : Code) (bytes : List ℕ) → Shows r kind code bytes → FitsRequest kind code r }

    // A refusal that tells nothing.
    ensures nothing { (kind : ReplyKind) (code : Code) → tells_nothing (shape_of kind.command) code ≡ true → FitsRequest kind code Reply.Empty }
{}
