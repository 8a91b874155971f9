//! What a request asks of its reply.
use afp_replies::ReplyKind;

/// The number of two bytes at a place of a block; 0 where it has no such bytes.
fn number_at(block: &[u8], place: usize) -> u16 {
    if place < block.len() && block.len() - place >= 2 {
        u16::from(block[place]) * 256 + u16::from(block[place + 1])
    } else {
        0
    }
}

/// The kind of the reply to a request, by the first byte of its block: the bits are those that a script's commands ask.
pub fn kind_of(block: &[u8]) -> ReplyKind {
    let command = if block.is_empty() { 0 } else { block[0] };
    let (bits, dir_bits) = match command {
        24 => (0x20, 0),
        34 => (number_at(block, 8), number_at(block, 10)),
        41 => (0x2000, 0),
        68 => (0x2100, 0x2100),
        _ => (0, 0),
    };
    ReplyKind {
        command,
        bits,
        dir_bits,
    }
}
