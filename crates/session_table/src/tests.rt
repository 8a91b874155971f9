use super::*;
use afp_base::SessionNumber;
use std::test::Fail;

/// The numbers of sessions, and their tokens under the key of the bytes 0 to 31. The last eight bytes are the first of the key stream that
/// `openssl enc -chacha20` makes with that key of eight bytes of 0 and the number, low byte first, as the initial value (OpenSSL 3.0).
fn tokens() -> &'static [(u64, [u8; 16])] {
    &[
        (
            1,
            [
                0, 0, 0, 0, 0, 0, 0, 1, 0x2f, 0xa4, 0xf1, 0x02, 0x50, 0x80, 0x8e, 0x89,
            ],
        ),
        (
            0x0102_0304_0506_0708,
            [
                1, 2, 3, 4, 5, 6, 7, 8, 0x15, 0x46, 0xa1, 0x66, 0x76, 0x84, 0xb1, 0x72,
            ],
        ),
    ]
}

fn key() -> [u8; 32] {
    [
        0, 1, 2, 3, 4, 5, 6, 7, 8, 9, 10, 11, 12, 13, 14, 15, 16, 17, 18, 19, 20, 21, 22, 23, 24,
        25, 26, 27, 28, 29, 30, 31,
    ]
}

#[test]
fn tokens_are_those_of_another_programs_key_stream(rt: HostRuntime) -> Result<(), Fail> {
    let sessions = Sessions::new(rt.alloc(), key())?;
    for (number, token) in tokens() {
        assert_eq!(rt; sessions.token(SessionNumber(*number)), *token);
    }
    Ok(())
}
