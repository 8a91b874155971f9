//! The first byte that differs.
ghost use Rattle.std.specs.Prelude.{◌≡◌, ◌+◌, ◌^◌, ◌<◌, length};
ghost use Rattle.capture_log_server.specs.Connections.{difference};

/// The first byte that differs from what is wanted: its place in the output, the byte that is wanted there, and the one that
/// stands there, if one does.
#[derive(Clone, Copy, Debug, PartialEq, Eq)]
pub struct Difference {
    pub at: u64,
    pub want: u8,
    pub got: Option<u8>,
}

/// The first byte of `wanted` that differs from what stands there, where both begin at the place `at`.
pub fn first_difference(wanted: &[u8], rest: &[u8], at: u64) -> Option<Difference>
    requires { at + length wanted.now < 2 ^ 64 }
    ensures { result ≡ difference at wanted.now rest.now }
{
    let mut left = wanted;
    let mut behind = rest;
    let mut place = at;
    while let Some((want, more)) = left.split_first() {
        let Some((got, later)) = behind.split_first() else {
            return Some(Difference {
                at: place,
                want: *want,
                got: None,
            });
        };
        if *got != *want {
            return Some(Difference {
                at: place,
                want: *want,
                got: Some(*got),
            });
        }
        left = more;
        behind = later;
        place += 1;
    }
    None
}
