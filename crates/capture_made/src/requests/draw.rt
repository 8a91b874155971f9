//! Numbers that are drawn.
ghost use Rattle.std.specs.Prelude.{◌≡◌};
ghost use Rattle.capture_made.specs.requests.Drawing.{next_state, number_of, drawn, state_after};

/// The state of the generator behind this one.
#[tactic(auto, unfolding(crate::specs::requests::Drawing::next_state))]
fn next_state(state: u64) -> u64
    ensures { result ≡ next_state state }
{
    state
        .wrapping_mul(6_364_136_223_846_793_005)
        .wrapping_add(1_442_695_040_888_963_407)
}

/// The number that is drawn with a state.
fn number_of(state: u64) -> u64
    ensures { result ≡ number_of state }
{
    state / 0x2_0000_0000
}

/// The four numbers of a step.
#[derive(Clone, Copy)]
pub struct Draws {
    pub c: u64,
    pub o: u64,
    pub a: u64,
    pub b: u64,
}

/// Draws one number, and gives the state behind it.
pub fn draw_one(state: u64) -> (u64, u64)
    ensures number { result.0 ≡ number_of (next_state state) }
    ensures state { result.1 ≡ next_state state }
{
    let next = next_state(state);
    (number_of(next), next)
}

/// Draws the numbers of a step, in their order, and gives the state behind them.
pub fn draw_step(state: u64) -> (Draws, u64)
    ensures c { result.0.c ≡ (drawn state).c }
    ensures o { result.0.o ≡ (drawn state).o }
    ensures a { result.0.a ≡ (drawn state).a }
    ensures b { result.0.b ≡ (drawn state).b }
    ensures state { result.1 ≡ state_after state }
{
    let first = next_state(state);
    let second = next_state(first);
    let third = next_state(second);
    let fourth = next_state(third);
    let draws = Draws {
        c: number_of(first),
        o: number_of(second),
        a: number_of(third),
        b: number_of(fourth),
    };
    (draws, fourth)
}
