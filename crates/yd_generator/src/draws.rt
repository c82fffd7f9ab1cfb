//! The draws of the generator.

ghost use Rattle.std.specs.Prelude.{◌≡◌, ◌<◌, ◌^◌};
ghost use Rattle.yd_generator.specs.Draws.{draws_from, drawn, next_state};

/// Three draws, and the state behind them.
#[derive(Clone, Copy)]
pub struct Draws {
    /// Whether the edit inserts or deletes, below 2^15.
    pub x: u64,
    /// At which index, below 2^15.
    pub y: u64,
    /// Which letter, below 2^15.
    pub z: u64,
    /// The state behind the three, below 2^31.
    pub state: u64,
}

/// The factor, the summand and the modulus of the states (ISO C, the example of rand).
const FACTOR: u64 = 1_103_515_245;

const SUMMAND: u64 = 12_345;

const MODULUS: u64 = 0x8000_0000;

/// The three draws that follow a state.
pub fn draws_from(state: u64) -> Draws
    requires { state < 2 ^ 31 }
    ensures draws { result ≡ draws_from state }
    ensures state { result.state < 2 ^ 31 }
    ensures small { result.y < 2 ^ 15 }
{
    let first = next_state(state);
    let second = next_state(first);
    let third = next_state(second);
    Draws {
        x: drawn(first),
        y: drawn(second),
        z: drawn(third),
        state: third,
    }
}

/// The state after one more draw.
fn next_state(state: u64) -> u64
    requires { state < 2 ^ 31 }
    ensures next { result ≡ next_state state }
    ensures state { result < 2 ^ 31 }
{
    (FACTOR * state + SUMMAND) % MODULUS
}

/// What a draw gives: the upper half of the state that it leads to.
fn drawn(state: u64) -> u64
    requires { state < 2 ^ 31 }
    ensures drawn { result ≡ drawn state }
    ensures small { result < 2 ^ 15 }
{
    state / 0x1_0000
}
