//! What a call without memory answers.

/// A growth found no memory.
#[derive(Clone, Copy, Debug, PartialEq, Eq)]
pub struct NoMemory;

impl From<yd_state::NoMemory> for NoMemory {
    ghost use Rattle.std.specs.Prelude.{◌≡◌};

    ghost from_gives = { λ _ e. e ≡ record {} };

    fn from(_error: yd_state::NoMemory) -> NoMemory {
        NoMemory
    }
}

impl From<yd_agreement::NoMemory> for NoMemory {
    ghost use Rattle.std.specs.Prelude.{◌≡◌};

    ghost from_gives = { λ _ e. e ≡ record {} };

    fn from(_error: yd_agreement::NoMemory) -> NoMemory {
        NoMemory
    }
}

impl From<yd_honesty::NoMemory> for NoMemory {
    ghost use Rattle.std.specs.Prelude.{◌≡◌};

    ghost from_gives = { λ _ e. e ≡ record {} };

    fn from(_error: yd_honesty::NoMemory) -> NoMemory {
        NoMemory
    }
}
