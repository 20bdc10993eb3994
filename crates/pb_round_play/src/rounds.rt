//! How many rounds of each side there were.
ghost use Rattle.std.specs.Prelude.{◌≡◌, ◌==◌, if◌then◌else◌};

/// How many rounds of each side there were. An object with one side has none of the second.
#[derive(Clone, Copy, Debug, PartialEq, Eq)]
pub struct Rounds {
    pub first: u64,
    pub second: u64,
}

impl Rounds {
    ghost use Rattle.pb_round_play.specs.Counts.{with_side_counted};

    /// How many of a side.
    pub fn of(&self, side: u32) -> u64
        ensures { result ≡ (if side == 0 then self.now.first else self.now.second) }
    {
        if side == 0 { self.first } else { self.second }
    }

    /// With one more of a side.
    pub fn with(self, side: u32) -> Self
        ensures { result ≡ with_side_counted side self }
    {
        match side {
            0 => Rounds {
                first: self.first.saturating_add(1),
                ..self
            },
            1 => Rounds {
                second: self.second.saturating_add(1),
                ..self
            },
            _ => self,
        }
    }
}
