//! Counts of faults.

ghost use Rattle.std.specs.Prelude.{◌≡◌};
ghost use Rattle.ep_io.specs.Faults.{counted, NeverFalls, Rose};

use crate::outside::Failed;
use std::marker::Model;

// How many faults there were, up to the last value of 64 bits.
#[derive(Drop)]
pub(crate) struct Faults {
    pub count: u64,
}

impl Model for Faults {
    ghost use Rattle.std.specs.Prelude.{ℕ};

    ghost Value = { ℕ };

    ghost view = { λ faults. faults.count };
}

impl Faults {
    /// No fault yet.
    pub fn none() -> Self
        ensures { result ≡ 0 }
    {
        Faults { count: 0 }
    }

    /// Counts one more.
    pub fn raise(&mut self) -> Failed
        ensures counted { self.new ≡ counted self.old }
        ensures never_falls { NeverFalls self.old self.new }
        ensures rose { Rose self.old self.new }
    {
        self.count = self.count.saturating_add(1);
        Failed
    }
}
