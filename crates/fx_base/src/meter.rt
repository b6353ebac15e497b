ghost use Rattle.std.specs.Prelude.{◌≡◌, ℕ, ◌+◌, ◌-◌, ◌^◌, ◌<◌, ◌≤◌, min, OnOk, OnErr, IfErr};

/// A budget of ticks, and how many of them are spent. Calls that take one leave the budget as it
/// is, and never spend past it.
#[derive(Clone, Copy, Debug, PartialEq, Eq)]
pub struct Meter {
    pub budget: u64,
    pub spent: u64,
}

impl Meter {
    /// Spends `n` ticks. It refuses exactly where that passes the budget, and the meter is then as
    /// it was; the answer is the sum of ticks, or the greatest `u64` where the sum is greater.
    pub fn spend(&mut self, n: u64) -> Result<(), u64>
        requires { self.old.spent ≤ self.old.budget }
        ensures budget { self.new.budget ≡ self.old.budget }
        ensures ok { OnOk result ((self.new.spent ≡ self.old.spent + n) × (self.old.spent + n ≤ self.old.budget)) }
        ensures same { OnErr result (self.new.spent ≡ self.old.spent) }
        ensures over { IfErr result (λ ticks. (self.old.budget < self.old.spent + n) × (ticks ≡ min (self.old.spent + n) (2 ^ 64 - 1))) }
    {
        if n > self.budget - self.spent {
            return Err(self.spent.saturating_add(n));
        }
        self.spent += n;
        Ok(())
    }
}
