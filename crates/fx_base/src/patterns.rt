ghost use Rattle.std.specs.Prelude.{◌≡◌, ℕ, ◌<◌, List, Bool, length, IfOk};
ghost use Rattle.fx_base.specs.Patterns.{Builds, BuildCause, SameTests};

use crate::memory::Memory;
use crate::text::Text;
use std::alloc::Global;

/// Why a pattern was not built.
#[derive(Clone, Copy, Debug, PartialEq, Eq)]
pub enum PatternFault {
    /// The object takes no such pattern.
    Refused,
    /// Want of memory, or no number is left.
    Memory,
}

/// Patterns by number, in the order in which they were built, from 0.
pub trait Patterns {
    /// The texts that were built, each at its number.
    ghost built: { Self → List (List ℕ) };
    /// How many builds the object refused. It never falls.
    ghost refusals: { Self → ℕ };
    /// Whether the pattern with this number matches the text.
    ghost test: { Self → ℕ → List ℕ → Bool };

    /// Builds the pattern and gives its number. Earlier numbers keep their tests.
    fn build(&mut self, alloc: Global, text: &Text) -> Result<u32, PatternFault>
        ensures built { Builds (built self.old) text.now result (built self.new) }
        ensures cause { BuildCause (built self.old) (refusals self.old) (refusals self.new) result }
        ensures tests { SameTests (built self.old) (test self.old) (test self.new) };

    /// Whether the pattern with this number matches the text.
    fn matches(&mut self, alloc: Global, number: u32, text: &Text) -> Result<bool, Memory>
        requires { number < length (built self.old) }
        ensures answer { IfOk result (λ b. b ≡ test self.old number text.now) }
        ensures built { built self.new ≡ built self.old }
        ensures refusals { refusals self.new ≡ refusals self.old }
        ensures tests { SameTests (built self.old) (test self.old) (test self.new) };
}
