ghost use Rattle.std.specs.Prelude.{◌≡◌, ◌↔◌, ◌+◌, ◌-◌, ◌^◌, ◌<◌, min, [], ◌∷◌, ◌++◌, length, OnOk, OnErr, IsTrue, IsErrOf};
ghost use Rattle.fx_base.specs.Patterns.{Builds, BuildCause, holds, has_special, is_refused, literal_test};
ghost use Rattle.fx_base.specs.declared.patterns.PatternFault.TheVariants.{Refused};

use crate::list::List;
use crate::memory::Memory;
use crate::patterns::{PatternFault, Patterns};
use crate::text::Text;
use std::alloc::Global;

/// Literal patterns in memory, some of whose builds are refused: a text matches where it holds the
/// pattern.
#[derive(Debug, Drop)]
pub struct MemoryPatterns {
    patterns: List<Text>,
    failing: List<u64>,
    builds: u64,
    refusals: u64,
}

/// The bytes that no literal pattern holds.
const SPECIALS: [u8; 14] = *b"\\^$.|?*+()[]{}";

fn has_special(pattern: &[u8]) -> bool
    ensures { result ≡ has_special pattern.now }
{
    pattern.iter().any(|byte| SPECIALS.contains(byte))
}

fn holds(text: &[u8], pattern: &[u8]) -> bool
    ensures { result ≡ holds pattern.now text.now }
{
    let mut rest = text;
    while let [_, after @ ..] = rest {
        if rest.starts_with(pattern) {
            return true;
        }
        rest = after;
    }
    pattern.is_empty()
}

impl MemoryPatterns {
    /// No patterns yet. The builds with the numbers `failing` are refused, counted from 1.
    pub fn none(alloc: Global, failing: List<u64>) -> MemoryPatterns
        ensures built { ⟦<MemoryPatterns as Patterns>⟧.built result ≡ [] }
        ensures builds { result.builds ≡ 0 }
        ensures failing { result.failing ≡ failing }
    {
        MemoryPatterns {
            patterns: List::empty(alloc),
            failing,
            builds: 0,
            refusals: 0,
        }
    }

    /// The build of the trait: refused exactly where a number is left and the build is one of those
    /// that are to fail, or where the pattern holds one of `\ ^ $ . | ? * + ( ) [ ] { }`.
    pub fn build_literal(&mut self, text: &Text) -> Result<u32, PatternFault>
        ensures built { Builds self.old.patterns text.now result self.new.patterns }
        ensures cause { BuildCause self.old.patterns self.old.refusals self.new.refusals result }
        ensures refused { IsErrOf result Refused ↔ ((length self.old.patterns < 2 ^ 32) × IsTrue (is_refused self.old.failing self.new.builds text.now)) }
        ensures counted { self.new.builds ≡ min (self.old.builds + 1) (2 ^ 64 - 1) }
        ensures failing { self.new.failing ≡ self.old.failing }
    {
        self.builds = self.builds.saturating_add(1);
        let Ok(number) = u32::try_from(self.patterns.as_slice().len()) else {
            return Err(PatternFault::Memory);
        };
        if self.failing.as_slice().contains(&self.builds) || has_special(text.as_bytes()) {
            self.refusals = self.refusals.saturating_add(1);
            return Err(PatternFault::Refused);
        }
        match keep(&mut self.patterns, text) {
            Ok(()) => Ok(number),
            Err(_) => Err(PatternFault::Memory),
        }
    }
}

fn keep(patterns: &mut List<Text>, text: &Text) -> Result<(), Memory>
    ensures ok { OnOk result (patterns.new ≡ patterns.old ++ text.now ∷ []) }
    ensures err { OnErr result (patterns.new ≡ patterns.old) }
{
    patterns.push(text.copy()?)
}

impl Patterns for MemoryPatterns {
    ghost built = { λ m. m.patterns };

    ghost refusals = { λ m. m.refusals };

    ghost test = { λ m. literal_test m.patterns };

    fn build(&mut self, _: Global, text: &Text) -> Result<u32, PatternFault> {
        self.build_literal(text)
    }

    fn matches(&mut self, _: Global, number: u32, text: &Text) -> Result<bool, Memory> {
        let pattern = &self.patterns.as_slice()[number as usize];
        Ok(holds(text.as_bytes(), pattern.as_bytes()))
    }
}
