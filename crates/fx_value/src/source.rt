ghost use Rattle.std.specs.Prelude.{◌≡◌, IfOk, IsTrue};
ghost use Rattle.fx_value.specs.Source.{is_first, is_second};

use crate::scalar::Scalar;
use fx_base::Memory;

/// Where rows that share their labels find the value of a label.
#[derive(Debug, Drop)]
pub enum Source {
    /// All rows have this value.
    Fixed(Scalar),
    /// Each row has a value of its own: its first.
    First,
    /// Each row has a value of its own: its second.
    Second,
}

impl Source {
    pub fn copy(&self) -> Result<Source, Memory>
        ensures { IfOk result (λ s. s ≡ self.now) }
    {
        match self {
            Source::Fixed(value) => Ok(Source::Fixed(value.copy()?)),
            Source::First => Ok(Source::First),
            Source::Second => Ok(Source::Second),
        }
    }

    pub fn is_first(&self) -> bool
        ensures { result ≡ is_first self.now }
    {
        matches!(self, Source::First)
    }

    pub fn is_second(&self) -> bool
        ensures { result ≡ is_second self.now }
    {
        matches!(self, Source::Second)
    }

    pub fn is_same(&self, other: &Source) -> bool
        ensures { IsTrue result → self.now ≡ other.now }
    {
        match (self, other) {
            (Source::Fixed(a), Source::Fixed(b)) => a.is_same(b),
            (Source::First, Source::First) => true,
            (Source::Second, Source::Second) => true,
            _ => false,
        }
    }
}
