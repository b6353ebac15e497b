ghost use Rattle.std.specs.Prelude.{◌≡◌, ◌↔◌, IfOk, IsTrue};
ghost use Rattle.std.specs.Cmp.{IsTotalOrder};
ghost use Rattle.std.specs.FinMap.{IsAntisymmetric};
ghost use Rattle.fx_value.specs.Scalar.{scalar_cmp, kind_of};

use fx_base::{Memory, Text};
use std::alloc::Global;
use std::cmp::Ordering;

/// The kinds of column values, in the order in which scalars of different kinds compare.
#[derive(Clone, Copy, Debug, PartialEq, Eq, PartialOrd, Ord)]
pub enum Kind {
    Bool,
    Int,
    Text,
    Time,
}

/// A value of a cell. A time counts nanoseconds since 1970-01-01T00:00:00Z.
#[derive(Debug, PartialEq, Eq, PartialOrd, Ord, Drop)]
pub enum Scalar {
    Null,
    Bool(bool),
    Int(i64),
    Text(Text),
    Time(i64),
}

impl Scalar {
    /// The kind, or None for null.
    pub fn kind(&self) -> Option<Kind>
        ensures { result ≡ kind_of self.now }
    {
        match self {
            Scalar::Null => None,
            Scalar::Bool(_) => Some(Kind::Bool),
            Scalar::Int(_) => Some(Kind::Int),
            Scalar::Text(_) => Some(Kind::Text),
            Scalar::Time(_) => Some(Kind::Time),
        }
    }

    pub fn copy(&self) -> Result<Scalar, Memory>
        ensures { IfOk result (λ s. s ≡ self.now) }
    {
        match self {
            Scalar::Null => Ok(Scalar::Null),
            Scalar::Bool(b) => Ok(Scalar::Bool(*b)),
            Scalar::Int(n) => Ok(Scalar::Int(*n)),
            Scalar::Text(t) => Ok(Scalar::Text(t.copy()?)),
            Scalar::Time(t) => Ok(Scalar::Time(*t)),
        }
    }

    /// Whether the scalars are the same.
    pub fn is_same(&self, other: &Scalar) -> bool
        ensures { IsTrue result ↔ (self.now ≡ other.now) }
    {
        scalar_order(self, other).is_eq()
    }
}

/// Null first, then Booleans with false first, integers, texts by bytes, times.
pub fn scalar_order(a: &Scalar, b: &Scalar) -> Ordering
    ensures { result ≡ scalar_cmp a.now b.now }
{
    a.cmp(b)
}

/// The law of the order: it is total, and only equal scalars tie.
pub fn scalar_order_is_total()
    ensures total { IsTotalOrder scalar_cmp }
    ensures ties { IsAntisymmetric scalar_cmp }
{}
