ghost use Rattle.std.specs.Prelude.{◌≡◌, IfOk};
ghost use Rattle.std.specs.Option.{option_map};
ghost use Rattle.fx_value.specs.KeyTest.{holds_of, told_of};

use crate::scalar::Scalar;
use fx_base::{List, Memory, Text};
use std::alloc::Global;
use std::cmp::Ordering;

/// How two values are compared.
#[derive(Clone, Copy, Debug, PartialEq, Eq)]
pub enum Test {
    Eq,
    Ne,
    Lt,
    Le,
    Gt,
    Ge,
}

impl Test {
    /// Whether the test holds where the left value stands so to the right one.
    pub fn holds(self, order: Ordering) -> bool
        ensures { result ≡ holds_of self order }
    {
        match self {
            Test::Eq => order.is_eq(),
            Test::Ne => order.is_ne(),
            Test::Lt => order.is_lt(),
            Test::Le => order.is_le(),
            Test::Gt => order.is_gt(),
            Test::Ge => order.is_ge(),
        }
    }
}

/// A comparison of the value at a label, on the left, with a text.
#[derive(Debug, Drop)]
pub struct KeyTest {
    pub label: Text,
    pub test: Test,
    pub text: Text,
}

impl KeyTest {
    /// What the test says of the value at its label: null where that is null, isn't there or is no
    /// text.
    pub fn tell(&self, value: Option<&Scalar>) -> Option<bool>
        ensures { result ≡ told_of self.now (option_map (λ v. v.now) value.entry) }
    {
        match value {
            Some(Scalar::Text(text)) => Some(self.test.holds(text.cmp(&self.text))),
            _ => None,
        }
    }

    pub fn copy(&self) -> Result<KeyTest, Memory>
        ensures { IfOk result (λ t. t ≡ self.now) }
    {
        Ok(KeyTest {
            label: self.label.copy()?,
            test: self.test,
            text: self.text.copy()?,
        })
    }
}

/// Tests all of which are to hold, in their order.
#[derive(Debug, Drop)]
pub struct KeyPredicate {
    pub tests: List<KeyTest>,
}

impl KeyPredicate {
    pub fn copy(&self, alloc: Global) -> Result<KeyPredicate, Memory>
        ensures { IfOk result (λ p. p ≡ self.now) }
    {
        let mut tests = Vec::with_capacity(alloc, self.tests.as_slice().len())?;
        for test in self.tests.as_slice() {
            tests.push(test.copy()?)?;
        }
        Ok(KeyPredicate {
            tests: List::of(tests),
        })
    }
}
