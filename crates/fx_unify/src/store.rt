//! Which variables are bound, and to what.

use crate::field::Field;
use crate::work::Pair;
use fx_base::{List, Text};
use fx_types::{FieldTy, Ty};

/// What a row variable has at one label.
#[derive(Debug, Drop)]
pub(crate) struct Slot {
    pub(crate) label: Text,
    pub(crate) field: Field,
}

/// What a row variable has at all other labels.
#[derive(Debug, Drop)]
pub enum Root {
    Default(FieldTy),
    Var(u32),
}

/// What is bound, and the equations that are left to solve.
#[derive(Debug, Drop)]
pub(crate) struct Store {
    pub(crate) types: Vec<Option<Ty>>,
    pub(crate) fields: Vec<Option<Field>>,
    /// Of each row variable, the labels at which it is bound by itself.
    pub(crate) slots: Vec<List<Slot>>,
    /// Of each row variable, labels at which its rest says nothing of it.
    pub(crate) apart: Vec<List<Text>>,
    pub(crate) rests: Vec<Option<Root>>,
    pub(crate) work: Vec<Pair>,
}
