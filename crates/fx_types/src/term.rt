use fx_base::{Boxed, List, Text};

/// A term of a type. The numbers of type, field and row variables have nothing to do with each
/// other.
#[derive(Debug, Drop)]
#[cycle(term)]
pub enum Ty {
    Bool,
    Int,
    Text,
    Time,
    /// A duration.
    Span,
    /// A regular expression.
    Pattern,
    /// What `yield` gives.
    Done,
    Var(u32),
    Array(Boxed<Ty>),
    Fun(Boxed<FunTy>),
    Rec(Boxed<RowTy>),
    /// A stream of tables whose rows have this row.
    Stream(Boxed<RowTy>),
}

/// What a row has at a label.
#[derive(Debug, Drop)]
#[cycle(term)]
pub enum FieldTy {
    Absent,
    Is(Ty),
    Var(u32),
}

/// A function: the labels that a call has to give, what it takes from a pipe, and its result. Of
/// two entries with one label the first counts.
#[derive(Debug, Drop)]
#[cycle(term)]
pub struct FunTy {
    pub required: List<LabelTy>,
    pub pipe: Option<Ty>,
    pub result: Ty,
}

#[derive(Debug, Drop)]
#[cycle(term)]
pub struct LabelTy {
    pub label: Text,
    pub ty: Ty,
}

#[derive(Debug, Drop)]
#[cycle(term)]
pub struct LabelField {
    pub label: Text,
    pub field: FieldTy,
}

/// What a row has at the labels that it doesn't list.
#[derive(Debug, Drop)]
#[cycle(term)]
pub enum Rest {
    /// The same at each of them.
    Default(FieldTy),
    /// What the row of this variable has there.
    Var(u32),
}

/// A row: the listed fields, and all others by the rest. Of two entries with one label the first
/// counts.
#[derive(Debug, Drop)]
#[cycle(term)]
pub struct RowTy {
    pub fields: List<LabelField>,
    pub rest: Rest,
}
