use fx_base::{List, Place, Shared, Text};
use fx_time::Span;

/// An expression, which its copies share. Its place is that of its first token, but for an index
/// that of its `[`.
#[derive(Drop)]
#[cycle(tree)]
pub struct Expr {
    pub place: Place,
    pub node: Shared<Node>,
}

/// What an expression is, by the line of the grammar that it comes from.
#[derive(Drop)]
#[cycle(tree)]
pub enum Node {
    Int(i64),
    /// Nanoseconds since 1970-01-01T00:00:00Z.
    Time(i64),
    Span(Span),
    /// A text, by its pieces and the expressions between them.
    Text(List<Part>),
    Pattern(Text),
    Name(Text),
    Paren(Expr),
    Array(List<Expr>),
    /// A record, with the name before `with` where there is one.
    Rec {
        base: Option<Text>,
        props: List<Prop>,
    },
    Fun {
        params: List<Param>,
        body: Body,
    },
    Call {
        callee: Expr,
        args: List<Prop>,
    },
    /// A run of `|>`; each of the calls is a call.
    Pipe {
        first: Expr,
        calls: List<Expr>,
    },
    Member {
        of: Expr,
        label: Text,
    },
    Index {
        of: Expr,
        at: Expr,
    },
    /// A run of operators of one level, read from the left.
    Chain {
        first: Expr,
        rest: List<Link>,
    },
    Prefix {
        sign: Prefix,
        of: Expr,
    },
    If {
        test: Expr,
        yes: Expr,
        no: Expr,
    },
}

/// A part of a text with interpolation.
#[derive(Drop)]
#[cycle(tree)]
pub enum Part {
    Piece(Text),
    Hole(Expr),
}

/// A label with its expression: a property of a record, an argument of a call, an assignment of a
/// block.
#[derive(Drop)]
#[cycle(tree)]
pub struct Prop {
    pub label: Text,
    pub value: Expr,
}

/// How a parameter gets its value where a call doesn't give one by its label.
#[derive(Drop)]
#[cycle(tree)]
pub enum ParamKind {
    Required,
    Pipe,
    Value(Expr),
}

#[derive(Drop)]
#[cycle(tree)]
pub struct Param {
    pub label: Text,
    pub default: ParamKind,
}

/// The body of a function: its assignments, in order, and what it returns.
#[derive(Drop)]
#[cycle(tree)]
pub struct Body {
    pub lets: List<Prop>,
    pub result: Expr,
}

/// An operator between two operands.
#[derive(Clone, Copy, Debug, PartialEq, Eq)]
pub enum Infix {
    Or,
    And,
    Eq,
    Ne,
    Lt,
    Le,
    Gt,
    Ge,
    Like,
    NotLike,
    Add,
    Sub,
    Mul,
    Div,
    Rem,
}

/// A further operator of a chain and its right operand. The place is the operator's.
#[derive(Drop)]
#[cycle(tree)]
pub struct Link {
    pub place: Place,
    pub op: Infix,
    pub right: Expr,
}

/// An operator before its operand.
#[derive(Clone, Copy, Debug, PartialEq, Eq)]
pub enum Prefix {
    Plus,
    Minus,
    Not,
    Exists,
}
