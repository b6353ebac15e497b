use crate::expr::Expr;
use fx_base::{List, Place, Text};

/// A script. Its imports are its first statements.
#[derive(Drop)]
pub struct Script {
    pub package: Option<Text>,
    pub statements: List<Statement>,
}

/// A statement. Its place is that of its first token.
#[derive(Drop)]
pub struct Statement {
    pub place: Place,
    pub form: Form,
}

#[derive(Drop)]
pub enum Form {
    Import { alias: Option<Text>, path: Text },
    Assign { name: Text, value: Expr },
    /// `option task = ..`, which is typed and has no effect.
    Task { value: Expr },
    /// An expression by itself.
    Show { value: Expr },
}
