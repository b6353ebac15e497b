use crate::row::Row;
use crate::scalar::Scalar;

/// What a row function gives.
#[derive(Debug, Drop)]
pub enum Answer {
    Cell(Scalar),
    Line(Row),
}
