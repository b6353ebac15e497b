/// What is made of the rows of a table: a number, or the choice of one of them.
#[derive(Clone, Copy, Debug, PartialEq, Eq)]
pub enum Agg {
    Count,
    Sum,
    Min,
    Max,
    First,
    Last,
    Spread,
}
