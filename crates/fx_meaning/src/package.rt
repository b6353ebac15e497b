/// A package that scripts import.
#[derive(Clone, Copy, Debug, PartialEq, Eq)]
pub enum Package {
    Array,
    Date,
    Join,
    Series,
    Strings,
}
