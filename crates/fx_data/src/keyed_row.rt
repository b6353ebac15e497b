use crate::key::Key;
use fx_value::Row;

/// A row with the key of the table that it comes from.
#[derive(Debug, Drop)]
pub struct KeyedRow {
    pub key: Key,
    pub row: Row,
}
