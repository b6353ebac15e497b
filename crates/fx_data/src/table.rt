ghost use Rattle.std.specs.Prelude.{◌≡◌, IfOk};

use crate::key::Key;
use fx_base::{List, Memory};
use fx_value::Row;
use std::alloc::Global;

/// Rows under the key that they share.
#[derive(Debug, Drop)]
pub struct Table {
    pub key: Key,
    pub rows: List<Row>,
}

impl Table {
    pub fn copy(&self, alloc: Global) -> Result<Table, Memory>
        ensures { IfOk result (λ t. t ≡ self.now) }
    {
        let rows = self.rows.as_slice();
        let mut copies = Vec::with_capacity(alloc, rows.len())?;
        for row in rows {
            copies.push(row.copy()?)?;
        }
        Ok(Table {
            key: self.key.copy(alloc)?,
            rows: List::of(copies),
        })
    }
}
