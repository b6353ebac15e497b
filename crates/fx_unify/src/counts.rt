//! The nodes of the types of variables, kept while types are counted: what stands in many types is
//! counted once.

ghost use Rattle.std.specs.Prelude.{◌≡◌, ℕ, true, false, IfOk, None, Some, slice_index_or, slice_set};

use fx_base::Memory;
use std::alloc::Global;

/// How many nodes the types of variables have, where they were counted already, and which rows are
/// known to count nothing.
#[derive(Drop)]
pub(crate) struct Counts {
    pub(crate) alloc: Global,
    pub(crate) types: Vec<Option<u64>>,
    pub(crate) rows: Vec<bool>,
}

impl Counts {
    /// Room for so many type and row variables, of which none was counted.
    pub(crate) fn none(alloc: Global, variables: usize, rows: usize) -> Result<Counts, Memory>
        ensures types { IfOk result (λ c. (v : ℕ) → slice_index_or c.types.items v None ≡ None) }
        ensures rows { IfOk result (λ c. (r : ℕ) → slice_index_or c.rows.items r false ≡ false) }
    {
        let types = uncounted(alloc, variables)?;
        let rows = unknown(alloc, rows)?;
        Ok(Counts { alloc, types, rows })
    }

    /// What was counted of the variable.
    pub(crate) fn at(&self, variable: usize) -> Option<u64>
        ensures { result ≡ slice_index_or self.now.types.items variable None }
    {
        if variable < self.types.len() {
            return self.types[variable];
        }
        None
    }

    /// Keeps what was counted of the variable, if there is room for it.
    pub(crate) fn keep(&mut self, variable: usize, nodes: u64)
        ensures types { self.new.types.items ≡ slice_set self.old.types.items variable (Some nodes) }
        ensures rows { self.new.rows ≡ self.old.rows }
    {
        if variable < self.types.len() {
            self.types[variable] = Some(nodes);
        }
    }

    /// Whether the row is known to count nothing.
    pub(crate) fn is_light(&self, row: u32) -> bool
        ensures { result ≡ slice_index_or self.now.rows.items row false }
    {
        let at = row as usize;
        if at < self.rows.len() {
            return self.rows[at];
        }
        false
    }

    /// Keeps that the row counts nothing, if there is room for it.
    pub(crate) fn keep_light(&mut self, row: u32)
        ensures rows { self.new.rows.items ≡ slice_set self.old.rows.items row true }
        ensures types { self.new.types ≡ self.old.types }
    {
        let at = row as usize;
        if at < self.rows.len() {
            self.rows[at] = true;
        }
    }
}

fn uncounted(alloc: Global, variables: usize) -> Result<Vec<Option<u64>>, Memory>
    ensures { IfOk result (λ t. (v : ℕ) → slice_index_or t.items v None ≡ None) }
{
    let mut types = Vec::new(alloc);
    for _variable in 0..variables {
        types.push(None)?;
    }
    Ok(types)
}

fn unknown(alloc: Global, count: usize) -> Result<Vec<bool>, Memory>
    ensures { IfOk result (λ v. (r : ℕ) → slice_index_or v.items r false ≡ false) }
{
    let mut rows = Vec::new(alloc);
    for _row in 0..count {
        rows.push(false)?;
    }
    Ok(rows)
}
