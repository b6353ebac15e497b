//! The records of rows.
ghost use Rattle.std.specs.Prelude.{◌≡◌, ◌++◌, map, OnOk};
ghost use Rattle.std.specs.List.{flat_map};
ghost use Rattle.fx_data.specs.Table.{IsLawfulTable};
ghost use Rattle.fx_csv.specs.Printed.{column_labels, row_record};
ghost use Rattle.fx_csv.specs.Records.{record_bytes};
ghost use Rattle.fx_csv.specs.Templates.{template_text};

use crate::cell::cells_of;
use crate::column::Column;
use crate::template::{Template, template_of};
use fx_base::Memory;
use fx_data::Table;
use fx_value::Row;
use std::alloc::Global;

/// Adds the rows of a table under these columns, which are its own.
pub(crate) fn put_table(
    alloc: Global,
    out: &mut Vec<u8>,
    number: u64,
    columns: &[Column],
    table: &Table,
) -> Result<(), Memory>
    requires lawful { IsLawfulTable table.now }
    requires labels { map (λ c. c.label) columns.now ≡ column_labels table.now }
    ensures { OnOk result (out.new.items ≡ out.old.items ++ flat_map record_bytes (map (row_record number table.now) table.now.rows)) }
{
    let cells = cells_of(alloc, table.key.entries.as_slice(), columns)?;
    let template = template_of(alloc, number, cells.as_slice())?;
    put_rows(out, &template, table.rows.as_slice())
}

fn put_rows(out: &mut Vec<u8>, template: &Template, rows: &[Row]) -> Result<(), Memory>
    ensures { OnOk result (out.new.items ≡ out.old.items ++ flat_map (λ row. template_text row template.now) rows.now) }
{
    for row in rows {
        template.push_row(out, row)?;
    }
    Ok(())
}
