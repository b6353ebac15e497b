//! Yields, block by block.
ghost use Rattle.std.specs.Prelude.{◌≡◌, ℕ, ◌+◌, ◌^◌, ◌<◌, true, List, ◌++◌, length, map, All, IfOk, OnOk, IsTrue};
ghost use Rattle.fx_csv.specs.Alike.{HasAlikeRows};
ghost use Rattle.std.specs.List.{flat_map};
ghost use Rattle.fx_base.specs.Outside.{Writes, WriteCause};
ghost use Rattle.fx_data.specs.Table.{IsLawfulTable};
ghost use Rattle.fx_csv.specs.Printed.{block_bytes, column_labels, is_block, printed, row_records, HasOneKind};
ghost use Rattle.fx_csv.specs.Records.{record_bytes};
ghost use Rattle.fx_csv.specs.Shapes.{columns_over};

use crate::block::first_block;
use crate::column::Column;
use crate::head::put_heads;
use crate::line::Line;
use crate::rows::put_table;
use crate::writer::{finish, start};
use fx_base::{Memory, Sink, SinkFault, Text};
use fx_data::{Table, Tables};
use std::alloc::Global;

/// The bytes of a yield of this name.
pub fn print_yield(alloc: Global, name: &Text, tables: &Tables) -> Result<Vec<u8>, Memory>
    requires { All HasOneKind tables.now }
    ensures { IfOk result (λ v. v.items ≡ printed name.now tables.now) }
{
    print_tables(alloc, name, tables.as_slice(), false)
}

/// The bytes of the tables, block by block. The rows of each table may be known to be alike.
fn print_tables(alloc: Global, name: &Text, all: &[Table], alike: bool) -> Result<Vec<u8>, Memory>
    requires lawful { All IsLawfulTable all.now }
    requires kinds { All HasOneKind all.now }
    requires alike { IsTrue alike → All HasAlikeRows all.now }
    ensures { IfOk result (λ v. v.items ≡ printed name.now all.now) }
{
    let mut out = Vec::new(alloc);
    let mut rest = all;
    while let Some((first, others)) = rest.split_first() {
        let number = (all.len() - rest.len()) as u64;
        let block = first_block(alloc, first, others, alike)?;
        let (run, after) = rest.split_at(block.len);
        out = print_block(alloc, out, name, number, block.columns.as_slice(), run)?;
        rest = after;
    }
    Ok(out)
}

/// Writes the bytes of a yield, in one piece.
pub fn write_yield<O: Sink>(
    alloc: Global,
    name: &Text,
    tables: &Tables,
    out: &mut O,
) -> Result<(), SinkFault>
    requires { All HasOneKind tables.now }
    ensures bytes { Writes (O.written out.old) (printed name.now tables.now) result (O.written out.new) }
    ensures cause { WriteCause (O.faults out.old) (O.faults out.new) result }
{
    match print_yield(alloc, name, tables) {
        Ok(text) => out.write(text.as_slice()),
        Err(_) => Err(SinkFault::Memory),
    }
}

/// Writes the bytes of a yield of tables, each with alike rows, in one piece.
pub fn write_alike_yield<O: Sink>(
    alloc: Global,
    name: &Text,
    tables: &Tables,
    out: &mut O,
) -> Result<(), SinkFault>
    requires kinds { All HasOneKind tables.now }
    requires alike { All HasAlikeRows tables.now }
    ensures bytes { Writes (O.written out.old) (printed name.now tables.now) result (O.written out.new) }
    ensures cause { WriteCause (O.faults out.old) (O.faults out.new) result }
{
    match print_tables(alloc, name, tables.as_slice(), true) {
        Ok(text) => out.write(text.as_slice()),
        Err(_) => Err(SinkFault::Memory),
    }
}

/// Prints a block behind these bytes. Its tables are numbered from `number` on.
fn print_block(
    alloc: Global,
    out: Vec<u8>,
    name: &Text,
    number: u64,
    columns: &[Column],
    run: &[Table],
) -> Result<Vec<u8>, Memory>
    requires some { 0 < length run.now }
    requires lawful { All IsLawfulTable run.now }
    requires block { is_block run.now ≡ true }
    requires shape { columns.now ≡ columns_over run.now }
    requires fits { number + length run.now < 2 ^ 64 }
    ensures { IfOk result (λ v. v.items ≡ out.items ++ block_bytes name.now number run.now) }
{
    let mut writer = start(out);
    let mut line = Line::empty(alloc);
    put_heads(&mut writer, &mut line, name, columns)?;
    let mut text = finish(writer)?;
    put_tables(alloc, &mut text, number, columns, run)?;
    text.extend_from_slice(b"\r\n")?;
    Ok(text)
}

/// Adds the rows of tables that have these columns.
fn put_tables(
    alloc: Global,
    out: &mut Vec<u8>,
    number: u64,
    columns: &[Column],
    tables: &[Table],
) -> Result<(), Memory>
    requires lawful { All IsLawfulTable tables.now }
    requires labels { All (λ t. map (λ c. c.label) columns.now ≡ column_labels t) tables.now }
    requires fits { number + length tables.now < 2 ^ 64 }
    ensures { OnOk result (out.new.items ≡ out.old.items ++ flat_map record_bytes (row_records number tables.now)) }
{
    for (i, table) in tables.iter().enumerate() {
        put_table(alloc, out, number + i as u64, columns, table)?;
    }
    Ok(())
}
