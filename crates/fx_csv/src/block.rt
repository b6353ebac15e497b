//! Blocks: how far tables print under one head.
ghost use Rattle.std.specs.Prelude.{◌≡◌, ◌<◌, Bool, List, [], ◌∷◌, ◌++◌, length, All, IfOk, map, if◌then◌else◌, IsTrue};
ghost use Rattle.fx_csv.specs.Alike.{HasAlikeRows};
ghost use Rattle.std.specs.Cmp.Lexicographic.{pointwise};
ghost use Rattle.fx_csv.specs.Cells.{same_kind};
ghost use Rattle.fx_csv.specs.Printed.{HasOneKind, is_block, key_labels, same_labels};
ghost use Rattle.fx_csv.specs.Shapes.{agrees, all_widened, columns_over, may_share, widened, AreColumns, IsFirstBlock};
ghost use Rattle.fx_data.specs.declared.table.Table.{Table};

use crate::column::{Column, columns_of};
use fx_base::Memory;
use fx_data::{KeyEntry, Table};
use fx_value::Kind;
use std::alloc::Global;

/// The columns of a block, and how many tables stand in it.
#[derive(Drop)]
pub(crate) struct Block {
    pub(crate) columns: Vec<Column>,
    pub(crate) len: usize,
}

/// The block that begins with this table. The rows of each table may be known to be alike.
pub(crate) fn first_block(
    alloc: Global,
    first: &Table,
    rest: &[Table],
    alike: bool,
) -> Result<Block, Memory>
    requires first { HasOneKind first.now }
    requires others { All HasOneKind rest.now }
    requires alike_first { IsTrue alike → HasAlikeRows first.now }
    requires alike_others { IsTrue alike → All HasAlikeRows rest.now }
    ensures { IfOk result (IsFirstBlock (first.now ∷ rest.now)) }
{
    let mut columns = columns_of(alloc, first, alike)?;
    for (i, next) in rest.iter().enumerate() {
        if !join(alloc, first, &mut columns, next, alike)? {
            return Ok(Block {
                columns,
                len: i + 1,
            });
        }
    }
    Ok(Block {
        columns,
        len: rest.len() + 1,
    })
}

/// Whether the next table stands in the block of the first; the columns then have its kinds too.
fn join(
    alloc: Global,
    first: &Table,
    columns: &mut Vec<Column>,
    next: &Table,
    alike: bool,
) -> Result<bool, Memory>
    requires kinds { HasOneKind next.now }
    requires alike { IsTrue alike → HasAlikeRows next.now }
    ensures { (rest : List Table) → AreColumns first.now rest columns.old.items → IfOk result (λ joined.
        (joined ≡ is_block (first.now ∷ (rest ++ next.now ∷ [])))
        × (columns.new.items ≡ columns_over (first.now ∷ (if joined then rest ++ next.now ∷ [] else rest)))) }
{
    if !same_key_labels(first.key.entries.as_slice(), next.key.entries.as_slice()) {
        return Ok(false);
    }
    let others = columns_of(alloc, next, alike)?;
    if !all_agree(columns.as_slice(), others.as_slice()) {
        return Ok(false);
    }
    widen_all(columns, others.as_slice());
    Ok(true)
}

fn same_key_labels(a: &[KeyEntry], b: &[KeyEntry]) -> bool
    ensures { result ≡ same_labels (map (λ e. e.label) a.now) (map (λ e. e.label) b.now) }
{
    if a.len() != b.len() {
        return false;
    }
    for i in 0..a.len() {
        if a[i].label != b[i].label {
            return false;
        }
    }
    true
}

fn all_agree(a: &[Column], b: &[Column]) -> bool
    ensures { result ≡ pointwise agrees a.now b.now }
{
    if a.len() != b.len() {
        return false;
    }
    for i in 0..a.len() {
        if !agree(&a[i], &b[i]) {
            return false;
        }
    }
    true
}

fn agree(a: &Column, b: &Column) -> bool
    ensures { result ≡ agrees a.now b.now }
{
    a.label == b.label && may_share(a.kind, b.kind)
}

fn may_share(a: Option<Kind>, b: Option<Kind>) -> bool
    ensures { result ≡ may_share a b }
{
    match (a, b) {
        (Some(a), Some(b)) => same_kind(a, b),
        _ => true,
    }
}

pub(crate) fn same_kind(a: Kind, b: Kind) -> bool
    ensures { result ≡ same_kind a b }
{
    matches!(
        (a, b),
        (Kind::Bool, Kind::Bool)
            | (Kind::Int, Kind::Int)
            | (Kind::Text, Kind::Text)
            | (Kind::Time, Kind::Time)
    )
}

fn widen_all(columns: &mut Vec<Column>, others: &[Column])
    requires { length columns.old.items ≡ length others.now }
    ensures { columns.new.items ≡ all_widened columns.old.items others.now }
{
    for i in 0..columns.len() {
        widen(&mut columns[i], &others[i]);
    }
}

fn widen(column: &mut Column, other: &Column)
    ensures { column.new ≡ widened column.old other.now }
{
    if column.kind.is_none() {
        column.kind = other.kind;
    }
}
