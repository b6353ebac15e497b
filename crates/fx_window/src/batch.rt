ghost use Rattle.std.specs.Prelude.{◌≡◌, [], ◌∷◌, ◌++◌, List as AnyList, IfOk};
ghost use Rattle.std.specs.List.{flat_map, AllByRecursion};
ghost use Rattle.fx_time.specs.declared.span.Span.{Span as AnySpan};
ghost use Rattle.fx_data.specs.Table.{HasKey};
ghost use Rattle.fx_data.specs.declared.key.Key.{Key as AnyKey};
ghost use Rattle.fx_data.specs.declared.key.KeyEntry.{KeyEntry as AnyKeyEntry};
ghost use Rattle.fx_data.specs.declared.keyed_row.KeyedRow.{KeyedRow as AnyKeyedRow};
ghost use Rattle.fx_group.specs.Answer.{Row as AnyRow};
ghost use Rattle.fx_window.specs.Plain.{IsFrame};
ghost use Rattle.fx_window.specs.Reaches.{AllBatches, AreNear, copies_of, made_of};
ghost use Rattle.fx_window.specs.Window.{copies};
ghost use Rattle.fx_window.specs.declared.reach.Reach.{Reach as AnyReach};

use crate::reach::{Reach, reach_of};
use crate::standing::{Frame, Placed};
use fx_base::{List, Memory};
use fx_value::Row;
use std::alloc::Global;

/// Rows, one behind the other, that go to the same windows.
#[derive(Drop)]
pub(crate) struct Batch {
    pub reach: Reach,
    pub rows: List<Row>,
}

fn longer(batch: Batch, row: Row) -> Result<Batch, Memory>
    ensures { IfOk result (λ b. b ≡ record { reach = batch.reach; rows = batch.rows ++ row ∷ [] }) }
{
    let Batch { reach, mut rows } = batch;
    rows.push(row)?;
    Ok(Batch { reach, rows })
}

fn lone(alloc: Global, reach: Reach, row: Row) -> Result<Batch, Memory>
    ensures { IfOk result (λ b. b ≡ record { reach = reach; rows = row ∷ [] }) }
{
    let mut rows = List::empty(alloc);
    rows.push(row)?;
    Ok(Batch { reach, rows })
}

fn with_batch(mut batches: Vec<Batch>, batch: Batch) -> Result<Vec<Batch>, Memory>
    ensures { IfOk result (λ bs. bs.items ≡ batches.items ++ batch ∷ []) }
{
    batches.push(batch)?;
    Ok(batches)
}

/// The batches with one more row, which joins the last of them where that goes to the same windows.
fn with_row(
    alloc: Global,
    mut batches: Vec<Batch>,
    reach: Reach,
    row: Row,
) -> Result<Vec<Batch>, Memory>
    ensures made { (each : AnyReach → AnyRow → AnyList AnyKeyedRow) → IfOk result (λ bs. flat_map (made_of each) bs.items ≡ flat_map (made_of each) batches.items ++ each reach row) }
    ensures all { (every period : AnySpan) (entries : AnyList AnyKeyEntry) → AllBatches every period entries batches.items → AreNear every period reach → HasKey entries row → IfOk result (λ bs. AllBatches every period entries bs.items) }
{
    match batches.pop() {
        None => with_batch(batches, lone(alloc, reach, row)?),
        Some(last) => {
            if last.reach == reach {
                return with_batch(batches, longer(last, row)?);
            }
            let batches = with_batch(batches, last)?;
            with_batch(batches, lone(alloc, reach, row)?)
        }
    }
}

/// The batches with one more row, where it goes to any window.
fn with_placed(
    alloc: Global,
    frame: &Frame,
    batches: Vec<Batch>,
    placed: Placed,
) -> Result<Vec<Batch>, Memory>
    requires { IsFrame frame.now }
    ensures made { (key : AnyKey) → IfOk result (λ bs. flat_map (made_of (λ r. copies_of frame.now.every frame.now.period r key)) bs.items ≡ flat_map (made_of (λ r. copies_of frame.now.every frame.now.period r key)) batches.items ++ copies frame.now.every frame.now.period key placed) }
    ensures all { (entries : AnyList AnyKeyEntry) → AllBatches frame.now.every frame.now.period entries batches.items → HasKey entries placed.row → IfOk result (λ bs. AllBatches frame.now.every frame.now.period entries bs.items) }
{
    let Placed { at, row } = placed;
    match reach_of(at, frame.every, frame.period) {
        None => Ok(batches),
        Some(reach) => with_row(alloc, batches, reach, row),
    }
}

/// The rows that go to any window, in batches.
pub(crate) fn batches_of(
    alloc: Global,
    frame: &Frame,
    placed: Vec<Placed>,
) -> Result<Vec<Batch>, Memory>
    requires { IsFrame frame.now }
    ensures made { (key : AnyKey) → IfOk result (λ bs. flat_map (made_of (λ r. copies_of frame.now.every frame.now.period r key)) bs.items ≡ flat_map (copies frame.now.every frame.now.period key) placed.items) }
    ensures all { (entries : AnyList AnyKeyEntry) → AllByRecursion (λ p. HasKey entries p.row) placed.items → IfOk result (λ bs. AllBatches frame.now.every frame.now.period entries bs.items) }
{
    let mut batches = Vec::new(alloc);
    for placed in placed {
        batches = with_placed(alloc, frame, batches, placed)?;
    }
    Ok(batches)
}
