//! Lines whose series are known are stored by numbers.
ghost use Rattle.std.specs.Prelude.{◌≡◌, ◌≤◌, ◌+◌, ℕ, List, length, IsTrue, IfOk, OnOk};
ghost use Rattle.fx_line.specs.Line.{is_factor};
ghost use Rattle.fx_line.specs.Stored.{StoredPoint};
ghost use Rattle.fx_series.specs.Store.{StandsFor};
ghost use Rattle.fx_load.specs.Load.{IsReady};
ghost use Rattle.fx_load.specs.Memo.{ids_of, FitsStore, MayPut, WerePut, KnownLoads};
ghost use Rattle.fx_load.specs.declared.load.TheConstants.{MOST_POINTS as most_points};

use crate::load::MOST_POINTS;
use crate::memo::Memo;
use fx_base::{Memory, Text};
use fx_line::LineMode;
use fx_series::Store;
use fx_value::Scalar;

/// Puts a value into each of the series with these numbers.
fn put_values(
    numbers: &[u32],
    values: &[i64],
    time: i64,
    bucket: &Text,
    store: &mut Store,
) -> Result<(), Memory>
    requires ready { IsReady store.old bucket.now }
    requires room { store.old.puts + length values.now ≤ most_points }
    requires may { MayPut store.old bucket.now numbers.now values.now time }
    ensures { OnOk result (WerePut store.old bucket.now numbers.now values.now time store.new) }
{
    for (i, number) in numbers.iter().enumerate() {
        let Some(value) = values.get(i) else {
            return Ok(());
        };
        store.put_at(*number, time, Scalar::Int(*value))?;
    }
    Ok(())
}

/// Stores the points of a line that is read by what is remembered, and says whether it did.
pub fn load_known(
    memo: &Memo,
    values: &mut Vec<i64>,
    line: &[u8],
    mode: LineMode,
    bucket: &Text,
    store: &mut Store,
) -> Result<bool, Memory>
    requires factor { IsTrue (is_factor mode.factor) }
    requires ready { IsReady store.old bucket.now }
    requires fits { FitsStore mode bucket.now (ids_of store.old) memo.now }
    ensures { (buckets : List (List ℕ)) (stored : List StoredPoint) → StandsFor store.old buckets stored → KnownLoads mode buckets bucket.now line.now stored store.old store.new result }
{
    let Some((known, time)) = memo.read(line, mode, values) else {
        return Ok(false);
    };
    if store.points() + values.len() as u64 > MOST_POINTS {
        return Ok(false);
    }
    put_values(
        known.numbers.as_slice(),
        values.as_slice(),
        time,
        bucket,
        store,
    )?;
    Ok(true)
}
