ghost use Rattle.std.specs.Prelude.{◌≡◌, ◌+◌, ◌<◌, ◌≤◌, [], ◌∷◌, ◌++◌, length, take, drop, true, IfOk, OnOk, OnErr, nat_le};
ghost use Rattle.std.specs.Ordering.{int_cmp, is_lt};
ghost use Rattle.std.specs.BTreeMap.{insert_entry};
ghost use Rattle.fx_series.specs.Blocks.{Rises, first_time, last_time, IsPlace};
ghost use Rattle.fx_series.specs.Read.{pairs};

use crate::series::TimeValue;
use fx_base::Memory;
use fx_value::Scalar;
use std::alloc::Global;
use std::marker::Model;

/// How many values a block may hold.
pub(crate) const MOST_VALUES: usize = 1024;

/// Some values of a series by rising time: at least one, and at most 1,024.
#[derive(Drop)]
pub struct Block {
    points: Vec<TimeValue>,
}

impl Model for Block {
    ghost use Rattle.std.specs.Prelude.{List};
    ghost use Rattle.fx_series.specs.declared.series.TimeValue.{TimeValue};

    ghost Value = { List TimeValue };

    ghost view = { λ b. b.points.items };
}

/// Where a value of this time belongs among values.
fn place_of(points: &[TimeValue], time: i64) -> usize
    requires rising { Rises (pairs points.now) }
    ensures { IsPlace points.now time result }
{
    let mut place = points.len();
    while place > 0 && points[place - 1].time >= time {
        place -= 1;
    }
    place
}

impl Block {
    /// A block with its first value.
    pub(crate) fn of(alloc: Global, time: i64, value: Scalar) -> Result<Block, Memory>
        ensures { IfOk result (λ b. b ≡ record { time = time; value = value } ∷ []) }
    {
        let mut points = Vec::new(alloc);
        points.push(TimeValue { time, value })?;
        Ok(Block { points })
    }

    pub fn points(&self) -> &[TimeValue]
        ensures { result.now ≡ self.now }
    {
        self.points.as_slice()
    }

    pub(crate) fn is_full(&self) -> bool
        ensures { result ≡ nat_le 1024 (length self.now) }
    {
        self.points.len() >= MOST_VALUES
    }

    /// Whether all values are before a time.
    pub(crate) fn ends_before(&self, time: i64) -> bool
        requires some { 0 < length self.now }
        ensures { result ≡ is_lt (int_cmp (last_time self.now) time) }
    {
        self.points[self.points.len() - 1].time < time
    }

    /// Whether all values are after a time.
    pub(crate) fn begins_after(&self, time: i64) -> bool
        requires some { 0 < length self.now }
        ensures { result ≡ is_lt (int_cmp time (first_time self.now)) }
    {
        time < self.points[0].time
    }

    /// Puts a value, which takes the place of one at its time.
    pub(crate) fn put(&mut self, time: i64, value: Scalar) -> Result<(), Memory>
        requires rising { Rises (pairs self.old) }
        ensures ok { OnOk result (pairs self.new ≡ insert_entry int_cmp (pairs self.old) time value) }
        ensures err { OnErr result (self.new ≡ self.old) }
    {
        let place = place_of(self.points.as_slice(), time);
        if place < self.points.len() && self.points[place].time == time {
            self.points[place].value = value;
            return Ok(());
        }
        self.points.insert(place, TimeValue { time, value })?;
        Ok(())
    }

    /// Takes the later half off.
    pub(crate) fn halve(&mut self) -> Result<Block, Memory>
        requires full { length self.old ≡ 1024 }
        ensures ok { IfOk result (λ b. (self.new ≡ take 512 self.old) × (b ≡ drop 512 self.old)) }
        ensures err { OnErr result (self.new ≡ self.old) }
    {
        let points = self.points.split_off(MOST_VALUES / 2)?;
        Ok(Block { points })
    }
}
