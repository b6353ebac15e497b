ghost use Rattle.std.specs.Prelude.{◌≡◌, ◌+◌, ◌<◌, ◌≤◌, List, [], ◌∷◌, ◌++◌, length, true, false, IfOk, OnOk, OnErr, get_or};
ghost use Rattle.std.specs.Ordering.{int_cmp, is_lt};
ghost use Rattle.std.specs.BTreeMap.{insert_entry};
ghost use Rattle.fx_series.specs.declared.series.TimeValue.{TimeValue};
ghost use Rattle.fx_series.specs.Blocks.{entries_in, Before, AreBlocks, Belongs, HasRoom, IsCut, last_time, IsBlock, looked};
ghost use Rattle.fx_series.specs.Read.{pairs, between};
ghost use Rattle.std.specs.List.{AllByRecursion};

use crate::block::Block;
use crate::series::TimeValue;
use fx_base::{List, Memory, Steps};
use fx_value::Scalar;
use std::alloc::Global;
use std::marker::Model;
use std::sync::ledger::Ledger;

/// The values of a series, in blocks by rising time.
#[derive(Drop)]
pub(crate) struct Blocks {
    blocks: Vec<Block>,
}

impl Model for Blocks {
    ghost use Rattle.std.specs.Prelude.{List, ℤ};
    ghost use Rattle.fx_value.specs.declared.scalar.Scalar.{Scalar};
    ghost use Rattle.fx_series.specs.Blocks.{entries_in, AreBlocks};

    ghost Value = { List (ℤ × Scalar) };

    ghost view = { λ b. entries_in b.blocks.items };

    ghost invariant = { λ b. AreBlocks b.blocks.items };
}

/// Whether all values are before a time.
fn ends_before(blocks: &[Block], time: i64) -> bool
    requires are { AreBlocks blocks.now }
    ensures yes { result ≡ true → Before time (entries_in blocks.now) }
    ensures no { result ≡ false → 0 < length blocks.now }
{
    match blocks {
        [.., last] => last.ends_before(time),
        [] => true,
    }
}

/// The number of the block where a value of this time belongs.
fn block_of(blocks: &[Block], time: i64) -> usize
    requires are { AreBlocks blocks.now }
    requires some { 0 < length blocks.now }
    ensures { Belongs blocks.now time result }
{
    let mut low = 0;
    let mut high = blocks.len() - 1;
    while low < high {
        let middle = low + (high - low) / 2;
        if blocks[middle].ends_before(time) {
            low = middle + 1;
        } else {
            high = middle;
        }
    }
    low
}

/// Puts a value into a block that has room.
fn put_block(blocks: &mut Vec<Block>, place: usize, time: i64, value: Scalar) -> Result<(), Memory>
    requires are { AreBlocks blocks.old.items }
    requires belongs { Belongs blocks.old.items time place }
    requires room { HasRoom blocks.old.items place }
    ensures ok { OnOk result (entries_in blocks.new.items ≡ insert_entry int_cmp (entries_in blocks.old.items) time value) }
    ensures err { OnErr result (entries_in blocks.new.items ≡ entries_in blocks.old.items) }
    ensures are { AreBlocks blocks.new.items }
{
    blocks[place].put(time, value)
}

/// Puts a value behind all others.
fn append(alloc: Global, blocks: &mut Vec<Block>, time: i64, value: Scalar) -> Result<(), Memory>
    requires are { AreBlocks blocks.old.items }
    requires before { Before time (entries_in blocks.old.items) }
    ensures ok { OnOk result (entries_in blocks.new.items ≡ insert_entry int_cmp (entries_in blocks.old.items) time value) }
    ensures err { OnErr result (entries_in blocks.new.items ≡ entries_in blocks.old.items) }
    ensures are { AreBlocks blocks.new.items }
{
    let len = blocks.len();
    if len > 0 && !blocks[len - 1].is_full() {
        return put_block(blocks, len - 1, time, value);
    }
    let block = Block::of(alloc, time, value)?;
    blocks.push(block)?;
    Ok(())
}

/// Cuts a full block in two.
fn cut(blocks: &mut Vec<Block>, place: usize) -> Result<(), Memory>
    requires within { place < length blocks.old.items }
    requires full { (d : List TimeValue) → length (get_or blocks.old.items place d) ≡ 1024 }
    ensures ok { OnOk result (IsCut blocks.old.items place blocks.new.items) }
    ensures err { OnErr result (blocks.new.items ≡ blocks.old.items) }
{
    blocks.reserve(1)?;
    let right = blocks[place].halve()?;
    blocks.insert(place + 1, right)?;
    Ok(())
}

/// The half of a block that was cut where a value belongs.
fn half_of(blocks: &[Block], place: usize, time: i64) -> usize
    requires are { AreBlocks blocks.now }
    requires within { place + 1 < length blocks.now }
    ensures later { is_lt (int_cmp (last_time (get_or blocks.now place [])) time) ≡ true → result ≡ place + 1 }
    ensures earlier { is_lt (int_cmp (last_time (get_or blocks.now place [])) time) ≡ false → result ≡ place }
{
    if blocks[place].ends_before(time) {
        place + 1
    } else {
        place
    }
}

/// Puts a value before the last one of all.
fn put_within(blocks: &mut Vec<Block>, time: i64, value: Scalar) -> Result<(), Memory>
    requires are { AreBlocks blocks.old.items }
    requires some { 0 < length blocks.old.items }
    ensures ok { OnOk result (entries_in blocks.new.items ≡ insert_entry int_cmp (entries_in blocks.old.items) time value) }
    ensures err { OnErr result (entries_in blocks.new.items ≡ entries_in blocks.old.items) }
    ensures are { AreBlocks blocks.new.items }
{
    let place = block_of(blocks.as_slice(), time);
    if !blocks[place].is_full() {
        return put_block(blocks, place, time, value);
    }
    cut(blocks, place)?;
    let half = half_of(blocks.as_slice(), place, time);
    put_block(blocks, half, time, value)
}

impl Blocks {
    /// The blocks with one value.
    pub(crate) fn of(alloc: Global, time: i64, value: Scalar) -> Result<Blocks, Memory>
        ensures { IfOk result (λ b. b ≡ (time, value) ∷ []) }
    {
        let mut blocks = Vec::new(alloc);
        append(alloc, &mut blocks, time, value)?;
        Ok(Blocks { blocks })
    }

    /// Puts a value, which takes the place of one at its time.
    pub(crate) fn put(&mut self, time: i64, value: Scalar) -> Result<(), Memory>
        ensures ok { OnOk result (self.new ≡ insert_entry int_cmp self.old time value) }
        ensures err { OnErr result (self.new ≡ self.old) }
    {
        if ends_before(self.blocks.as_slice(), time) {
            append(*self.blocks.allocator(), &mut self.blocks, time, value)
        } else {
            put_within(&mut self.blocks, time, value)
        }
    }

    pub(crate) fn as_slice(&self) -> &[Block]
        ensures joined { entries_in result.now ≡ self.now }
        ensures are { AreBlocks result.now }
    {
        self.blocks.as_slice()
    }
}

/// Puts a copy of a value behind the others where its time is in the range.
fn push_in_range(
    out: &mut List<TimeValue>,
    point: &TimeValue,
    first: i64,
    last: i64,
) -> Result<(), Memory>
    ensures { OnOk result (pairs out.new ≡ pairs out.old ++ between first last ((point.now.time, point.now.value) ∷ [])) }
{
    if first <= point.time && point.time <= last {
        out.push(TimeValue {
            time: point.time,
            value: point.value.copy()?,
        })?;
    }
    Ok(())
}

/// Puts copies of a block's values in the range behind the others, a step for each that is looked
/// at.
fn push_points<L: Ledger>(
    out: &mut List<TimeValue>,
    points: &[TimeValue],
    first: i64,
    last: i64,
    steps: &mut Steps<L>,
) -> Result<(), Memory>
    ensures values { OnOk result (pairs out.new ≡ pairs out.old ++ between first last (pairs points.now)) }
    ensures steps { OnOk result (steps.new ≡ steps.old + length points.now) }
    ensures most { (steps.old ≤ steps.new) × (steps.new ≤ steps.old + length points.now) }
{
    for point in points {
        steps.tick();
        push_in_range(out, point, first, last)?;
    }
    Ok(())
}

/// The values of blocks in a range, a step for each that is looked at.
fn walk<L: Ledger>(
    alloc: Global,
    blocks: &[Block],
    first: i64,
    last: i64,
    steps: &mut Steps<L>,
) -> Result<List<TimeValue>, Memory>
    requires each { AllByRecursion IsBlock blocks.now }
    ensures values { IfOk result (λ r. pairs r ≡ between first last (entries_in (looked last blocks.now))) }
    ensures steps { IfOk result (λ r. steps.new ≡ steps.old + length (entries_in (looked last blocks.now))) }
    ensures most { OnErr result ((steps.old ≤ steps.new) × (steps.new ≤ steps.old + length (entries_in (looked last blocks.now)))) }
{
    let mut out = List::empty(alloc);
    for block in blocks {
        if block.begins_after(last) {
            return Ok(out);
        }
        push_points(&mut out, block.points(), first, last, steps)?;
    }
    Ok(out)
}

impl Blocks {
    /// The values with `first <= time <= last`, by rising time. Only blocks that may hold such
    /// values are looked at, a step for each of their values.
    pub(crate) fn read<L: Ledger>(
        &self,
        alloc: Global,
        first: i64,
        last: i64,
        steps: &mut Steps<L>,
    ) -> Result<List<TimeValue>, Memory>
        ensures values { IfOk result (λ r. pairs r ≡ between first last self.now) }
        ensures enough { IfOk result (λ r. steps.old + length r ≤ steps.new) }
        ensures few { IfOk result (λ r. steps.new ≤ steps.old + length r + 2048) }
        ensures most { OnErr result ((steps.old ≤ steps.new) × (steps.new ≤ steps.old + length (between first last self.now) + 2048)) }
    {
        if self.blocks.is_empty() {
            return Ok(List::empty(alloc));
        }
        let place = block_of(self.blocks.as_slice(), first);
        let (_, rest) = self.blocks.as_slice().split_at(place);
        walk(alloc, rest, first, last, steps)
    }
}
