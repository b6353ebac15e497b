ghost use Rattle.std.specs.Prelude.{◌≡◌, ◌^◌, ◌<◌, ◌≤◌, ◌+◌, [], Some, IsSome, IfOk, IfSome, OnOk, OnErr, length, map, slice_get};
ghost use Rattle.std.specs.List.{IsDistinct, AllByRecursion};
ghost use Rattle.std.specs.Option.{option_map};
ghost use Rattle.fx_value.specs.Scalar.{kind_of};
ghost use Rattle.fx_line.specs.Stored.{Series, same_id};
ghost use Rattle.fx_series.specs.Held.{id_of_key, shown, after_put, SeriesAnswers};
ghost use Rattle.fx_series.specs.Blocks.{entries_in, IsBlock};
ghost use Rattle.fx_series.specs.Read.{places, is_in, between, pairs};

use crate::block::Block;
use crate::fault::PutFault;
use crate::series::{Held, StoredKey, TimeValue};
use fx_base::{List, Memory, Steps, Text};
use fx_value::{Kind, Scalar};
use indexmap::IndexMap;
use std::alloc::Global;
use std::marker::Model;
use std::sync::ledger::Ledger;

/// Series by name, in the order in which they came.
#[derive(Drop)]
pub(crate) struct SeriesMap {
    entries: IndexMap<StoredKey, Held>,
}

impl Model for SeriesMap {
    ghost use Rattle.std.specs.Prelude.{List, map};
    ghost use Rattle.fx_line.specs.Stored.{Series};
    ghost use Rattle.fx_series.specs.Held.{shown};

    ghost Value = { List Series };

    ghost view = { λ m. map shown m.entries.entries };
}

// Whether a series is in a bucket and of a kind.
fn is_in(name: &StoredKey, held: &Held, bucket: &Text, kind: Kind) -> bool
    ensures { result ≡ is_in bucket.now kind (shown (name.now, held.now)) }
{
    *bucket == name.bucket && held.kind == kind
}

impl SeriesMap {
    pub(crate) fn empty(alloc: Global) -> SeriesMap
        ensures { result ≡ [] }
    {
        SeriesMap {
            entries: IndexMap::new(alloc),
        }
    }

    /// Puts a value into the series with this name, or into a new one at the end.
    pub(crate) fn put(&mut self, key: StoredKey, time: i64, value: Scalar) -> Result<(), PutFault>
        requires few { length self.old < 2 ^ 32 }
        requires kind { IsSome (kind_of value) }
        ensures ok { OnOk result (self.new ≡ after_put (id_of_key key (kind_of value)) time value self.old) }
        ensures err { OnErr result (self.new ≡ self.old) }
        ensures answers { SeriesAnswers self.old (id_of_key key (kind_of value)) result }
    {
        let kind = value.kind().unwrap();
        match self.entries.get_index_of(&key) {
            Some(number) => {
                let (_, held) = self.entries.pair_mut(number);
                held.put(number as u32, kind, time, value)
            }
            None => {
                let held = Held::of(*self.entries.allocator(), kind, time, value)?;
                self.entries.insert(key, held)?;
                Ok(())
            }
        }
    }

    /// Puts a value into the series with a number.
    pub(crate) fn put_at(&mut self, number: u32, time: i64, value: Scalar) -> Result<(), Memory>
        requires { number < length self.old }
        ensures ok { (s : Series) → slice_get self.old number ≡ Some s → IsDistinct same_id (map (λ t. t.id) self.old) → OnOk result (self.new ≡ after_put s.id time value self.old) }
        ensures err { OnErr result (self.new ≡ self.old) }
        ensures many { length self.new ≡ length self.old }
    {
        let (_, held) = self.entries.pair_mut(number as usize);
        held.put_value(time, value)
    }

    /// The number of the series with this name, where it is of this kind.
    pub(crate) fn number_of(&self, key: &StoredKey, kind: Kind) -> Option<u32>
        requires { length self.now < 2 ^ 32 }
        ensures { IfSome result (λ n. slice_get (map (λ s. s.id) self.now) n ≡ Some (id_of_key key.now (Some kind))) }
    {
        let number = self.entries.get_index_of(key)?;
        let (_, held) = self.entries.get_index(number)?;
        if held.kind == kind {
            Some(number as u32)
        } else {
            None
        }
    }

    /// The name of the series with a number.
    pub(crate) fn name(&self, number: u32) -> Option<&StoredKey>
        ensures { option_map (λ k. k.now.key) result ≡ option_map (λ s. s.id.key) (slice_get self.now number) }
    {
        match self.entries.get_index(number as usize) {
            Some((key, _)) => Some(key),
            None => None,
        }
    }

    /// The numbers of the series in a bucket and of a kind.
    pub(crate) fn numbers(
        &self,
        alloc: Global,
        bucket: &Text,
        kind: Kind,
    ) -> Result<List<u32>, Memory>
        requires { length self.now < 2 ^ 32 }
        ensures { IfOk result (λ ns. ns ≡ places (is_in bucket.now kind) 0 self.now) }
    {
        let mut numbers = List::empty(alloc);
        let mut number = 0;
        for (key, held) in &self.entries {
            if is_in(key, held, bucket, kind) {
                numbers.push(number)?;
            }
            number += 1;
        }
        Ok(numbers)
    }

    /// The blocks of the series with a number.
    pub(crate) fn blocks(&self, number: u32) -> Option<&[Block]>
        ensures joined { option_map (λ b. entries_in b.now) result ≡ option_map (λ s. s.values) (slice_get self.now number) }
        ensures each { IfSome result (λ b. AllByRecursion IsBlock b.now) }
    {
        match self.entries.get_index(number as usize) {
            Some((_, held)) => Some(held.values.as_slice()),
            None => None,
        }
    }

    /// The values of a series with `first <= time <= last`, by rising time.
    pub(crate) fn read<L: Ledger>(
        &self,
        alloc: Global,
        number: u32,
        first: i64,
        last: i64,
        steps: &mut Steps<L>,
    ) -> Result<List<TimeValue>, Memory>
        requires { number < length self.now }
        ensures values { (s : Series) → slice_get self.now number ≡ Some s → IfOk result (λ r. pairs r ≡ between first last s.values) }
        ensures enough { IfOk result (λ r. steps.old + length r ≤ steps.new) }
        ensures few { IfOk result (λ r. steps.new ≤ steps.old + length r + 2048) }
        ensures most { (s : Series) → slice_get self.now number ≡ Some s → OnErr result ((steps.old ≤ steps.new) × (steps.new ≤ steps.old + length (between first last s.values) + 2048)) }
    {
        let (_, held) = self.entries.get_index(number as usize).unwrap();
        held.read(alloc, first, last, steps)
    }
}
