ghost use Rattle.std.specs.Prelude.{◌≡◌, ℕ, ◌+◌, ◌^◌, ◌<◌, ◌≤◌, ◌-◌, List, [], ◌∷◌, ◌++◌, length, map, filter, Some, true, All, slice_get, option_map, IfOk, IfSome, OnOk, OnErr};
ghost use Rattle.std.specs.Ordering.{nat_cmp};
ghost use Rattle.std.specs.List.{AllByRecursion};
ghost use Rattle.fx_value.specs.Scalar.{kind_of};
ghost use Rattle.std.specs.List.Sorted.{IsStrictlySortedBy};
ghost use Rattle.fx_line.specs.Stored.{StoredPoint, Series, IsLawful};
ghost use Rattle.fx_series.specs.Store.{StandsFor, is_added, with_bucket};
ghost use Rattle.fx_series.specs.Put.{Answers, HasPut, point_at};
ghost use Rattle.fx_series.specs.Blocks.{entries_in, IsBlock};
ghost use Rattle.fx_series.specs.Read.{is_in, between, pairs};

use crate::block::Block;
use crate::fault::PutFault;
use crate::series::{StoredKey, TimeValue};
use crate::series_map::SeriesMap;
use fx_base::{List, Memory, Steps, Text};
use fx_line::{Point, SeriesKey};
use fx_value::{Kind, Scalar};
use indexmap::IndexSet;
use std::alloc::Global;
use std::marker::Model;
use std::sync::ledger::Ledger;

/// Buckets and the points that were put into them.
#[derive(Drop)]
pub struct Store {
    buckets: IndexSet<Text>,
    series: SeriesMap,
    puts: u64,
}

impl Model for Store {
    ghost use Rattle.std.specs.Prelude.{◌≤◌, ◌<◌, length, map};
    ghost use Rattle.fx_series.specs.Store.{Kept};

    ghost Value = { Kept };

    ghost view = { λ s. record { buckets = s.buckets.keys; series = s.series; puts = s.puts } };

    ghost invariant = { λ s. (length s.series ≤ s.puts) × (s.puts < 4294967296) };
}

impl Store {
    /// The store without buckets and points.
    pub fn empty(alloc: Global) -> Result<Store, Memory>
        ensures { IfOk result (λ s. StandsFor s [] []) }
    {
        Ok(Store {
            buckets: IndexSet::new(alloc),
            series: SeriesMap::empty(alloc),
            puts: 0,
        })
    }

    /// Adds a bucket at the end; one that is there stays where it is.
    pub fn add_bucket(&mut self, name: &Text) -> Result<(), Memory>
        ensures ok { (buckets : List (List ℕ)) (stored : List StoredPoint) → StandsFor self.old buckets stored → OnOk result (StandsFor self.new (with_bucket buckets name.now) stored) }
        ensures err { OnErr result (self.new ≡ self.old) }
    {
        self.buckets.insert(name.copy()?)?;
        Ok(())
    }

    /// Whether a bucket of this name was added.
    pub fn has_bucket(&self, name: &Text) -> bool
        ensures { result ≡ is_added self.now.buckets name.now }
    {
        self.buckets.contains(name)
    }

    /// The bucket at a place in the order in which they were added.
    pub fn bucket_at(&self, place: u32) -> Option<&Text>
        ensures { option_map (λ t. t.now) result ≡ slice_get self.now.buckets place }
    {
        self.buckets.get_index(place as usize)
    }

    /// How many puts were accepted.
    pub fn points(&self) -> u64
        ensures { result ≡ self.now.puts }
    {
        self.puts
    }

    /// The key of the series with a number.
    pub fn series_key(&self, series: u32) -> Option<&SeriesKey>
        ensures { option_map (λ k. k.now) result ≡ option_map (λ s. s.id.key) (slice_get self.now.series series) }
    {
        match self.series.name(series) {
            Some(name) => Some(&name.key),
            None => None,
        }
    }

    /// Puts a point into a bucket. It replaces the value of an earlier point of its series and time.
    pub fn put(&mut self, bucket: &Text, point: Point) -> Result<(), PutFault>
        requires room { self.old.puts < 4294967295 }
        requires lawful { IsLawful point }
        ensures ok { (buckets : List (List ℕ)) (stored : List StoredPoint) → StandsFor self.old buckets stored → OnOk result (StandsFor self.new buckets (stored ++ record { bucket = bucket.now; point = point } ∷ [])) }
        ensures err { OnErr result (self.new ≡ self.old) }
        ensures answers { (buckets : List (List ℕ)) (stored : List StoredPoint) → StandsFor self.old buckets stored → Answers buckets stored (record { bucket = bucket.now; point = point }) result }
    {
        if !self.has_bucket(bucket) {
            return Err(PutFault::NoBucket);
        }
        let Point {
            series,
            time,
            value,
        } = point;
        let key = StoredKey {
            bucket: bucket.copy()?,
            key: series,
        };
        self.series.put(key, time, value)?;
        self.puts += 1;
        Ok(())
    }

    /// Puts a value into the series with a number, whose kind the value has. It is a put of the point
    /// that has the series' name.
    pub fn put_at(&mut self, series: u32, time: i64, value: Scalar) -> Result<(), Memory>
        requires room { self.old.puts < 4294967295 }
        requires series { series < length self.old.series }
        requires kind { (s : Series) → slice_get self.old.series series ≡ Some s → s.id.kind ≡ kind_of value }
        ensures ok { (s : Series) (buckets : List (List ℕ)) (stored : List StoredPoint) → slice_get self.old.series series ≡ Some s → is_added self.old.buckets s.id.bucket ≡ true → IsLawful (point_at s.id.key time value) → StandsFor self.old buckets stored → OnOk result (HasPut buckets stored s.id.bucket (point_at s.id.key time value) self.new) }
        ensures err { OnErr result (self.new ≡ self.old) }
    {
        self.series.put_at(series, time, value)?;
        self.puts += 1;
        Ok(())
    }

    /// The number of the series with this name in a bucket, where it is of this kind.
    pub fn number_of(
        &self,
        alloc: Global,
        bucket: &Text,
        key: &SeriesKey,
        kind: Kind,
    ) -> Result<Option<u32>, Memory>
        ensures { IfOk result (λ o. IfSome o (λ n. slice_get (map (λ s. s.id) self.now.series) n ≡ Some (record { bucket = bucket.now; key = key.now; kind = Some kind }))) }
    {
        let bucket = bucket.copy()?;
        let key = key.copy(alloc)?;
        let name = StoredKey { bucket, key };
        Ok(self.series.number_of(&name, kind))
    }

    /// The blocks of the series with a number: its values by rising time, in blocks of 1 to 1,024.
    pub fn blocks(&self, series: u32) -> Option<&[Block]>
        ensures joined { option_map (λ b. entries_in b.now) result ≡ option_map (λ s. s.values) (slice_get self.now.series series) }
        ensures each { IfSome result (λ b. AllByRecursion IsBlock b.now) }
    {
        self.series.blocks(series)
    }

    /// The numbers of a bucket's series of a kind, in the order in which their first points were put.
    pub fn series(&self, alloc: Global, bucket: &Text, kind: Kind) -> Result<List<u32>, Memory>
        ensures found { IfOk result (λ ns. map (slice_get self.now.series) ns ≡ map Some (filter (is_in bucket.now kind) self.now.series)) }
        ensures within { IfOk result (λ ns. All (λ n. n < length self.now.series) ns) }
        ensures rising { IfOk result (λ ns. IsStrictlySortedBy nat_cmp ns) }
    {
        self.series.numbers(alloc, bucket, kind)
    }

    /// The values of a series with `first <= time <= last`, by rising time.
    pub fn read<L: Ledger>(
        &self,
        alloc: Global,
        series: u32,
        first: i64,
        last: i64,
        steps: &mut Steps<L>,
    ) -> Result<List<TimeValue>, Memory>
        requires { series < length self.now.series }
        ensures values { (s : Series) → slice_get self.now.series series ≡ Some s → IfOk result (λ r. pairs r ≡ between first last s.values) }
        ensures enough { IfOk result (λ r. steps.old + length r ≤ steps.new) }
        ensures few { IfOk result (λ r. steps.new ≤ steps.old + length r + 2048) }
        ensures most { (s : Series) → slice_get self.now.series series ≡ Some s → OnErr result ((steps.old ≤ steps.new) × (steps.new ≤ steps.old + length (between first last s.values) + 2048)) }
    {
        self.series.read(alloc, series, first, last, steps)
    }
}
