ghost use Rattle.std.specs.Prelude.{◌≡◌, ◌+◌, ◌≤◌, [], ◌∷◌, length, IfOk, OnOk, OnErr};
ghost use Rattle.std.specs.Ordering.{int_cmp};
ghost use Rattle.std.specs.BTreeMap.{insert_entry};
ghost use Rattle.fx_series.specs.HeldAnswers.{HeldAnswers};
ghost use Rattle.fx_series.specs.Read.{between, pairs};

use crate::blocks::Blocks;
use crate::fault::PutFault;
use fx_base::{List, Memory, Steps, Text};
use fx_line::SeriesKey;
use fx_value::{Kind, Scalar};
use std::alloc::Global;
use std::sync::ledger::Ledger;

/// A value and its time, which counts nanoseconds since 1970-01-01T00:00:00Z.
#[derive(Debug, Drop)]
pub struct TimeValue {
    pub time: i64,
    pub value: Scalar,
}

/// The name of a series: its bucket, and its key there.
#[derive(Debug, PartialEq, Eq, Hash, Drop)]
pub(crate) struct StoredKey {
    pub(crate) bucket: Text,
    pub(crate) key: SeriesKey,
}

/// The values of a series by rising time, and their kind.
#[derive(Drop)]
pub(crate) struct Held {
    pub(crate) kind: Kind,
    pub(crate) values: Blocks,
}

impl Held {
    /// A series with its first value.
    pub(crate) fn of(alloc: Global, kind: Kind, time: i64, value: Scalar) -> Result<Held, Memory>
        ensures kind { IfOk result (λ h. h.kind ≡ kind) }
        ensures values { IfOk result (λ h. h.values ≡ (time, value) ∷ []) }
    {
        let values = Blocks::of(alloc, time, value)?;
        Ok(Held { kind, values })
    }

    /// Puts a value of the kind `kind`, which takes the place of one at its time. The series has
    /// the number `number`.
    pub(crate) fn put(
        &mut self,
        number: u32,
        kind: Kind,
        time: i64,
        value: Scalar,
    ) -> Result<(), PutFault>
        ensures kind { self.new.kind ≡ self.old.kind }
        ensures ok { OnOk result (self.new.values ≡ insert_entry int_cmp self.old.values time value) }
        ensures err { OnErr result (self.new.values ≡ self.old.values) }
        ensures answers { HeldAnswers number self.old.kind kind result }
    {
        if self.kind != kind {
            return Err(PutFault::KindConflict {
                series: number,
                old: self.kind,
                new: kind,
            });
        }
        self.values.put(time, value)?;
        Ok(())
    }

    /// Puts a value, which takes the place of one at its time.
    pub(crate) fn put_value(&mut self, time: i64, value: Scalar) -> Result<(), Memory>
        ensures kind { self.new.kind ≡ self.old.kind }
        ensures ok { OnOk result (self.new.values ≡ insert_entry int_cmp self.old.values time value) }
        ensures err { OnErr result (self.new.values ≡ self.old.values) }
    {
        self.values.put(time, value)
    }

    /// The values with `first <= time <= last`, by rising time.
    pub(crate) fn read<L: Ledger>(
        &self,
        alloc: Global,
        first: i64,
        last: i64,
        steps: &mut Steps<L>,
    ) -> Result<List<TimeValue>, Memory>
        ensures values { IfOk result (λ r. pairs r ≡ between first last self.now.values) }
        ensures enough { IfOk result (λ r. steps.old + length r ≤ steps.new) }
        ensures few { IfOk result (λ r. steps.new ≤ steps.old + length r + 2048) }
        ensures most { OnErr result ((steps.old ≤ steps.new) × (steps.new ≤ steps.old + length (between first last self.now.values) + 2048)) }
    {
        self.values.read(alloc, first, last, steps)
    }
}
