//! What holds of the stored points of every store.
ghost use Rattle.std.specs.Prelude.{◌≡◌, ℕ, ℤ, false, List, [], map, filter, All};
ghost use Rattle.std.specs.Ordering.{int_cmp};
ghost use Rattle.std.specs.List.{IsDistinct};
ghost use Rattle.std.specs.List.Sorted.{IsStrictlySortedBy};
ghost use Rattle.fx_value.specs.declared.scalar.Kind.{Kind};
ghost use Rattle.fx_value.specs.Scalar.{kind_of};
ghost use Rattle.fx_line.specs.declared.point.Point.{Point};
ghost use Rattle.fx_line.specs.Stored.{StoredPoint, same_id, by_time, grouped};
ghost use Rattle.fx_series.specs.Laws.{last_at, value_at};
ghost use Rattle.fx_series.specs.Read.{is_in};
ghost use Rattle.fx_series.specs.Store.{Kept, StandsFor, is_added};

/// The values of a series rise strictly in time.
pub fn times_rise()
    ensures { (points : List Point) → IsStrictlySortedBy int_cmp (map (λ v. v.0) (by_time points)) }
{}

/// At each time stands the value of the last point of that time, and none where there is no such
/// point.
pub fn last_point_stands()
    ensures { (points : List Point) (time : ℤ) → value_at time (by_time points) ≡ last_at time points }
{}

/// No two series have the same name and kind.
pub fn series_differ()
    ensures { (stored : List StoredPoint) → IsDistinct same_id (map (λ s. s.id) (grouped stored)) }
{}

/// Each value of a series is of the series' kind.
pub fn values_are_of_the_kind()
    ensures { (stored : List StoredPoint) → All (λ s. All (λ v. kind_of v.1 ≡ s.id.kind) s.values) (grouped stored) }
{}

/// A bucket that was not added has no series.
pub fn unknown_buckets_are_empty()
    ensures { (kept : Kept) (buckets : List (List ℕ)) (stored : List StoredPoint) → StandsFor kept buckets stored → (name : List ℕ) (kind : Kind) → is_added buckets name ≡ false → filter (is_in name kind) kept.series ≡ [] }
{}
