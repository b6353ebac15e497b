ghost use Rattle.std.specs.Prelude.{◌≡◌, [], ◌∷◌, IfOk};
ghost use Rattle.fx_data.specs.Table.{HasRisingLabels};

use fx_base::{List, Memory, Text};
use fx_data::{Key, Runs, Tables, key_with};
use fx_value::{Head, Row, Scalar, Shape, Source};
use std::alloc::Global;

/// Tables that differ in the column `host`, with rows of seven columns. Nothing is promised of them:
/// they are there to be measured, and no proof rests on what they hold.
pub fn made_tables(alloc: Global, tables: u64, rows: i64) -> Result<Tables, Memory> {
    let key = key_of(alloc, &["_field", "_measurement", "host", "region", "zone"])?;
    let mut runs = Runs::empty(alloc);
    for number in 0..tables {
        let shape = Shape::of(alloc, head_of(alloc, number)?)?;
        for i in 0..rows {
            runs = runs.push(
                alloc,
                &key,
                Row::of(&shape, Scalar::Time(i), Scalar::Int(i))?,
            )?;
        }
    }
    runs.into_tables(alloc)
}

/// One table of rows whose values are in no order.
pub fn mixed_table(alloc: Global, rows: i64) -> Result<Tables, Memory> {
    let key = key_of(alloc, &["_field", "_measurement", "host", "region", "zone"])?;
    let shape = Shape::of(alloc, head_of(alloc, 0)?)?;
    let mut runs = Runs::empty(alloc);
    for i in 0..rows {
        let value = Scalar::Int(i.wrapping_mul(6_364_136_223_846_793_005));
        runs = runs.push(alloc, &key, Row::of(&shape, Scalar::Time(i), value)?)?;
    }
    runs.into_tables(alloc)
}

/// Tables as above, with rows that have the bounds of all times as `_start` and `_stop`.
pub fn bounded_tables(alloc: Global, tables: u64, rows: i64) -> Result<Tables, Memory> {
    let key = key_of(
        alloc,
        &["_field", "_measurement", "_start", "_stop", "host"],
    )?;
    let mut runs = Runs::empty(alloc);
    for number in 0..tables {
        let head = head_of(alloc, number)?
            .with(alloc, &Text::of(alloc, "_start")?, fixed_time(0))?
            .with(alloc, &Text::of(alloc, "_stop")?, fixed_time(rows))?;
        let shape = Shape::of(alloc, head)?;
        for i in 0..rows {
            runs = runs.push(
                alloc,
                &key,
                Row::of(&shape, Scalar::Time(i), Scalar::Int(i))?,
            )?;
        }
    }
    runs.into_tables(alloc)
}

fn fixed_time(time: i64) -> Source {
    Source::Fixed(Scalar::Time(time))
}

/// A key of these labels; rows that are regrouped under it get their own values.
fn key_of(alloc: Global, labels: &[&str]) -> Result<Key, Memory>
    ensures { IfOk result HasRisingLabels }
{
    let mut key = Key {
        entries: List::empty(alloc),
    };
    for label in labels {
        key = key_with(alloc, &key, &Text::of(alloc, label)?, &Scalar::Null)?;
    }
    Ok(key)
}

fn head_of(alloc: Global, number: u64) -> Result<Head, Memory> {
    let host = Scalar::Text(host_of(alloc, number)?);
    let head = with_text(alloc, Head::empty(alloc), "_field", "usage")?;
    let head = with_text(alloc, head, "_measurement", "cpu")?;
    let head = with_text(alloc, head, "region", "eu-west-1")?;
    with_text(alloc, head, "zone", "z1")?
        .with(alloc, &Text::of(alloc, "host")?, Source::Fixed(host))?
        .with(alloc, &Text::of(alloc, "_time")?, Source::First)?
        .with(alloc, &Text::of(alloc, "_value")?, Source::Second)
}

fn with_text(alloc: Global, head: Head, label: &str, text: &str) -> Result<Head, Memory> {
    let value = Scalar::Text(Text::of(alloc, text)?);
    head.with(alloc, &Text::of(alloc, label)?, Source::Fixed(value))
}

/// `h` and the last six digits of the number.
fn host_of(alloc: Global, number: u64) -> Result<Text, Memory> {
    let mut name = *b"h000000";
    let mut rest = number;
    for i in 0..6 {
        name[6 - i] = b'0' + (rest % 10) as u8;
        rest /= 10;
    }
    match std::str::from_utf8(&name) {
        Ok(name) => Text::of(alloc, name),
        Err(_) => Text::of(alloc, "h"),
    }
}

/// A list of one label.
pub fn one_label(alloc: Global, name: &str) -> Result<List<Text>, Memory>
    ensures { IfOk result (λ labels. labels ≡ name.now ∷ []) }
{
    let mut labels = List::empty(alloc);
    labels.push(Text::of(alloc, name)?)?;
    Ok(labels)
}
