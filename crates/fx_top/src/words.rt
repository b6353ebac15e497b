//! The words of a command line behind the first, read from left to right.
ghost use Rattle.std.specs.Prelude.{◌≡◌, IfOk, IsTrue};
ghost use Rattle.fx_line.specs.Line.{is_factor};
ghost use Rattle.fx_top.specs.Words.{Hears, factor_of, heard, is_option, open_word, precision_of, says, valued};
ghost use Rattle.fx_top.specs.declared.words.Reading.TheVariants as reading;

use fx_base::{List, Memory, Text};
use fx_time::read_time;
use std::alloc::Global;

/// An option that has a value.
#[derive(Clone, Copy, Debug, PartialEq, Eq)]
pub enum Setting {
    Now,
    Precision,
}

/// How the next word is read: as any word, as the value of an option, or as a positional word,
/// since `--` stood before it.
#[derive(Clone, Copy, Debug, PartialEq, Eq)]
pub enum Reading {
    Open,
    Waits(Setting),
    Closed,
}

/// The unit in which the lines of data files count their times.
#[derive(Clone, Copy, Debug, PartialEq, Eq)]
pub enum Precision {
    Ns,
    Us,
    Ms,
    S,
}

impl Precision {
    /// How many nanoseconds the unit has.
    pub fn factor(self) -> i64
        ensures value { result ≡ factor_of self }
        ensures factor { IsTrue (is_factor result) }
    {
        match self {
            Precision::Ns => 1,
            Precision::Us => 1_000,
            Precision::Ms => 1_000_000,
            Precision::S => 1_000_000_000,
        }
    }
}

/// What words say: the positional words, the values of `--now` in nanoseconds since
/// 1970-01-01T00:00:00Z, those of `--precision`, and a true for each `--skip-floats`.
#[derive(Debug, Drop)]
pub struct Said {
    pub words: List<Text>,
    pub nows: List<i64>,
    pub precisions: List<Precision>,
    pub skips: List<bool>,
}

/// What words say, or None where they have no form of a command's.
pub fn read_said(alloc: Global, words: &[Text]) -> Result<Option<Said>, Memory>
    ensures { IfOk result (λ s. s ≡ says reading.Open words.now) }
{
    let mut said = Said {
        words: List::empty(alloc),
        nows: List::empty(alloc),
        precisions: List::empty(alloc),
        skips: List::empty(alloc),
    };
    let mut reading = Reading::Open;
    for word in words {
        match hear(reading, word, &mut said)? {
            None => return Ok(None),
            Some(next) => reading = next,
        }
    }
    match reading {
        Reading::Waits(_) => Ok(None),
        Reading::Open | Reading::Closed => Ok(Some(said)),
    }
}

/// Adds what a word says, and gives how the next one is read.
fn hear(reading: Reading, word: &Text, said: &mut Said) -> Result<Option<Reading>, Memory>
    ensures { IfOk result (λ next. Hears (heard reading word.now) said.old said.new next) }
{
    match reading {
        Reading::Open => hear_open(word, said),
        Reading::Waits(setting) => {
            let value = word.as_bytes();
            if value.starts_with(b"-") {
                return Ok(None);
            }
            hear_value(setting, value, said)
        }
        Reading::Closed => {
            said.words.push(word.copy()?)?;
            Ok(Some(Reading::Closed))
        }
    }
}

/// Adds what a word says that may be an option.
fn hear_open(word: &Text, said: &mut Said) -> Result<Option<Reading>, Memory>
    ensures { IfOk result (λ next. Hears (open_word word.now) said.old said.new next) }
{
    if !is_option_word(word) {
        said.words.push(word.copy()?)?;
        return Ok(Some(Reading::Open));
    }
    let bytes = word.as_bytes();
    if bytes == b"--".as_slice() {
        return Ok(Some(Reading::Closed));
    }
    if bytes == b"--skip-floats".as_slice() {
        said.skips.push(true)?;
        return Ok(Some(Reading::Open));
    }
    if bytes == b"--now".as_slice() {
        return Ok(Some(Reading::Waits(Setting::Now)));
    }
    if bytes == b"--precision".as_slice() {
        return Ok(Some(Reading::Waits(Setting::Precision)));
    }
    if let Some(value) = bytes.strip_prefix(b"--now=") {
        return hear_value(Setting::Now, value, said);
    }
    if let Some(value) = bytes.strip_prefix(b"--precision=") {
        return hear_value(Setting::Precision, value, said);
    }
    Ok(None)
}

/// Adds the value of an option.
fn hear_value(setting: Setting, value: &[u8], said: &mut Said) -> Result<Option<Reading>, Memory>
    ensures { IfOk result (λ next. Hears (valued setting value.now) said.old said.new next) }
{
    match setting {
        Setting::Now => {
            let Some(now) = read_time(value) else {
                return Ok(None);
            };
            said.nows.push(now)?;
        }
        Setting::Precision => {
            let Some(precision) = read_precision(value) else {
                return Ok(None);
            };
            said.precisions.push(precision)?;
        }
    }
    Ok(Some(Reading::Open))
}

/// The precision of a name.
fn read_precision(value: &[u8]) -> Option<Precision>
    ensures { result ≡ precision_of value.now }
{
    if value == b"ns".as_slice() {
        Some(Precision::Ns)
    } else if value == b"us".as_slice() {
        Some(Precision::Us)
    } else if value == b"ms".as_slice() {
        Some(Precision::Ms)
    } else if value == b"s".as_slice() {
        Some(Precision::S)
    } else {
        None
    }
}

fn is_option_word(word: &Text) -> bool
    ensures { result ≡ is_option word.now }
{
    let bytes = word.as_bytes();
    bytes.starts_with(b"-") && bytes.len() > 1
}
