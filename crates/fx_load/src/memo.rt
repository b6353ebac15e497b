//! What is remembered of lines that were stored.
ghost use Rattle.std.specs.Prelude.{◌≡◌, ◌++◌, [], ◌∷◌, ◌⊎◌, IfSome, IsTrue};
ghost use Rattle.fx_line.specs.Line.{is_factor};
ghost use Rattle.fx_line.specs.Pieces.{IsFilled};
ghost use Rattle.fx_load.specs.Memo.{KnownLine, IsAmong};

use fx_base::Memory;
use fx_line::{LineMode, Pieces};
use std::alloc::Global;
use std::marker::Model;

/// How many lines are remembered at most.
const MOST_KNOWN: usize = 131_072;

/// How many places of the table are looked at for a line.
const TRIES: u64 = 8;

/// How many of these may be of lines that begin alike.
const MOST_ALIKE: u64 = 4;

/// The length of the first table.
const FIRST_PLACES: usize = 1024;

/// No line's number.
const NOTHING: u32 = u32::MAX;

/// A line's pieces, and the number of the series of each of its fields.
#[derive(Drop)]
pub struct Known {
    pub pieces: Pieces,
    pub numbers: Vec<u32>,
    pub start: u64,
}

impl Model for Known {
    ghost use Rattle.fx_load.specs.Memo.{KnownLine};

    ghost Value = { KnownLine };

    ghost view = { λ k. record { pieces = k.pieces; numbers = k.numbers.items } };
}

/// Lines that were stored, by a table of how they begin. Nothing is promised of the table: what it
/// loses makes a load slower.
#[derive(Drop)]
pub struct Memo {
    known: Vec<Known>,
    places: Vec<u32>,
}

impl Model for Memo {
    ghost use Rattle.std.specs.Prelude.{List};
    ghost use Rattle.fx_load.specs.Memo.{KnownLine};

    ghost Value = { List KnownLine };

    ghost view = { λ m. m.known.items };
}

/// A number by the bytes of a line up to its first value, as far as names without backslashes go.
/// Any number would do: it only says where a line is looked for first, so nothing is promised of it.
pub(crate) fn start_of(line: &[u8]) -> u64 {
    let mut start: u64 = 0;
    let mut spaced = false;
    for byte in line {
        start = (start ^ u64::from(*byte)).wrapping_mul(0x9e37_79b9_7f4a_7c15);
        if spaced && *byte == b'=' {
            return start ^ (start >> 32);
        }
        spaced = spaced || *byte == b' ';
    }
    start
}

/// The place of a table of this length for a start and a try; the length is a power of two.
fn place_of(len: usize, start: u64, attempt: u64) -> usize {
    start.wrapping_add(attempt) as usize & len.saturating_sub(1)
}

/// Enters a line's number at the first empty place, or in place of another.
fn enter(places: &mut [u32], start: u64, number: u32) {
    for attempt in 0..TRIES {
        let place = place_of(places.len(), start, attempt);
        if place < places.len() && places[place] == NOTHING {
            places[place] = number;
            return;
        }
    }
    let place = place_of(places.len(), start, 0);
    if place < places.len() {
        places[place] = number;
    }
}

impl Memo {
    /// Nothing is remembered, and no memory is taken.
    pub fn empty(alloc: Global) -> Memo
        ensures { result ≡ [] }
    {
        Memo {
            known: Vec::new(alloc),
            places: Vec::new(alloc),
        }
    }

    /// The line that the table has for a start and a try.
    fn at(&self, start: u64, attempt: u64) -> Option<&Known>
        ensures { IfSome result (λ k. IsAmong self.now k.now) }
    {
        let place = place_of(self.places.len(), start, attempt);
        let number = self.places.get(place)?;
        self.known.get(*number as usize)
    }

    /// The line by whose pieces this one is read, its time, and its integers in place of `values`.
    pub fn read(&self, line: &[u8], mode: LineMode, values: &mut Vec<i64>) -> Option<(&Known, i64)>
        requires { IsTrue (is_factor mode.factor) }
        ensures among { IfSome result (λ r. IsAmong self.now r.0.now) }
        ensures filled { IfSome result (λ r. IsFilled mode r.0.now.pieces line.now values.new.items r.1) }
    {
        let start = start_of(line);
        for attempt in 0..TRIES {
            let known = self.at(start, attempt)?;
            if let Some(time) = known.pieces.read(line, mode, values) {
                return Some((known, time));
            }
        }
        None
    }

    /// Whether no more lines that begin alike are worth remembering. Either answer would do: a line
    /// that isn't remembered goes the plain way, so nothing is promised of it.
    pub(crate) fn is_crowded(&self, start: u64) -> bool {
        let mut alike: u64 = 0;
        for attempt in 0..TRIES {
            match self.at(start, attempt) {
                Some(known) if known.start == start => alike = alike.saturating_add(1),
                _ => {}
            }
        }
        alike >= MOST_ALIKE
    }

    /// Makes a table of twice as many places where half of them may be taken.
    fn make_room(&mut self) -> Result<(), Memory>
        ensures { self.new ≡ self.old }
    {
        let len = self.places.len();
        if self.known.len() < len / 2 {
            return Ok(());
        }
        let size = len.saturating_mul(2).max(FIRST_PLACES);
        let mut places = Vec::with_capacity(*self.places.allocator(), size)?;
        places.resize(size, NOTHING)?;
        for number in 0..self.known.len() {
            enter(
                places.as_mut_slice(),
                self.known[number].start,
                u32::try_from(number).unwrap_or(NOTHING),
            );
        }
        self.places = places;
        Ok(())
    }

    /// Remembers a line more, unless there are too many.
    pub fn add(&mut self, known: Known) -> Result<(), Memory>
        ensures { (self.new ≡ self.old) ⊎ (self.new ≡ self.old ++ known ∷ []) }
    {
        let number = self.known.len();
        if number >= MOST_KNOWN {
            return Ok(());
        }
        self.make_room()?;
        let start = known.start;
        self.known.push(known)?;
        enter(self.places.as_mut_slice(), start, number as u32);
        Ok(())
    }
}
