ghost use Rattle.std.specs.Prelude.{◌≡◌, ℕ, ℤ, ◌≤◌, ◌<◌, ◌^◌, ◌-◌, List, [], length, Some, IfOk, IsTrue};
ghost use Rattle.fx_base.specs.Outside.{Told};
ghost use Rattle.fx_line.specs.Line.{is_factor};
ghost use Rattle.fx_line.specs.Stored.{StoredPoint};
ghost use Rattle.fx_load.specs.Loads.{IsTold};
ghost use Rattle.fx_series.specs.Store.{StandsFor};
ghost use Rattle.fx_top.specs.Command.{IsCommand, mode_of};
ghost use Rattle.fx_top.specs.Answer.{Answers, Asks, Causes, Writes, NamesFile, Shows, buckets_of};
ghost use Rattle.fx_top.specs.Stage.{FileAnswers, FileCauses, RunCauses, DataAnswers, StopAnswers, IsKept};

use crate::command::{Command, read_words};
use crate::outcome::Outcome;
use crate::query::Query;
use crate::script::{ScriptStop, read_script};
use crate::source::query_tables;
use fx_base::{Fault, FaultKind, FileFault, Files, Memory, Sink, SinkFault, Steps, Text};
use fx_csv::write_alike_yield;
use fx_line::LineMode;
use fx_load::{FileStop, Load, LoadsStop, load_files};
use fx_series::Store;
use std::alloc::Global;
use std::sync::ledger::Ledger;

/// How many bytes a script may have.
pub const MOST_SCRIPT_BYTES: u64 = 65_536;

/// How a run ended, and the script whose places the line of its outcome shows.
#[derive(Drop)]
pub struct Ended {
    pub outcome: Outcome,
    pub script: Vec<u8>,
}

/// Ended before a script was read.
fn without_script(alloc: Global, outcome: Outcome) -> Ended
    ensures { result.outcome ≡ outcome }
{
    Ended {
        outcome,
        script: Vec::new(alloc),
    }
}

/// Runs the words of a command line.
pub fn run<F: Files, O: Sink, L: Ledger>(
    alloc: Global,
    words: &[Text],
    moment: i64,
    files: &mut F,
    out: &mut O,
    steps: &mut Steps<L>,
) -> Ended
    ensures answers { (told : Told) → F.content files.old ≡ Some told → Answers moment told words.now (O.written out.old) (O.written out.new) result.outcome }
    ensures shows { (told : Told) → F.content files.old ≡ Some told → Shows told words.now result.outcome result.script.items }
    ensures causes { Causes (F.faults files.old) (F.faults files.new) (O.faults out.old) (O.faults out.new) result.outcome }
    ensures writes { Writes (O.written out.old) (O.written out.new) result.outcome }
    ensures names { NamesFile words.now result.outcome }
{
    match read_words(alloc, words) {
        Err(_) => without_script(alloc, Outcome::Memory),
        Ok(None) => without_script(alloc, Outcome::Usage),
        Ok(Some(command)) => {
            run_command(alloc, &command, command.mode(moment), files, out, steps)
        },
    }
}

/// Loads a script and runs it.
fn run_command<F: Files, O: Sink, L: Ledger>(
    alloc: Global,
    command: &Command,
    mode: LineMode,
    files: &mut F,
    out: &mut O,
    steps: &mut Steps<L>,
) -> Ended
    requires factor { IsTrue (is_factor mode.factor) }
    ensures answers { (moment : ℤ) (told : Told) (words : List (List ℕ)) → mode ≡ mode_of moment command.now → F.content files.old ≡ Some told → IsCommand words command.now → Answers moment told words (O.written out.old) (O.written out.new) result.outcome }
    ensures shows { (told : Told) (words : List (List ℕ)) → F.content files.old ≡ Some told → IsCommand words command.now → Shows told words result.outcome result.script.items }
    ensures causes { Causes (F.faults files.old) (F.faults files.new) (O.faults out.old) (O.faults out.new) result.outcome }
    ensures writes { Writes (O.written out.old) (O.written out.new) result.outcome }
    ensures names { (words : List (List ℕ)) → IsCommand words command.now → NamesFile words result.outcome }
{
    match load(alloc, &command.script, MOST_SCRIPT_BYTES, files) {
        Ok(script) => Ended {
            outcome: run_script(alloc, command, mode, script.as_slice(), files, out, steps),
            script,
        },
        Err(refusal) => without_script(alloc, refusal),
    }
}

/// Reads a script and runs its query.
fn run_script<F: Files, O: Sink, L: Ledger>(
    alloc: Global,
    command: &Command,
    mode: LineMode,
    script: &[u8],
    files: &mut F,
    out: &mut O,
    steps: &mut Steps<L>,
) -> Outcome
    requires bytes { length script.now ≤ MOST_SCRIPT_BYTES }
    requires factor { IsTrue (is_factor mode.factor) }
    ensures answers { (moment : ℤ) (told : Told) (words : List (List ℕ)) → mode ≡ mode_of moment command.now → F.content files.old ≡ Some told → IsCommand words command.now → IsTold told command.now.script MOST_SCRIPT_BYTES script.now → Answers moment told words (O.written out.old) (O.written out.new) result }
    ensures causes { Causes (F.faults files.old) (F.faults files.new) (O.faults out.old) (O.faults out.new) result }
    ensures writes { Writes (O.written out.old) (O.written out.new) result }
    ensures names { (words : List (List ℕ)) → IsCommand words command.now → NamesFile words result }
{
    match read_script(alloc, script) {
        Ok(query) => run_query(alloc, command, mode, &query, files, out, steps),
        Err(ScriptStop::Syntax { place, deep }) => Outcome::Syntax { place, deep },
        Err(ScriptStop::NotBuilt) => Outcome::NotBuilt,
        Err(ScriptStop::Memory) => Outcome::Memory,
    }
}

/// Loads the data files and runs a query over them.
fn run_query<F: Files, O: Sink, L: Ledger>(
    alloc: Global,
    command: &Command,
    mode: LineMode,
    query: &Query,
    files: &mut F,
    out: &mut O,
    steps: &mut Steps<L>,
) -> Outcome
    requires factor { IsTrue (is_factor mode.factor) }
    ensures answers { (moment : ℤ) (told : Told) (words : List (List ℕ)) → mode ≡ mode_of moment command.now → F.content files.old ≡ Some told → Asks told words command.now query.now → Answers moment told words (O.written out.old) (O.written out.new) result }
    ensures causes { Causes (F.faults files.old) (F.faults files.new) (O.faults out.old) (O.faults out.new) result }
    ensures writes { Writes (O.written out.old) (O.written out.new) result }
    ensures names { (words : List (List ℕ)) → IsCommand words command.now → NamesFile words result }
{
    let loads = command.loads.as_slice();
    let Ok(mut store) = store_of(alloc, loads) else {
        return Outcome::Memory;
    };
    match load_files(alloc, loads, mode, files, &mut store) {
        Ok(()) => yield_query(alloc, query, &store, out, steps),
        Err(stop) => stop_outcome(stop, loads),
    }
}

/// The bytes of a script, or the answer that they can't be had.
fn load<F: Files>(alloc: Global, name: &Text, limit: u64, files: &mut F) -> Result<Vec<u8>, Outcome>
    requires limit { limit < 2 ^ 64 - 1 }
    ensures same { F.content files.new ≡ F.content files.old }
    ensures told { (told : Told) → F.content files.old ≡ Some told → FileAnswers told name.now limit result }
    ensures causes { FileCauses name.now limit (F.faults files.old) (F.faults files.new) result }
{
    match files.load(alloc, name, limit) {
        Ok(bytes) => Ok(bytes),
        Err(FileFault::Failed) => match name.copy() {
            Ok(name) => Err(Outcome::FileFault { name }),
            Err(_) => Err(Outcome::Memory),
        },
        Err(FileFault::TooLong { taken }) => match name.copy() {
            Ok(name) => Err(Outcome::TooLong { name, taken }),
            Err(_) => Err(Outcome::Memory),
        },
        Err(FileFault::Memory) => Err(Outcome::Memory),
    }
}

/// A store with the buckets that loads fill and no points.
fn store_of(alloc: Global, loads: &[Load]) -> Result<Store, Memory>
    ensures { IfOk result (λ store. StandsFor store (buckets_of loads.now) []) }
{
    let mut store = Store::empty(alloc)?;
    for load in loads {
        store.add_bucket(&load.bucket)?;
    }
    Ok(store)
}

/// The answer that a load of files stopped.
fn stop_outcome(stop: LoadsStop, loads: &[Load]) -> Outcome
    requires within { stop.place < length loads.now }
    ensures { StopAnswers stop loads.now result }
{
    let Ok(name) = loads[stop.place].file.copy() else {
        return Outcome::Memory;
    };
    match stop.stop {
        FileStop::Failed => Outcome::FileFault { name },
        FileStop::TooLong { taken } => Outcome::TooLong { name, taken },
        FileStop::Line { line, cause } => Outcome::Line {
            file: name,
            line,
            cause,
        },
        FileStop::TooMany { line } => Outcome::TooMany { file: name, line },
        FileStop::Memory => Outcome::Memory,
    }
}

/// Yields the tables of a query over a store.
fn yield_query<O: Sink, L: Ledger>(
    alloc: Global,
    query: &Query,
    store: &Store,
    out: &mut O,
    steps: &mut Steps<L>,
) -> Outcome
    requires kept { IsKept store.now }
    ensures ends { (buckets : List (List ℕ)) (stored : List StoredPoint) → StandsFor store.now buckets stored → DataAnswers query.now buckets stored (O.written out.old) (O.written out.new) result }
    ensures causes { RunCauses (O.faults out.old) (O.faults out.new) result }
{
    if !store.has_bucket(&query.bucket) {
        return Outcome::Fault {
            fault: Fault {
                kind: FaultKind::NoBucket,
                place: query.place,
            },
        };
    }
    let Ok(tables) = query_tables(alloc, store, query, steps) else {
        return Outcome::Memory;
    };
    let Ok(name) = Text::of(alloc, "_result") else {
        return Outcome::Memory;
    };
    match write_alike_yield(alloc, &name, &tables, out) {
        Ok(()) => Outcome::Done,
        Err(SinkFault::Failed) => Outcome::SinkFault,
        Err(SinkFault::Memory) => Outcome::Memory,
    }
}
