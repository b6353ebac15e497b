ghost use Rattle.std.specs.Prelude.{◌≡◌, ◌≢◌, ℕ, List, Option, Some};
ghost use Rattle.fx_base.specs.Outside.{Told, Rose};
ghost use Rattle.fx_top.specs.Answer.{Answers, Causes, Writes, NamesFile, IsSaid, IsSettled};
ghost use Rattle.fx_top.specs.declared.outcome.Outcome.{Outcome as AnyOutcome};

use crate::message::tell;
use crate::outcome::Outcome;
use crate::run::run;
use fx_base::{Files, Sink, Steps, Text};
use std::alloc::Global;
use std::sync::ledger::Ledger;

/// All that the program does: takes the words of a command line without the program's name, the
/// moment in nanoseconds since 1970-01-01T00:00:00Z, the files and the two streams, and says how it
/// ended. A line without a time has the moment, or the time of `--now`.
///
/// `answers` is the headline: over files that tell their content each answer is the one that
/// evaluating the query directly over all loaded points gives, in the order of the refusals.
/// `exactly` turns it round: where the words and what the files tell allow an answer that no device
/// and no want of memory makes, no other such answer comes. `causes` says that a device's fault is
/// answered only where its count of faults rose.
pub fn flux_main<F: Files, O: Sink, E: Sink, L: Ledger>(
    alloc: Global,
    words: &[Text],
    moment: i64,
    files: &mut F,
    out: &mut O,
    err: &mut E,
    steps: &mut Steps<L>,
) -> Outcome
    ensures answers { (told : Told) → F.content files.old ≡ Some told → Answers moment told words.now (O.written out.old) (O.written out.new) result }
    ensures exactly { (told : Told) (new : Option (List ℕ)) (o : AnyOutcome) → F.content files.old ≡ Some told → IsSettled o → Answers moment told words.now (O.written out.old) new o → IsSettled result → result ≡ o }
    ensures causes { Causes (F.faults files.old) (F.faults files.new) (O.faults out.old) (O.faults out.new) result }
    ensures writes { Writes (O.written out.old) (O.written out.new) result }
    ensures names { NamesFile words.now result }
    ensures said { result ≢ Outcome.Memory → (Rose (E.faults err.old) (E.faults err.new) → ⊥) → IsSaid (F.content files.old) words.now (E.written err.old) (E.written err.new) result }
{
    let ended = run(alloc, words, moment, files, out, steps);
    tell(alloc, ended.outcome, ended.script.as_slice(), err)
}
