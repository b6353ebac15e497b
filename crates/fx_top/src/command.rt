ghost use Rattle.std.specs.Prelude.{◌≡◌, ℕ, List, ◌∷◌, ◌++◌, IfNone, IfSome, IfOk, IsTrue, MatchOption};
ghost use Rattle.fx_line.specs.Line.{is_factor};
ghost use Rattle.fx_load.specs.Bytes.{IsFreeOf};
ghost use Rattle.fx_load.specs.declared.loads.Load.{Load};
ghost use Rattle.fx_top.specs.Command.{AreLoads, Commands, IsCommand, IsLoad, IsRun, mode_of, once};
ghost use Rattle.fx_top.specs.declared.command.Command.{Command};

use crate::words::{Precision, Said, read_said};
use fx_base::{List, Memory, Text};
use fx_line::LineMode;
use fx_load::Load;
use std::alloc::Global;

/// How many files a run may load.
pub const MOST_LOADS: usize = 16;

/// What a command line asks for: to run a script over the buckets that files fill, in their order.
#[derive(Debug, Drop)]
pub struct Command {
    pub script: Text,
    pub loads: List<Load>,
    /// The time that stands for the moment, in nanoseconds since 1970-01-01T00:00:00Z.
    pub moment: Option<i64>,
    /// The unit of the files' times.
    pub precision: Precision,
    /// Whether fields that are floats are passed over.
    pub skip_floats: bool,
}

impl Command {
    /// How the lines of the files are read at a moment.
    pub fn mode(&self, moment: i64) -> LineMode
        ensures value { result ≡ mode_of moment self.now }
        ensures factor { IsTrue (is_factor result.factor) }
    {
        LineMode {
            factor: self.precision.factor(),
            moment: self.moment.unwrap_or(moment),
            skip_floats: self.skip_floats,
        }
    }
}

/// Reads the words of a command line. None says that they have no form of a command.
pub fn read_words(alloc: Global, words: &[Text]) -> Result<Option<Command>, Memory>
    ensures { IfOk result (λ c. MatchOption c ((c : Command) → IsCommand words.now c → ⊥) (λ c. IsCommand words.now c)) }
{
    match words {
        [command, rest @ ..] if command.as_str() == "run" => read_run(alloc, rest),
        _ => Ok(None),
    }
}

/// Reads the words behind `run`.
fn read_run(alloc: Global, words: &[Text]) -> Result<Option<Command>, Memory>
    ensures { IfOk result (λ c. MatchOption c ((c : Command) → IsRun words.now c → ⊥) (λ c. IsRun words.now c)) }
{
    match read_said(alloc, words)? {
        None => Ok(None),
        Some(said) => command_of(alloc, &said),
    }
}

/// The command of what words say.
fn command_of(alloc: Global, said: &Said) -> Result<Option<Command>, Memory>
    ensures { IfOk result (λ c. MatchOption c ((c : Command) → Commands said.now c → ⊥) (λ c. Commands said.now c)) }
{
    let Some(moment) = once(said.nows.as_slice()) else {
        return Ok(None);
    };
    let Some(precision) = once(said.precisions.as_slice()) else {
        return Ok(None);
    };
    let Some(skip) = once(said.skips.as_slice()) else {
        return Ok(None);
    };
    let [script, words @ ..] = said.words.as_slice() else {
        return Ok(None);
    };
    if words.len() > MOST_LOADS {
        return Ok(None);
    }
    match read_loads(alloc, words)? {
        None => Ok(None),
        Some(loads) => Ok(Some(Command {
            script: script.copy()?,
            loads,
            moment,
            precision: precision.unwrap_or(Precision::Ns),
            skip_floats: skip.is_some(),
        })),
    }
}

/// The value that stands alone, if one stands there; None where several do.
fn once<T: Copy>(values: &[T]) -> Option<Option<T>>
    ensures { result ≡ once values.now }
{
    match values {
        [] => Some(None),
        [value] => Some(Some(*value)),
        _ => None,
    }
}

/// Reads words of the form BUCKET=FILE.
fn read_loads(alloc: Global, words: &[Text]) -> Result<Option<List<Load>>, Memory>
    ensures { IfOk result (λ o. MatchOption o ((loads : List Load) → AreLoads words.now loads → ⊥) (λ loads. AreLoads words.now loads)) }
{
    let mut loads = List::empty(alloc);
    for word in words {
        let Some((bucket, file)) = read_load(word.as_str()) else {
            return Ok(None);
        };
        loads.push(Load {
            bucket: Text::of(alloc, bucket)?,
            file: Text::of(alloc, file)?,
        })?;
    }
    Ok(Some(loads))
}

/// The bucket and the file of a word BUCKET=FILE.
fn read_load(word: &str) -> Option<(&str, &str)>
    ensures some { IfSome result (λ p. IsLoad word.now p.0.now p.1.now) }
    ensures none { IfNone result ((bucket file : List ℕ) → IsLoad word.now bucket file → ⊥) }
{
    let (bucket, file) = cut_word(word)?;
    if bucket.is_empty() || file.is_empty() {
        return None;
    }
    Some((bucket, file))
}

/// What stands before and behind the first `=`.
fn cut_word(word: &str) -> Option<(&str, &str)>
    ensures parts { IfSome result (λ p. word.now ≡ p.0.now ++ 61 ∷ p.1.now) }
    ensures first { IfSome result (λ p. IsFreeOf 61 p.0.now) }
    ensures none { IfNone result (IsFreeOf 61 word.now) }
{
    word.split_once('=')
}
