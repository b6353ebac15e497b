ghost use Rattle.std.specs.Prelude.{◌≡◌, ◌≢◌, ℕ, List, IfOk, ◌⊎◌, string_bytes};
ghost use Rattle.fx_base.specs.Outside.{appended, Rose};
ghost use Rattle.fx_top.specs.Message.{line_of, cause_text, error_text, fault_text, syntax_text};

use crate::outcome::Outcome;
use crate::place::{column_at, line_at};
use fx_base::{FaultKind, Memory, Sink, SinkFault};
use fx_line::LineError;
use fx_load::LineCause;
use std::alloc::Global;

/// Writes the outcome's line, which may show a place of the script. A fault of the sink changes no
/// outcome; want of memory does.
pub fn tell<E: Sink>(alloc: Global, outcome: Outcome, script: &[u8], err: &mut E) -> Outcome
    ensures kept { (result ≡ outcome) ⊎ (result ≡ Outcome.Memory) }
    ensures said { result ≢ Outcome.Memory → (Rose (E.faults err.old) (E.faults err.new) → ⊥) → E.written err.new ≡ appended (E.written err.old) (line_of script.now result) }
{
    match message(alloc, &outcome, script) {
        Err(Memory) => Outcome::Memory,
        Ok(line) => match err.write(line.as_bytes()) {
            Ok(()) => outcome,
            Err(SinkFault::Failed) => outcome,
            Err(SinkFault::Memory) => Outcome::Memory,
        },
    }
}

/// The outcome's line on standard error.
fn message(alloc: Global, outcome: &Outcome, script: &[u8]) -> Result<String, Memory>
    ensures { IfOk result (λ text. string_bytes text ≡ line_of script.now outcome.now) }
{
    match outcome {
        Outcome::Done => Ok(String::new(alloc)),
        Outcome::Usage => Ok(format!(in alloc; "usage: fluxrun COMMAND ARGUMENTS\n")?),
        Outcome::FileFault { name } => Ok(format!(in alloc; "fluxrun: {name}: cannot read\n")?),
        Outcome::TooLong { name, .. } => Ok(format!(in alloc; "fluxrun: {name}: too long\n")?),
        Outcome::Syntax { place, deep } => {
            let (line, column) = (line_at(script, place.at), column_at(script, place.at));
            let cause = syntax_name(*deep);
            Ok(format!(in alloc; "fluxrun: {line}:{column}: {cause}\n")?)
        }
        Outcome::NotBuilt => Ok(format!(in alloc; "fluxrun: not built\n")?),
        Outcome::Line { file, line, cause } => {
            let cause = cause_name(cause);
            Ok(format!(in alloc; "fluxrun: {file}:{line}: {cause}\n")?)
        }
        Outcome::Fault { fault } => {
            let (line, column) = (
                line_at(script, fault.place.at),
                column_at(script, fault.place.at),
            );
            let kind = fault_name(fault.kind);
            Ok(format!(in alloc; "fluxrun: {line}:{column}: fault {kind}\n")?)
        }
        Outcome::SinkFault => Ok(format!(in alloc; "fluxrun: cannot write\n")?),
        Outcome::Memory => Ok(format!(in alloc; "fluxrun: out of memory\n")?),
        Outcome::TooMany { file, line } => {
            Ok(format!(in alloc; "fluxrun: {file}:{line}: too many points\n")?)
        }
    }
}

fn syntax_name(deep: bool) -> &'static str
    ensures { result.now ≡ syntax_text deep }
{
    if deep { "nested too deep" } else { "syntax" }
}

fn cause_name(cause: &LineCause) -> &'static str
    ensures { result.now ≡ cause_text cause.now }
{
    match cause {
        LineCause::Form(error) => error_name(*error),
        LineCause::KindConflict { .. } => "KindConflict",
    }
}

fn error_name(error: LineError) -> &'static str
    ensures { result.now ≡ error_text error }
{
    match error {
        LineError::Syntax => "Syntax",
        LineError::TooManyTags => "TooManyTags",
        LineError::NameReserved => "NameReserved",
        LineError::FloatField => "FloatField",
        LineError::UintField => "UintField",
        LineError::IntRange => "IntRange",
        LineError::TimeRange => "TimeRange",
    }
}

fn fault_name(kind: FaultKind) -> &'static str
    ensures { result.now ≡ fault_text kind }
{
    match kind {
        FaultKind::Overflow => "Overflow",
        FaultKind::DivideByZero => "DivideByZero",
        FaultKind::BadConversion => "BadConversion",
        FaultKind::IndexRange => "IndexRange",
        FaultKind::TimeRange => "TimeRange",
        FaultKind::TooLarge => "TooLarge",
        FaultKind::NullArgument => "NullArgument",
        FaultKind::NoBucket => "NoBucket",
        FaultKind::BadWindow => "BadWindow",
        FaultKind::BadCount => "BadCount",
        FaultKind::PivotName => "PivotName",
        FaultKind::DuplicateYield => "DuplicateYield",
    }
}
