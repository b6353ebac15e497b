//! The program: the system's words, clock, files and streams, handed to the top call.
#![tactic(auto)]

ghost use Rattle.std.specs.Prelude.{◌≡◌, ◌<◌};

mod host_files;
mod host_sink;

use crate::host_files::HostFiles;
use crate::host_sink::HostSink;
use fx_base::{Memory, Steps, Text};
use fx_top::{Outcome, flux_main, tell};
use std::env;
use std::io::ErrorKind;
use std::marker::Brand;
use std::process::ExitCode;
use std::rt::Clock;
use std::sync::ledger::{Blank, Ledger};
use std::time::{SystemTime, UNIX_EPOCH};

fn main(rt: HostRuntime) -> ExitCode {
    let outcome = match words(&rt) {
        Ok(words) => run::<Brand>(&rt, words.as_slice(), Blank::new(1)),
        Err(Memory) => {
            let mut err = HostSink::new(rt.stderr());
            tell(rt.alloc(), Outcome::Memory, b"", &mut err)
        }
    };
    ExitCode::from(outcome.status())
}

/// The words behind the program's name; none where one of them is no text, so that they are the
/// form of no command.
fn words(rt: &HostRuntime) -> Result<Vec<Text>, Memory> {
    let mut words = Vec::new(rt.alloc());
    match env::args(rt) {
        Ok(args) => {
            for word in args.skip(1) {
                words.push(Text::of(rt.alloc(), word.as_str())?)?;
            }
        }
        Err(error) if error.kind() == ErrorKind::OutOfMemory => return Err(Memory),
        Err(_) => {}
    }
    Ok(words)
}

/// The clock's moment in nanoseconds since 1970-01-01T00:00:00Z, or 0 where it gives none that fits.
fn moment(clock: &impl Clock) -> i64 {
    let Ok(now) = SystemTime::now(clock) else {
        return 0;
    };
    match now.duration_since(UNIX_EPOCH) {
        Ok(since) => i64::try_from(since.as_nanos()).unwrap_or(0),
        Err(_) => 0,
    }
}

/// One run over the system.
fn run<L: Ledger>(rt: &HostRuntime, words: &[Text], blank: Blank) -> Outcome
    requires name { blank.name ≡ L.name }
    requires parts { blank.parts ≡ L.parts }
    requires some { 0 < blank.parts }
{
    let mut files = HostFiles::new(rt);
    let mut out = HostSink::new(rt.stdout());
    let mut err = HostSink::new(rt.stderr());
    let mut steps = Steps::<L>::start(blank);
    flux_main(
        rt.alloc(),
        words,
        moment(rt),
        &mut files,
        &mut out,
        &mut err,
        &mut steps,
    )
}
