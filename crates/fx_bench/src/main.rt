//! What operators cost: each word names one, which is measured over a million rows of seven columns.
#![tactic(auto)]

mod funs;
mod rows;
mod work;

use crate::work::{Work, work_of};
use std::env;
use std::process::ExitCode;
use std::time::{Duration, Instant};

fn main(rt: HostRuntime) -> ExitCode {
    let mut known = false;
    if let Ok(args) = env::args(&rt) {
        for word in args.skip(1) {
            if let Some(work) = work_of(word.as_str()) {
                known = true;
                tell(&rt, word.as_str(), measure(&rt, work));
            }
        }
    }
    if !known {
        let _ = println!(&rt;
            "fx_bench WORD ..; words: make, range, filter, map, map-new, group, group-time, except, union, count, sum, min, last, distinct, distinct-all, reduce, window, cut, join, pivot, keep, drop, rename, duplicate, set, fill, sort, sort-sorted, difference"
        );
    }
    ExitCode::from(0)
}

/// How long the work takes over rows that were made before, or the making where that is the work.
fn measure(rt: &HostRuntime, work: Work) -> Option<Duration> {
    let alloc = rt.alloc();
    let making = Instant::now(rt).ok()?;
    let streams = work.streams(alloc).ok()?;
    if let Work::Make = work {
        return making.elapsed(rt).ok();
    }
    let start = Instant::now(rt).ok()?;
    let made = work.run(alloc, streams).ok()?;
    let spent = start.elapsed(rt).ok()?;
    drop(made);
    Some(spent)
}

/// Of a million rows, as many milliseconds for all are nanoseconds for each.
fn tell(rt: &HostRuntime, word: &str, spent: Option<Duration>) {
    let _ = match spent {
        Some(spent) => {
            let each = spent.as_millis();
            println!(rt; "{word}: {each} ns a row")
        }
        None => println!(rt; "{word}: not measured"),
    };
}
