//! Whole calls over files and streams in memory, some of whose calls fail.
ghost use Rattle.std.specs.Prelude.{◌≡◌, ◌<◌};

use fx_base::{List, Memory, MemoryFiles, MemorySink, NamedFile, Steps, Text};
use fx_top::{Outcome, flux_main};
use std::alloc::Global;
use std::marker::Brand;
use std::sync::ledger::{Blank, Ledger};
use std::test::Fail;

const SCRIPT: &str =
    "from(bucket: \"b\") |> range(start: 1970-01-01T00:00:00Z, stop: 1970-01-01T00:01:00Z)";

const POINTS: &str = "m v=1i 5\nm v=7i 5\n";

const BLOCK: &str =
    "#datatype,string,long,dateTime:RFC3339,dateTime:RFC3339,dateTime:RFC3339,long,string,string\r\n#group,false,false,true,true,false,false,true,true\r\n#default,_result,,,,,,,\r\n,result,table,_start,_stop,_time,_value,_field,_measurement\r\n,,0,1970-01-01T00:00:00Z,1970-01-01T00:01:00Z,1970-01-01T00:00:00.000000005Z,7,v,m\r\n\r\n";

/// A call: what its files hold, the numbers of the loads and writes that fail, and what it must
/// write.
#[derive(Clone, Copy)]
struct Case {
    script: &'static str,
    points: &'static str,
    failing_loads: &'static [u64],
    failing_writes: &'static [u64],
    status: u8,
    out: &'static [u8],
    err: &'static str,
}

/// What a call answered and wrote.
#[derive(Debug, Drop)]
struct Ended {
    outcome: Outcome,
    out: MemorySink,
    err: MemorySink,
}

fn numbers(alloc: Global, list: &[u64]) -> Result<List<u64>, Memory> {
    let mut numbers = List::empty(alloc);
    numbers.extend(list)?;
    Ok(numbers)
}

fn named(alloc: Global, name: &str, text: &str) -> Result<NamedFile, Memory> {
    let mut bytes = List::empty(alloc);
    bytes.extend(text.as_bytes())?;
    Ok(NamedFile {
        name: Text::of(alloc, name)?,
        bytes,
    })
}

fn files(alloc: Global, case: &Case) -> Result<MemoryFiles, Memory> {
    let mut files = List::empty(alloc);
    files.push(named(alloc, "s", case.script)?)?;
    files.push(named(alloc, "d", case.points)?)?;
    Ok(MemoryFiles::holding(files, numbers(alloc, case.failing_loads)?))
}

fn words(alloc: Global) -> Result<Vec<Text>, Memory> {
    let mut words = Vec::new(alloc);
    words.push(Text::of(alloc, "run")?)?;
    words.push(Text::of(alloc, "s")?)?;
    words.push(Text::of(alloc, "b=d")?)?;
    Ok(words)
}

fn call<L: Ledger>(alloc: Global, case: &Case, blank: Blank) -> Result<Ended, Memory>
    requires name { blank.name ≡ L.name }
    requires parts { blank.parts ≡ L.parts }
    requires some { 0 < blank.parts }
{
    let words = words(alloc)?;
    let mut files = files(alloc, case)?;
    let mut out = MemorySink::failing(alloc, numbers(alloc, case.failing_writes)?);
    let mut err = MemorySink::failing(alloc, List::empty(alloc));
    let mut steps = Steps::<L>::start(blank);
    let outcome = flux_main(
        alloc,
        words.as_slice(),
        0,
        &mut files,
        &mut out,
        &mut err,
        &mut steps,
    );
    Ok(Ended { outcome, out, err })
}

#[test]
fn answers_what_its_files_and_streams_allow(rt: HostRuntime) -> Result<(), Fail> {
    let good = Case {
        script: SCRIPT,
        points: POINTS,
        failing_loads: &[],
        failing_writes: &[],
        status: 0,
        out: BLOCK.as_bytes(),
        err: "",
    };
    let cases = [
        good,
        Case {
            failing_loads: &[1],
            status: 2,
            out: b"",
            err: "fluxrun: s: cannot read\n",
            ..good
        },
        Case {
            failing_loads: &[2],
            status: 2,
            out: b"",
            err: "fluxrun: d: cannot read\n",
            ..good
        },
        Case {
            failing_writes: &[1],
            status: 9,
            out: BLOCK.as_bytes().split_at(BLOCK.len() / 2).0,
            err: "fluxrun: cannot write\n",
            ..good
        },
        Case {
            points: "m v=1i 5\nm v=1 6\n",
            status: 4,
            out: b"",
            err: "fluxrun: d:2: FloatField\n",
            ..good
        },
        Case {
            script: "a = 1\n b = 01\n",
            status: 5,
            out: b"",
            err: "fluxrun: 2:6: syntax\n",
            ..good
        },
        Case {
            script: " ",
            status: 13,
            out: b"",
            err: "fluxrun: not built\n",
            ..good
        },
    ];
    for case in &cases {
        let ended = call::<Brand>(rt.alloc(), case, Blank::new(1))?;
        assert_eq!(rt; ended.outcome.status(), case.status);
        assert_eq!(rt; ended.out.bytes().as_slice(), case.out);
        assert_eq!(rt; ended.err.bytes().as_slice(), case.err.as_bytes());
    }
    Ok(())
}
