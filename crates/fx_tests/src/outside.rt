//! The files, streams and patterns in memory, and the meter.
use fx_base::{
    FileFault, Files, List, MemoryFiles, MemoryPatterns, MemorySink, Meter, NamedFile,
    PatternFault, Patterns, Sink, SinkFault, Text,
};
use std::test::Fail;

fn named(rt: &HostRuntime, name: &str, bytes: &[u8]) -> Result<NamedFile, Fail> {
    Ok(NamedFile {
        name: Text::of(rt.alloc(), name)?,
        bytes: List::of(Vec::from_slice(rt.alloc(), bytes)?),
    })
}

fn load_of<F: Files>(
    rt: &HostRuntime,
    files: &mut F,
    name: &str,
    limit: u32,
) -> Result<Result<usize, FileFault>, Fail> {
    let name = Text::of(rt.alloc(), name)?;
    Ok(match files.load(rt.alloc(), &name, u64::from(limit)) {
        Ok(bytes) => Ok(bytes.len()),
        Err(fault) => Err(fault),
    })
}

#[test]
fn the_numbered_loads_and_those_of_unknown_names_fail(rt: HostRuntime) -> Result<(), Fail> {
    let mut held = List::empty(rt.alloc());
    held.push(named(&rt, "a", b"12345")?)?;
    held.push(named(&rt, "a", b"hidden")?)?;
    let failing = List::of(Vec::from_slice(rt.alloc(), &[2])?);
    let mut files = MemoryFiles::holding(held, failing);
    for (name, limit, want) in [
        ("a", 5, Ok(5)),
        ("a", 5, Err(FileFault::Failed)),
        ("a", 4, Err(FileFault::TooLong { taken: 5 })),
        ("c", 9, Err(FileFault::Failed)),
    ] {
        let got = load_of(&rt, &mut files, name, limit)?;
        assert_eq!(rt; got, want, "{name} up to {limit}");
    }
    Ok(())
}

fn write_to<S: Sink>(sink: &mut S, piece: &[u8]) -> Result<(), SinkFault> {
    sink.write(piece)
}

#[test]
fn a_numbered_write_keeps_the_first_half_of_its_piece(rt: HostRuntime) -> Result<(), Fail> {
    let failing = List::of(Vec::from_slice(rt.alloc(), &[2, 3])?);
    let mut sink = MemorySink::failing(rt.alloc(), failing);
    let rows: [(&[u8], Result<(), SinkFault>, &[u8]); 4] = [
        (b"abc", Ok(()), b"abc"),
        (b"defgh", Err(SinkFault::Failed), b"abcde"),
        (b"i", Err(SinkFault::Failed), b"abcde"),
        (b"jk", Ok(()), b"abcdejk"),
    ];
    for (piece, want, written) in rows {
        assert_eq!(rt; write_to(&mut sink, piece), want, "{piece:?}");
        assert_eq!(rt; sink.bytes().as_slice(), written, "{piece:?}");
    }
    Ok(())
}

fn build_in<P: Patterns>(
    rt: &HostRuntime,
    patterns: &mut P,
    text: &str,
) -> Result<Result<u32, PatternFault>, Fail> {
    let text = Text::of(rt.alloc(), text)?;
    Ok(patterns.build(rt.alloc(), &text))
}

#[test]
fn the_numbered_builds_and_special_bytes_are_refused(rt: HostRuntime) -> Result<(), Fail> {
    let failing = List::of(Vec::from_slice(rt.alloc(), &[2])?);
    let mut patterns = MemoryPatterns::none(rt.alloc(), failing);
    for (text, want) in [
        ("a", Ok(0)),
        ("b", Err(PatternFault::Refused)),
        ("a+", Err(PatternFault::Refused)),
        ("a b", Ok(1)),
    ] {
        let got = build_in(&rt, &mut patterns, text)?;
        assert_eq!(rt; got, want, "{text}");
    }
    Ok(())
}

fn holds_pattern<P: Patterns>(
    rt: &HostRuntime,
    patterns: &mut P,
    pattern: &str,
    text: &str,
) -> Result<bool, Fail> {
    let pattern = Text::of(rt.alloc(), pattern)?;
    let text = Text::of(rt.alloc(), text)?;
    match patterns.build(rt.alloc(), &pattern) {
        Ok(number) => Ok(patterns.matches(rt.alloc(), number, &text)?),
        Err(_) => Ok(false),
    }
}

#[test]
fn a_pattern_matches_where_the_text_holds_it(rt: HostRuntime) -> Result<(), Fail> {
    let mut patterns = MemoryPatterns::none(rt.alloc(), List::empty(rt.alloc()));
    for (pattern, text, want) in [
        ("", "", true),
        ("ab", "aab", true),
        ("ab", "ba", false),
        ("aab", "aaab", true),
    ] {
        let got = holds_pattern(&rt, &mut patterns, pattern, text)?;
        assert_eq!(rt; got, want, "{pattern} in {text}");
    }
    Ok(())
}

#[test]
fn a_meter_spends_up_to_its_budget(rt: HostRuntime) {
    let mut meter = Meter {
        budget: 10,
        spent: 0,
    };
    for (n, want, spent) in [
        (4, Ok(()), 4),
        (7, Err(11), 4),
        (u64::MAX, Err(u64::MAX), 4),
        (6, Ok(()), 10),
    ] {
        assert_eq!(rt; meter.spend(n), want, "{n}");
        assert_eq!(rt; meter.spent, spent, "{n}");
    }
}
