ghost use Rattle.std.specs.Prelude.{◌≡◌, [], ◌∷◌, IfOk, OnOk};
ghost use Rattle.std.specs.List.{list_any};
ghost use Rattle.fx_value.specs.Calls.{IsReady, IsMetered, Answers, AreGiven, heard, SamePatterns};
ghost use Rattle.fx_value.specs.Ends.{NeverStuck};
ghost use Rattle.fx_join.specs.Part.{with_found};
ghost use Rattle.fx_join.specs.Join.{found_line, is_lone, longer, lone_left, line_of_left};

use crate::answer::{make_left, pair};
use crate::side::Side;
use fx_base::{Halt, List, Memory, Meter, Patterns};
use fx_value::{Row, RowFun};
use std::alloc::Global;

/// What becomes of a left row: the rows that are made of it, and for each right row whether it is a
/// partner.
#[derive(Drop)]
pub(crate) struct Line {
    pub rows: List<Row>,
    pub hits: List<bool>,
}

/// The line of nothing, with room for so many right rows.
fn no_line(alloc: Global, room: usize) -> Result<Line, Memory>
    ensures rows { IfOk result (λ x. x.rows ≡ []) }
    ensures hits { IfOk result (λ x. x.hits ≡ []) }
{
    let hits = Vec::with_capacity(alloc, room)?;
    Ok(Line {
        rows: List::empty(alloc),
        hits: List::of(hits),
    })
}

/// Puts what a pair gives behind what those before it gave.
fn add_found(line: &mut Line, found: Option<Row>) -> Result<(), Memory>
    ensures { OnOk result (line.new ≡ with_found line.old (found ∷ [])) }
{
    match found {
        Some(row) => {
            line.rows.push(row)?;
            line.hits.push(true)
        }
        None => line.hits.push(false),
    }
}

/// The left row with each right row, in their order.
fn find_rows<F: RowFun, G: RowFun, P: Patterns>(
    alloc: Global,
    on: &F,
    both: &G,
    left: &Row,
    rights: &[Row],
    meter: &mut Meter,
    patterns: &mut P,
) -> Result<Line, Halt>
    requires ready { IsReady meter.old }
    requires on_given { AreGiven (F.numbers on.now) (P.built patterns.old) }
    requires both_given { AreGiven (G.numbers both.now) (P.built patterns.old) }
    requires unstuck { NeverStuck (found_line (F.means on.now (heard (F.numbers on.now) (P.test patterns.old))) (G.means both.now (heard (G.numbers both.now) (P.test patterns.old))) rights.now left.now) }
    ensures metered { IsMetered meter.old meter.new }
    ensures answer { Answers (found_line (F.means on.now (heard (F.numbers on.now) (P.test patterns.old))) (G.means both.now (heard (G.numbers both.now) (P.test patterns.old))) rights.now left.now) meter.old meter.new result }
    ensures patterns { SamePatterns P.built P.refusals P.test patterns.old patterns.new }
{
    let mut line = no_line(alloc, rights.len())?;
    for right in rights {
        let found = pair(alloc, on, both, left, right, meter, patterns)?;
        add_found(&mut line, found)?;
    }
    Ok(line)
}

fn has_hit(line: &Line) -> bool
    ensures { result ≡ list_any (λ hit. hit) line.now.hits }
{
    line.hits.as_slice().iter().any(|hit| *hit)
}

/// Whether the left row of the line is kept though it has no partner.
fn is_lone(side: Side, line: &Line) -> bool
    ensures { result ≡ is_lone side line.now }
{
    side.keeps_left() && !has_hit(line)
}

/// The line with the row of a left row alone, if there is one.
fn with_row(line: Line, lone: Option<Row>) -> Result<Line, Memory>
    ensures { IfOk result (λ x. x ≡ longer line lone) }
{
    let Line { mut rows, hits } = line;
    match lone {
        Some(row) => rows.push(row)?,
        None => {}
    }
    Ok(Line { rows, hits })
}

/// The line with the row that is made of the left row alone, where it has no partner and is kept.
fn with_lone<G: RowFun, P: Patterns>(
    alloc: Global,
    line: Line,
    side: Side,
    both: &G,
    left: &Row,
    meter: &mut Meter,
    patterns: &mut P,
) -> Result<Line, Halt>
    requires ready { IsReady meter.old }
    requires given { AreGiven (G.numbers both.now) (P.built patterns.old) }
    requires unstuck { NeverStuck (λ n. lone_left (G.means both.now (heard (G.numbers both.now) (P.test patterns.old))) side left.now n line) }
    ensures metered { IsMetered meter.old meter.new }
    ensures answer { Answers (λ n. lone_left (G.means both.now (heard (G.numbers both.now) (P.test patterns.old))) side left.now n line) meter.old meter.new result }
    ensures patterns { SamePatterns P.built P.refusals P.test patterns.old patterns.new }
{
    let wanted = is_lone(side, &line);
    let lone = make_left(alloc, both, left, wanted, meter, patterns)?;
    let longer = with_row(line, lone)?;
    Ok(longer)
}

/// What becomes of a left row.
pub(crate) fn line_of<F: RowFun, G: RowFun, P: Patterns>(
    alloc: Global,
    on: &F,
    both: &G,
    side: Side,
    left: Row,
    rights: &[Row],
    meter: &mut Meter,
    patterns: &mut P,
) -> Result<Line, Halt>
    requires ready { IsReady meter.old }
    requires on_given { AreGiven (F.numbers on.now) (P.built patterns.old) }
    requires both_given { AreGiven (G.numbers both.now) (P.built patterns.old) }
    requires unstuck { NeverStuck (line_of_left (F.means on.now (heard (F.numbers on.now) (P.test patterns.old))) (G.means both.now (heard (G.numbers both.now) (P.test patterns.old))) side rights.now left) }
    ensures metered { IsMetered meter.old meter.new }
    ensures answer { Answers (line_of_left (F.means on.now (heard (F.numbers on.now) (P.test patterns.old))) (G.means both.now (heard (G.numbers both.now) (P.test patterns.old))) side rights.now left) meter.old meter.new result }
    ensures patterns { SamePatterns P.built P.refusals P.test patterns.old patterns.new }
{
    let line = find_rows(alloc, on, both, &left, rights, meter, patterns)?;
    with_lone(alloc, line, side, both, &left, meter, patterns)
}
