//! Records behind bytes, through the writer of the crate `csv`.
ghost use Rattle.std.specs.Prelude.{◌≡◌, ℕ, ◌≤◌, List, ◌++◌, length, IfOk, OnOk};
ghost use Rattle.fx_csv.specs.Lines.{HasFields};
ghost use Rattle.fx_csv.specs.Records.{record_bytes};
ghost use Rattle.fx_csv.specs.Writers.{Holds};

use crate::line::Line;
use csv::{Terminator, Writer, WriterBuilder};
use fx_base::Memory;

/// A writer whose records follow these bytes.
pub(crate) fn start(out: Vec<u8>) -> Writer<Vec<u8>>
    ensures { Holds result out.items }
{
    WriterBuilder::new()
        .terminator(Terminator::CRLF)
        .from_writer(out)
}

/// Writes a record of two or more fields.
pub(crate) fn put_line(writer: &mut Writer<Vec<u8>>, line: &Line) -> Result<(), Memory>
    ensures { (bytes : List ℕ) (all : List (List ℕ)) → Holds writer.old bytes → HasFields line.now all → 2 ≤ length all
        → OnOk result (Holds writer.new (bytes ++ record_bytes all)) }
{
    let Ok(()) = writer.write_byte_record(&line.fields) else {
        return Err(Memory);
    };
    Ok(())
}

/// The bytes with all records behind them.
pub(crate) fn finish(writer: Writer<Vec<u8>>) -> Result<Vec<u8>, Memory>
    ensures { (bytes : List ℕ) → Holds writer bytes → IfOk result (λ v. v.items ≡ bytes) }
{
    match writer.into_inner() {
        Ok(text) => Ok(text),
        Err(_) => Err(Memory),
    }
}
