//! Fields as RFC 4180 writes them, straight into the output.
ghost use Rattle.std.specs.Prelude.{◌≡◌, ◌++◌, OnOk};
ghost use Rattle.std.specs.List.{flat_map, list_any};
ghost use Rattle.fx_csv.specs.Records.{doubled, field_bytes, is_special};

use fx_base::Memory;

/// Adds the bytes of a field.
pub(crate) fn push_field(out: &mut Vec<u8>, field: &[u8]) -> Result<(), Memory>
    ensures { OnOk result (out.new.items ≡ out.old.items ++ field_bytes field.now) }
{
    if !has_special(field) {
        out.extend_from_slice(field)?;
        return Ok(());
    }
    out.push(b'"')?;
    push_doubled(out, field)?;
    out.push(b'"')?;
    Ok(())
}

fn has_special(field: &[u8]) -> bool
    ensures { result ≡ list_any is_special field.now }
{
    field.iter().any(|byte| is_special(*byte))
}

fn is_special(byte: u8) -> bool
    ensures { result ≡ is_special byte }
{
    byte == b',' || byte == b'"' || byte == b'\r' || byte == b'\n'
}

fn push_doubled(out: &mut Vec<u8>, field: &[u8]) -> Result<(), Memory>
    ensures { OnOk result (out.new.items ≡ out.old.items ++ flat_map doubled field.now) }
{
    for byte in field {
        push_byte(out, *byte)?;
    }
    Ok(())
}

fn push_byte(out: &mut Vec<u8>, byte: u8) -> Result<(), Memory>
    ensures { OnOk result (out.new.items ≡ out.old.items ++ doubled byte) }
{
    if byte == b'"' {
        out.push(byte)?;
    }
    out.push(byte)?;
    Ok(())
}
