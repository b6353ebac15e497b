//! Places of a script as people count them.
ghost use Rattle.std.specs.Prelude.{◌≡◌, take};
ghost use Rattle.fx_top.specs.Message.{line_at, column_at};

/// The line of a place, counted from 1.
pub fn line_at(script: &[u8], at: u32) -> u64
    ensures { result ≡ line_at script.now at }
{
    let feeds = before(script, at).iter().filter(|b| **b == b'\n').count();
    feeds as u64 + 1
}

/// The column of a place within its line, in bytes and counted from 1.
pub fn column_at(script: &[u8], at: u32) -> u64
    ensures { result ≡ column_at script.now at }
{
    let front = before(script, at);
    let mut column: u64 = 1;
    for i in 0..front.len() {
        if front[i] == b'\n' {
            column = 1;
        } else {
            column += 1;
        }
    }
    column
}

/// The bytes before a place.
fn before(script: &[u8], at: u32) -> &[u8]
    ensures { result.now ≡ take at script.now }
{
    let at = at as usize;
    if at < script.len() {
        &script[..at]
    } else {
        script
    }
}
