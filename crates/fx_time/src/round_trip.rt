ghost use Rattle.std.specs.Prelude.{◌≡◌, Some};

use crate::print::stamp;
use crate::read::read_time;

/// Prints a time and reads the text: that gives back each time.
pub fn printed_and_read(t: i64) -> Option<i64>
    ensures { result ≡ Some t }
{
    let text = stamp(t);
    read_time(text.as_str().as_bytes())
}
