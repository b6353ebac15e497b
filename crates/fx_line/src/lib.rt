//! One line of line protocol to its points, and what stored points are.
#![tactic(auto)]

mod check;
mod laws;
mod line;
mod number;
mod order;
mod pair;
mod parts;
mod pieces;
mod point;
mod points;
mod reader;
mod trim;
mod value;
mod word;

pub use laws::{a_line_has_one_answer, bytes_are_text};
pub use line::{LineError, LineFault, LineMode, LineRead};
pub use pieces::{Pieces, pieces_of};
pub use point::{Point, SeriesKey, Tag};
pub use reader::read_line;
