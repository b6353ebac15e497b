//! What expressions mean, as definitions over plain trees and plain values, with the laws of their
//! ends; and the functions that names of the language stand for.
#![tactic(auto)]

mod built;
mod labels;
mod laws;
mod native;
mod package;
mod setting;
mod stream;

pub use built::{Built, member, named, path_of};
pub use labels::{due_labels, free_labels, pipe_label};
pub use laws::meaning_is_limited;
pub use native::Native;
pub use package::Package;
pub use setting::{Placed, Setting};
pub use stream::StreamFn;
