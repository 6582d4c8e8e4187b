//! What the text formats share: lines, comments, white space and the names of nets.
//!
//! `specs/` says what each of them is: `Lines`, `White` and `Names`; what a name is made of stands in `circuits`.
#![tactic(auto)]

mod limits;
mod lines;
mod names;
mod white;

pub use limits::MOST_BYTES;
pub use lines::{before_comment, has_byte_above_127, split_line};
pub use names::{as_name, is_name_byte, split_name};
pub use white::behind_white;
