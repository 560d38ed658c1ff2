//! Expands Redcode to lines without EQU names and FOR blocks. The number of a block's counter takes
//! the place of its name, or is joined to the name before `&`.
//!
//! It goes in three passes: `read` reads the lines up to END, `unroll` notes which line is in which
//! copies of blocks, and `replace` makes these lines one by one, defines their names, and puts the
//! tokens of EQU names in the place of the names. `expander` runs the passes one after the other,
//! and `context` is what the last two share.
#![tactic(auto)]

mod constants;
mod context;
mod equ_tokens;
mod expander;
mod fault;
pub mod laws;
mod limits;
mod line;
mod name_table;
mod names;
mod read;
mod replace;
mod tokens;
mod unroll;

pub use constants::Constants;
pub use expander::expand;
pub use fault::{ExpandFault, ExpandKind};
pub use line::{Expanded, Line, LineWord, Lines, Tokens};
pub use name_table::NameTable;
pub use names::{GivenNames, name_of, spells};
