//! The runs of the commands: words, files and three streams in, an exit status out.
//!
//! `program` runs the command that the words ask for: `commands` has a module for each, with `host`
//! as what it works with, `files` for what it reads and writes, and `ending` for how it ends.
//! `telling` has the lines on standard error that are fixed byte for byte, and the trait `Witness`
//! of those who say more than that.
#![tactic(auto)]

mod commands;
mod ending;
mod files;
mod host;
pub mod program;
mod telling;

pub use host::Host;
pub use telling::fault_line::tell_asm_names;
pub use telling::finding::Finding;
pub use telling::refused::Refused;
pub use telling::witness::Witness;
pub use telling::{tell, tell_bytes};
