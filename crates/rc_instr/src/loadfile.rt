//! Load files: the one spelling in which a warrior is written and read.
//!
//! The first line is `ORG n`, where `n` is the start. Then comes one line for each instruction,
//! such as `MOV.I $0, $1`: opcode, dot, modifier, space, mode and number, comma, space, mode and
//! number, all in capitals. In a core of M cells the number k is written as k, or as k - M if 2k is
//! above M, without leading zeros. Every line ends with a line feed. Nothing else is in the text.

mod fault;
mod front;
mod line;
mod number;
mod read;
mod write;

pub use fault::LoadFault;
pub use read::read_loadfile;
pub use write::write_loadfile;
