//! The bottom layer of the tuner: instructions, rules, warriors, load files, and outlets for bytes.
//!
//! A load file is the one spelling in which a warrior is stored. Writing a warrior and reading it
//! back gives the same warrior, and nothing but such a text is read.
#![tactic(auto)]

mod bytes;
mod decimal;
mod instruction;
pub mod laws;
pub mod limits;
mod loadfile;
mod memory;
mod modifier;
mod outlet;
mod rules;
mod warrior;
mod words;

pub use bytes::after;
pub use decimal::{decimal_at, decimal_of, padded_decimal};
pub use instruction::{Instruction, Mode, Modifier, Opcode};
pub use loadfile::{LoadFault, read_loadfile, write_loadfile};
pub use memory::OutOfMemory;
pub use modifier::default_modifier;
pub use outlet::{Outlet, WriteFailed};
pub use rules::{RawRules, Rules, RulesError};
pub use warrior::{Code, Refused, Warrior, WarriorError};
pub use words::{modifier_named, opcode_named};
