//! The assembler of Redcode: a text becomes a warrior, or its first fault is named with its line.
//!
//! `labels` finds the addresses; then `reading` evaluates each line with `instruction`, `operand`
//! and `scope`. After a fault `forms` seeks a malformed line.
#![tactic(auto)]

mod assembler;
mod fault;
mod form;
mod forms;
mod instruction;
mod labels;
pub mod laws;
pub mod limits;
mod operand;
mod reading;
mod scope;
mod starts;
mod word;

pub use assembler::assemble;
pub use fault::{AsmFault, AsmKind};
