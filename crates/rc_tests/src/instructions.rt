//! Tests of `rc_instr`: instructions, load files, and outlets.
mod loadfiles;
mod numbers;
pub(crate) mod outlets;
mod parts;
mod warriors;
