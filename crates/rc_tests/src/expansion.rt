//! Tests of `rc_expand`: texts, and their lines or faults. What a run of `cwtune asm` shows is a
//! case in `gate/cases/asm.toml`, and `memory` has the calls of `rc_asm`.
pub(crate) mod lines;
mod name_tables;
mod texts;
