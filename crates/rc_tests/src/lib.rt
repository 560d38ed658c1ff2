//! Tests of `rc_instr` (`instructions`), `rc_text` (`tokens`), `rc_expand` (`expansion`) and
//! `rc_asm` (`memory`); `fault_texts` has what the faults of all four print, `no_memory` calls that
//! take none, and `fixtures` what these share.
//!
//! They show that each public call can succeed, and what neither a clause says nor a run of the
//! program shows, such as the texts of faults. What a run shows is a case in `gate/cases/`. They
//! are a crate of their own because a crate with tests is proved twice, once without its tests and
//! once with them.
//!
//! `proofs/` has examples: what the definitions themselves say of concrete texts, computed.
#![tactic(auto)]

#[cfg(test)]
mod expansion;
#[cfg(test)]
mod fault_texts;
#[cfg(test)]
mod fixtures;
#[cfg(test)]
mod instructions;
#[cfg(test)]
mod memory;
#[cfg(test)]
mod no_memory;
#[cfg(test)]
mod tokens;
