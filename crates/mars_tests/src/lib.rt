//! Tests of `mars_core` (`steps`, `machine`), `mars_fight` (`fights`) and `tables` (`no_memory`);
//! `memory` has those of calls that allocate, `no_memory` those of calls that do not. Modules share
//! the load files of `warriors` and the helpers of `machine`.
//!
//! They show that each public call can succeed, and what neither a clause says nor a run of the
//! program shows, such as the texts of faults. What a run shows is a case in `gate/cases/`. They
//! are a crate of their own because a crate with tests is proved twice, once without its tests and
//! once with them.
#![tactic(auto)]

#[cfg(test)]
mod fights;
#[cfg(test)]
mod machine;
#[cfg(test)]
mod memory;
#[cfg(test)]
mod no_memory;
#[cfg(test)]
mod steps;
#[cfg(test)]
mod warriors;
