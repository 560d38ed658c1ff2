//! Tests of `tune_template` (`templates`), `tune_problem` (`problems`), `tune_cert`
//! (`certificates`), `tune_search` (`searches`) and `tune_runs` (`runs`); `fault_texts` has what
//! their faults print, and `fixtures`, `watchers` and `writers` what several modules use.
//!
//! They show that each public call can succeed, and what neither a clause says nor a run of the
//! program shows, such as the texts of faults. What a run shows is a case in `gate/cases/`. They
//! are a crate of their own because a crate with tests is proved twice, once without its tests and
//! once with them.
//!
//! `make test` also runs modules of three names with less memory (gate/refuse/growth.py). A test of
//! `memory` has its first, second and so on request refused: it then ends with the same results, or
//! with the error `OutOfMemory` of the call itself, in no other variant. One of `no_memory` has
//! every request refused after `use_up`: it then ends at its last line, which makes one. Of
//! `arenas` the large requests are counted: each test makes one arena.
#![tactic(auto)]

#[cfg(test)]
mod certificates;
#[cfg(test)]
mod fault_texts;
#[cfg(test)]
mod fixtures;
#[cfg(test)]
mod problems;
#[cfg(test)]
mod runs;
#[cfg(test)]
mod searches;
#[cfg(test)]
mod templates;
#[cfg(test)]
mod watchers;
#[cfg(test)]
mod writers;
