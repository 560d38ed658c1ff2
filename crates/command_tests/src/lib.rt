//! Tests of `command_words` and `command_runs`: `program` runs the function of that name, and
//! `no_memory` has calls that do not allocate. What a run of the program shows is a case in
//! `gate/cases/`.
#![tactic(auto)]

#[cfg(test)]
mod no_memory;
#[cfg(test)]
mod program;
