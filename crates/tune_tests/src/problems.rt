//! Tests of `tune_problem`: the inputs of a tuning, and their parts.
mod no_memory;
mod parts;
