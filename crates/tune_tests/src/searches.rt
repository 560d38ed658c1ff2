//! Tests of `tune_search`: small searches that were worked out by hand.
mod aims;
mod arenas;
mod memory;
mod no_memory;
mod watched;
