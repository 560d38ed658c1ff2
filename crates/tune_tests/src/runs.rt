//! Tests of `tune_runs`, under rules of 16 cells, 20 cycles, 4 tasks, length 4 and distance 4.
mod arenas;
mod cut;
mod memory;
mod no_memory;
mod watched;
