//! Tests of `tune_cert`: certificates that are written, read and checked, and their rows.
mod arenas;
mod demands;
mod memory;
mod no_memory;
mod records;
mod watched;
