//! Tests of `tune_template`: `;@tune` lines, the order of settings, and their warriors, worked out
//! by hand.
mod memory;
mod no_memory;
mod settings;
