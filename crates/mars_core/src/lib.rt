//! The machine of the 1994 draft, with SEQ, SNE and NOP from pMARS: cells, turns, and fights.
//!
//! The core is a ring of cells with addresses from 0. Only making an arena takes memory.
//!
//! Callers use `arena`. What a step does is in `number`, `operand`, `pairs` and `effect`, over
//! any store of cells. `turn`, `arm` and `general` lead from a cell to its code, `fight_loop`
//! alternates turns, and `snapshot` ends a tie early. `cell` has the trait of a cell, `cells` that
//! of a store and the plain cells; `packed_cells` are a store of `packed` words. `codes` has the
//! numbers of opcodes, modifiers and modes, `classes` those of frequent instructions. `tasks` has
//! the trait of a queue; `plain_queue` and `linear_queue` are the queues of the two stores.
#![tactic(auto)]

mod arena;
mod arm;
mod cell;
mod cells;
mod classes;
mod codes;
mod effect;
mod fight_loop;
mod general;
pub mod laws;
mod linear_queue;
mod number;
mod operand;
mod packed;
mod packed_cells;
mod pairs;
mod plain_queue;
mod side;
mod snapshot;
mod tasks;
mod turn;

pub use arena::{Arena, Outcome};
pub use cells::{Cells, PlainCells};
pub use packed_cells::PackedCells;
pub use side::Side;
