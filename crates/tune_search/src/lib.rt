//! The search for the optimum of a tuning, and for the first K of the ranking of its settings.
//!
//! `search` finds the optimum by `Method::Dropping`. `search_for` finds what an `Aim` asks for, the
//! first settings of the ranking that reach a floor, by either method, and takes a watcher. Fields
//! named `vector` have the index of a setting.
#![tactic(auto)]

mod cache;
mod candidate;
mod fault;
mod fights;
mod findings;
mod fought;
pub mod laws;
pub mod limits;
mod method;
mod order;
mod sharing;
mod state;
mod tuning;

pub use fault::SearchFault;
pub use findings::Findings;
pub use method::Method;
pub use tune_problem::{Aim, Best, Found, Inputs, Ranking, Silent, Standing, Watcher};
pub use tuning::{search, search_for};
