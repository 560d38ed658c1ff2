//! Schedules, and the fights that they list.
//!
//! A schedule is a text of comma-separated records, one for each fight. Each fight is played in a
//! blank arena, which it leaves blank.
#![tactic(auto)]

mod fault;
mod fight;
mod limits;
mod record;
mod schedule;

pub use fault::{ScheduleFault, ScheduleFaultKind};
pub use fight::{Fight, MOST_POINTS, keeps_distance, play};
pub use schedule::Schedule;
