//! What a tuning starts from and what it asks: the optimum, and valid certificates of it.
//!
//! The optimum is the first setting with the greatest total. A certificate has a row for each
//! setting, which shows why that setting is not better. Both the search and the checker use this
//! crate, and neither uses the other. A number named `vector` is the index of a setting; a `Vector`
//! has the setting's values.
#![tactic(auto)]

mod aim;
mod cert;
mod inputs;
pub mod laws;
pub mod limits;
mod part;
mod problem;
mod ranking;
mod statement;
mod watcher;

pub use aim::Aim;
pub use cert::{Cert, Found, Listing, Row, Rows};
pub use inputs::Inputs;
pub use part::Part;
pub use problem::{
    beats, cert_version, fight_count, fight_points, fight_weight, greatest_total, setting_warrior,
};
pub use ranking::{Ranking, contends};
pub use statement::{Answer, Statement};
pub use watcher::{Best, Silent, Standing, Watcher};
