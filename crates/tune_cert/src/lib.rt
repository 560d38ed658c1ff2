//! The text of certificates, and the checker that judges it.
//!
//! `tune_problem` defines certificates and which of them are valid; its names are passed on below.
//! A number named `vector` is the index of a setting.
#![tactic(auto)]

mod checker;
mod claim;
mod demand;
mod fault;
pub mod laws;
mod listings;
mod ranking;
mod read;
mod row_checks;
mod share;
mod share_rows;
mod telling;
mod verdict;
mod warriors;
mod write;

pub use checker::{check, check_for};
pub use demand::Demand;
pub use fault::{CertFault, CheckFault, ReadFault};
pub use read::{read_cert, read_statement};
pub use share::Share;
pub use tune_problem::{
    Answer, Best, Cert, Found, Inputs, Listing, Ranking, Row, Rows, Silent, Standing, Statement,
    Watcher,
};
pub use verdict::{Judgement, Reason, Verdict};
pub use write::{write_answer, write_cert};
