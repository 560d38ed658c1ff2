//! Tables: texts of comma-separated values, read record by record. Schedules and certificates are
//! such texts.
#![tactic(auto)]

mod records;

pub use records::{Records, four_fields, three_fields};
