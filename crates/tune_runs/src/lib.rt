//! Runs over bytes: from the texts of a fight, an assembly, a tuning or a check to the bytes
//! written.
//!
//! `laws` has the certified optimum: a tuning's report and any certificate that a check accepts for
//! the same texts name one setting and one total. Fields and the line `vectors` call a setting a
//! vector.
//!
//! | Run | What it writes |
//! |---|---|
//! | `fight_run`, `duel_run` | the result of a fight: of a fight text, or of two Redcode texts |
//! | `asm_run`, `setting_run` | a load file: of a Redcode text, or of one setting of a template |
//! | `settings_run` | the number of a template's settings, and its constants |
//!
//! A tuning and a check have two runs each. `tune_run` and `check_run` are for the best setting of
//! a template alone. `tune_for_run` also takes a part, an `Aim`, a `Method` and a watcher, and
//! `check_for_run` a part, a `Demand`, a share of the rows and a watcher.
#![tactic(auto)]

mod asm;
mod check;
mod duel;
mod fault;
mod fight;
mod fight_text;
mod given;
mod inputs;
pub mod laws;
mod lines;
mod report;
mod setting;
mod settings;
mod settings_text;
mod tune;

pub use asm::{asm_run, warrior_of};
pub use check::{check_for_run, check_run};
pub use duel::duel_run;
pub use fault::RunFault;
pub use fight::fight_run;
pub use given::{DuelTexts, TuneTexts, rules_of};
pub use inputs::{inputs_of, template_of};
pub use rc_instr::RawRules;
pub use setting::setting_run;
pub use settings::settings_run;
pub use tune::{tune_for_run, tune_run};
pub use tune_cert::{Demand, Share};
pub use tune_problem::{Aim, Best, Inputs, Part, Silent, Standing, Watcher};
pub use tune_search::Method;
pub use tune_template::WhichSetting;
