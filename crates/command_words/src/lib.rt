//! The words of the command line: the command that they ask for, its options, and their values.
//!
//! `command_line` reads them, by the commands and options that `clap_commands` has. `command_word`
//! says which command they name, and `help` whether they ask for help. The other modules have an
//! option or several each, and the values that these mean.
#![tactic(auto)]

mod aim_options;
mod clap_commands;
mod command_line;
mod command_word;
mod help;
mod hill_option;
mod method_options;
mod number_option;
mod options;
mod part_word;
mod setting_word;
mod share_word;
mod usage_error;

pub use aim_options::aim_meant;
pub use clap_commands::VERSION;
pub use command_line::{AsmWords, DuelWords, Request, TuneWords, request_of};
pub use command_word::asks_for_fight;
pub use help::mentions_help;
pub use method_options::{MethodWords, method_meant};
pub use options::is_given;
