//! The commands, each from its words and files to success or an ending.

mod asm;
mod check;
mod duel;
mod fight;
mod settings;
mod tune;

pub(crate) use asm::asm;
pub(crate) use check::check;
pub(crate) use duel::duel;
pub(crate) use fight::fight;
pub(crate) use settings::settings;
pub(crate) use tune::tune;
