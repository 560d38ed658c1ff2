//! The option `--setting` and its word: `start`, or an index.

use crate::usage_error::BadValue;
use clap::{Arg, ArgAction, ArgMatches};
use std::alloc::Global;
use tune_template::WhichSetting;

pub(crate) fn setting_option<'a>(alloc: Global) -> Arg<'a> {
    Arg::new(alloc, "setting")
        .long("setting")
        .value_name("W")
        .action(ArgAction::Set)
        .help("Take FILE for a template, and setting W of it: an index from 0, or `start`")
}

// Returns the setting that the option says, or `None` without it.
pub(crate) fn setting_of<'a>(
    matches: &ArgMatches<'a>,
) -> Result<Option<WhichSetting>, BadValue<'a>> {
    let Some(word) = matches.get_str("setting") else {
        return Ok(None);
    };
    match which_setting(word) {
        Some(which) => Ok(Some(which)),
        None => Err(BadValue {
            word,
            option: "setting",
            value: "W",
            why: "neither an index nor `start`",
        }),
    }
}

fn which_setting(word: &str) -> Option<WhichSetting> {
    if word == "start" {
        return Some(WhichSetting::Start);
    }
    match word.parse::<u32>() {
        Ok(index) => Some(WhichSetting::Index(index)),
        Err(_) => None,
    }
}
