//! The options that several commands have, and what each command is given.
ghost use Rattle.std.specs.Prelude.{◌≡◌, IfOk, map, string_bytes};
ghost use Rattle.clap.specs.Matches.{found_of};
ghost use Rattle.command_words.specs.CommandLine.{is_given};
ghost use Rattle.command_words.specs.Options.{AreRules};
ghost use Rattle.command_words.specs.Requests.{IsDemand, IsMethod, IsPart, IsShare};

use crate::aim_options::demand_of;
use crate::hill_option::{hill_option, rules_on};
use crate::method_options::{MethodWords, method_words};
use crate::number_option::{CORE, CYCLES, DISTANCE, LENGTH, TASKS};
use crate::part_word::part_of;
use crate::share_word::share_of;
use crate::usage_error::BadValue;
use clap::{Arg, ArgAction, ArgMatches, Command};
use rc_instr::RawRules;
use std::alloc::{AllocError, Global};
use tune_cert::{Demand, Share};
use tune_problem::Part;

/// Returns whether a flag is among the words before `--`. After it they are files.
pub fn is_given(words: &[String], flag: &str) -> bool
    ensures { result ≡ is_given flag.now (map string_bytes words.now) }
{
    let mut rest = words;
    while let Some((word, after)) = rest.split_first() {
        if word.as_str() == "--" {
            return false;
        }
        if word.as_str() == flag {
            return true;
        }
        rest = after;
    }
    false
}

// Makes `--explain`, an option of all commands.
pub(crate) fn explain_option<'a>(alloc: Global) -> Arg<'a> {
    Arg::new(alloc, "explain")
        .long("explain")
        .action(ArgAction::SetTrue)
        .help("Say more on standard error, as on a terminal: what is at fault, and what is ignored")
}

pub(crate) fn progress_option<'a>(alloc: Global) -> Arg<'a> {
    Arg::new(alloc, "progress")
        .long("progress")
        .action(ArgAction::SetTrue)
        .help("Say once a minute how far the run is, if standard error is not a terminal")
}

// Adds the hill, and the five options of the rules.
pub(crate) fn with_rules<'a>(
    alloc: Global,
    command: Command<'a>,
) -> Result<Command<'a>, AllocError> {
    command
        .next_help_heading("Rules")
        .arg(hill_option(alloc))?
        .arg(CORE.arg(alloc))?
        .arg(CYCLES.arg(alloc))?
        .arg(TASKS.arg(alloc))?
        .arg(LENGTH.arg(alloc))?
        .arg(DISTANCE.arg(alloc))
}

// Returns the rules that options give, with those of a hill as defaults.
pub(crate) fn raw_rules_of<'a>(matches: &ArgMatches<'a>) -> Result<RawRules, BadValue<'a>>
    ensures { IfOk result (AreRules (found_of matches.now)) }
{
    let hill = rules_on(matches.get_str("hill"));
    Ok(RawRules {
        core: CORE.value_or(matches, hill.core)?,
        cycles: CYCLES.value_or(matches, hill.cycles)?,
        tasks: TASKS.value_or(matches, hill.tasks)?,
        length: LENGTH.value_or(matches, hill.length)?,
        distance: DISTANCE.value_or(matches, hill.distance)?,
    })
}

// Returns the rules, the part, the method and the demand of a tuning.
pub(crate) fn tune_options<'a>(
    matches: &ArgMatches<'a>,
) -> Result<(RawRules, Part, MethodWords, Demand), BadValue<'a>>
    ensures { let found = found_of matches.now in
        IfOk result (λ o. AreRules found o.0 × (IsPart found o.1 × (IsMethod found o.2 × IsDemand found o.3))) }
{
    let rules = raw_rules_of(matches)?;
    let part = part_of(matches)?;
    let demand = demand_of(matches)?;
    let method = method_words(matches)?;
    Ok((rules, part, method, demand))
}

// Returns the rules, the part, the share and the demand of a check.
pub(crate) fn check_options<'a>(
    matches: &ArgMatches<'a>,
) -> Result<(RawRules, Part, Option<Share>, Demand), BadValue<'a>>
    ensures { let found = found_of matches.now in
        IfOk result (λ o. AreRules found o.0 × (IsPart found o.1 × (IsShare found o.2 × IsDemand found o.3))) }
{
    let rules = raw_rules_of(matches)?;
    let part = part_of(matches)?;
    let share = share_of(matches)?;
    let demand = demand_of(matches)?;
    Ok((rules, part, share, demand))
}
