//! The option `--hill`: the rules of a hill, by its name.
ghost use Rattle.std.specs.Prelude.{◌≡◌, option_map};
ghost use Rattle.command_words.specs.Hills.{raw_rules};
ghost use Rattle.command_words.specs.Options.{hill_meant};

use clap::builder::ValueParser;
use clap::{Arg, ArgAction};
use rc_instr::{RawRules, Rules};
use std::alloc::Global;

// The names of the hills whose rules are within the limits.
const NAMES: [&str; 4] = ["94nop", "tiny", "nano", "lp"];

pub(crate) fn hill_option<'a>(alloc: Global) -> Arg<'a> {
    Arg::new(alloc, "hill")
        .long("hill")
        .value_name("HILL")
        .action(ArgAction::Set)
        .value_parser(ValueParser::Names(&NAMES))
        .help("Hill whose rules are the defaults of the five options below [default: 94nop]")
}

// Returns the rules of a hill, which `clap` keeps to `NAMES`, or the standard rules without one.
pub(crate) fn rules_on(hill: Option<&str>) -> RawRules
    ensures { result ≡ hill_meant (option_map (λ name. name.now) hill.entry) }
{
    match hill {
        Some("tiny") => raw(800, 8000, 800, 20, 20),
        Some("nano") => raw(80, 800, 80, 5, 5),
        Some("lp") => raw(8000, 80000, 8, 200, 200),
        _ => standard(),
    }
}

fn raw(core: u32, cycles: u32, tasks: u32, length: u32, distance: u32) -> RawRules
    ensures { result ≡ raw_rules core cycles tasks length distance }
{
    RawRules {
        core,
        cycles,
        tasks,
        length,
        distance,
    }
}

fn standard() -> RawRules
    ensures { result ≡ raw_rules 8000 80000 8000 100 100 }
{
    let rules = Rules::standard();
    raw(
        rules.core(),
        rules.cycles(),
        rules.tasks(),
        rules.length(),
        rules.distance(),
    )
}
