//! The option `--part` and its word `I/K`.
ghost use Rattle.std.specs.Prelude.{◌≡◌, ◌<◌, Some, IfOk, IfSome, IsErr, IsNone, codes, option_map};
ghost use Rattle.clap.specs.Matches.{first_value, found_of};
ghost use Rattle.tune_problem.specs.Parts.{whole};
ghost use Rattle.tune_problem.specs.declared.part.Part.{Part};
ghost use Rattle.command_words.specs.Options.{SaysPart, IsMeant, IsSaidWrong};
ghost use Rattle.command_words.specs.Requests.{IsPart};

use crate::usage_error::BadValue;
use clap::{Arg, ArgAction, ArgMatches};
use rc_instr::{after, decimal_at, decimal_of};
use std::alloc::Global;
use tune_problem::Part;

pub(crate) fn part_option<'a>(alloc: Global) -> Arg<'a> {
    Arg::new(alloc, "part")
        .long("part")
        .value_name("I/K")
        .action(ArgAction::Set)
        .help(
            "Take part I of K of the settings as if there were no others, K at most their number [default: 1/1]",
        )
}

// Returns the part that the option says, or all settings without it.
pub(crate) fn part_of<'a>(matches: &ArgMatches<'a>) -> Result<Part, BadValue<'a>>
    ensures meant { IfOk result (IsPart (found_of matches.now)) }
    ensures wrong { IsErr result → IsSaidWrong SaysPart (first_value (found_of matches.now) (codes "part")) }
{
    let word = matches.get_str("part");
    match part_said(word) {
        Some(part) => Ok(part),
        None => Err(BadValue {
            word: word.unwrap_or(""),
            option: "part",
            value: "I/K",
            why: "two numbers are wanted, as in 1/4, with I from 1 to K",
        }),
    }
}

// Returns the part that a word says, or all settings without a word.
fn part_said(word: Option<&str>) -> Option<Part>
    ensures meant { IfSome result (IsMeant SaysPart whole (option_map (λ w. w.now) word.entry)) }
    ensures wrong { IsNone result → IsSaidWrong SaysPart (option_map (λ w. w.now) word.entry) }
{
    match word {
        Some(word) => read_part(word.as_bytes()),
        None => Some(Part::whole()),
    }
}

// Reads the word `I/K`, two decimals without leading zeros. Returns `None` unless I is 1 to K.
pub(crate) fn read_part(word: &[u8]) -> Option<Part>
    ensures found { IfSome result (SaysPart word.now) }
    ensures only { (p : Part) → SaysPart word.now p → result ≡ Some p }
{
    let (number, rest) = decimal_at(word)?;
    let parts = decimal_of(after(b'/', rest)?)?;
    if 1 <= number && number <= parts {
        Some(Part { number, parts })
    } else {
        None
    }
}
