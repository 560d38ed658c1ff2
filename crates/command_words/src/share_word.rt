//! The option `--share` and its word `I/K`.
ghost use Rattle.std.specs.Prelude.{IfOk, IsErr, MatchOption, codes};
ghost use Rattle.clap.specs.Matches.{first_value, found_of};
ghost use Rattle.tune_problem.specs.Parts.{part};
ghost use Rattle.tune_problem.specs.declared.part.Part.{Part};
ghost use Rattle.command_words.specs.Options.{SaysPart, IsSaidWrong};
ghost use Rattle.command_words.specs.Requests.{IsShare};

use crate::part_word::read_part;
use crate::usage_error::BadValue;
use clap::{Arg, ArgAction, ArgMatches};
use std::alloc::Global;
use tune_cert::Share;
use tune_problem::Part;

pub(crate) fn share_option<'a>(alloc: Global) -> Arg<'a> {
    Arg::new(alloc, "share")
        .long("share")
        .value_name("I/K")
        .action(ArgAction::Set)
        .help(
            "Check share I of K of the settings only, after reading all of CERT, and print `accepted share I/K ..`; a certificate is valid if all K shares of it are accepted",
        )
}

// Returns the share that the option says, or `None` without it.
pub(crate) fn share_of<'a>(matches: &ArgMatches<'a>) -> Result<Option<Share>, BadValue<'a>>
    ensures given { IfOk result (IsShare (found_of matches.now)) }
    ensures wrong { IsErr result → IsSaidWrong SaysPart (first_value (found_of matches.now) (codes "share")) }
{
    let Some(word) = matches.get_str("share") else {
        return Ok(None);
    };
    match share_said(word) {
        Some(share) => Ok(Some(share)),
        None => Err(BadValue {
            word,
            option: "share",
            value: "I/K",
            why: "two numbers are wanted, as in 1/4, with I from 1 to K",
        }),
    }
}

// Returns the share that a word says. A share is spelt as a part is, but may be empty.
fn share_said(word: &str) -> Option<Share>
    ensures { MatchOption result ((p : Part) → SaysPart word.now p → ⊥) (λ s. SaysPart word.now (part s.number s.shares)) }
{
    let Part { number, parts } = read_part(word.as_bytes())?;
    Some(Share {
        number,
        shares: parts,
    })
}
