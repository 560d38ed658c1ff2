//! The options that take a number: a table of them, and how one is made and read. `clap` checks the
//! range of `--keep` and `--cache`; the others are checked when the command runs.

ghost use Rattle.std.specs.Prelude.{◌≡◌, Some, ℕ, IfOk, IfSome, IsErr};
ghost use Rattle.clap.specs.Matches.{first_value, found_of};
ghost use Rattle.command_words.specs.Options.{SaysNumber, IsGiven, IsMeant, IsSaidWrong};

use crate::usage_error::BadValue;
use clap::{Arg, ArgAction, ArgMatches, value_parser};
use std::alloc::Global;

// What help and usage errors call the number.
const VALUE_NAME: &str = "NUMBER";

// An option that takes a 32-bit number.
pub(crate) struct NumberOption {
    pub(crate) name: &'static str,
    // What help says: what the number is, and its range and its default, if it has them.
    pub(crate) help: &'static str,
    // What a usage error says of a word that is not a 32-bit number.
    pub(crate) why: &'static str,
}

pub(crate) const CORE: NumberOption = NumberOption {
    name: "core",
    help: "Core size in cells, 8 to 65535 [default: 8000]",
    why: "a number from 8 to 65535 is wanted",
};

pub(crate) const CYCLES: NumberOption = NumberOption {
    name: "cycles",
    help: "Cycles until a tie, one turn per warrior each, 1 to 1000000 [default: 80000]",
    why: "a number from 1 to 1000000 is wanted",
};

pub(crate) const TASKS: NumberOption = NumberOption {
    name: "tasks",
    help: "Most tasks of a warrior, 1 to 8000 [default: 8000]",
    why: "a number from 1 to 8000 is wanted",
};

pub(crate) const LENGTH: NumberOption = NumberOption {
    name: "length",
    help: "Most instructions of a warrior, 1 to 200 [default: 100]",
    why: "a number from 1 to 200 is wanted",
};

pub(crate) const DISTANCE: NumberOption = NumberOption {
    name: "distance",
    help: "Least distance between warriors in cells, from the length to half the core [default: 100]",
    why: "a number from the length to half the core size is wanted",
};

pub(crate) const POSITION: NumberOption = NumberOption {
    name: "position",
    help: "Address of the opponent, from the distance to the core size less the distance [default: half of the core]",
    why: "a number from the distance to the core size less the distance is wanted",
};

pub(crate) const TUNE_FLOOR: NumberOption = NumberOption {
    name: "floor",
    help: "Find settings that total this or more, and drop the others early [default: 0]",
    why: "a number from 0 to 4294967295 is wanted",
};

// It differs from `TUNE_FLOOR` in its help alone.
pub(crate) const CHECK_FLOOR: NumberOption = NumberOption {
    name: "floor",
    help: "Accept also a certificate that no setting totals this or more, with the line `accepted none below F`",
    why: "a number from 0 to 4294967295 is wanted",
};

pub(crate) const TUNE_KEEP: NumberOption = NumberOption {
    name: "keep",
    help: "How many settings to find, the best, the second best and so on, 1 to 1000; above 1 the report ends with a line `rank ..` for each [default: 1]",
    why: "a number from 1 to 1000 is wanted",
};

// It differs from `TUNE_KEEP` in its help alone.
pub(crate) const CHECK_KEEP: NumberOption = NumberOption {
    name: "keep",
    help: "Accept only if the rows show the first settings of the ranking, this many, 1 to 1000; above 1 each has a line `rank ..`",
    why: "a number from 1 to 1000 is wanted",
};

pub(crate) const CACHE: NumberOption = NumberOption {
    name: "cache",
    help: "Settings to remember, so that equal warriors share fights, 1 to 65536 [default: 4096]",
    why: "a number from 1 to 65536 is wanted",
};

impl NumberOption {
    pub(crate) fn arg<'a>(&self, alloc: Global) -> Arg<'a> {
        Arg::new(alloc, self.name)
            .long(self.name)
            .value_name(VALUE_NAME)
            .action(ArgAction::Set)
            .allow_negative_numbers(true)
            .help(self.help)
    }

    // Makes the option so that `clap` keeps its number within 1 to `most`.
    pub(crate) fn ranged_arg<'a>(&self, alloc: Global, most: u32) -> Arg<'a> {
        let range = value_parser!(u32).range(1..i64::from(most) + 1);
        self.arg(alloc).value_parser(range)
    }

    // Returns the number that the option is given, or `default`.
    pub(crate) fn value_or<'a>(
        &self,
        matches: &ArgMatches<'a>,
        default: u32,
    ) -> Result<u32, BadValue<'a>>
        ensures { IfOk result (IsMeant SaysNumber default (first_value (found_of matches.now) self.now.name.now)) }
    {
        Ok(self.value_in(matches)?.unwrap_or(default))
    }

    // Returns the number that the option is given.
    pub(crate) fn value_in<'a>(&self, matches: &ArgMatches<'a>) -> Result<Option<u32>, BadValue<'a>>
        ensures given { IfOk result (IsGiven SaysNumber (first_value (found_of matches.now) self.now.name.now)) }
        ensures wrong { IsErr result → IsSaidWrong SaysNumber (first_value (found_of matches.now) self.now.name.now) }
    {
        let Some(word) = matches.get_str(self.name) else {
            return Ok(None);
        };
        match number_in(word) {
            Some(number) => Ok(Some(number)),
            None => Err(BadValue {
                word,
                option: self.name,
                value: VALUE_NAME,
                why: self.why,
            }),
        }
    }
}

// Reads a word as a 32-bit number. A sign may come first, but `-` only before 0.
fn number_in(word: &str) -> Option<u32>
    ensures found { IfSome result (SaysNumber word.now) }
    ensures only { (n : ℕ) → SaysNumber word.now n → result ≡ Some n }
{
    match word.parse::<i64>() {
        Ok(number) => u32::try_from(number).ok(),
        Err(_) => None,
    }
}
