//! The options `--cache` and `--all`.
ghost use Rattle.std.specs.Prelude.{◌≡◌, ◌≤◌, IfOk};
ghost use Rattle.clap.specs.Matches.{found_of};
ghost use Rattle.tune_search.specs.Limits.{MOST_CAPACITY};
ghost use Rattle.tune_search.specs.Method.{HasCapacity};
ghost use Rattle.command_words.specs.CommandLine.{capacity_meant, method_meant};
ghost use Rattle.command_words.specs.Requests.{IsMethod};

use crate::number_option::CACHE;
use crate::usage_error::BadValue;
use clap::{Arg, ArgAction, ArgMatches};
use std::alloc::{AllocError, Global};
use tune_search::{Method, limits};

// The default of `--cache`.
const DEFAULT_CAPACITY: u32 = 4096;

/// `--all` and `--cache`, as they are given.
#[derive(Clone, Copy)]
pub struct MethodWords {
    pub all: bool,
    pub cache: Option<u32>,
}

pub(crate) fn all_option<'a>(alloc: Global) -> Result<Arg<'a>, AllocError> {
    let all = Arg::new(alloc, "all")
        .long("all")
        .action(ArgAction::SetTrue)
        .conflicts_with("cache")?
        .help("Play every fight of every setting, and list all of them in the certificate");
    Ok(all)
}

// Returns how `tune` is asked to search.
pub(crate) fn method_words<'a>(matches: &ArgMatches<'a>) -> Result<MethodWords, BadValue<'a>>
    ensures { IfOk result (IsMethod (found_of matches.now)) }
{
    Ok(MethodWords {
        all: matches.get_flag("all"),
        cache: CACHE.value_in(matches)?,
    })
}

/// Returns how `tune` searches.
pub fn method_meant(words: MethodWords) -> Method
    ensures method { result ≡ method_meant words }
    ensures capacity { HasCapacity result }
{
    if words.all {
        return Method::PlayingAll;
    }
    Method::Dropping {
        capacity: capacity_meant(words.cache),
    }
}

// Returns the capacity that is given, which `clap` keeps in its range, or the default.
fn capacity_meant(given: Option<u32>) -> u32
    ensures meant { result ≡ capacity_meant given }
    ensures within { (1 ≤ result) × (result ≤ MOST_CAPACITY) }
{
    match given {
        Some(capacity) if 1 <= capacity && capacity <= limits::MOST_CAPACITY => capacity,
        _ => DEFAULT_CAPACITY,
    }
}
