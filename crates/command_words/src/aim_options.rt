//! The options `--keep` and `--floor`.
ghost use Rattle.std.specs.Prelude.{◌≡◌, ◌≤◌, IfOk};
ghost use Rattle.std.specs.Option.{unwrap_or};
ghost use Rattle.clap.specs.Matches.{found_of};
ghost use Rattle.tune_problem.specs.Limits.{MOST_KEPT};
ghost use Rattle.tune_problem.specs.Ranking.{IsAim};
ghost use Rattle.command_words.specs.CommandLine.{aim_meant, kept_asked};
ghost use Rattle.command_words.specs.Requests.{IsDemand};

use crate::number_option::{CHECK_FLOOR, CHECK_KEEP};
use crate::usage_error::BadValue;
use clap::ArgMatches;
use tune_cert::Demand;
use tune_problem::{Aim, limits};

// Returns what a tuning, or a check, is asked for beside the optimum. `CHECK_KEEP` and
// `CHECK_FLOOR` serve `tune` too, whose options have the same names.
pub(crate) fn demand_of<'a>(matches: &ArgMatches<'a>) -> Result<Demand, BadValue<'a>>
    ensures { IfOk result (IsDemand (found_of matches.now)) }
{
    Ok(Demand {
        keep: kept_asked(CHECK_KEEP.value_in(matches)?),
        floor: CHECK_FLOOR.value_in(matches)?,
    })
}

// Returns the value of `--keep`, which `clap` keeps within its range, if it is given.
fn kept_asked(given: Option<u32>) -> Option<u32>
    ensures { result ≡ kept_asked given }
{
    match given {
        Some(keep) if 1 <= keep && keep <= limits::MOST_KEPT => Some(keep),
        _ => None,
    }
}

/// Returns the aim of a tuning with this demand.
pub fn aim_meant(demand: Demand) -> Aim
    ensures aim { result ≡ aim_meant demand }
    ensures is_aim { IsAim result }
{
    Aim {
        keep: kept_meant(demand.keep),
        floor: demand.floor.unwrap_or(0),
    }
}

// Returns how many settings a tuning keeps: 1, if nothing is asked for.
fn kept_meant(asked: Option<u32>) -> u32
    ensures kept { result ≡ unwrap_or (kept_asked asked) 1 }
    ensures within { (1 ≤ result) × (result ≤ MOST_KEPT) }
{
    match kept_asked(asked) {
        Some(keep) => keep,
        None => 1,
    }
}
