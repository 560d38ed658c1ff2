//! The command `fight` with two files: from two Redcode texts to a result line.
ghost use Rattle.std.specs.Prelude.{◌≡◌, ◌/◌, false};
ghost use Rattle.tune_runs.specs.Runs.{writer};
ghost use Rattle.tune_runs.specs.Given.{rules_given};
ghost use Rattle.tune_runs.specs.DuelRun.{position_meant};
ghost use Rattle.command_runs.specs.Commands.{WritesDuelOf, EndsUnderstood};

use crate::ending::Ending;
use crate::host::Host;
use crate::telling::witness::Witness;
use command_words::DuelWords;
use rc_instr::{Outlet, Rules};
use std::io::Write;
use std::rt::Files;
use tune_runs::{DuelTexts, duel_run};

// Runs the command on files. Checks the rules before it reads them.
pub(crate) fn duel<F: Files, T: Witness, W: Write, V: Write>(
    host: &mut Host<'_, F, T, V>,
    words: &DuelWords<'_>,
    out: &mut Outlet<W>,
) -> Result<(), Ending>
    requires { out.old.failed ≡ false }
    ensures { let w = words.now in
        EndsUnderstood (WritesDuelOf (rules_given w.rules) w.position w.first (writer out.old out.new)) out.old out.new result }
{
    let rules = host.rules(words.rules)?;
    let candidate = host.read(words.candidate)?;
    let opponent = host.read(words.opponent)?;
    let texts = DuelTexts {
        candidate: candidate.as_slice(),
        opponent: opponent.as_slice(),
        rules: &rules,
        position: position_or_half(&rules, words.position),
        first: words.first,
    };
    match duel_run(host.alloc, &texts, out) {
        Ok(()) => Ok(()),
        Err(fault) => Err(host.refuse_duel(words, &texts, fault)),
    }
}

fn position_or_half(rules: &Rules, position: Option<u32>) -> u32
    ensures { result ≡ position_meant rules.now position }
{
    match position {
        Some(position) => position,
        None => rules.core() / 2,
    }
}
