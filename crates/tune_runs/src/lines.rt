//! The lines that a fight and a check write.
ghost use Rattle.std.specs.Prelude.{◌≡◌, ◌++◌, IfOk, OnOk};
ghost use Rattle.std.specs.Option.{option_map};
ghost use Rattle.tune_problem.specs.Problem.{problem_of};
ghost use Rattle.tune_cert.specs.Judgement.{IsOfSettings};
ghost use Rattle.tune_cert.specs.Shares.{share_part};
ghost use Rattle.tune_runs.specs.ResultLine.{points_text, result_line};
ghost use Rattle.mars_core.specs.declared.arena.Outcome.{Outcome};
ghost use Rattle.tune_cert.specs.declared.verdict.Reason.{Reason};
ghost use Rattle.tune_runs.specs.CheckRun.{reason_text, best_text, rejected_line, share_words, accepted_words, none_text, answer_text, judgement_lines};

use crate::report::add_ranking;
use itoa::Buffer;
use mars_core::Outcome;
use rc_instr::OutOfMemory;
use std::alloc::Global;
use tune_cert::{Answer, Demand, Judgement, Reason, Share};
use tune_problem::Inputs;

// Makes the line of an outcome, as in `tie 1 turns 40`.
#[tactic(auto, unfolding(crate::specs::ResultLine::result_line))]
pub(crate) fn result_line(alloc: Global, outcome: Outcome) -> Result<Vec<u8>, OutOfMemory>
    ensures { IfOk result (λ line. line.items ≡ result_line outcome) }
{
    let mut line = Vec::new(alloc);
    line.extend_from_slice(points_word(outcome.points))?;
    line.extend_from_slice(b" turns ")?;
    line.extend_from_slice(Buffer::new().format(outcome.turns).as_bytes())?;
    line.extend_from_slice(b"\n")?;
    Ok(line)
}

// Makes the lines of a judgement on all rows, or on a share.
#[tactic(auto, unfolding(crate::specs::CheckRun::judgement_lines))]
pub(crate) fn judgement_lines(
    alloc: Global,
    inputs: &Inputs,
    demand: Demand,
    share: Option<Share>,
    judgement: &Judgement,
) -> Result<Vec<u8>, OutOfMemory>
    requires settings { IsOfSettings (problem_of inputs.now).count judgement.now }
    ensures { IfOk result (λ lines. lines.items ≡ judgement_lines inputs.now demand (option_map share_part share) judgement.now) }
{
    match judgement {
        Judgement::Accepted { answer, ranking } => {
            let mut lines = Vec::new(alloc);
            add_accepted(&mut lines, share)?;
            add_answer(&mut lines, *answer)?;
            add_ranking(&mut lines, inputs, demand.keep, ranking.as_slice())?;
            Ok(lines)
        }
        Judgement::Rejected { row, reason } => rejected_line(alloc, *row, *reason),
    }
}

// Appends `accepted`, or `accepted share I/K`.
fn add_accepted(line: &mut Vec<u8>, share: Option<Share>) -> Result<(), OutOfMemory>
    ensures { OnOk result (line.new.items ≡ line.old.items ++ accepted_words (option_map share_part share)) }
{
    match share {
        None => Ok(line.extend_from_slice(b"accepted")?),
        Some(share) => add_share(line, share),
    }
}

// Appends `accepted share I/K`.
fn add_share(line: &mut Vec<u8>, share: Share) -> Result<(), OutOfMemory>
    ensures { OnOk result (line.new.items ≡ line.old.items ++ share_words share.number share.shares) }
{
    line.extend_from_slice(b"accepted share ")?;
    line.extend_from_slice(Buffer::new().format(share.number).as_bytes())?;
    line.extend_from_slice(b"/")?;
    line.extend_from_slice(Buffer::new().format(share.shares).as_bytes())?;
    Ok(())
}

// Appends ` best W total T` or ` none below F`, and the end of the line.
fn add_answer(line: &mut Vec<u8>, answer: Answer) -> Result<(), OutOfMemory>
    ensures { OnOk result (line.new.items ≡ line.old.items ++ answer_text answer) }
{
    match answer {
        Answer::Best(best) => add_best(line, best.vector, best.total),
        Answer::NoneFrom(floor) => add_none(line, floor),
    }
}

// Appends ` none below F` and the end of the line.
fn add_none(line: &mut Vec<u8>, floor: u32) -> Result<(), OutOfMemory>
    ensures { OnOk result (line.new.items ≡ line.old.items ++ none_text floor) }
{
    line.extend_from_slice(b" none below ")?;
    line.extend_from_slice(Buffer::new().format(floor).as_bytes())?;
    line.extend_from_slice(b"\n")?;
    Ok(())
}

fn points_word(points: u8) -> &'static [u8]
    ensures { result.now ≡ points_text points }
{
    match points {
        3 => b"win 3",
        1 => b"tie 1",
        _ => b"loss 0",
    }
}

fn reason_word(reason: Reason) -> &'static [u8]
    ensures { result.now ≡ reason_text reason }
{
    match reason {
        Reason::Malformed => b"Malformed",
        Reason::RowCount => b"RowCount",
        Reason::BestRow => b"BestRow",
        Reason::WrongPoints => b"WrongPoints",
        Reason::RepeatedFight => b"RepeatedFight",
        Reason::CapTooHigh => b"CapTooHigh",
        Reason::NotSame => b"NotSame",
        Reason::NotRefused => b"NotRefused",
        Reason::Version => b"Version",
    }
}

// Appends ` best W total T` and the end of the line.
#[tactic(auto, unfolding(crate::specs::CheckRun::best_text))]
fn add_best(line: &mut Vec<u8>, best: u32, total: u32) -> Result<(), OutOfMemory>
    ensures { OnOk result (line.new.items ≡ line.old.items ++ best_text best total) }
{
    line.extend_from_slice(b" best ")?;
    line.extend_from_slice(Buffer::new().format(best).as_bytes())?;
    line.extend_from_slice(b" total ")?;
    line.extend_from_slice(Buffer::new().format(total).as_bytes())?;
    line.extend_from_slice(b"\n")?;
    Ok(())
}

// Makes the line `rejected row R REASON`.
fn rejected_line(alloc: Global, row: u64, reason: Reason) -> Result<Vec<u8>, OutOfMemory>
    ensures { IfOk result (λ line. line.items ≡ rejected_line row reason) }
{
    let mut line = Vec::new(alloc);
    line.extend_from_slice(b"rejected row ")?;
    line.extend_from_slice(Buffer::new().format(row).as_bytes())?;
    line.extend_from_slice(b" ")?;
    line.extend_from_slice(reason_word(reason))?;
    line.extend_from_slice(b"\n")?;
    Ok(line)
}
