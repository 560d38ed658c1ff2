//! The report of a tuning: six lines, and those of the ranking.
ghost use Rattle.std.specs.Prelude.{◌≡◌, ◌++◌, ◌<◌, ◌*◌, map, IfOk, IfSome, OnOk};
ghost use Rattle.std.specs.Fmt.{decimal};
ghost use Rattle.std.specs.Option.{option_map};
ghost use Rattle.tune_template.specs.Instances.{constants_of};
ghost use Rattle.tune_problem.specs.Problem.{problem_of};
ghost use Rattle.tune_problem.specs.Optimum.{candidates_of, greatest_of};
ghost use Rattle.tune_cert.specs.Judgement.{AreSettings};
ghost use Rattle.tune_runs.specs.Report.{number_line, of_line, constant_text, constants_text, constants_or_none, constants_line, best_lines, none_lines, rank_line, rank_lines, named_setting, named_ranking, report_text, report_for, IsSettingOf};

use itoa::Buffer;
use rc_instr::OutOfMemory;
use std::alloc::Global;
use tune_problem::{Aim, Best, Inputs, greatest_total};
use tune_search::Findings;

// Makes the report of what a search found.
#[tactic(auto, unfolding(crate::specs::Report::report_text))]
pub(crate) fn report_of(
    alloc: Global,
    inputs: &Inputs,
    aim: Aim,
    found: &Findings,
) -> Result<Vec<u8>, OutOfMemory>
    requires settings { AreSettings (problem_of inputs.now).count found.now.ranking }
    requires candidates { found.now.candidates ≡ candidates_of (problem_of inputs.now) }
    ensures { IfOk result (λ text. text.items ≡ report_text (report_for inputs.now aim found.now)) }
{
    let fights = inputs.schedule().fights().len() as u64;
    let mut text = Vec::new(alloc);
    add_number(&mut text, b"vectors ", inputs.count())?;
    add_number(&mut text, b"candidates ", found.candidates)?;
    add_best_lines(&mut text, inputs, aim.floor, found.ranking.first())?;
    add_of_line(
        &mut text,
        b"fights ",
        found.fights,
        found.candidates as u64 * fights,
    )?;
    add_ranking(&mut text, inputs, Some(aim.keep), found.ranking.as_slice())?;
    Ok(text)
}

// Appends the lines of the best setting, or of none.
#[tactic(auto, unfolding(crate::specs::Report::best_lines))]
fn add_best_lines(
    text: &mut Vec<u8>,
    inputs: &Inputs,
    floor: u32,
    best: Option<Best>,
) -> Result<(), OutOfMemory>
    requires inside { IfSome best (IsSettingOf inputs.now) }
    ensures { OnOk result (text.new.items ≡ text.old.items ++ best_lines floor (greatest_of (problem_of inputs.now)) (option_map (named_setting inputs.now) best)) }
{
    let most = greatest_total(inputs) as u64;
    match best {
        None => add_none_lines(text, floor, most),
        Some(best) => {
            let values = inputs.vector(best.vector);
            add_number(text, b"best ", best.vector)?;
            add_constants(text, inputs.template().names(), values.as_slice())?;
            add_of_line(text, b"total ", best.total as u64, most)
        }
    }
}

// Appends the lines that say that no total reaches the floor.
#[tactic(auto, unfolding(crate::specs::Report::none_lines))]
fn add_none_lines(text: &mut Vec<u8>, floor: u32, most: u64) -> Result<(), OutOfMemory>
    ensures { OnOk result (text.new.items ≡ text.old.items ++ none_lines floor most) }
{
    text.extend_from_slice(b"best -\n")?;
    text.extend_from_slice(b"constants -\n")?;
    add_of_line(text, b"total below ", floor as u64, most)
}

// Appends the lines of a ranking, if more than one setting is asked for.
pub(crate) fn add_ranking(
    text: &mut Vec<u8>,
    inputs: &Inputs,
    keep: Option<u32>,
    ranking: &[Best],
) -> Result<(), OutOfMemory>
    requires { AreSettings (problem_of inputs.now).count ranking.now }
    ensures { OnOk result (text.new.items ≡ text.old.items ++ rank_lines 1 (named_ranking inputs.now keep ranking.now)) }
{
    match keep {
        Some(keep) if keep > 1 => add_ranks(text, inputs, ranking),
        _ => Ok(()),
    }
}

// Appends a line for each setting of a ranking.
fn add_ranks(text: &mut Vec<u8>, inputs: &Inputs, ranking: &[Best]) -> Result<(), OutOfMemory>
    requires { AreSettings (problem_of inputs.now).count ranking.now }
    ensures { OnOk result (text.new.items ≡ text.old.items ++ rank_lines 1 (map (named_setting inputs.now) ranking.now)) }
{
    let mut rest = ranking;
    let mut rank: u32 = 0;
    while let Some((best, after)) = rest.split_first() {
        rank += 1;
        add_rank(text, inputs, rank, *best)?;
        rest = after;
    }
    Ok(())
}

// Appends the line of a setting at a rank, as in `rank 2 setting 5 total 17 STEP=3`.
#[tactic(auto, unfolding(crate::specs::Report::rank_line))]
fn add_rank(text: &mut Vec<u8>, inputs: &Inputs, rank: u32, best: Best) -> Result<(), OutOfMemory>
    requires inside { IsSettingOf inputs.now best }
    ensures { OnOk result (text.new.items ≡ text.old.items ++ rank_line rank (named_setting inputs.now best)) }
{
    let values = inputs.vector(best.vector);
    add_number_in(text, b"rank ", rank)?;
    add_number_in(text, b" setting ", best.vector)?;
    add_number_in(text, b" total ", best.total)?;
    add_values(text, inputs.template().names(), values.as_slice())?;
    text.extend_from_slice(b"\n")?;
    Ok(())
}

fn add_number_in(text: &mut Vec<u8>, word: &[u8], number: u32) -> Result<(), OutOfMemory>
    ensures { OnOk result (text.new.items ≡ text.old.items ++ word.now ++ decimal number) }
{
    text.extend_from_slice(word)?;
    text.extend_from_slice(Buffer::new().format(number).as_bytes())?;
    Ok(())
}

// Appends the line of a word and a number.
#[tactic(auto, unfolding(crate::specs::Report::number_line))]
pub(crate) fn add_number(text: &mut Vec<u8>, word: &[u8], number: u32) -> Result<(), OutOfMemory>
    ensures { OnOk result (text.new.items ≡ text.old.items ++ number_line word.now number) }
{
    text.extend_from_slice(word)?;
    text.extend_from_slice(Buffer::new().format(number).as_bytes())?;
    text.extend_from_slice(b"\n")?;
    Ok(())
}

// Appends the line `WORD PART of WHOLE`.
#[tactic(auto, unfolding(crate::specs::Report::of_line))]
fn add_of_line(text: &mut Vec<u8>, word: &[u8], part: u64, whole: u64) -> Result<(), OutOfMemory>
    ensures { OnOk result (text.new.items ≡ text.old.items ++ of_line word.now part whole) }
{
    text.extend_from_slice(word)?;
    text.extend_from_slice(Buffer::new().format(part).as_bytes())?;
    text.extend_from_slice(b" of ")?;
    text.extend_from_slice(Buffer::new().format(whole).as_bytes())?;
    text.extend_from_slice(b"\n")?;
    Ok(())
}

// Appends a constant, as in ` STEP=3`.
#[tactic(auto, unfolding(crate::specs::Report::constant_text))]
fn add_constant(text: &mut Vec<u8>, name: &[u8], value: i64) -> Result<(), OutOfMemory>
    ensures { OnOk result (text.new.items ≡ text.old.items ++ constant_text name.now value) }
{
    text.extend_from_slice(b" ")?;
    text.extend_from_slice(name)?;
    text.extend_from_slice(b"=")?;
    text.extend_from_slice(Buffer::new().format(value).as_bytes())?;
    Ok(())
}

fn add_values(text: &mut Vec<u8>, names: &[Vec<u8>], values: &[i64]) -> Result<(), OutOfMemory>
    ensures { OnOk result (text.new.items ≡ text.old.items ++ constants_text (constants_of (map (λ n. n.items) names.now) values.now)) }
{
    let mut left = (names, values);
    while let (Some((name, names)), Some((value, values))) = (
        left.0.split_first(),
        left.1.split_first(),
    ) {
        add_constant(text, name.as_slice(), *value)?;
        left = (names, values);
    }
    Ok(())
}

// Appends the constants, or ` -` if there are none.
#[tactic(auto, using(crate::proofs::Constants::none_told, crate::proofs::Constants::some_told))]
fn add_values_or_none(
    text: &mut Vec<u8>,
    names: &[Vec<u8>],
    values: &[i64],
) -> Result<(), OutOfMemory>
    ensures { OnOk result (text.new.items ≡ text.old.items ++ constants_or_none (constants_of (map (λ n. n.items) names.now) values.now)) }
{
    if names.is_empty() || values.is_empty() {
        text.extend_from_slice(b" -")?;
        return Ok(());
    }
    add_values(text, names, values)
}

#[tactic(auto, unfolding(crate::specs::Report::constants_line))]
fn add_constants(text: &mut Vec<u8>, names: &[Vec<u8>], values: &[i64]) -> Result<(), OutOfMemory>
    ensures { OnOk result (text.new.items ≡ text.old.items ++ constants_line (constants_of (map (λ n. n.items) names.now) values.now)) }
{
    text.extend_from_slice(b"constants")?;
    add_values_or_none(text, names, values)?;
    text.extend_from_slice(b"\n")?;
    Ok(())
}
