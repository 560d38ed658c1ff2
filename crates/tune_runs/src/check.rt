//! A check: from texts and a certificate to the line of the verdict, and those of the ranking.
ghost use Rattle.std.specs.Prelude.{◌≡◌, ◌≢◌, None, Some, true, false, IfErr};
ghost use Rattle.std.specs.Option.{option_map};
ghost use Rattle.tune_runs.specs.Runs.{IsRun, Returns};
ghost use Rattle.tune_runs.specs.Given.{all_given, texts_given};
ghost use Rattle.tune_cert.specs.Shares.{share_part};
ghost use Rattle.tune_cert.specs.Judgement.{no_demand};
ghost use Rattle.tune_runs.specs.CheckRun.{accepts, check_output, share_meant};

use crate::fault::RunFault;
use crate::given::TuneTexts;
use crate::inputs::inputs_of;
use crate::lines::judgement_lines;
use rc_instr::{Outlet, Rules};
use std::alloc::Global;
use std::io::Write;
use tune_cert::{Demand, Judgement, Share, Silent, Watcher, check_for};
use tune_problem::Part;

/// Checks a certificate of a tuning, whoever made it, and writes the line of the verdict. Returns
/// whether it is accepted.
///
/// The line is `accepted best W total T` if the bytes spell a valid certificate; W is then the
/// optimum of the tuning and T its total. Else it is `rejected row R REASON`, with the record, from
/// 0, and what is wrong there. The template is a Redcode text with `;@tune` lines, each opponent a
/// Redcode text, the schedule a table of fights. Plays only fights that the certificate lists. The
/// outlet must not have failed.
///
/// # Errors
///
/// The first that applies: `TooManyOpponents` for more than 64, `Template` with the fault of its
/// text, `Opponent` with the index of the first that does not assemble and its fault, `Schedule`
/// with the fault of its text. Nothing is written then. `Write` if the writer failed: an unknown
/// part of the line may be out. `OutOfMemory` if an allocation failed: nothing is written.
pub fn check_run<W: Write>(
    alloc: Global,
    template: &[u8],
    opponents: &[Vec<u8>],
    schedule: &[u8],
    rules: &Rules,
    cert: &[u8],
    out: &mut Outlet<W>,
) -> Result<bool, RunFault>
    requires { out.old.failed ≡ false }

    // The line is that of the verdict on the certificate, for the inputs in the texts: the right
    // one, by `laws::a_check_writes_the_right_verdict`.
    ensures run { IsRun (check_output (all_given template.now opponents.now schedule.now rules.now) no_demand None cert.now) result out.old out.new }

    // Every template has a part 1 of 1.
    ensures whole { IfErr result (λ e. e ≢ RunFault.Part) }
{
    check_for_run(
        alloc,
        &TuneTexts {
            template,
            opponents,
            schedule,
            rules,
            part: Part::whole(),
        },
        Demand::none(),
        None,
        &mut Silent,
        cert,
        out,
    )
}

/// Checks a certificate of a tuning of one part of a template's settings, or a share of its rows,
/// and whether it meets a demand; writes the lines of the judgement. Returns whether it is
/// accepted. Tells `watcher` how far the check is.
///
/// The settings are counted from 0 within the part, in the certificate and in the lines. With
/// `floor` F, a certificate may also say that no setting totals F or more (`none,-,F`): the line is
/// then `accepted none below F`. With `keep` the rows have to show the first `keep` of the ranking;
/// if it is above 1, a line `rank I setting W total T NAME=value ..` follows for each.
///
/// For share I of K the first line is `accepted share I/K ..`. If all K shares accept the same
/// bytes, a check of all rows accepts them, too, with the same answer. The share is of the part's
/// settings.
///
/// `check_run` is this run for part 1 of 1, without a demand, of all rows and with a silent
/// watcher, and the rest is as there.
///
/// # Errors
///
/// Those of `check_run`; and `Part`, after `Schedule`, if there is no such part: nothing is written
/// then.
pub fn check_for_run<T: Watcher, W: Write>(
    alloc: Global,
    given: &TuneTexts<'_>,
    demand: Demand,
    share: Option<Share>,
    watcher: &mut T,
    cert: &[u8],
    out: &mut Outlet<W>,
) -> Result<bool, RunFault>
    requires out { out.old.failed ≡ false }

    // The lines are those of the share's judgement on the certificate, for the inputs in the texts.
    ensures run { IsRun (check_output (texts_given given.now) demand (option_map share_part share) cert.now) result out.old out.new }
{
    let judged = judged_lines(alloc, given, demand, share, watcher, cert)?;
    out.write_all(judged.lines.as_slice())?;
    Ok(judged.is_accepted)
}

// What a check says of a certificate: whether it is accepted, and the lines that say so.
#[derive(Drop)]
struct Judged {
    is_accepted: bool,
    lines: Vec<u8>,
}

// Makes the lines of a judgement. Tells `watcher` when the check begins and when it has ended.
#[tactic(auto, unfolding(crate::specs::CheckRun::check_output))]
fn judged_lines<T: Watcher>(
    alloc: Global,
    given: &TuneTexts<'_>,
    demand: Demand,
    share: Option<Share>,
    watcher: &mut T,
    cert: &[u8],
) -> Result<Judged, RunFault>
    ensures { Returns (λ j. (j.is_accepted, j.lines.items)) result (check_output (texts_given given.now) demand (option_map share_part share) cert.now) }
{
    let inputs = inputs_of(alloc, given)?;
    watcher.begin(&inputs);
    let judged = check_for(alloc, &inputs, demand, share_meant(share), cert, watcher);
    watcher.end();
    let judgement = judged?;
    let lines = judgement_lines(alloc, &inputs, demand, share, &judgement)?;
    Ok(Judged {
        is_accepted: is_accepted(&judgement),
        lines,
    })
}

// Returns the share that is meant: all rows, if none is given.
fn share_meant(share: Option<Share>) -> Share
    ensures { share_part result ≡ share_meant (option_map share_part share) }
{
    match share {
        Some(share) => share,
        None => Share::whole(),
    }
}

fn is_accepted(judgement: &Judgement) -> bool
    ensures { result ≡ accepts judgement.now }
{
    match judgement {
        Judgement::Accepted { .. } => true,
        Judgement::Rejected { .. } => false,
    }
}
