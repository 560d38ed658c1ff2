//! A tuning: from texts to the certificate of the best setting, and a report.
ghost use Rattle.std.specs.Prelude.{◌≡◌, ◌≢◌, ◌↔◌, ◌≤◌, ◌<◌, ◌^◌, ◌⊎◌, length, true, false, IfOk, IfErr, OnOk, IsErrOf, IsTrue};
ghost use Rattle.std.specs.Io.KnownBytes.{Appends};
ghost use Rattle.tune_cert.specs.CertText.{statement_text, statement_with};
ghost use Rattle.tune_problem.specs.Problem.{problem_of};
ghost use Rattle.tune_problem.specs.Ranking.{IsAim, first_of};
ghost use Rattle.tune_cert.specs.Spelling.{IsVersion};
ghost use Rattle.tune_search.specs.Limits.{MOST_CAPACITY};
ghost use Rattle.tune_search.specs.Method.{HasCapacity};
ghost use Rattle.tune_search.specs.Found.{NoneAssembles};
ghost use Rattle.tune_search.specs.Findings.{IsSearchFor};
ghost use Rattle.tune_runs.specs.TuneRun.{answer_of, IsTuneRun, WritesTuning, WritesTuningFor};
ghost use Rattle.tune_runs.specs.Given.{all_given, texts_given};

use crate::fault::RunFault;
use crate::given::TuneTexts;
use crate::inputs::inputs_of;
use crate::report::report_of;
use rc_instr::{Outlet, Rules};
use std::alloc::Global;
use std::io::Write;
use tune_cert::{CertFault, Silent, Watcher, write_answer};
use tune_problem::{Aim, Answer, Best, Inputs, Part};
use tune_search::{Findings, Method, search_for};

/// Finds the optimum of a template, and writes its certificate, then the report.
///
/// The optimum is the first setting with the greatest total against the opponents in the fights of
/// the schedule. The template is a Redcode text with `;@tune` lines, each opponent a Redcode text,
/// the schedule a table of fights. The search remembers up to `capacity` settings, 1 to 65536, so
/// that equal warriors share their fights. The certificate and the report are made before either is
/// written, and the certificate is written whole and its writer flushed before the report begins.
/// Neither outlet may have failed.
///
/// # Errors
///
/// The first that applies: `TooManyOpponents` for more than 64, `Template` with the fault of its
/// text, `Opponent` with the index of the first that does not assemble and its fault, `Schedule`
/// with the fault of its text, `NoCandidate` if no setting assembles. Nothing is written then.
/// `Write` if a writer failed: an unknown part of its text may be out, and if it was the
/// certificate's writer, the report's gets nothing. `OutOfMemory` if an allocation failed: nothing
/// is written.
pub fn tune_run<W: Write, V: Write>(
    alloc: Global,
    template: &[u8],
    opponents: &[Vec<u8>],
    schedule: &[u8],
    rules: &Rules,
    capacity: u32,
    report: &mut Outlet<W>,
    cert: &mut Outlet<V>,
) -> Result<(), RunFault>
    requires capacity { (1 ≤ capacity) × (capacity ≤ MOST_CAPACITY) }
    requires outlets { (report.old.failed ≡ false) × (cert.old.failed ≡ false) }

    // Both texts are of one finding of a search for the best setting alone: a valid certificate was
    // written, and the report of its best setting, the optimum. Only texts without a meaning or a
    // candidate are refused, and then nothing was written.
    ensures run { let t = all_given template.now opponents.now schedule.now rules.now in
        IsTuneRun t (WritesTuning t (Method.Dropping capacity)) result report.old report.new cert.old cert.new }

    // Every template has a part 1 of 1.
    ensures whole { IfErr result (λ e. e ≢ RunFault.Part) }
{
    tune_for_run(
        alloc,
        &TuneTexts {
            template,
            opponents,
            schedule,
            rules,
            part: Part::whole(),
        },
        Aim::BEST,
        Method::Dropping { capacity },
        &mut Silent,
        report,
        cert,
    )
}

/// Does for one part of a template's settings what `tune_run` does for all of them, with an aim and
/// by a method: ranks the settings that total `floor` or more, and keeps the first `keep` of them,
/// 1 to 1000. Tells `watcher` how far the search is.
///
/// The certificate and the report count settings from 0 within the part. If `keep` is above 1, the
/// report has a line for each kept setting after its six lines: `rank I setting W total T
/// NAME=value ..`. If no setting totals `floor` F or more, the certificate has the record
/// `none,-,F` in place of the best setting, and the report the lines `best -`, `constants -` and
/// `total below F of M`, where M is the greatest total possible.
///
/// By either method the settings and their totals are the same. The capacity, if `method` has one,
/// is 1 to 65536. Neither outlet may have failed. `tune_run` is this run for part 1 of 1 with
/// `Aim::BEST`.
///
/// # Errors
///
/// Those of `tune_run`; and `Part`, after `Schedule`, if there is no such part: nothing is written
/// then. That no setting reaches the floor is not a fault.
pub fn tune_for_run<T: Watcher, W: Write, V: Write>(
    alloc: Global,
    given: &TuneTexts<'_>,
    aim: Aim,
    method: Method,
    watcher: &mut T,
    report: &mut Outlet<W>,
    cert: &mut Outlet<V>,
) -> Result<(), RunFault>
    requires aim { IsAim aim }
    requires capacity { HasCapacity method }
    requires outlets { (report.old.failed ≡ false) × (cert.old.failed ≡ false) }

    // Both texts are of one `Findings` for which `IsSearchFor` holds: a valid certificate was
    // written, of the best setting or that none reaches the floor, and the report of the ranking.
    ensures run { let t = texts_given given.now in
        IsTuneRun t (WritesTuningFor t aim method) result report.old report.new cert.old cert.new }
{
    let inputs = inputs_of(alloc, given)?;
    let found = find(alloc, &inputs, aim, method, watcher)?;
    let text = report_of(alloc, &inputs, aim, &found)?;
    write_both(alloc, aim.floor, &found, text.as_slice(), report, cert)
}

// Searches. `watcher` gets the inputs before the search, its progress, and its end.
fn find<T: Watcher>(
    alloc: Global,
    inputs: &Inputs,
    aim: Aim,
    method: Method,
    watcher: &mut T,
) -> Result<Findings, RunFault>
    requires aim { IsAim aim }
    requires capacity { HasCapacity method }
    ensures found { IfOk result (λ f. IsSearchFor (problem_of inputs.now) aim method f × (0 < f.candidates)) }
    ensures none { IfErr result (λ e. (e ≡ RunFault.OutOfMemory) ⊎ ((e ≡ RunFault.NoCandidate) × NoneAssembles (problem_of inputs.now))) }
{
    watcher.begin(inputs);
    let searched = search_for(alloc, inputs, aim, method, watcher);
    watcher.end();
    Ok(searched?)
}

// Returns what a certificate says: which setting is the best, or that none reaches the floor.
fn answer_of(floor: u32, best: Option<Best>) -> Answer
    ensures { result ≡ answer_of floor best }
{
    match best {
        Some(best) => Answer::Best(best),
        None => Answer::NoneFrom(floor),
    }
}

// Writes the certificate and flushes its writer, then writes the report.
fn write_both<W: Write, V: Write>(
    alloc: Global,
    floor: u32,
    found: &Findings,
    text: &[u8],
    report: &mut Outlet<W>,
    cert: &mut Outlet<V>,
) -> Result<(), RunFault>
    requires version { IsVersion found.now.version }
    requires few { length found.now.rows < 2 ^ 32 }
    requires outlets { (report.old.failed ≡ false) × (cert.old.failed ≡ false) }
    ensures cert { OnOk result (Appends cert.old.bytes cert.new.bytes
        (statement_text (statement_with found.now.version (answer_of floor (first_of found.now.ranking)) found.now.rows))) }
    ensures report { OnOk result (Appends report.old.bytes report.new.bytes text.now) }
    ensures refused { IfErr result (λ e. e ≢ RunFault.Write → (e ≡ RunFault.OutOfMemory) × (report.new ≡ report.old) × (cert.new ≡ cert.old)) }
    ensures write { IsErrOf result RunFault.Write ↔ (IsTrue report.new.failed ⊎ IsTrue cert.new.failed) }
    ensures order { IsTrue cert.new.failed → report.new ≡ report.old }
    ensures before { (report.new ≡ report.old) ⊎ (cert.new.flushed ≡ true) }
    ensures flushed { OnOk result (cert.new.flushed ≡ true) }
{
    let answer = answer_of(floor, found.ranking.first());
    match write_answer(alloc, found.version, answer, &found.rows, cert) {
        Ok(()) => {}
        Err(CertFault::Write) => return Err(RunFault::Write),
        Err(CertFault::OutOfMemory) => return Err(RunFault::OutOfMemory),
    }
    cert.finish()?;
    report.write_all(text)?;
    Ok(())
}
