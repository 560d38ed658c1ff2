//! The command `tune`: from texts to the certificate of the best setting, and a report.
ghost use Rattle.std.specs.Prelude.{◌≡◌, ◌≢◌, ◌⊎◌, true, false, IfErr, IsErr, IsTrue, OnOk};
ghost use Rattle.tune_runs.specs.Runs.{writer};
ghost use Rattle.tune_runs.specs.Given.{rules_given, texts_given};
ghost use Rattle.tune_runs.specs.TuneRun.{WritesTuningFor};
ghost use Rattle.tune_problem.specs.Ranking.{IsAim};
ghost use Rattle.tune_search.specs.Method.{HasCapacity};
ghost use Rattle.command_runs.specs.CertFile.{names_twice};
ghost use Rattle.command_runs.specs.Commands.{WritesReport, IsEnded};
ghost use Rattle.command_words.specs.CommandLine.{aim_meant, method_meant};

use crate::ending::Ending;
use crate::files::cert_ending::{end_unopened, finish_files, inputs_beside};
use crate::files::cert_file::open_cert;
use crate::host::Host;
use crate::telling::witness::Witness;
use command_words::{MethodWords, TuneWords, aim_meant, method_meant};
use rc_instr::Outlet;
use std::io::Write;
use std::rt::Files;
use tune_cert::Demand;
use tune_problem::Aim;
use tune_runs::{Method, TuneTexts, tune_for_run};

// Runs the command on files. Checks the rules, reads the files, and opens CERT before their texts
// are judged; if CERT is another word's file, nothing is written. A regular file gets its new text,
// whole and on the disk, before the report begins.
pub(crate) fn tune<F: Files, T: Witness, W: Write, V: Write>(
    host: &mut Host<'_, F, T, V>,
    words: &TuneWords<'_>,
    method: MethodWords,
    demand: Demand,
    out: &mut Outlet<W>,
) -> Result<(), Ending>
    requires out { out.old.failed ≡ false }
    ensures ended { let rules = rules_given words.now.rules in
        IsEnded (WritesReport (aim_meant demand) (method_meant method) rules words.now.part (writer out.old out.new)) out.old out.new result }
    ensures named { IsTrue (names_twice words.now) → IsErr result × (out.new ≡ out.old) }
{
    let rules = host.rules(words.rules)?;
    let files = host.read_tuning(words)?;
    let file = match open_cert(host.rt, host.alloc, words) {
        Ok(file) => file,
        Err(unopened) => return Err(end_unopened(host, words.cert, &unopened)),
    };
    let beside = inputs_beside(host, words, &file)?;
    let mut cert = Outlet::new(file);
    let texts = files.texts(&rules, words.part);
    let method = method_meant(method);
    let aim = aim_meant(demand);
    let ended = tune_into(host, words, &texts, method, aim, out, &mut cert);
    finish_files(host, words, &texts, method, cert, beside);
    ended
}

// Runs the tuning of texts that were read. The certificate goes to any writer; a tuning that is
// refused gives it nothing.
fn tune_into<F: Files, T: Witness, W: Write, V: Write, X: Write>(
    host: &mut Host<'_, F, T, V>,
    words: &TuneWords<'_>,
    texts: &TuneTexts<'_>,
    method: Method,
    aim: Aim,
    out: &mut Outlet<W>,
    cert: &mut Outlet<X>,
) -> Result<(), Ending>
    requires aim { IsAim aim }
    requires capacity { HasCapacity method }
    requires out { out.old.failed ≡ false }
    requires cert { cert.old.failed ≡ false }
    ensures ended { let t = texts_given texts.now in
        IsEnded (WritesTuningFor t aim method (writer out.old out.new) (writer cert.old cert.new)) out.old out.new result }
    ensures unwritten { IfErr result (λ e. e ≢ Ending.Failed → cert.new ≡ cert.old) }
    ensures flushed { OnOk result (cert.new.flushed ≡ true) }
    ensures before { (out.new ≡ out.old) ⊎ (cert.new.flushed ≡ true) }
{
    host.witness.before_run(host.alloc, words, texts);
    match tune_for_run(host.alloc, texts, aim, method, host.witness, out, cert) {
        Ok(()) => Ok(()),
        Err(fault) => Err(host.refuse_tuning(words, texts, fault)),
    }
}
