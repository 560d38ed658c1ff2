//! The command `check`: from texts and a certificate to the verdict, and the ranking if it is
//! asked for.
ghost use Rattle.std.specs.Prelude.{◌≡◌, false};
ghost use Rattle.std.specs.Option.{option_map};
ghost use Rattle.tune_cert.specs.Shares.{share_part};
ghost use Rattle.tune_runs.specs.CheckRun.{WritesCheck};
ghost use Rattle.tune_runs.specs.Given.{rules_given, texts_given};
ghost use Rattle.command_runs.specs.Commands.{WritesCheckLine, IsCheckEnded};

use crate::ending::Ending;
use crate::files::cert_ending::explain_rejection;
use crate::files::reading::TuneFiles;
use crate::host::Host;
use crate::telling::witness::Witness;
use command_words::TuneWords;
use rc_instr::Outlet;
use std::io::Write;
use std::rt::Files;
use tune_cert::{Demand, Share};
use tune_runs::{TuneTexts, check_for_run};

// Runs the command on files. Checks the rules, then reads the files in the order of the words:
// template, schedule, certificate, opponents.
pub(crate) fn check<F: Files, T: Witness, W: Write, V: Write>(
    host: &mut Host<'_, F, T, V>,
    words: &TuneWords<'_>,
    share: Option<Share>,
    demand: Demand,
    out: &mut Outlet<W>,
) -> Result<(), Ending>
    requires out { out.old.failed ≡ false }
    ensures { IsCheckEnded (WritesCheckLine (rules_given words.now.rules) words.now.part demand share) out.old out.new result }
{
    let rules = host.rules(words.rules)?;
    let template = host.read(words.template)?;
    let schedule = host.read(words.schedule)?;
    let cert = host.read(words.cert)?;
    let opponents = host.read_all(words.opponents.as_slice())?;
    let files = TuneFiles {
        template,
        schedule,
        opponents,
    };
    let texts = files.texts(&rules, words.part);
    check_texts(host, words, &texts, share, demand, cert.as_slice(), out)
}

// Checks the certificate of a tuning of texts that were read.
fn check_texts<F: Files, T: Witness, W: Write, V: Write>(
    host: &mut Host<'_, F, T, V>,
    words: &TuneWords<'_>,
    texts: &TuneTexts<'_>,
    share: Option<Share>,
    demand: Demand,
    cert: &[u8],
    out: &mut Outlet<W>,
) -> Result<(), Ending>
    requires out { out.old.failed ≡ false }
    ensures { IsCheckEnded (WritesCheck (texts_given texts.now) demand (option_map share_part share) cert.now) out.old out.new result }
{
    host.witness.before_run(host.alloc, words, texts);
    match check_for_run(host.alloc, texts, demand, share, host.witness, cert, out) {
        Ok(true) => Ok(()),
        Ok(false) => {
            explain_rejection(host, words, texts, cert);
            Err(Ending::Refused)
        }
        Err(fault) => Err(host.refuse_tuning(words, texts, fault)),
    }
}
