//! The command `asm`: from a Redcode text, or a setting of a template, to a load file.
ghost use Rattle.std.specs.Prelude.{◌≡◌, ℕ, List, false};
ghost use Rattle.tune_runs.specs.Given.{rules_given};
ghost use Rattle.tune_runs.specs.Runs.{IsRun, writer};
ghost use Rattle.command_runs.specs.Commands.{load_file_output, WritesLoadFile, EndsUnderstood};

use crate::ending::Ending;
use crate::host::Host;
use crate::telling::refused::Refused;
use crate::telling::witness::Witness;
use command_words::AsmWords;
use rc_instr::{Outlet, Rules};
use std::alloc::Global;
use std::io::Write;
use std::rt::Files;
use tune_runs::{RunFault, WhichSetting, asm_run, setting_run};

// Runs the command on a file. Checks the rules before it reads the file.
pub(crate) fn asm<F: Files, T: Witness, W: Write, V: Write>(
    host: &mut Host<'_, F, T, V>,
    words: &AsmWords<'_>,
    out: &mut Outlet<W>,
) -> Result<(), Ending>
    requires { out.old.failed ≡ false }
    ensures { let rules = rules_given words.now.rules in
        EndsUnderstood ((source : List ℕ) × WritesLoadFile source words.now.setting rules (writer out.old out.new)) out.old out.new result }
{
    let rules = host.rules(words.rules)?;
    let source = host.read(words.file)?;
    let text = source.as_slice();
    if words.setting.is_some() {
        host.witness.before_template(host.alloc, words.file, text);
    }
    match assemble(host.alloc, text, words.setting, &rules, out) {
        Ok(()) => Ok(()),
        Err(fault) => {
            let refused = Refused::Warrior {
                rules: &rules,
                file: words.file,
                text,
            };
            Err(host.refuse(&refused, fault))
        }
    }
}

// Writes the load file of a text, or of a setting of it.
fn assemble<W: Write>(
    alloc: Global,
    source: &[u8],
    setting: Option<WhichSetting>,
    rules: &Rules,
    out: &mut Outlet<W>,
) -> Result<(), RunFault>
    requires { out.old.failed ≡ false }
    ensures { IsRun (load_file_output source.now setting rules.now) result out.old out.new }
{
    match setting {
        Some(which) => setting_run(alloc, source, which, rules, out),
        None => asm_run(alloc, source, rules, out),
    }
}
