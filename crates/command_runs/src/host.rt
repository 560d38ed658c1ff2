//! What the commands work with: how they read rules and files, and the lines on standard error with
//! which they end.
ghost use Rattle.std.specs.Prelude.{◌≡◌, ◌≢◌, ◌↔◌, IfOk, IfErr};
ghost use Rattle.tune_runs.specs.Given.{rules_given};
ghost use Rattle.command_runs.specs.Commands.{IsEndingOf};

use crate::ending::Ending;
use crate::files::reading::{TuneFiles, read_file};
use crate::telling::fault_line::{tell_file_fault, tell_run_fault, tell_text_fault};
use crate::telling::refused::Refused;
use crate::telling::tell;
use crate::telling::witness::Witness;
use command_words::{DuelWords, TuneWords};
use rc_instr::{Outlet, Rules};
use std::alloc::Global;
use std::io;
use std::io::Write;
use std::rt::Files;
use tune_runs::{DuelTexts, RawRules, RunFault, TuneTexts, rules_of};

/// What a command uses: files, memory, the witness, and standard error for the lines of faults.
#[derive(Drop)]
pub struct Host<'a, F: Files, T: Witness, V: Write> {
    pub rt: &'a F,
    pub alloc: Global,
    pub witness: &'a mut T,
    pub err: &'a mut Outlet<V>,
}

impl<F: Files, T: Witness, V: Write> Host<'_, F, T, V> {
    // Returns the rules, or refuses the first that is out of its limits.
    pub(crate) fn rules(&mut self, raw: RawRules) -> Result<Rules, Ending>
        ensures rules { IfOk result (λ r. r ≡ rules_given raw) }
        ensures ending { IfErr result (λ e. e ≢ Ending.Misused) }
    {
        match rules_of(raw) {
            Ok(rules) => Ok(rules),
            Err(error) => Err(self.refuse(&Refused::Rules(raw), RunFault::Rules(error))),
        }
    }

    pub(crate) fn read(&mut self, name: &str) -> Result<Vec<u8>, Ending>
        ensures { IfErr result (λ e. e ≡ Ending.Failed) }
    {
        match read_file(self.rt, self.alloc, name) {
            Ok(text) => Ok(text),
            Err(error) => Err(self.fail("read", name, &error)),
        }
    }

    // Reads the files in order, and names the first that cannot be read.
    pub(crate) fn read_all(&mut self, names: &[&str]) -> Result<Vec<Vec<u8>>, Ending>
        ensures { IfErr result (λ e. e ≡ Ending.Failed) }
    {
        let mut texts = Vec::new(self.alloc);
        for name in names {
            let text = self.read(*name)?;
            if texts.push(text).is_err() {
                return Err(self.end_without_memory());
            }
        }
        Ok(texts)
    }

    // Reads the files of a tuning in the order of the words: template, schedule, opponents.
    pub(crate) fn read_tuning(&mut self, words: &TuneWords<'_>) -> Result<TuneFiles, Ending>
        ensures { IfErr result (λ e. e ≡ Ending.Failed) }
    {
        Ok(TuneFiles {
            template: self.read(words.template)?,
            schedule: self.read(words.schedule)?,
            opponents: self.read_all(words.opponents.as_slice())?,
        })
    }

    // Writes the line of the fault of a run, and returns the ending.
    pub(crate) fn end(&mut self, fault: RunFault) -> Ending
        ensures { IsEndingOf fault result }
    {
        tell_run_fault(self.err, fault);
        match fault {
            RunFault::Write | RunFault::OutOfMemory => Ending::Failed,
            _ => Ending::Refused,
        }
    }

    // Writes the line of the fault of a run, lets the witness explain it, and returns the ending.
    pub(crate) fn refuse(&mut self, refused: &Refused<'_>, fault: RunFault) -> Ending
        ensures { IsEndingOf fault result }
    {
        let ending = self.end(fault);
        self.witness.after_fault(self.alloc, refused, fault);
        ending
    }

    // Writes the line of the fault of a tuning or a check. `Part` is a usage error.
    pub(crate) fn refuse_tuning(
        &mut self,
        words: &TuneWords<'_>,
        texts: &TuneTexts<'_>,
        fault: RunFault,
    ) -> Ending
        ensures part { (result ≡ Ending.Misused) ↔ (fault ≡ RunFault.Part) }
        ensures other { result ≢ Ending.Misused → IsEndingOf fault result }
    {
        if let RunFault::Part = fault {
            tell(
                self.err,
                &["error: --part I/K: the template has fewer than K settings\n"],
            );
            return Ending::Misused;
        }
        self.refuse(&Refused::Tuning { words, texts }, fault)
    }

    // Writes the line of a duel's fault. If a text does not assemble, the line names its file.
    pub(crate) fn refuse_duel(
        &mut self,
        words: &DuelWords<'_>,
        texts: &DuelTexts<'_>,
        fault: RunFault,
    ) -> Ending
        ensures { IsEndingOf fault result }
    {
        let refused = Refused::Duel { words, texts };
        match fault {
            RunFault::Asm(fault) => tell_text_fault(self.err, "Candidate", words.candidate, fault),
            RunFault::Opponent { index: _, fault } => {
                tell_text_fault(self.err, "Opponent", words.opponent, fault);
            }
            _ => return self.refuse(&refused, fault),
        }
        self.witness.after_fault(self.alloc, &refused, fault);
        Ending::Refused
    }

    // Says that memory ran out.
    pub(crate) fn end_without_memory(&mut self) -> Ending
        ensures { result ≡ Ending.Failed }
    {
        tell_run_fault(self.err, RunFault::OutOfMemory);
        Ending::Failed
    }

    // Writes the line of a file that could not be read or created, and lets the witness say why; or
    // the line that memory ran out. `action` is the verb.
    pub(crate) fn fail(&mut self, action: &str, name: &str, error: &io::Error) -> Ending
        ensures { result ≡ Ending.Failed }
    {
        if error.kind() == io::ErrorKind::OutOfMemory {
            return self.end_without_memory();
        }
        tell_file_fault(self.err, action, name);
        self.witness.after_file_error(self.alloc, name, error);
        Ending::Failed
    }
}
