//! What the program tells of a run besides its result.

use crate::telling::finding::Finding;
use crate::telling::refused::Refused;
use command_words::TuneWords;
use std::alloc::Global;
use std::io;
use tune_cert::{Standing, Watcher};
use tune_runs::{Inputs, RunFault, TuneTexts};

/// A watcher that also hears what a run reads and why it fails, while the texts are still in
/// memory. No result depends on it.
pub trait Witness: Watcher {
    /// Returns what a search has found so far.
    fn finding(&self) -> &Finding;

    /// Returns whether the lines of `after_rejection` are shown.
    fn explains(&self) -> bool;

    /// Called before the texts of a tuning or a check are judged.
    fn before_run(&mut self, alloc: Global, words: &TuneWords<'_>, texts: &TuneTexts<'_>);

    /// Called before `settings` or `asm --setting` runs over a template.
    fn before_template(&mut self, alloc: Global, file: &str, text: &[u8]);

    /// Called after the line of a run's fault was written.
    fn after_fault(&mut self, alloc: Global, refused: &Refused<'_>, fault: RunFault);

    /// Called after a certificate was rejected, with what is known of its inputs.
    fn after_rejection(&mut self, lines: &[String]);

    /// Called after a file could not be read, created or written, with what the system said.
    fn after_file_error(&mut self, alloc: Global, name: &str, error: &io::Error);

    /// Called after the certificate could not be written, with what the system said, if it did.
    fn after_lost_cert(&mut self, alloc: Global, name: &str, failure: Option<io::Error>);
}

// A witness that says nothing, and keeps what a search has found.
#[derive(Drop)]
pub(crate) struct Quiet {
    finding: Finding,
}

impl Quiet {
    pub(crate) fn new(alloc: Global) -> Quiet {
        Quiet {
            finding: Finding::new(alloc),
        }
    }
}

impl Watcher for Quiet {
    fn begin(&mut self, inputs: &Inputs) {
        self.finding.begin(inputs);
    }

    fn see(&mut self, standing: Standing) {
        self.finding.see(&standing);
    }

    fn hear(&mut self, _fights: u64) {}

    fn end(&mut self) {}
}

impl Witness for Quiet {
    fn finding(&self) -> &Finding {
        &self.finding
    }

    fn explains(&self) -> bool {
        false
    }

    fn before_run(&mut self, _alloc: Global, _words: &TuneWords<'_>, _texts: &TuneTexts<'_>) {}

    fn before_template(&mut self, _alloc: Global, _file: &str, _text: &[u8]) {}

    fn after_fault(&mut self, _alloc: Global, _refused: &Refused<'_>, _fault: RunFault) {}

    fn after_rejection(&mut self, _lines: &[String]) {}

    fn after_file_error(&mut self, _alloc: Global, _name: &str, _error: &io::Error) {}

    fn after_lost_cert(&mut self, _alloc: Global, _name: &str, _failure: Option<io::Error>) {}
}
