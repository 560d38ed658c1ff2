//! Progress and explanations on standard error.
ghost use Rattle.std.specs.Prelude.{◌≡◌, ◌<◌, ◌≤◌, ◌/◌, codes};

use crate::telling::notes::{tell_idle, tell_lost_ranges, tell_template_notes, tell_unused};
use crate::telling::refusal::explain;
use crate::telling::{tell_error, tell_number};
use command_runs::{Finding, Refused, Witness, tell};
use command_words::TuneWords;
use rc_instr::Outlet;
use std::alloc::{AllocError, Global};
use std::io;
use std::io::Write;
use std::rt::Clock;
use std::time::{Duration, Instant};
use tune_cert::{Standing, Watcher};
use tune_runs::{Inputs, RunFault, TuneTexts};

// The clock is read after each setting, and after every 16th fight of the run: a reading takes as
// long as a few turns, and sixteen of the longest fights take less than a second.
const FIGHTS_PER_READING: u64 = 16;

// Why a certificate may be rejected though it is right.
const OTHER_INPUTS: &str =
    "  a certificate holds only for its own template, schedule, opponents in order, rules and part\n";

// How progress is shown.
#[derive(Clone, Copy, PartialEq, Eq)]
pub(crate) enum Style {
    // Not at all.
    Hidden,
    // As one line of a terminal, rewritten in place twice a second at most.
    Line,
    // As lines of a log, one a minute at most.
    Log,
}

impl Style {
    // Returns the least number of milliseconds from one line to the next.
    fn pause(self) -> u64
        ensures log { self ≡ Style.Log → result ≡ 60000 }
        ensures line { self ≡ Style.Line → result ≡ 500 }
    {
        match self {
            Style::Log => 60_000,
            _ => 500,
        }
    }
}

// The template and the opponents, as notes name them.
#[derive(Drop)]
struct FileNames {
    template: String,
    opponents: Vec<String>,
}

// Shows progress by the clock, and writes explanations if it `explains`.
#[derive(Drop)]
pub(crate) struct Progress<C: Clock, V: Write> {
    clock: C,
    err: Outlet<V>,
    style: Style,
    explains: bool,
    // Whether a share is checked, whose count of settings comes with its first standing.
    has_share: bool,
    // Only if it explains.
    files: Option<FileNames>,
    // The setting whose fault is explained if none assembles, by its index in the template.
    setting: u32,
    began: Option<Instant>,
    shown: Option<Instant>,
    // The last standing, with `fights` as last heard.
    standing: Standing,
    finding: Finding,
}

impl<C: Clock, V: Write> Progress<C, V> {
    // Takes an outlet of its own, so that lines of faults are written even if it has failed.
    pub(crate) fn new(
        alloc: Global,
        clock: C,
        err: Outlet<V>,
        style: Style,
        explains: bool,
        has_share: bool,
    ) -> Progress<C, V> {
        Progress {
            clock,
            err,
            style,
            explains,
            has_share,
            files: None,
            setting: 0,
            began: None,
            shown: None,
            standing: Standing {
                settings: 0,
                count: 0,
                fights: 0,
                best: None,
            },
            finding: Finding::new(alloc),
        }
    }

    // Shows how far the run is, if it is time and known.
    fn show(&mut self) {
        if self.style == Style::Hidden || self.err.failed() || self.standing.count == 0 {
            return;
        }
        let Ok(now) = Instant::now(&self.clock) else {
            return;
        };
        if let Some(shown) = self.shown {
            if millis_of(now.duration_since(shown)) < self.style.pause() {
                return;
            }
        }
        self.shown = Some(now);
        let millis = millis_between(self.began, now);
        match self.style {
            Style::Log => {
                self.tell_standing(millis);
                tell(&mut self.err, &["\n"]);
            }
            _ => self.draw_line(millis),
        }
    }

    // Writes the line over the one before, and clears the rest of that. A line that is wider than
    // the terminal is cut, since lines are not wrapped meanwhile.
    fn draw_line(&mut self, millis: u64) {
        tell(&mut self.err, &["\r\x1b[?7l"]);
        self.tell_standing(millis);
        tell(&mut self.err, &["\x1b[K\x1b[?7h"]);
    }

    // Writes percent, settings, fights, fights a second, the best setting, and the time left.
    fn tell_standing(&mut self, millis: u64) {
        let done = u64::from(self.standing.settings);
        let count = u64::from(self.standing.count);
        tell_done(&mut self.err, done, count);
        tell_fights(&mut self.err, self.standing.fights, millis);
        self.finding.tell_progress(&mut self.err);
        tell_left(&mut self.err, done, count, millis);
    }
}

impl<C: Clock, V: Write> Watcher for Progress<C, V> {
    // Says which constants and opponents have no effect, and shows that the run has begun.
    fn begin(&mut self, inputs: &Inputs) {
        if let Some(files) = &self.files {
            tell_unused(&mut self.err, files.template.as_str(), inputs.template());
            tell_idle(
                &mut self.err,
                files.opponents.as_slice(),
                inputs.schedule().fights(),
            );
        }
        self.setting = inputs.index_in_template(inputs.start_number());
        self.finding.begin(inputs);
        self.began = Instant::now(&self.clock).ok();
        if !self.has_share {
            self.standing.count = inputs.count();
        }
        self.show();
    }

    fn see(&mut self, standing: Standing) {
        self.finding.see(&standing);
        self.standing = standing;
        self.show();
    }

    fn hear(&mut self, fights: u64) {
        self.standing.fights = fights;
        if fights % FIGHTS_PER_READING == 0 {
            self.show();
        }
    }

    // Clears the line of a terminal.
    fn end(&mut self) {
        if self.style == Style::Line && self.shown.is_some() {
            tell(&mut self.err, &["\r\x1b[K"]);
        }
        self.shown = None;
    }
}

impl<C: Clock, V: Write> Witness for Progress<C, V> {
    fn finding(&self) -> &Finding {
        &self.finding
    }

    fn explains(&self) -> bool {
        self.explains
    }

    // Says which lines of the template have no effect, and keeps the names of the files.
    fn before_run(&mut self, alloc: Global, words: &TuneWords<'_>, texts: &TuneTexts<'_>) {
        if self.explains {
            tell_lost_ranges(&mut self.err, words.template, texts.template);
            self.files = names_of(alloc, words).ok();
        }
    }

    fn before_template(&mut self, alloc: Global, file: &str, text: &[u8]) {
        if self.explains {
            tell_template_notes(&mut self.err, alloc, file, text);
        }
    }

    fn after_fault(&mut self, alloc: Global, refused: &Refused<'_>, fault: RunFault) {
        if self.explains {
            explain(&mut self.err, alloc, refused, fault, self.setting);
        }
    }

    fn after_rejection(&mut self, lines: &[String]) {
        if !self.explains {
            return;
        }
        tell(&mut self.err, &[OTHER_INPUTS]);
        for line in lines {
            tell(&mut self.err, &["  ", line.as_str(), "\n"]);
        }
    }

    fn after_file_error(&mut self, alloc: Global, name: &str, error: &io::Error) {
        if self.explains {
            tell_error(&mut self.err, alloc, name, error);
        }
    }

    fn after_lost_cert(&mut self, alloc: Global, name: &str, failure: Option<io::Error>) {
        if let Some(error) = failure {
            self.after_file_error(alloc, name, &error);
        }
    }
}

fn names_of(alloc: Global, words: &TuneWords<'_>) -> Result<FileNames, AllocError> {
    let mut opponents = Vec::new(alloc);
    for name in words.opponents.as_slice() {
        opponents.push(String::from_str(alloc, *name)?)?;
    }
    Ok(FileNames {
        template: String::from_str(alloc, words.template)?,
        opponents,
    })
}

fn millis_between(began: Option<Instant>, now: Instant) -> u64 {
    match began {
        Some(began) => millis_of(now.duration_since(began)),
        None => 0,
    }
}

fn millis_of(time: Duration) -> u64 {
    let millis = u64::from(time.subsec_millis());
    time.as_secs().saturating_mul(1000).saturating_add(millis)
}

fn tell_done<V: Write>(err: &mut Outlet<V>, done: u64, count: u64) {
    let percent = done.saturating_mul(100).checked_div(count);
    tell_number(err, "", percent.unwrap_or(0), "% ");
    tell_number(err, "", done, " of ");
    tell_number(err, "", count, " settings");
}

fn tell_fights<V: Write>(err: &mut Outlet<V>, fights: u64, millis: u64) {
    tell_number(err, ", ", fights, " fights");
    if fights > 0 {
        if let Some(rate) = fights.saturating_mul(1000).checked_div(millis) {
            tell_number(err, ", ", rate, " a second");
        }
    }
}

// Writes the time left, if the settings to come take as long as those that are done.
fn tell_left<V: Write>(err: &mut Outlet<V>, done: u64, count: u64, millis: u64) {
    let whole = millis.saturating_mul(count.saturating_sub(done));
    if let Some(left) = whole.checked_div(done) {
        let (number, unit) = in_units(left / 1000);
        tell_number(err, ", ", number, unit);
        tell(err, &[" left"]);
    }
}

// Returns a time in whole seconds, minutes or hours, and the unit.
fn in_units(seconds: u64) -> (u64, &'static str)
    ensures seconds { seconds < 120 → (result.0 ≡ seconds) × (result.1.now ≡ codes " s") }
    ensures minutes { 120 ≤ seconds → seconds < 7200 → (result.0 ≡ seconds / 60) × (result.1.now ≡ codes " min") }
    ensures hours { 7200 ≤ seconds → (result.0 ≡ seconds / 3600) × (result.1.now ≡ codes " h") }
{
    if seconds < 120 {
        (seconds, " s")
    } else if seconds < 7200 {
        (seconds / 60, " min")
    } else {
        (seconds / 3600, " h")
    }
}
