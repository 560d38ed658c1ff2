//! Which inputs of a rejected certificate differ from those of its tuning, as CERT.inputs says.

use crate::files::digest::Digested;
use crate::files::inputs_file::{digest_word, is_file, name_beside, part_word, rules_word};
use crate::files::reading::read_file;
use command_words::TuneWords;
use std::alloc::{AllocError, Global};
use std::rt::Files;
use std::str;
use tune_runs::TuneTexts;

// The line for the case that no input differs; "these" are those of the line before it. CERT.inputs
// does not have the `--keep` and the `--floor` of the tuning, and a certificate without a best
// setting is rejected without `--floor`.
const ALL_THE_SAME: &str =
    "all of these are the tuning's, so its --keep or --floor was another, or the certificate \
        itself is wrong";

// Returns a line for each input that differs from the tuning's. If none differs, or that is not
// known, one line says so.
pub(crate) fn differences<F: Files>(
    rt: &F,
    alloc: Global,
    words: &TuneWords<'_>,
    texts: &TuneTexts<'_>,
    cert: &[u8],
) -> Result<Vec<String>, AllocError> {
    let name = name_beside(alloc, words.cert)?;
    let mut comparison = Comparison {
        alloc,
        words,
        texts,
        lines: Vec::new(alloc),
        compared: 0,
    };
    // A FIFO could keep a check waiting for ever.
    let text = if is_file(rt, name.as_str()) {
        read_file(rt, alloc, name.as_str()).ok()
    } else {
        None
    };
    match text {
        Some(text) => comparison.compare(name.as_str(), text.as_slice(), cert)?,
        None => comparison.add_unknown(name.as_str(), "cannot be read")?,
    }
    Ok(comparison.lines)
}

// Returns whether a byte may be in the rules or a part.
fn is_of_numbers(byte: &u8) -> bool {
    byte.is_ascii_digit() || *byte == b' ' || *byte == b'/'
}

// The inputs of a check beside those of the tuning.
#[derive(Drop)]
struct Comparison<'a> {
    alloc: Global,
    words: &'a TuneWords<'a>,
    texts: &'a TuneTexts<'a>,
    lines: Vec<String>,
    // How many opponents of the tuning were compared so far.
    compared: usize,
}

impl Comparison<'_> {
    // Compares with what the file says, if it is of this certificate.
    fn compare(&mut self, name: &str, text: &[u8], cert: &[u8]) -> Result<(), AllocError> {
        let Ok(text) = str::from_utf8(text) else {
            return self.add_unknown(name, "is not UTF-8");
        };
        if !text.starts_with("cwtune inputs 1\n") {
            return self.add_unknown(name, "is of another form");
        }
        let digest = digest_word(self.alloc, &Digested::of(cert))?;
        let wanted = format!(in self.alloc; "cert {}", digest.as_str())?;
        if !text.lines().any(|line| line == wanted.as_str()) {
            return self.add_unknown(name, "is of another certificate");
        }
        for line in text.lines() {
            if let Some((word, said)) = line.split_once(' ') {
                self.compare_line(word, said)?;
            }
        }
        self.end()
    }

    fn add(&mut self, line: String) -> Result<(), AllocError> {
        self.lines.push(line)?;
        Ok(())
    }

    fn add_unknown(&mut self, name: &str, why: &str) -> Result<(), AllocError> {
        let line = format!(in self.alloc;
            "{name} {why}, so it is not known whether one of these differs"
        )?;
        self.add(line)
    }

    fn compare_line(&mut self, word: &str, said: &str) -> Result<(), AllocError> {
        match word {
            "rules" => {
                let rules = rules_word(self.alloc, self.words)?;
                self.compare_word("rules", said, rules.as_str())
            }
            "part" => {
                let part = part_word(self.alloc, self.words)?;
                self.compare_word("part", said, part.as_str())
            }
            "template" => self.compare_text(said, self.words.template, self.texts.template, word),
            "schedule" => self.compare_text(said, self.words.schedule, self.texts.schedule, word),
            "opponent" => self.compare_opponent(said),
            _ => Ok(()),
        }
    }

    fn compare_word(&mut self, what: &str, said: &str, now: &str) -> Result<(), AllocError> {
        if said == now {
            return Ok(());
        }
        // The file may be a stranger's, and its text may steer a terminal.
        let shown = if said.as_bytes().iter().all(is_of_numbers) {
            said
        } else {
            "of another form"
        };
        let line = format!(in self.alloc; "{what} {now}, and the tuning had {what} {shown}")?;
        self.add(line)
    }

    // Compares a text with what CERT.inputs says of the tuning's: size and digest, then a name.
    fn compare_text(
        &mut self,
        said: &str,
        name: &str,
        text: &[u8],
        what: &str,
    ) -> Result<(), AllocError> {
        let digest = digest_word(self.alloc, &Digested::of(text))?;
        if said.starts_with(digest.as_str()) {
            return Ok(());
        }
        let line = format!(in self.alloc; "{name} is not the tuning's {what}")?;
        self.add(line)
    }

    // Compares the next opponent.
    fn compare_opponent(&mut self, said: &str) -> Result<(), AllocError> {
        let index = self.compared;
        self.compared = index.saturating_add(1);
        match (
            self.words.opponents.get(index),
            self.texts.opponents.get(index),
        ) {
            (Some(name), Some(text)) => {
                let what = format!(in self.alloc; "opponent {index}")?;
                self.compare_text(said, *name, text.as_slice(), what.as_str())
            }
            _ => Ok(()),
        }
    }

    // Compares how many opponents there are. If nothing has differed, says that.
    fn end(&mut self) -> Result<(), AllocError> {
        let count = self.texts.opponents.len();
        let tuned = self.compared;
        if tuned != count {
            let line = format!(in self.alloc;
                "the tuning had {tuned} opponents, and this check has {count}"
            )?;
            self.add(line)?;
        }
        if self.lines.is_empty() {
            let line = String::from_str(self.alloc, ALL_THE_SAME)?;
            self.add(line)?;
        }
        Ok(())
    }
}
