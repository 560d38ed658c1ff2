//! The file CERT.inputs beside a certificate: program, rules, part and method of the tuning, the
//! folder that it ran in, and the size and the digest of each of its files. No result depends on
//! it.

use crate::files::digest::Digested;
use crate::files::guard::{Written, has_other_text};
use crate::files::replacing::replacement_at;
use command_words::{TuneWords, VERSION};
use std::alloc::{AllocError, Global};
use std::fs::Metadata;
use std::os::unix::fs::MetadataExt;
use std::rt::Files;
use std::{fs, io};
use tune_runs::{Method, TuneTexts};

// Where Linux has a link to the folder that the program runs in.
const HERE: &str = "/proc/self/cwd";

// Returns the name of CERT.inputs. `cert` is the name of the certificate.
pub(crate) fn name_beside(alloc: Global, cert: &str) -> Result<String, AllocError> {
    format!(in alloc; "{cert}.inputs")
}

// What the text of the file is made from.
#[derive(Clone, Copy)]
pub(crate) struct Tuning<'a> {
    pub(crate) words: &'a TuneWords<'a>,
    pub(crate) texts: &'a TuneTexts<'a>,
    pub(crate) method: Method,
}

// Writes CERT.inputs, but not over a text of another kind, such as CERT, to which a link of that
// name may lead now. If that fails, removes an older one, which is of another certificate.
pub(crate) fn write_inputs<R: Files + Copy>(
    rt: R,
    alloc: Global,
    tuning: &Tuning<'_>,
    cert: &Digested,
    name: &str,
) -> io::Result<()> {
    let written = replace_inputs(rt, alloc, tuning, cert, name);
    if written.is_err() && is_file(&rt, name) {
        if let Ok(false) = has_other_text(&rt, alloc, Written::Inputs, name) {
            let _ = fs::remove_file(&rt, name);
        }
    }
    written
}

fn replace_inputs<R: Files + Copy>(
    rt: R,
    alloc: Global,
    tuning: &Tuning<'_>,
    cert: &Digested,
    name: &str,
) -> io::Result<()> {
    let text = inputs_text(&rt, alloc, tuning, cert)?;
    let mode = mode_of(&rt, name)?;
    let mut replacement = replacement_at(rt, alloc, Written::Inputs, name, mode)?;
    replacement.write(text.as_slice())?;
    replacement.finish()
}

// Out of line, which moves the hot loop (docs/HOT_LOOP.md, "To move it").
#[inline(never)]
pub(crate) fn is_file<F: Files>(rt: &F, name: &str) -> bool {
    match fs::metadata(rt, name) {
        Ok(found) => found.is_file(),
        Err(_) => false,
    }
}

// Returns the permissions of a regular file, or `None` if none is found. Fails for any other.
fn mode_of<F: Files>(rt: &F, name: &str) -> io::Result<Option<u32>> {
    match fs::metadata(rt, name) {
        Ok(found) if found.is_file() => Ok(Some(found.mode())),
        Ok(_) => Err(io::Error::from(io::ErrorKind::AlreadyExists)),
        Err(_) => Ok(None),
    }
}

fn inputs_text<F: Files>(
    rt: &F,
    alloc: Global,
    tuning: &Tuning<'_>,
    cert: &Digested,
) -> io::Result<Vec<u8>> {
    let mut text = Vec::new(alloc);
    add_run(alloc, &mut text, tuning)?;
    add_digest(alloc, &mut text, "cert", cert, None)?;
    let folder = rt.read_link(alloc, HERE)?;
    add_line(&mut text, "folder", folder.as_str())?;
    add_files(alloc, &mut text, tuning)?;
    Ok(text)
}

// Adds the first line, and those of the program, the rules, the part and the method.
fn add_run(alloc: Global, text: &mut Vec<u8>, tuning: &Tuning<'_>) -> io::Result<()> {
    add_line(text, "cwtune inputs", "1")?;
    add_line(text, "program", VERSION)?;
    let rules = rules_word(alloc, tuning.words)?;
    add_line(text, "rules", rules.as_str())?;
    let part = part_word(alloc, tuning.words)?;
    add_line(text, "part", part.as_str())?;
    let method = method_word(alloc, tuning.method)?;
    add_line(text, "method", method.as_str())
}

// Adds the lines of the template, the schedule and the opponents.
fn add_files(alloc: Global, text: &mut Vec<u8>, tuning: &Tuning<'_>) -> io::Result<()> {
    let words = tuning.words;
    let template = Digested::of(tuning.texts.template);
    add_digest(alloc, text, "template", &template, Some(words.template))?;
    let schedule = Digested::of(tuning.texts.schedule);
    add_digest(alloc, text, "schedule", &schedule, Some(words.schedule))?;
    for (name, opponent) in words.opponents.iter().zip(tuning.texts.opponents) {
        let opponent = Digested::of(opponent.as_slice());
        add_digest(alloc, text, "opponent", &opponent, Some(*name))?;
    }
    Ok(())
}

// Returns the five rules, separated by blanks.
pub(crate) fn rules_word(alloc: Global, words: &TuneWords<'_>) -> Result<String, AllocError> {
    let rules = words.rules;
    format!(in alloc;
        "{} {} {} {} {}",
        rules.core, rules.cycles, rules.tasks, rules.length, rules.distance
    )
}

pub(crate) fn part_word(alloc: Global, words: &TuneWords<'_>) -> Result<String, AllocError> {
    format!(in alloc; "{}/{}", words.part.number, words.part.parts)
}

fn method_word(alloc: Global, method: Method) -> Result<String, AllocError> {
    match method {
        Method::PlayingAll => String::from_str(alloc, "all"),
        Method::Dropping { capacity } => format!(in alloc; "cache {capacity}"),
    }
}

// Returns the size and the digest of a text as the file has them.
pub(crate) fn digest_word(alloc: Global, digested: &Digested) -> Result<String, AllocError> {
    let size = digested.size;
    let digest = hex::encode(alloc, digested.digest)?;
    format!(in alloc; "{size} {digest}")
}

// Adds the line of a text: a word, size and digest, and the name of a file as it was typed.
fn add_digest(
    alloc: Global,
    text: &mut Vec<u8>,
    word: &str,
    digested: &Digested,
    name: Option<&str>,
) -> io::Result<()> {
    let mut line = digest_word(alloc, digested)?;
    if let Some(name) = name {
        line.push_str(" ")?;
        line.push_str(name)?;
    }
    add_line(text, word, line.as_str())
}

// Adds the line `WORD SAID`. Fails if `said` has a line feed, as a file's name may.
fn add_line(text: &mut Vec<u8>, word: &str, said: &str) -> io::Result<()> {
    if said.as_bytes().contains(&b'\n') {
        return Err(io::Error::from(io::ErrorKind::InvalidInput));
    }
    text.extend_from_slice(word.as_bytes())?;
    text.extend_from_slice(b" ")?;
    text.extend_from_slice(said.as_bytes())?;
    text.extend_from_slice(b"\n")?;
    Ok(())
}
