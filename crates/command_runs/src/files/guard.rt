//! Guards the files that a tuning writes, CERT and CERT.inputs: neither is overwritten if it is the
//! file of another word, or if it has a text of another kind.
ghost use Rattle.std.specs.Prelude.{◌↔◌, IfOk, IfSome, IsTrue};
ghost use Rattle.command_runs.specs.CertFile.{BeginsAsCert};

use crate::files::beginning::begins_with;
use crate::files::same_file::is_file_at;
use command_words::TuneWords;
use std::alloc::Global;
use std::fs::Metadata;
use std::io::Read;
use std::rt::Files;
use std::{fs, io};

// The bytes with which a certificate and a CERT.inputs begin.
const CERT_BEGINNING: &[u8] = b"cwcert,";

const INPUTS_BEGINNING: &[u8] = b"cwtune inputs";

// The files to which the report and the lines of faults go.
const STANDARD_OUTPUT: &str = "/proc/self/fd/1";

const STANDARD_ERROR: &str = "/proc/self/fd/2";

// A file that a tuning writes.
#[derive(Clone, Copy, PartialEq, Eq)]
pub(crate) enum Written {
    Cert,
    Inputs,
}

// Why a file is not written.
#[derive(Drop)]
pub(crate) enum Barred<'a> {
    // It is the file of another word, or of a standard stream.
    Named,
    // It has a text that does not begin as its own kind does.
    OtherText,
    // It, or the file of another word, cannot be read.
    Unread { name: &'a str, error: io::Error },
}

// Checks that no other word and no standard stream leads to the file, and that it is empty or
// begins as a `written` file does. A file that is not there or not regular, such as a terminal, has
// no text to lose.
pub(crate) fn check_overwritable<'a, F: Files>(
    rt: &F,
    alloc: Global,
    words: &'a TuneWords<'_>,
    written: Written,
    name: &'a str,
) -> Result<(), Barred<'a>> {
    let Ok(found) = fs::metadata(rt, name) else {
        return Ok(());
    };
    if !found.is_file() {
        return Ok(());
    }
    if is_other_file(rt, words, written, &found)? {
        return Err(Barred::Named);
    }
    match has_other_text(rt, alloc, written, name) {
        Ok(false) => Ok(()),
        Ok(true) => Err(Barred::OtherText),
        Err(error) => Err(Barred::Unread { name, error }),
    }
}

// Returns whether `name` is a regular file with a text that does not begin as a `written` one does.
pub(crate) fn has_other_text<F: Files>(
    rt: &F,
    alloc: Global,
    written: Written,
    name: &str,
) -> io::Result<bool> {
    match fs::metadata(rt, name) {
        Ok(found) if found.is_file() && found.len() > 0 => {
            Ok(!begins_as(rt, alloc, written, name)?)
        }
        _ => Ok(false),
    }
}

// Returns whether another word is a name of the file that was found, or a standard stream goes to
// it. For CERT.inputs, CERT is one of the other words.
fn is_other_file<'a, F: Files>(
    rt: &F,
    words: &'a TuneWords<'_>,
    written: Written,
    found: &Metadata,
) -> Result<bool, Barred<'a>> {
    if is_name_of(rt, words.template, found)? || is_name_of(rt, words.schedule, found)? {
        return Ok(true);
    }
    if written == Written::Inputs && is_name_of(rt, words.cert, found)? {
        return Ok(true);
    }
    if is_name_of(rt, STANDARD_OUTPUT, found)? || is_name_of(rt, STANDARD_ERROR, found)? {
        return Ok(true);
    }
    for name in words.opponents.as_slice() {
        if is_name_of(rt, *name, found)? {
            return Ok(true);
        }
    }
    Ok(false)
}

// Returns whether `name` leads to the found file. It need not exist: CERT may not be there yet.
fn is_name_of<'a, F: Files>(rt: &F, name: &'a str, found: &Metadata) -> Result<bool, Barred<'a>> {
    match is_file_at(rt, name, found) {
        Ok(is_same) => Ok(is_same),
        Err(error) if error.kind() == io::ErrorKind::NotFound => Ok(false),
        Err(error) => Err(Barred::Unread { name, error }),
    }
}

fn begins_as<F: Files>(rt: &F, alloc: Global, written: Written, name: &str) -> io::Result<bool> {
    let mut file = fs::open(rt, name)?;
    match written {
        Written::Cert => begins_as_cert(alloc, &mut file),
        Written::Inputs => begins_with(alloc, &mut file, INPUTS_BEGINNING),
    }
}

// Returns whether the text of a reader begins as a certificate does.
fn begins_as_cert<R: Read>(alloc: Global, input: &mut R) -> io::Result<bool>
    ensures { IfOk result (λ yes. IfSome (R.remaining input.old) (λ text. IsTrue yes ↔ BeginsAsCert text)) }
{
    begins_with(alloc, input, CERT_BEGINNING)
}
