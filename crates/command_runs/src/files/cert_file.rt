//! The file CERT of a tuning: a text that is not a certificate is not overwritten, and a regular
//! file is replaced whole or not at all.
ghost use Rattle.std.specs.Prelude.{◌≡◌, ◌≤◌, length, IfOk, IsTrue, IsErrOf};
ghost use Rattle.command_runs.specs.CertFile.{names_twice};

use crate::files::digest::{Digested, Digesting};
use crate::files::guard::{Barred, Written, check_overwritable};
use crate::files::replacing::{Replacement, replacement_at};
use command_words::TuneWords;
use std::alloc::Global;
use std::fs::{Metadata, OpenFile, OpenOptions};
use std::io::Write;
use std::os::unix::fs::MetadataExt;
use std::rt::Files;
use std::{fs, io};

// Why CERT is not opened.
#[derive(Drop)]
pub(crate) enum NotOpened<'a> {
    Barred(Barred<'a>),
    // It cannot be written or created.
    Uncreated(io::Error),
}

// The file CERT. A regular file has its old text until the new one is flushed.
#[derive(Drop)]
pub(crate) struct CertFile<R: Files> {
    kind: FileKind<R>,
    failure: Option<io::Error>,
}

// What kind of file CERT is, and what its text is written to.
#[derive(Drop)]
enum FileKind<R: Files> {
    // Not a regular file. It is open, and the text goes into it as it comes.
    Stream(R::File),
    // A regular file, or none yet: it gets the text as a whole.
    Regular(RegularFile<R>),
}

// A regular file that gets its text as a whole, and the digest of this text.
#[derive(Drop)]
struct RegularFile<R: Files> {
    replacement: Replacement<R>,
    digesting: Digesting,
    // Whether the file has the whole text.
    is_replaced: bool,
}

impl<R: Files> RegularFile<R> {
    fn new(replacement: Replacement<R>) -> RegularFile<R> {
        RegularFile {
            replacement,
            digesting: Digesting::new(),
            is_replaced: false,
        }
    }

    fn write(&mut self, piece: &[u8]) -> io::Result<()> {
        self.replacement.write(piece)?;
        self.digesting.add(piece);
        Ok(())
    }

    fn finish(&mut self) -> io::Result<()> {
        self.replacement.finish()?;
        self.is_replaced = true;
        Ok(())
    }
}

impl<R: Files> CertFile<R> {
    fn new(kind: FileKind<R>) -> CertFile<R> {
        CertFile {
            kind,
            failure: None,
        }
    }

    // Returns what the system said when the text could not be written.
    pub(crate) fn failure(&self) -> Option<io::Error> {
        self.failure
    }

    // Returns whether CERT is a regular file, or is made as one.
    pub(crate) fn is_regular(&self) -> bool {
        match self.kind {
            FileKind::Regular(_) => true,
            FileKind::Stream(_) => false,
        }
    }

    fn write_piece(&mut self, piece: &[u8]) -> io::Result<usize>
        ensures { IfOk result (λ n. n ≤ length piece.now) }
    {
        match &mut self.kind {
            FileKind::Stream(file) => file.write(piece),
            FileKind::Regular(file) => {
                file.write(piece)?;
                Ok(piece.len())
            }
        }
    }

    // Ends the text. A stream has no more to do.
    fn finish(&mut self) -> io::Result<()> {
        match &mut self.kind {
            FileKind::Stream(_) => Ok(()),
            FileKind::Regular(file) => file.finish(),
        }
    }
}

impl<R: Files + Drop> CertFile<R> {
    // Returns the size and the digest of the text if a regular file has it now.
    pub(crate) fn digested(self) -> Option<Digested> {
        match self.kind {
            FileKind::Regular(file) if file.is_replaced => Some(file.digesting.end()),
            _ => None,
        }
    }
}

impl<R: Files> Write for CertFile<R> {
    fn write(&mut self, buf: &[u8]) -> io::Result<usize> {
        match self.write_piece(buf) {
            Ok(count) => Ok(count),
            Err(error) => {
                self.failure = Some(error);
                Err(error)
            }
        }
    }

    fn flush(&mut self) -> io::Result<()> {
        match self.finish() {
            Ok(()) => Ok(()),
            Err(error) => {
                self.failure = Some(error);
                Err(error)
            }
        }
    }
}

// Opens CERT, or finds out that it can be replaced or made. Its text is not changed yet.
pub(crate) fn open_cert<'a, R: Files + Copy>(
    rt: R,
    alloc: Global,
    words: &'a TuneWords<'_>,
) -> Result<CertFile<R>, NotOpened<'a>>
    ensures named { IsTrue (names_twice words.now) → IsErrOf result (NotOpened.Barred Barred.Named) }
{
    if is_named_twice(words) {
        return Err(NotOpened::Barred(Barred::Named));
    }
    open_other(rt, alloc, words)
}

// Opens CERT, which no other word spells.
fn open_other<'a, R: Files + Copy>(
    rt: R,
    alloc: Global,
    words: &'a TuneWords<'_>,
) -> Result<CertFile<R>, NotOpened<'a>> {
    if let Err(barred) = check_overwritable(&rt, alloc, words, Written::Cert, words.cert) {
        return Err(NotOpened::Barred(barred));
    }
    match open_checked(rt, alloc, words.cert) {
        Ok(file) => Ok(file),
        Err(error) => Err(NotOpened::Uncreated(error)),
    }
}

// Opens CERT after `check_overwritable`: it is empty, a certificate, not regular, or not there.
fn open_checked<R: Files + Copy>(rt: R, alloc: Global, name: &str) -> io::Result<CertFile<R>> {
    match fs::metadata(&rt, name) {
        Ok(found) => open_found(rt, alloc, name, &found),
        Err(error) if error.kind() == io::ErrorKind::NotFound => {
            let replacement = replacement_at(rt, alloc, Written::Cert, name, None)?;
            Ok(CertFile::new(FileKind::Regular(RegularFile::new(replacement))))
        }
        Err(error) => Err(error),
    }
}

// Opens CERT, which exists. A regular file is opened only to see that it may be written: to rename
// another file over it needs no such permission.
fn open_found<R: Files + Copy>(
    rt: R,
    alloc: Global,
    name: &str,
    found: &Metadata,
) -> io::Result<CertFile<R>> {
    let file = open_beyond_streams(&rt, name)?;
    if !found.is_file() {
        return Ok(CertFile::new(FileKind::Stream(file)));
    }
    drop(file);
    let replacement = replacement_at(rt, alloc, Written::Cert, name, Some(found.mode()))?;
    Ok(CertFile::new(FileKind::Regular(RegularFile::new(replacement))))
}

// Opens a file for writing, and returns a copy of the handle. If a standard stream is closed, the
// first handle may get its number, and a report or a fault line would go into the file; a copy
// never does.
fn open_beyond_streams<F: Files>(rt: &F, name: &str) -> io::Result<F::File> {
    let file = OpenOptions::new().write(true).open(rt, name)?;
    file.try_clone()
}

// Returns whether CERT is also given as the template, the schedule or an opponent.
fn is_named_twice(words: &TuneWords<'_>) -> bool
    ensures { result ≡ names_twice words.now }
{
    words.cert == words.template
        || words.cert == words.schedule
        || words.opponents.contains(&words.cert)
}
