//! Replaces a file whole or not at all: a new text goes to a file beside it, piece by piece; at the
//! end this file is flushed to the disk and renamed.

use crate::files::guard::{Written, has_other_text};
use std::alloc::Global;
use std::fs::{OpenFile, OpenOptions, Permissions};
use std::io::Write;
use std::os::unix::fs::PermissionsExt;
use std::path::PathBuf;
use std::rt::Files;
use std::{fs, io};

// The most links that a name is followed through, as on Linux.
const MOST_LINKS: u32 = 40;

// The most names that are tried for a file beside another.
const MOST_NAMES: u32 = 1000;

// A replacement under way: an unfinished file with the new text, and the name that it will get.
#[derive(Drop)]
pub(crate) struct Replacement<R: Files> {
    rt: R,
    alloc: Global,
    written: Written,
    // The name of the file, links followed.
    name: PathBuf,
    // The name of the unfinished file, beside it. The text is there until it is whole.
    beside: String,
    // The permissions of the file, if there is one.
    mode: Option<u32>,
    // The unfinished file, from the first piece of the text to the last step or a failure.
    file: Option<R::File>,
}

// Finds the file that `name` leads to, and tries to make a file beside it, which is removed again.
// `mode` is the permissions of the file, if there is one. Refuses the empty name, under which a
// file beside it could be made, and not be renamed.
pub(crate) fn replacement_at<R: Files + Copy>(
    rt: R,
    alloc: Global,
    written: Written,
    name: &str,
    mode: Option<u32>,
) -> io::Result<Replacement<R>> {
    if name.is_empty() {
        return Err(io::Error::from(io::ErrorKind::NotFound));
    }
    let name = beyond_links(&rt, alloc, name)?;
    let beside = unused_name(&rt, alloc, name.as_str(), mode)?;
    Ok(Replacement {
        rt,
        alloc,
        written,
        name,
        beside,
        mode,
        file: None,
    })
}

impl<R: Files> Replacement<R> {
    // Writes a piece of the text to the unfinished file, which the first piece makes. If that
    // fails, removes the file; a further call would begin a new one, so there must be none.
    pub(crate) fn write(&mut self, piece: &[u8]) -> io::Result<()> {
        let mut file = match self.file.take() {
            Some(file) => file,
            None => self.create()?,
        };
        let written = file.write_all(piece);
        if written.is_ok() {
            self.file = Some(file);
        } else {
            self.remove_beside();
        }
        written
    }

    // Makes the unfinished file, under another name if `beside` is taken by now.
    fn create(&mut self) -> io::Result<R::File> {
        match create(&self.rt, self.beside.as_str(), self.mode) {
            Err(error) if error.kind() == io::ErrorKind::AlreadyExists => {
                let name = self.name.as_str();
                self.beside = unused_name(&self.rt, self.alloc, name, self.mode)?;
                create(&self.rt, self.beside.as_str(), self.mode)
            }
            created => created,
        }
    }

    // Flushes the unfinished file to the disk and renames it to `name`. If that fails, removes it.
    // Does nothing if no piece was written.
    pub(crate) fn finish(&mut self) -> io::Result<()> {
        let Some(file) = self.file.take() else {
            return Ok(());
        };
        let named = self.name_file(&file);
        if named.is_err() {
            self.remove_beside();
        }
        named
    }

    // Renames the file, unless `name` is a text of another kind by now. If that cannot be found
    // out, renames it.
    fn name_file(&self, file: &R::File) -> io::Result<()> {
        file.sync_all()?;
        let name = self.name.as_str();
        if has_other_text(&self.rt, self.alloc, self.written, name).unwrap_or(false) {
            return Err(io::Error::from(io::ErrorKind::AlreadyExists));
        }
        fs::rename(&self.rt, self.beside.as_str(), name)
    }

    fn remove_beside(&self) {
        let _ = fs::remove_file(&self.rt, self.beside.as_str());
    }
}

// Returns the name that `name` leads to through links. There need not be a file at the end.
fn beyond_links<F: Files>(rt: &F, alloc: Global, name: &str) -> io::Result<PathBuf> {
    let mut path = PathBuf::from_str(alloc, name)?;
    for _link in 0..MOST_LINKS + 1 {
        if !follow(rt, alloc, &mut path)? {
            return Ok(path);
        }
    }
    Err(io::Error::from(io::ErrorKind::FilesystemLoop))
}

// Follows one link. Returns whether `path` was a link.
fn follow<F: Files>(rt: &F, alloc: Global, path: &mut PathBuf) -> io::Result<bool> {
    let link = match rt.read_link(alloc, path.as_str()) {
        Ok(link) => link,
        Err(error) if is_not_a_link(error.kind()) => return Ok(false),
        Err(error) => return Err(error),
    };
    path.pop();
    path.push(link)?;
    Ok(true)
}

// Returns whether reading a link failed because the name is not a link, or no file has it.
fn is_not_a_link(kind: io::ErrorKind) -> bool {
    kind == io::ErrorKind::InvalidInput || kind == io::ErrorKind::NotFound
}

// Returns a name beside `name` that no file has, and that a file can be given.
fn unused_name<F: Files>(
    rt: &F,
    alloc: Global,
    name: &str,
    mode: Option<u32>,
) -> io::Result<String> {
    for number in 1..MOST_NAMES + 1 {
        let beside = format!(in alloc; "{name}.unfinished-{number}")?;
        if is_unused(rt, beside.as_str(), mode)? {
            return Ok(beside);
        }
    }
    Err(io::Error::from(io::ErrorKind::AlreadyExists))
}

// Makes a file and removes it. Returns whether no file had the name.
fn is_unused<F: Files>(rt: &F, name: &str, mode: Option<u32>) -> io::Result<bool> {
    match create(rt, name, mode) {
        Ok(file) => drop(file),
        Err(error) if error.kind() == io::ErrorKind::AlreadyExists => return Ok(false),
        Err(error) => return Err(error),
    }
    fs::remove_file(rt, name)?;
    Ok(true)
}

// Makes a new file, with these permissions. If that fails, removes what it has made.
fn create<F: Files>(rt: &F, name: &str, mode: Option<u32>) -> io::Result<F::File> {
    let mut how = OpenOptions::new();
    how.write(true).create_new(true);
    let settled = settle(how.open(rt, name)?, mode);
    if settled.is_err() {
        let _ = fs::remove_file(rt, name);
    }
    settled
}

// Gives a file permissions, and returns a handle of it that is beyond the standard streams.
fn settle<X: OpenFile + Drop>(file: X, mode: Option<u32>) -> io::Result<X> {
    if let Some(mode) = mode {
        file.set_permissions(Permissions::from_mode(mode))?;
    }
    file.try_clone()
}
