//! Which names lead to one file.

use std::fs::Metadata;
use std::os::unix::fs::MetadataExt;
use std::rt::Files;
use std::{fs, io};

// Returns whether `name` leads to the file that was found under another name.
pub(crate) fn is_file_at<F: Files>(rt: &F, name: &str, found: &Metadata) -> io::Result<bool> {
    let other = fs::metadata(rt, name)?;
    Ok(other.dev() == found.dev() && other.ino() == found.ino())
}
