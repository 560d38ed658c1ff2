//! Usage errors that the program finds itself, in the form of those that `clap` makes.

use clap::error::ErrorKind;
use clap::{Command, Error};
use std::alloc::{AllocError, Global};

// A word that is not a value of its option.
#[derive(Clone, Copy)]
pub(crate) struct BadValue<'a> {
    pub(crate) word: &'a str,
    // The option, and what help calls its value.
    pub(crate) option: &'static str,
    pub(crate) value: &'static str,
    // What a usage error says of such a word.
    pub(crate) why: &'static str,
}

// Makes the usage error of a bad value for `command`. `name` is the command as typed, such as
// `cwtune fight`.
pub(crate) fn bad_value(
    alloc: Global,
    bad: BadValue<'_>,
    command: Command<'_>,
    name: &'static str,
) -> Result<Error, AllocError> {
    let word = bad.word;
    let option = bad.option;
    let value = bad.value;
    let why = bad.why;
    let message = format!(in alloc; "invalid value '{word}' for '--{option} <{value}>': {why}")?;
    let mut command = command.bin_name(name)?;
    command.error(ErrorKind::ValueValidation, message.as_str())
}

// Makes the usage error of a fight of one file.
pub(crate) fn one_file(command: Command<'_>) -> Result<Error, AllocError> {
    let mut command = command.bin_name("cwtune fight")?;
    command.error(
        ErrorKind::MissingRequiredArgument,
        "OPPONENT is missing: a fight has two files, or none and its text on standard input",
    )
}

// Makes the usage error of a command that is not the first word.
pub(crate) fn not_first(command: Command<'_>) -> Result<Error, AllocError> {
    let mut command = command;
    command.error(
        ErrorKind::InvalidSubcommand,
        "the command has to be the first word",
    )
}
