//! The commands as `clap` knows them: their help, their files and their options.

use crate::method_options::all_option;
use crate::number_option::{CACHE, CHECK_FLOOR, CHECK_KEEP, POSITION, TUNE_FLOOR, TUNE_KEEP};
use crate::options::{explain_option, progress_option, with_rules};
use crate::part_word::part_option;
use crate::setting_word::setting_option;
use crate::share_word::share_option;
use clap::builder::ValueParser;
use clap::{Arg, ArgAction, Command};
use std::alloc::{AllocError, Global};

/// What `--version` says after the name: the version, and the kit that all proofs passed with.
pub const VERSION: &str = "1.0.0 (proved with rattle-kit-13f)";

// The words for the sides, as in a schedule: candidate and opponent.
const SIDES: [&str; 2] = ["c", "o"];

// Makes the command `cwtune`, before its commands are added.
fn top_command<'a>(alloc: Global) -> Result<Command<'a>, AllocError> {
    let command = Command::new(alloc, "cwtune")
        .no_binary_name(true)
        .bin_name("cwtune")?
        .version(VERSION)
        .about(
            "Plays Core War fights and finds the best values for a warrior's constants. With no command, same as `fight`.",
        )
        .after_help(
            "Commands for authors begin with cwtune-, as in cwtune-study, and have --help too.\n\nExit status: 0 success or accepted; 1 input refused or certificate rejected; 2 usage error; 3 I/O error or out of memory.",
        );
    Ok(command)
}

// Makes `cwtune` with its commands. `fight` is made by `duel_command` or by `fight_command`.
pub(crate) fn commands<'a>(alloc: Global, fight: Command<'a>) -> Result<Command<'a>, AllocError> {
    top_command(alloc)?
        .subcommand(fight)?
        .subcommand(asm_command(alloc)?)?
        .subcommand(settings_command(alloc)?)?
        .subcommand(tune_command(alloc)?)?
        .subcommand(check_command(alloc)?)
}

// Makes the command `fight` without words of its own: the fight text is on standard input.
pub(crate) fn fight_command<'a>(alloc: Global) -> Result<Command<'a>, AllocError> {
    Command::new(alloc, "fight")
        .about("Play a fight, of two Redcode files or the one described on standard input")
        .override_usage("cwtune fight\n       cwtune fight [OPTIONS] CANDIDATE OPPONENT")
        .arg(explain_option(alloc))
}

// Makes the command `fight` with two files. They are not required: without files `fight` reads
// a fight text, and `fight_request` refuses one file alone.
pub(crate) fn duel_command<'a>(alloc: Global) -> Result<Command<'a>, AllocError> {
    let candidate = "Redcode source of the candidate, at address 0";
    let opponent = "Redcode source of the opponent";
    let first = Arg::new(alloc, "first")
        .long("first")
        .value_name("SIDE")
        .action(ArgAction::Set)
        .value_parser(ValueParser::Names(&SIDES))
        .help("Who moves first, the candidate or the opponent [default: c]");
    let command = fight_command(alloc)?
        .arg(file_arg(alloc, "CANDIDATE", candidate).required(false))?
        .arg(file_arg(alloc, "OPPONENT", opponent).required(false))?
        .arg(POSITION.arg(alloc))?
        .arg(first)?;
    with_rules(alloc, command)
}

pub(crate) fn asm_command<'a>(alloc: Global) -> Result<Command<'a>, AllocError> {
    let help = "Redcode source of a warrior, at most 65536 bytes (`-` is a file of that name)";
    let command = Command::new(alloc, "asm")
        .about("Assemble a Redcode file and print the load file of its warrior")
        .arg(file_arg(alloc, "FILE", help))?
        .arg(setting_option(alloc))?
        .arg(explain_option(alloc))?;
    with_rules(alloc, command)
}

fn file_arg<'a>(alloc: Global, name: &'a str, help: &'a str) -> Arg<'a> {
    Arg::new(alloc, name)
        .required(true)
        .action(ArgAction::Set)
        .help(help)
}

fn template_arg<'a>(alloc: Global) -> Arg<'a> {
    let help =
        "Redcode source with lines `;@tune NAME LOW HIGH STEP START`, one for each open constant";
    file_arg(alloc, "TEMPLATE", help)
}

fn settings_command<'a>(alloc: Global) -> Result<Command<'a>, AllocError> {
    Command::new(alloc, "settings")
        .about(
            "Print the number of settings of a template, and the name, number of values and START of each constant",
        )
        .arg(template_arg(alloc))?
        .arg(explain_option(alloc))
}

// Adds the files and the options that `tune` and `check` share. `cert` is the help for CERT.
fn with_files<'a>(
    alloc: Global,
    command: Command<'a>,
    cert: &'a str,
) -> Result<Command<'a>, AllocError> {
    let schedule =
        "Table of fights: the line `opponent,position,first`, then one such as `0,4000,c` for each; \
         with weights, `opponent,position,first,weight` and `0,4000,c,5`";
    let opponents = file_arg(
        alloc,
        "OPPONENT",
        "Redcode sources of the opponents, at most 64; the schedule counts them from 0",
    )
    .num_args(1..)
    .action(ArgAction::Append);
    let command = command
        .arg(template_arg(alloc))?
        .arg(file_arg(alloc, "SCHEDULE", schedule))?
        .arg(file_arg(alloc, "CERT", cert))?
        .arg(opponents)?
        .arg(part_option(alloc))?
        .arg(progress_option(alloc))?
        .arg(explain_option(alloc))?;
    with_rules(alloc, command)
}

pub(crate) fn tune_command<'a>(alloc: Global) -> Result<Command<'a>, AllocError> {
    let command = Command::new(alloc, "tune")
        .about(
            "Find the best setting of a template, write its certificate to CERT, and print a report",
        )
        .arg(CACHE.ranged_arg(alloc, tune_search::limits::MOST_CAPACITY))?
        .arg(all_option(alloc)?)?
        .arg(TUNE_KEEP.ranged_arg(alloc, tune_problem::limits::MOST_KEPT))?
        .arg(TUNE_FLOOR.arg(alloc).conflicts_with("all")?)?;
    with_files(
        alloc,
        command,
        "File to write the certificate to; an older certificate there is replaced at the end, and a file with any other text is refused",
    )
}

pub(crate) fn check_command<'a>(alloc: Global) -> Result<Command<'a>, AllocError> {
    let command = Command::new(alloc, "check")
        .about("Check a certificate: print `accepted best W total T` or `rejected row R REASON`")
        .arg(share_option(alloc))?
        .arg(CHECK_KEEP.ranged_arg(alloc, tune_problem::limits::MOST_KEPT))?
        .arg(CHECK_FLOOR.arg(alloc))?;
    with_files(alloc, command, "File of the certificate")
}
