//! What the words of the command line ask for. The library `clap` parses them.
ghost use Rattle.std.specs.Prelude.{◌≡◌, map, option_map, IfOk, string_bytes};
ghost use Rattle.clap.specs.Matches.{found_of};
ghost use Rattle.command_words.specs.CommandLine.{AsksForFight, command_of, command_word};
ghost use Rattle.command_words.specs.Requests.{AreFiles, IsRequest, file_found, side_meant};

use crate::clap_commands::{
    asm_command, check_command, commands, duel_command, fight_command, tune_command,
};
use crate::command_word::{asks_for_fight, is_named};
use crate::help::{command_in, has_help_option};
use crate::method_options::MethodWords;
use crate::number_option::POSITION;
use crate::options::{check_options, raw_rules_of, tune_options};
use crate::setting_word::setting_of;
use crate::usage_error::{bad_value, not_first, one_file};
use clap::{ArgMatches, Error};
use mars_core::Side;
use rc_instr::RawRules;
use std::alloc::{AllocError, Global};
use tune_cert::{Demand, Share};
use tune_problem::Part;
use tune_template::WhichSetting;

/// The rules, the names of the files and the part of a tuning, or of a check of its certificate.
#[derive(Drop)]
pub struct TuneWords<'a> {
    pub rules: RawRules,
    pub template: &'a str,
    pub schedule: &'a str,
    pub cert: &'a str,
    pub opponents: Vec<&'a str>,
    pub part: Part,
}

/// The rules and the files of a fight of two Redcode texts.
#[derive(Drop)]
pub struct DuelWords<'a> {
    pub rules: RawRules,
    pub candidate: &'a str,
    pub opponent: &'a str,
    pub position: Option<u32>,
    pub first: Side,
}

/// The words of `asm`. The file is a template if there is a `setting`.
#[derive(Drop)]
pub struct AsmWords<'a> {
    pub rules: RawRules,
    pub file: &'a str,
    pub setting: Option<WhichSetting>,
}

/// What the words ask for.
#[derive(Drop)]
pub enum Request<'a> {
    /// Plays the fight whose text is on standard input.
    Fight,
    /// Plays a fight of two Redcode texts.
    Duel(DuelWords<'a>),
    Asm(AsmWords<'a>),
    /// Says how many settings a template has, and what its constants are.
    Settings {
        file: &'a str,
    },
    Tune {
        words: TuneWords<'a>,
        method: MethodWords,
        demand: Demand,
    },
    /// Checks a certificate of a tuning, or a share of it.
    Check {
        words: TuneWords<'a>,
        share: Option<Share>,
        demand: Demand,
    },
}

/// Returns what the words after the program's name ask for. The shortest words for a fight are
/// recognised without `clap`, so that they take no memory.
///
/// # Errors
///
/// The help or the version as text for standard output, a usage error for standard error, or the
/// kind `OutOfMemory` if memory ran out.
pub fn request_of<'a>(alloc: Global, words: &'a [String]) -> Result<Request<'a>, Error>
    ensures fight { AsksForFight (map string_bytes words.entry.now) → result ≡ Ok Request.Fight }
    ensures named { IfOk result (λ r. command_of (map string_bytes words.entry.now) ≡ command_word r) }
{
    if asks_for_fight(words) {
        return Ok(Request::Fight);
    }
    let command = command_in(words);
    if has_help_option(words, command, false) {
        give_help(alloc, command)?;
    }
    let request = parsed_request(alloc, words)?;
    if is_named(words, &request) {
        return Ok(request);
    }
    Err(not_first(commands(alloc, duel_command(alloc)?)?)?)
}

fn parsed_request<'a>(alloc: Global, words: &'a [String]) -> Result<Request<'a>, Error> {
    let parsed = commands(alloc, duel_command(alloc)?)?.try_get_matches_from(words)?;
    match parsed.subcommand() {
        Some(("fight", matches)) => fight_request(alloc, words, matches),
        Some(("asm", matches)) => asm_request(alloc, matches),
        Some(("settings", matches)) => Ok(settings_request(matches)),
        Some(("tune", matches)) => tune_request(alloc, matches),
        Some(("check", matches)) => check_request(alloc, matches),
        _ => Ok(Request::Fight),
    }
}

// Fails with the help of a command, or with that of the program for the empty word. `clap` gets no
// other word that it could refuse.
fn give_help(alloc: Global, command: &str) -> Result<(), Error> {
    let mut words = Vec::new(alloc);
    if !command.is_empty() {
        words.push(String::from_str(alloc, command)?)?;
    }
    words.push(String::from_str(alloc, "--help")?)?;
    let _nothing = commands(alloc, duel_command(alloc)?)?.try_get_matches_from(words.as_slice())?;
    Ok(())
}

fn fight_request<'a>(
    alloc: Global,
    words: &'a [String],
    matches: &ArgMatches<'a>,
) -> Result<Request<'a>, Error>
    ensures { IfOk result (IsRequest (found_of matches.now)) }
{
    let Some(candidate) = matches.get_str("CANDIDATE") else {
        return request_without_files(alloc, words);
    };
    let Some(opponent) = matches.get_str("OPPONENT") else {
        return Err(one_file(duel_command(alloc)?)?);
    };
    match (raw_rules_of(matches), POSITION.value_in(matches)) {
        (Ok(rules), Ok(position)) => Ok(Request::Duel(DuelWords {
            rules,
            candidate,
            opponent,
            position,
            first: side_of(matches.get_str("first")),
        })),
        (Err(bad), _) | (_, Err(bad)) => Err(bad_value(
            alloc,
            bad,
            duel_command(alloc)?,
            "cwtune fight",
        )?),
    }
}

// Returns what `fight` without files asks for. It takes no words but `--explain`, so the words are
// parsed again as those of a command without files, and `clap` reports any other word.
fn request_without_files<'a>(alloc: Global, words: &'a [String]) -> Result<Request<'a>, Error>
    ensures { IfOk result (λ r. r ≡ Request.Fight) }
{
    let _nothing = commands(alloc, fight_command(alloc)?)?.try_get_matches_from(words)?;
    Ok(Request::Fight)
}

// Returns the side of `--first`, which `clap` keeps to `c` and `o`, or the default.
fn side_of(word: Option<&str>) -> Side
    ensures { result ≡ side_meant (option_map (λ w. w.now) word.entry) }
{
    match word {
        Some("o") => Side::Opponent,
        _ => Side::Candidate,
    }
}

fn asm_request<'a>(alloc: Global, matches: &ArgMatches<'a>) -> Result<Request<'a>, Error>
    ensures { IfOk result (IsRequest (found_of matches.now)) }
{
    match (raw_rules_of(matches), setting_of(matches)) {
        (Ok(rules), Ok(setting)) => Ok(Request::Asm(AsmWords {
            rules,
            file: file_in(matches, "FILE"),
            setting,
        })),
        (Err(bad), _) | (_, Err(bad)) => {
            Err(bad_value(alloc, bad, asm_command(alloc)?, "cwtune asm")?)
        }
    }
}

fn settings_request<'a>(matches: &ArgMatches<'a>) -> Request<'a>
    ensures { IsRequest (found_of matches.now) result }
{
    Request::Settings {
        file: file_in(matches, "TEMPLATE"),
    }
}

fn tune_request<'a>(alloc: Global, matches: &ArgMatches<'a>) -> Result<Request<'a>, Error>
    ensures { IfOk result (IsRequest (found_of matches.now)) }
{
    match tune_options(matches) {
        Ok((rules, part, method, demand)) => Ok(Request::Tune {
            words: tune_words(alloc, matches, rules, part)?,
            method,
            demand,
        }),
        Err(bad) => Err(bad_value(alloc, bad, tune_command(alloc)?, "cwtune tune")?),
    }
}

fn check_request<'a>(alloc: Global, matches: &ArgMatches<'a>) -> Result<Request<'a>, Error>
    ensures { IfOk result (IsRequest (found_of matches.now)) }
{
    match check_options(matches) {
        Ok((rules, part, share, demand)) => Ok(Request::Check {
            words: tune_words(alloc, matches, rules, part)?,
            share,
            demand,
        }),
        Err(bad) => Err(bad_value(alloc, bad, check_command(alloc)?, "cwtune check")?),
    }
}

fn tune_words<'a>(
    alloc: Global,
    matches: &ArgMatches<'a>,
    rules: RawRules,
    part: Part,
) -> Result<TuneWords<'a>, AllocError>
    ensures { IfOk result (λ w. (w.rules ≡ rules) × ((w.part ≡ part) × AreFiles (found_of matches.now) w)) }
{
    let mut opponents = Vec::new(alloc);
    if let Some(names) = matches.get_strs("OPPONENT") {
        opponents.extend_from_slice(names)?;
    }
    Ok(TuneWords {
        rules,
        template: file_in(matches, "TEMPLATE"),
        schedule: file_in(matches, "SCHEDULE"),
        cert: file_in(matches, "CERT"),
        opponents,
        part,
    })
}

// Returns the name of a file, which `clap` requires, so the empty one stands for none.
fn file_in<'a>(matches: &ArgMatches<'a>, file: &str) -> &'a str
    ensures { result.now ≡ file_found (found_of matches.now) file.now }
{
    match matches.get_str(file) {
        Some(name) => name,
        None => "",
    }
}
