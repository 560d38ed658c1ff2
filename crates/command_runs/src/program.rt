//! The program, apart from `main`: words and three streams in, an exit status out.
ghost use Rattle.std.specs.Prelude.{◌≡◌, ◌≢◌, map, false, string_bytes, IfErr};
ghost use Rattle.std.specs.IoError.{error_kind};
ghost use Rattle.std.specs.declared.io.ErrorKind.{ErrorKind as ErrorKindView};
ghost use Rattle.command_words.specs.Help.{MentionsHelp};
ghost use Rattle.command_runs.specs.Commands.{IsEnded};
ghost use Rattle.command_runs.specs.Program.{IsProgramRun};

use crate::commands::{asm, check, duel, fight, settings, tune};
use crate::ending::{Ending, status_of};
use crate::host::Host;
use crate::telling::fault_line::tell_run_fault;
use crate::telling::tell;
use crate::telling::witness::{Quiet, Witness};
use clap::error::ErrorKind;
use command_words::{Request, mentions_help, request_of};
use rc_instr::Outlet;
use std::alloc::Global;
use std::io;
use std::io::{Read, Write};
use std::rt::Files;
use tune_runs::RunFault;

const LETTERS_AFTER: &str =
    "error: no letters can follow `-h` or `-V`\n\nFor more information, try '--help'.\n";

/// Runs the command that `words` ask for, and returns the exit status: 0 success or accepted, 1
/// input refused or certificate rejected, 2 usage error, a part that the template does not have, or
/// a CERT or CERT.inputs that is not overwritten, 3 I/O error or out of memory.
///
/// - Without words, or with `fight`: reads a fight text from `input` and writes its result line.
/// - `fight` and two files: checks the rules, reads the two Redcode files, and writes the result
///   line of their fight.
/// - `asm`: checks the rules, reads the Redcode file, and writes its load file, or that of one
///   setting of a template.
/// - `settings`: reads the template, and writes the number of its settings and its constants.
/// - `tune`: checks the rules, reads the template, the schedule and the opponents, tries whether
///   CERT can be replaced or made, finds the best setting, and writes the certificate, then the
///   report. CERT is not overwritten if another word names the same file, or if it has a text that
///   is not a certificate. A regular file is replaced whole or not at all, and none is made if
///   there is no certificate. Beside a regular file CERT the file CERT.inputs says which inputs the
///   certificate is for, as `docs/FORMATS.md` describes it; a CERT.inputs with another text is not
///   overwritten either. If a setting was found and the certificate cannot be written, a line
///   `found: ..` names the setting.
/// - `check`: checks the rules, reads the template, the schedule, the certificate and the
///   opponents, and writes the line of the verdict, on all rows or on a share, and with `--keep`
///   above 1 a line for each setting of the ranking.
/// - `--help`, `help`: writes the help text. `--version`: writes the version.
///
/// A text may have at most 1073741824 bytes. Writes to `err` a line `refused: ..` for an input that
/// is refused, `error: ..` for a usage error, or `failed: ..` with status 3. If that write fails,
/// nothing else changes. The outlet `out` must not have failed.
pub fn program<F: Files, R: Read, W: Write, V: Write>(
    rt: &F,
    alloc: Global,
    words: &[String],
    input: &mut R,
    out: &mut Outlet<W>,
    err: &mut Outlet<V>,
) -> u8
    requires { out.old.failed ≡ false }
    ensures { IsProgramRun (map string_bytes words.now) (R.remaining input.old) out.old out.new result }
{
    let host = Host {
        rt,
        alloc,
        witness: &mut Quiet::new(alloc),
        err,
    };
    watched_program(host, words, input, out)
}

/// Runs the command as `program` does, and tells the witness of it.
pub fn watched_program<F: Files, R: Read, W: Write, V: Write, T: Witness>(
    mut host: Host<'_, F, T, V>,
    words: &[String],
    input: &mut R,
    out: &mut Outlet<W>,
) -> u8
    requires { out.old.failed ≡ false }
    ensures { IsProgramRun (map string_bytes words.now) (R.remaining input.old) out.old out.new result }
{
    let host = &mut host;
    match request_of(host.alloc, words) {
        Ok(Request::Fight) => status_of(fight(host, input, out)),
        Ok(Request::Duel(words)) => status_of(duel(host, &words, out)),
        Ok(Request::Asm(words)) => status_of(asm(host, &words, out)),
        Ok(Request::Settings { file }) => status_of(settings(host, file, out)),
        Ok(
            Request::Tune {
                words,
                method,
                demand,
            },
        ) => { status_of(tune(host, &words, method, demand, out)) }
        Ok(
            Request::Check {
                words,
                share,
                demand,
            },
        ) => status_of(check(host, &words, share, demand, out)),
        Err(answer) => status_of(show(host, words, &answer, out)),
    }
}

/// Says on standard error why there are no words, and returns the exit status: 2 if a word is not
/// UTF-8, 3 if memory ran out.
pub fn end_without_words<V: Write>(err: &mut Outlet<V>, error: &io::Error) -> u8
    ensures unreadable { error_kind error.now ≡ ErrorKindView.InvalidData → result ≡ 2 }
    ensures other { error_kind error.now ≢ ErrorKindView.InvalidData → result ≡ 3 }
{
    match error.kind() {
        io::ErrorKind::InvalidData => {
            tell(err, &["error: a word of the command line is not UTF-8\n"]);
            2
        }
        _ => {
            tell_run_fault(err, RunFault::OutOfMemory);
            3
        }
    }
}

// Prints what `clap` has to say: help on standard output, or a usage error on standard error.
fn show<F: Files, W: Write, V: Write, T: Witness>(
    host: &mut Host<'_, F, T, V>,
    words: &[String],
    answer: &clap::Error,
    out: &mut Outlet<W>,
) -> Result<(), Ending>
    requires { out.old.failed ≡ false }
    ensures ended { IsEnded (MentionsHelp (map string_bytes words.now)) out.old out.new result }
    ensures known { IfErr result (λ e. e ≢ Ending.Refused) }
{
    if answer.kind() == ErrorKind::OutOfMemory {
        return Err(host.end_without_memory());
    }
    let Ok(text) = answer.to_string(host.alloc) else {
        return Err(host.end_without_memory());
    };
    if answer.use_stderr() {
        tell(host.err, &[text.as_str()]);
        return Err(Ending::Misused);
    }
    // `clap` takes `-hx` for `-h`.
    if !mentions_help(words) {
        tell(host.err, &[LETTERS_AFTER]);
        return Err(Ending::Misused);
    }
    match out.write_all(text.as_bytes()) {
        Ok(()) => Ok(()),
        Err(_) => Err(host.end(RunFault::Write)),
    }
}
