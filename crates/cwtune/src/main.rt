//! `cwtune` plays Core War fights, assembles warriors, finds the best setting of a warrior's
//! constants, and checks certificates that a setting is the best.
#![tactic(auto)]

ghost use Rattle.std.specs.Prelude.{◌≡◌, map, false, string_bytes, IsTrue};
ghost use Rattle.command_runs.specs.Program.{IsProgramRun};

mod telling;

use command_runs::{Host, Witness, program, tell};
use command_words::{asks_for_fight, is_given};
use rc_instr::Outlet;
use std::io::{IsTerminal, Read, Stderr, Write};
use std::process::ExitCode;
use std::{env, io};
use telling::progress::{Progress, Style};

// Returns the words after the program's name.
fn words_of(rt: &HostRuntime) -> io::Result<Vec<String>> {
    Ok(env::args(rt)?.skip(1).collect(rt.alloc())?)
}

// Returns how progress is shown: at a terminal in one line, and elsewhere, if `--progress` asks for
// it, in lines of a log.
fn style_of(words: &[String], at_terminal: bool) -> Style
    ensures { IsTrue at_terminal → result ≡ Style.Line }
{
    if at_terminal {
        Style::Line
    } else if is_given(words, "--progress") {
        Style::Log
    } else {
        Style::Hidden
    }
}

// Makes the witness, which shows what the words and the terminal ask for.
fn witness_of<'a>(rt: &'a HostRuntime, words: &[String]) -> Progress<&'a HostRuntime, Stderr> {
    let at_terminal = rt.stderr().is_terminal();
    let explains = at_terminal || is_given(words, "--explain");
    let style = style_of(words, at_terminal);
    let shown = Outlet::new(rt.stderr());
    Progress::new(
        rt.alloc(),
        rt,
        shown,
        style,
        explains,
        asks_for_share(words),
    )
}

// Runs the command. Takes any witness, so that a check of this function, or of an edit of it, does
// not reach `Progress`.
fn run<R: Read, W: Write, V: Write, T: Witness>(
    rt: &HostRuntime,
    words: &[String],
    witness: &mut T,
    input: &mut R,
    out: &mut Outlet<W>,
    err: &mut Outlet<V>,
) -> u8
    requires { out.old.failed ≡ false }
    ensures { IsProgramRun (map string_bytes words.now) (R.remaining input.old) out.old out.new result }
{
    let host = Host {
        rt,
        alloc: rt.alloc(),
        witness,
        err,
    };
    program::watched_program(host, words, input, out)
}

// Returns whether a share is asked for. After `--` come files.
fn asks_for_share(words: &[String]) -> bool {
    for word in words {
        if word.as_str() == "--" {
            return false;
        }
        if word.as_str().starts_with("--share") {
            return true;
        }
    }
    false
}

// Says at a terminal that a fight text is read: else the program would seem to hang.
fn invite(rt: &HostRuntime, words: &[String]) {
    if rt.stderr().is_terminal() && rt.stdin().is_terminal() && takes_fight_text(words) {
        let mut err = Outlet::new(rt.stderr());
        tell(
            &mut err,
            &["reading a fight text, which Ctrl-D ends; `cwtune --help` lists the commands\n"],
        );
    }
}

// Returns whether the fight text comes from standard input: `--explain` may follow `fight`.
fn takes_fight_text(words: &[String]) -> bool {
    match words {
        [command, option] => command.as_str() == "fight" && option.as_str() == "--explain",
        _ => asks_for_fight(words),
    }
}

fn main(rt: HostRuntime) -> ExitCode {
    let mut input = rt.stdin();
    let mut out = Outlet::new(rt.stdout());
    let mut err = Outlet::new(rt.stderr());
    let status = match words_of(&rt) {
        Ok(words) => {
            let words = words.as_slice();
            invite(&rt, words);
            let mut witness = witness_of(&rt, words);
            run(&rt, words, &mut witness, &mut input, &mut out, &mut err)
        }
        Err(error) => program::end_without_words(&mut err, &error),
    };
    ExitCode::from(status)
}
