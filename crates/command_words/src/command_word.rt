//! The command that the words name: the first word, since no option comes before it.
ghost use Rattle.std.specs.Prelude.{◌≡◌, ◌↔◌, map, IsTrue, string_bytes};
ghost use Rattle.command_words.specs.CommandLine.{AsksForFight, command_of, command_word};

use crate::command_line::Request;

/// Returns whether the words are the shortest of a fight: none, or `fight` alone.
pub fn asks_for_fight(words: &[String]) -> bool
    ensures { IsTrue result ↔ AsksForFight (map string_bytes words.now) }
{
    match words {
        [] => true,
        [word] => word.as_str() == "fight",
        _ => false,
    }
}

// Returns whether a request is of the command that the words name.
pub(crate) fn is_named(words: &[String], request: &Request<'_>) -> bool
    ensures { IsTrue result → command_of (map string_bytes words.now) ≡ command_word request.now }
{
    command_named(words) == command_word(request)
}

// Returns the first word, or `fight` if there is none, or if it is `--`.
fn command_named(words: &[String]) -> &str
    ensures { result.now ≡ command_of (map string_bytes words.now) }
{
    let Some((word, _)) = words.split_first() else {
        return "fight";
    };
    if word.as_str() == "--" {
        "fight"
    } else {
        word.as_str()
    }
}

fn command_word(request: &Request<'_>) -> &'static str
    ensures { result.now ≡ command_word request.now }
{
    match request {
        Request::Fight | Request::Duel(_) => "fight",
        Request::Asm(_) => "asm",
        Request::Settings { file: _ } => "settings",
        Request::Tune {
            words: _,
            method: _,
            demand: _,
        } => "tune",
        Request::Check {
            words: _,
            share: _,
            demand: _,
        } => "check",
    }
}
