//! Whether words ask for help. If they do, help is shown whatever else is wrong with them.
ghost use Rattle.std.specs.Prelude.{◌≡◌, ◌↔◌, false, map, IsTrue, string_bytes};
ghost use Rattle.command_words.specs.CommandLine.{is_command};
ghost use Rattle.command_words.specs.Help.{command_in, is_rule, takes_value, is_help_option, has_help_option, begins_with_help, MentionsHelp};

/// Returns whether the words ask for help or for the version: `help` if it is the first word, and
/// `--help`, `-h`, `--version` or `-V` before `--`, unless it is the value of an option. A run that
/// only prints the text of `clap` succeeds only if they do.
pub fn mentions_help(words: &[String]) -> bool
    ensures { IsTrue result ↔ MentionsHelp (map string_bytes words.now) }
{
    begins_with_help(words) || has_help_option(words, command_in(words), true)
}

fn begins_with_help(words: &[String]) -> bool
    ensures { result ≡ begins_with_help (map string_bytes words.now) }
{
    match words.split_first() {
        Some((word, _)) => word.as_str() == "help",
        None => false,
    }
}

// Returns whether an option asks for help or, if `version` is true, for the version. Words after
// `--` are files, and the value of an option of `command` is not an option.
pub(crate) fn has_help_option(words: &[String], command: &str, version: bool) -> bool
    ensures { result ≡ has_help_option version command.now false (map string_bytes words.now) }
{
    let mut is_value = false;
    let mut rest = words;
    while let Some((word, after)) = rest.split_first() {
        let word = word.as_str();
        if is_value {
            is_value = false;
        } else if word == "--" {
            return false;
        } else if is_help_option(word, version) {
            return true;
        } else {
            is_value = takes_value(command, word);
        }
        rest = after;
    }
    false
}

fn is_help_option(word: &str, version: bool) -> bool
    ensures { result ≡ is_help_option version word.now }
{
    word == "--help" || word == "-h" || (version && (word == "--version" || word == "-V"))
}

// Returns the first word before `--` that is a command, or the empty word.
pub(crate) fn command_in(words: &[String]) -> &str
    ensures { result.now ≡ command_in (map string_bytes words.now) }
{
    let mut rest = words;
    while let Some((word, after)) = rest.split_first() {
        let word = word.as_str();
        if word == "--" {
            return "";
        }
        if is_command(word) {
            return word;
        }
        rest = after;
    }
    ""
}

fn is_command(word: &str) -> bool
    ensures { result ≡ is_command word.now }
{
    word == "fight" || word == "asm" || word == "settings" || word == "tune" || word == "check"
}

// Returns whether the word after an option of a command is its value.
fn takes_value(command: &str, option: &str) -> bool
    ensures { result ≡ takes_value command.now option.now }
{
    if command == "fight" {
        is_rule(option) || option == "--position" || option == "--first"
    } else if command == "asm" {
        is_rule(option) || option == "--setting"
    } else if command == "tune" {
        is_rule(option)
            || option == "--part"
            || option == "--cache"
            || option == "--keep"
            || option == "--floor"
    } else if command == "check" {
        is_rule(option)
            || option == "--part"
            || option == "--share"
            || option == "--keep"
            || option == "--floor"
    } else {
        false
    }
}

fn is_rule(option: &str) -> bool
    ensures { result ≡ is_rule option.now }
{
    option == "--hill"
        || option == "--core"
        || option == "--cycles"
        || option == "--tasks"
        || option == "--length"
        || option == "--distance"
}
