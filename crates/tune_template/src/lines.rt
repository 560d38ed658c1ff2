//! The lines of a template, and their words.
ghost use Rattle.std.specs.Prelude.{◌≡◌, ◌∷◌, [], not, ◌==◌, length, take, ◌<◌, ◌≤◌, MatchOption, IfSome};
ghost use Rattle.std.specs.List.{prefix_len};
ghost use Rattle.std.specs.Str.{bytes_eq};
ghost use Rattle.rc_text.specs.Bytes.{LINE_FEED, is_blank};
ghost use Rattle.tune_template.specs.Lines.{lines_of, words_of, is_range_line, begins_blank};

use rc_text::is_blank;

// Splits off the first line, without its line feed. At the last line the rest is `None`.
#[tactic(auto, using(crate::proofs::LineSteps::last_line, crate::proofs::LineSteps::next_line))]
pub(crate) fn first_line<'a>(text: &'a [u8]) -> (&'a [u8], Option<&'a [u8]>)
    ensures lines { MatchOption result.1 (lines_of text.now ≡ result.0.now ∷ []) (λ rest. lines_of text.now ≡ result.0.now ∷ lines_of rest.now) }
    ensures shorter { IfSome result.1 (λ rest. length rest.now < length text.now) }
{
    let (line, others) = text.split_at(line_len(text));
    match others.split_first() {
        None => (line, None),
        Some((_, rest)) => (line, Some(rest)),
    }
}

// Splits off the first word. Returns `None` if there are only blanks.
#[tactic(auto, using(crate::proofs::LineSteps::no_word, crate::proofs::LineSteps::one_word))]
pub(crate) fn first_word<'a>(line: &'a [u8]) -> Option<(&'a [u8], &'a [u8])>
    ensures { MatchOption result (words_of line.now ≡ []) (λ p. words_of line.now ≡ p.0.now ∷ words_of p.1.now) }
{
    let start = blank_len(line);
    if start == line.len() {
        return None;
    }
    let (_, word) = line.split_at(start);
    Some(word.split_at(word_len(word)))
}

/// Returns whether a line is a range line: `;@tune` at the front, with a blank or nothing after it.
/// So `;@tuned` is a comment.
pub fn is_range_line(line: &[u8]) -> bool
    ensures { result ≡ is_range_line line.now }
{
    begins_with(b";@tune", line) && begins_blank(&line[6..])
}

// Counts the bytes of the first line.
fn line_len(text: &[u8]) -> usize
    ensures len { result ≡ prefix_len (λ b. not (b == LINE_FEED)) text.now }
    ensures most { result ≤ length text.now }
{
    text.iter().take_while(|byte| **byte != b'\n').count()
}

// Counts the blanks at the front.
fn blank_len(text: &[u8]) -> usize
    ensures len { result ≡ prefix_len is_blank text.now }
    ensures most { result ≤ length text.now }
{
    text.iter().take_while(|byte| is_blank(**byte)).count()
}

// Counts the bytes of the word at the front.
fn word_len(text: &[u8]) -> usize
    ensures len { result ≡ prefix_len (λ b. not (is_blank b)) text.now }
    ensures most { result ≤ length text.now }
{
    text.iter().take_while(|byte| !is_blank(**byte)).count()
}

// Returns whether a text is empty or begins with a blank.
fn begins_blank(text: &[u8]) -> bool
    ensures { result ≡ begins_blank text.now }
{
    match text {
        [] => true,
        [first, ..] => is_blank(*first),
    }
}

fn begins_with(front: &[u8], text: &[u8]) -> bool
    ensures { result ≡ bytes_eq (take (length front.now) text.now) front.now }
{
    text.len() >= front.len() && &text[..front.len()] == front
}
