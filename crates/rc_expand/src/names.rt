//! The names of a text, with joined counters, and the values given from outside of it.
ghost use Rattle.std.specs.Prelude.{◌≡◌, ◌≢◌, List, ℕ, ◌++◌, MatchOption, IfOk};
ghost use Rattle.std.specs.Str.{bytes_eq};
ghost use Rattle.rc_expand.specs.Names.{entry_of, predefined, table_in, is_taken};
ghost use Rattle.rc_expand.specs.Contexts.{seen_given_names};
ghost use Rattle.rc_text.specs.Symbols.{name_of, counter_text};
ghost use Rattle.rc_expand.specs.NameTables.{joined_name};

use crate::constants::Constants;
use itoa::Buffer;
use rc_instr::Rules;
use rc_text::{Names, Token, text_of};
use std::alloc::{AllocError, Global};

/// The names given from outside of a text: the constants, and the predefined names but `CURLINE`.
#[derive(Drop)]
pub struct GivenNames<'a> {
    /// The constants, which take precedence over the predefined names.
    pub constants: &'a Constants<'a>,
    /// The rules that give the predefined names their values.
    pub rules: &'a Rules,
}

impl<'a> Names for GivenNames<'a> {
    ghost use Rattle.rc_expand.specs.Names.{table_in};
    ghost use Rattle.rc_expand.specs.Names.{given_names};

    ghost meaning = { λ s. given_names (table_in s.constants.now) s.rules.now };

    #[tactic(auto, unfolding(crate::specs::Names::given_names))]
    fn value(&self, source: &[u8], name: &Token) -> Option<i64> {
        match constant_value(self.constants, source, name) {
            Some(value) => Some(value),
            None => predefined_value(self.rules, source, name),
        }
    }
}

/// Compares the name of a token, joined counters included, with `name`.
pub fn spells(source: &[u8], token: &Token, name: &[u8]) -> bool
    ensures { result ≡ bytes_eq (name_of source.now token.now) name.now }
{
    is_joined_name(text_of(source, token), token.joined.as_slice(), name)
}

/// Returns the bytes of a token's name, joined counters included. Fails only if out of memory.
pub fn name_of(alloc: Global, source: &[u8], token: &Token) -> Result<Vec<u8>, AllocError>
    ensures { IfOk result (λ name. name.items ≡ name_of source.now token.now) }
{
    let mut name = Vec::from_slice(alloc, text_of(source, token))?;
    let mut buffer = Buffer::new();
    for counter in token.joined.as_slice() {
        name.extend_from_slice(counter_text(&mut buffer, *counter))?;
    }
    Ok(name)
}

// Compares `name` with `bytes` and the counters joined to them, without building the joined name.
pub(crate) fn is_joined_name(bytes: &[u8], counters: &[u16], name: &[u8]) -> bool
    ensures { result ≡ bytes_eq (joined_name bytes.now counters.now) name.now }
{
    let mut rest = match after_bytes(bytes, name) {
        Some(after) => after,
        None => return false,
    };
    for counter in counters {
        match after_counter(*counter, rest) {
            Some(after) => rest = after,
            None => return false,
        }
    }
    rest.is_empty()
}

// Returns whether a name is a constant or a predefined name, CURLINE included.
#[tactic(auto, unfolding(crate::specs::Names::is_taken))]
pub(crate) fn is_taken(given: &GivenNames, source: &[u8], token: &Token) -> bool
    ensures { result ≡ is_taken (seen_given_names given.now) (name_of source.now token.now) }
{
    given.value(source, token).is_some() || spells(source, token, b"CURLINE")
}

// Writes a counter as it is joined to a name: in decimal, with at least two digits.
pub(crate) fn counter_text<'b>(buffer: &'b mut Buffer, counter: u16) -> &'b [u8]
    ensures { result.now ≡ counter_text counter }
{
    if counter < 10 {
        // 100 and a digit end with 0 and the digit.
        return &buffer.format(counter + 100).as_bytes()[1..];
    }
    buffer.format(counter).as_bytes()
}

// Returns what comes after a counter, as it is joined to a name, if `bytes` begin with it.
fn after_counter<'a>(counter: u16, bytes: &'a [u8]) -> Option<&'a [u8]>
    ensures { MatchOption result ((rest : List ℕ) → bytes.now ≢ counter_text counter ++ rest) (λ x. bytes.now ≡ counter_text counter ++ x.now) }
{
    let mut buffer = Buffer::new();
    after_bytes(counter_text(&mut buffer, counter), bytes)
}

// Returns what comes after `front`, if `bytes` begin with it.
fn after_bytes<'a>(front: &[u8], bytes: &'a [u8]) -> Option<&'a [u8]>
    ensures { MatchOption result ((rest : List ℕ) → bytes.now ≢ front.now ++ rest) (λ x. bytes.now ≡ front.now ++ x.now) }
{
    bytes.strip_prefix(front)
}

// Returns the value of a constant. Of equal names the first counts.
#[tactic(auto, using(crate::proofs::TableSteps::found_ends, crate::proofs::TableSteps::found_passed))]
fn constant_value(constants: &Constants, source: &[u8], token: &Token) -> Option<i64>
    ensures { result ≡ entry_of (table_in constants.now) (name_of source.now token.now) }
{
    for i in 0..constants.names.len() {
        if i >= constants.values.len() {
            return None;
        }
        if spells(source, token, &constants.names[i]) {
            return Some(constants.values[i]);
        }
    }
    None
}

// Returns the value of a predefined name. CURLINE has none before lines are counted.
fn predefined_value(rules: &Rules, source: &[u8], token: &Token) -> Option<i64>
    ensures { result ≡ entry_of (predefined rules.now) (name_of source.now token.now) }
{
    if spells(source, token, b"CORESIZE") {
        return Some(i64::from(rules.core()));
    }
    if spells(source, token, b"MAXPROCESSES") {
        return Some(i64::from(rules.tasks()));
    }
    if spells(source, token, b"MAXCYCLES") {
        return Some(i64::from(rules.cycles()));
    }
    if spells(source, token, b"MAXLENGTH") {
        return Some(i64::from(rules.length()));
    }
    if spells(source, token, b"MINDISTANCE") {
        return Some(i64::from(rules.distance()));
    }
    if spells(source, token, b"WARRIORS") {
        return Some(2);
    }
    if spells(source, token, b"VERSION") {
        return Some(92);
    }
    None
}
