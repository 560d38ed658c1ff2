//! A line in a copy of a block: the number of the block's counter is put in.
ghost use Rattle.std.specs.Prelude.{◌≡◌, ◌+◌, ◌<◌, ◌≤◌, ◌&&◌, length, drop, IsTrue, IfOk, IfSome};
ghost use Rattle.rc_expand.specs.Read.Lines.{is_name_token, is_ampersand};
ghost use Rattle.rc_expand.specs.Unroll.Copies.{is_counter, with_number, joins, copied_tokens, BeginsCopy, copied_code, copied_rest, copied_line, all_of};
ghost use Rattle.rc_expand.specs.Unroll.Numberings.{seen_numbering};

use crate::limits;
use crate::line::Tokens;
use crate::names::spells;
use crate::read::raw_line::{Labels, RawLine, RawWord, clone_directive};
use crate::read::words::has_modifier;
use crate::tokens::{clone_token, is_ampersand, is_name_token, with_front};
use rc_text::{Kind, Token};
use std::alloc::{AllocError, Global};

// What a copy of a block with a counter puts in: `number`, in place of the name `counter` of
// `source` or joined to the name before it.
#[derive(Clone, Copy)]
pub(crate) struct Numbering<'a> {
    pub(crate) source: &'a [u8],
    pub(crate) counter: &'a [u8],
    pub(crate) number: u16,
}

impl<'a> Numbering<'a> {
    // Copies a line. If a ninth counter would be joined to a name, the copy is spoiled: it is
    // refused only if it is unrolled, since a block around it may still be dropped.
    #[tactic(auto, unfolding(crate::specs::Unroll::Copies::copied_line))]
    pub(crate) fn copy_line(&self, alloc: Global, raw: &RawLine) -> Result<RawLine, AllocError>
        ensures { IfOk result (λ copy. copy ≡ copied_line (seen_numbering self.now) raw.now) }
    {
        let directive = clone_directive(&raw.directive)?;
        let labels = self.copy_labels(alloc, &raw.labels)?;
        let rest = self.copy_rest(alloc, raw)?;
        match (labels, rest) {
            (Some(labels), Some(rest)) => Ok(RawLine {
                number: raw.number,
                labels,
                word: raw.word,
                directive,
                rest,
                spoiled: raw.spoiled,
            }),
            _ => Ok(RawLine {
                number: raw.number,
                labels: Labels::none(alloc),
                word: raw.word,
                directive,
                rest: Tokens::from_vec(Vec::new(alloc)),
                spoiled: true,
            }),
        }
    }

    // Copies the labels. Returns `None` if a ninth counter would be joined to a name.
    fn copy_labels(&self, alloc: Global, labels: &Labels) -> Result<Option<Labels>, AllocError>
        ensures { IfOk result (λ o. o ≡ all_of (copied_tokens (seen_numbering self.now)) labels.now) }
    {
        let mut copied = Labels::none(alloc);
        for label in labels.as_slice() {
            match self.copy_tokens(alloc, label.as_slice())? {
                None => return Ok(None),
                Some(tokens) => copied.push(tokens)?,
            }
        }
        Ok(Some(copied))
    }

    // Copies what comes after the labels, or after the directive.
    fn copy_rest(&self, alloc: Global, raw: &RawLine) -> Result<Option<Tokens>, AllocError>
        ensures { IfOk result (λ o. o ≡ copied_rest (seen_numbering self.now) raw.now.word raw.now.rest) }
    {
        match raw.word {
            RawWord::Code => self.copy_code(alloc, raw.rest.as_slice()),
            _ => self.copy_tokens(alloc, raw.rest.as_slice()),
        }
    }

    // Copies the tokens of a line of code. The modifier after an opcode is not a name, so it is
    // left alone.
    #[tactic(auto, using(crate::proofs::Unrolling::Copies::code_kept, crate::proofs::Unrolling::Copies::code_plain, crate::proofs::Unrolling::Copies::code_short))]
    fn copy_code(&self, alloc: Global, tokens: &[Token]) -> Result<Option<Tokens>, AllocError>
        ensures { IfOk result (λ o. o ≡ copied_code (seen_numbering self.now) tokens.now) }
    {
        if tokens.len() < 3 || !has_modifier(self.source, &tokens[0], &tokens[1], &tokens[2]) {
            return self.copy_tokens(alloc, tokens);
        }
        match self.copy_tokens(alloc, &tokens[3..])? {
            None => Ok(None),
            Some(copied) => Ok(Some(with_front(alloc, &tokens[..3], copied)?)),
        }
    }

    // Copies tokens. Returns `None` if a ninth counter would be joined to a name.
    fn copy_tokens(&self, alloc: Global, tokens: &[Token]) -> Result<Option<Tokens>, AllocError>
        ensures { IfOk result (λ o. o ≡ copied_tokens (seen_numbering self.now) tokens.now) }
    {
        let mut copied = Vec::with_capacity(alloc, tokens.len())?;
        let mut at = 0;
        while at < tokens.len() {
            let token = &tokens[at];
            if is_name_token(token) {
                match self.copy_name(tokens, at)? {
                    None => return Ok(None),
                    Some((name, after)) => {
                        copied.push(name)?;
                        at = after;
                    }
                }
            } else {
                copied.push(clone_token(token)?)?;
                at += 1;
            }
        }
        Ok(Some(Tokens::from_vec(copied)))
    }

    // Copies the name at index `at`: joins the number to it for each `&` and counter after it, or
    // puts the number in its place if it is the counter itself. Returns the copy and the index
    // after it all, or `None` if a ninth counter would be joined.
    fn copy_name(&self, tokens: &[Token], at: usize) -> Result<Option<(Token, usize)>, AllocError>
        requires { at < length tokens.now }
        ensures copied { IfOk result (BeginsCopy (seen_numbering self.now) tokens.now at) }
        ensures after { IfOk result (λ o. IfSome o (λ p. (at < p.1) × (p.1 ≤ length tokens.now))) }
    {
        let mut name = clone_token(&tokens[at])?;
        let mut made = false;
        let mut after = at + 1;
        while after < tokens.len() && self.joins(&name, tokens, after) {
            if name.joined.len() >= limits::MOST_JOINED {
                return Ok(None);
            }
            name.joined.push(self.number);
            made = true;
            after += 2;
        }
        self.put_number(made, &mut name);
        Ok(Some((name, after)))
    }

    // Returns whether `&` and the counter come after `name`, at index `at` of `tokens`.
    #[tactic(auto, using(crate::proofs::Unrolling::Copies::joins_at, crate::proofs::Unrolling::Copies::joins_short))]
    fn joins(&self, name: &Token, tokens: &[Token], at: usize) -> bool
        requires { at < length tokens.now }
        ensures result { result ≡ joins (seen_numbering self.now) name.now (drop at tokens.now) }
        ensures room { IsTrue result → at + 2 ≤ length tokens.now }
    {
        at + 1 < tokens.len() && self.is_join(name, &tokens[at], &tokens[at + 1])
    }

    // Returns whether three tokens are a name, `&` and the counter.
    fn is_join(&self, name: &Token, sign: &Token, used: &Token) -> bool
        ensures { result ≡ (is_name_token name.now && (is_ampersand sign.now && is_counter (seen_numbering self.now) used.now)) }
    {
        is_name_token(name) && is_ampersand(sign) && self.is_counter(used)
    }

    // Puts the number in place of the counter's name, unless this copy `made` that name by joining.
    // Any other token stays as it is.
    fn put_number(&self, made: bool, token: &mut Token)
        ensures { token.new ≡ with_number (seen_numbering self.now) made token.old }
    {
        if !made && self.is_counter(token) {
            token.kind = Kind::Number(u32::from(self.number));
        }
    }

    // Returns whether a token is the name of the counter.
    fn is_counter(&self, token: &Token) -> bool
        ensures { result ≡ is_counter (seen_numbering self.now) token.now }
    {
        is_name_token(token) && spells(self.source, token, self.counter)
    }
}
