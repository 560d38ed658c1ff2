//! Laws of tokens, and of expressions and their values.
ghost use Rattle.std.specs.Prelude.{◌≡◌, ◌↔◌, List, ℕ, ℤ, All, Ok, Err, length, true};
ghost use Rattle.rc_text.specs.declared.fault.EvalFault.{EvalFault};
ghost use Rattle.rc_text.specs.TokenTexts.{StandsIn};
ghost use Rattle.rc_text.specs.Gaps.{OnlyGapsBetween};
ghost use Rattle.rc_text.specs.Headers.{header_of};
ghost use Rattle.rc_text.specs.Tokens.{tokens_of, InOrder};
ghost use Rattle.rc_text.specs.Symbols.{LiesIn, Symbol};
ghost use Rattle.rc_text.specs.Grammar.{Tree, IsGrammatical, spelling_of};
ghost use Rattle.rc_text.specs.Values.{Meaning, Outcome, IsValue, IsEvalFault, HasOutcome};
ghost use Rattle.rc_text.specs.Reading.{evaluation_of};

/// Each token of a text is spelled by its bytes and is the longest from there. Its line is 1 plus
/// the number of line feeds before it.
pub fn tokens_stand_in_the_text()
    ensures { (text : List ℕ) → All (StandsIn text) (tokens_of text).tokens }
{}

/// The spans of the tokens are in order. Only blanks and comments lie between the header and the
/// first token, between tokens, and after the last one, up to the end of the text or a fault.
pub fn tokens_skip_blanks_and_comments()
    ensures order { (text : List ℕ) → InOrder (header_of text).bytes (length text) (tokens_of text).tokens }
    ensures gaps { (text : List ℕ) → OnlyGapsBetween text true (header_of text).bytes (tokens_of text).tokens (tokens_of text).ending }
{}

/// The span of each token of a text lies in the text.
pub fn tokens_lie_in_the_text()
    ensures { (text : List ℕ) → All (LiesIn text) (tokens_of text).tokens }
{}

/// The grammar is unambiguous: no two of its trees have the same symbols.
pub fn one_tree()
    ensures { (t u : Tree) →
        IsGrammatical t → IsGrammatical u → spelling_of t ≡ spelling_of u → t ≡ u }
{}

/// Reading from the left finds the value of an expression exactly if it has one.
pub fn reading_finds_the_value()
    ensures { (names : Meaning) (symbols : List Symbol) (x : ℤ) →
        (evaluation_of names symbols ≡ Ok x) ↔ IsValue names symbols x }
{}

/// A fault that reading from the left finds is a fault of the expression.
pub fn reading_finds_a_fault()
    ensures { (names : Meaning) (symbols : List Symbol) (fault : EvalFault) →
        evaluation_of names symbols ≡ Err fault → IsEvalFault names symbols fault }
{}

/// An expression has at most one outcome, a value or a fault, and reading from the left finds it.
pub fn reading_finds_every_outcome()
    ensures { (names : Meaning) (symbols : List Symbol) (outcome : Outcome) →
        HasOutcome names symbols outcome → evaluation_of names symbols ≡ outcome }
{}
