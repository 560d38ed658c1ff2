//! Tests of `rc_text`: the tokens, values and names of concrete texts.

use rc_text::{
    EvalFault, Joined, Kind, LexFault, Lexer, NameClass, Names, Token, eval, is_blank,
    is_opcode_word, is_reserved_name, is_same_word, name_class, text_of,
};
use std::alloc::Global;
use std::test::Fail;

// Gives every name the value `number`; if that is `None`, no name has a value.
#[derive(Drop)]
pub(crate) struct OneValue {
    pub(crate) number: Option<i64>,
}

impl Names for OneValue {
    ghost meaning = { λ names _. names.number };

    fn value(&self, _source: &[u8], _name: &Token) -> Option<i64> {
        self.number
    }
}

pub(crate) fn tokens_of(alloc: Global, text: &[u8]) -> Result<Vec<Token>, Fail> {
    let mut lexer = Lexer::new(text);
    let mut tokens = Vec::new(alloc);
    while let Some(token) = lexer.next_token()? {
        tokens.push(token)?;
    }
    Ok(tokens)
}

fn value_of(
    alloc: Global,
    text: &[u8],
    number: Option<i64>,
) -> Result<Result<i64, EvalFault>, Fail> {
    let tokens = tokens_of(alloc, text)?;
    Ok(eval(text, &tokens, &OneValue { number }))
}

// A token with the number of its counters in place of the counters.
#[derive(Clone, Copy, Debug, PartialEq, Eq)]
struct Seen {
    kind: Kind,
    lo: usize,
    hi: usize,
    line: u64,
    counters: usize,
}

fn next_of(lexer: &mut Lexer) -> Result<Option<Seen>, LexFault> {
    match lexer.next_token()? {
        Some(token) => Ok(Some(Seen {
            kind: token.kind,
            lo: token.lo,
            hi: token.hi,
            line: token.line,
            counters: token.joined.len(),
        })),
        None => Ok(None),
    }
}

// What a call of `next_token` returns, and the lexer's line after it.
struct Next {
    name: &'static str,
    want: Result<Option<Seen>, LexFault>,
    line: u64,
}

// The calls on `ignored ?`, `;redcode`, ` DAT` and `12=`, each on a line of its own.
const CALLS: [Next; 5] = [
    Next {
        name: "a name",
        want: Ok(Some(Seen {
            kind: Kind::Name,
            lo: 20,
            hi: 23,
            line: 3,
            counters: 0,
        })),
        line: 3,
    },
    Next {
        name: "a line end",
        want: Ok(Some(Seen {
            kind: Kind::LineEnd,
            lo: 23,
            hi: 24,
            line: 3,
            counters: 0,
        })),
        line: 4,
    },
    Next {
        name: "a decimal",
        want: Ok(Some(Seen {
            kind: Kind::Number(12),
            lo: 24,
            hi: 26,
            line: 4,
            counters: 0,
        })),
        line: 4,
    },
    Next {
        name: "a fault",
        want: Err(LexFault::BadByte),
        line: 4,
    },
    Next {
        name: "the same fault again, at its line",
        want: Err(LexFault::BadByte),
        line: 4,
    },
];

#[test]
fn tokens_have_spans_and_lines(rt: HostRuntime) {
    let mut lexer = Lexer::new(b"ignored ?\n;redcode\n DAT\n12=");
    assert_eq!(rt; lexer.line(), 3);
    for call in &CALLS {
        assert_eq!(rt; next_of(&mut lexer), call.want, "{}", call.name);
        assert_eq!(rt; lexer.line(), call.line, "{}", call.name);
    }
}

#[test]
fn tokens_have_texts(rt: HostRuntime) -> Result<(), Fail> {
    let source = b" MOV.ab 12".as_slice();
    let mut texts = Vec::new(rt.alloc());
    for token in &tokens_of(rt.alloc(), source)? {
        texts.extend_from_slice(text_of(source, token))?;
        texts.push(b' ')?;
    }
    assert_eq!(rt; texts.as_slice(), b"MOV . ab 12 ".as_slice());
    Ok(())
}

// The text of a token of `mov` with the span from `lo` to `hi`.
struct Clipped {
    name: &'static str,
    lo: usize,
    hi: usize,
    want: &'static [u8],
}

const CLIPPED: [Clipped; 5] = [
    Clipped {
        name: "a span within the text",
        lo: 1,
        hi: 3,
        want: b"ov",
    },
    Clipped {
        name: "a span beyond the end",
        lo: 1,
        hi: 9,
        want: b"ov",
    },
    Clipped {
        name: "a span from the end on",
        lo: 3,
        hi: 9,
        want: b"",
    },
    Clipped {
        name: "a span after the end",
        lo: 7,
        hi: 9,
        want: b"",
    },
    Clipped {
        name: "a span that ends before it begins",
        lo: 2,
        hi: 1,
        want: b"",
    },
];

#[test]
fn a_span_is_clipped_to_the_text(rt: HostRuntime) {
    for case in &CLIPPED {
        let token = Token {
            kind: Kind::Name,
            lo: case.lo,
            hi: case.hi,
            line: 1,
            joined: Joined::new(),
        };
        assert_eq!(rt; text_of(b"mov", &token), case.want, "{}", case.name);
    }
}

// The value of an expression in which every name has the value `number`; if that is `None`, no name
// has a value.
struct Expression {
    name: &'static str,
    text: &'static [u8],
    number: Option<i64>,
    want: Result<i64, EvalFault>,
}

const EXPRESSIONS: [Expression; 5] = [
    Expression {
        name: "a product before a sum",
        text: b"2+3*2",
        number: None,
        want: Ok(8),
    },
    Expression {
        name: "a name with a value",
        text: b"x*2",
        number: Some(5),
        want: Ok(10),
    },
    Expression {
        name: "a name without a value",
        text: b"x",
        number: None,
        want: Err(EvalFault::UnknownName),
    },
    Expression {
        name: "no token",
        text: b"",
        number: None,
        want: Err(EvalFault::Syntax),
    },
    Expression {
        name: "a line end after the expression",
        text: b"1\n",
        number: None,
        want: Err(EvalFault::Syntax),
    },
];

#[test]
fn expressions_have_values(rt: HostRuntime) -> Result<(), Fail> {
    for case in &EXPRESSIONS {
        assert_eq!(rt;
            value_of(rt.alloc(), case.text, case.number)?,
            case.want,
            "{}",
            case.name
        );
    }
    Ok(())
}

// The class of a name, and whether it is an opcode.
struct Classified {
    name: &'static str,
    class: NameClass,
    is_opcode: bool,
}

const CLASSIFIED: [Classified; 12] = [
    Classified {
        name: "",
        class: NameClass::NoName,
        is_opcode: false,
    },
    Classified {
        name: "1x",
        class: NameClass::NoName,
        is_opcode: false,
    },
    Classified {
        name: "a-b",
        class: NameClass::NoName,
        is_opcode: false,
    },
    Classified {
        name: "dat",
        class: NameClass::Reserved,
        is_opcode: true,
    },
    Classified {
        name: "Cmp",
        class: NameClass::Reserved,
        is_opcode: true,
    },
    Classified {
        name: "NOP",
        class: NameClass::Reserved,
        is_opcode: true,
    },
    Classified {
        name: "rof",
        class: NameClass::Reserved,
        is_opcode: false,
    },
    Classified {
        name: "CURLINE",
        class: NameClass::Predefined,
        is_opcode: false,
    },
    Classified {
        name: "coresize",
        class: NameClass::Free,
        is_opcode: false,
    },
    Classified {
        name: "movs",
        class: NameClass::Free,
        is_opcode: false,
    },
    Classified {
        name: "PIN",
        class: NameClass::Free,
        is_opcode: false,
    },
    Classified {
        name: "_x01",
        class: NameClass::Free,
        is_opcode: false,
    },
];

#[test]
fn names_have_classes(rt: HostRuntime) {
    for case in &CLASSIFIED {
        let name = case.name.as_bytes();
        let is_reserved = case.class == NameClass::Reserved;
        assert_eq!(rt; name_class(name), case.class, "{}", case.name);
        assert_eq!(rt; is_opcode_word(name), case.is_opcode, "{}", case.name);
        assert_eq!(rt; is_reserved_name(name), is_reserved, "{}", case.name);
    }
}

#[test]
fn counters_are_joined(rt: HostRuntime) {
    let mut joined = Joined::new();
    assert!(rt; joined.is_empty());
    joined.push(7);
    joined.push(65535);
    assert_eq!(rt; joined.len(), 2);
    assert_eq!(rt; joined.as_slice(), [7, 65535].as_slice());
}

#[test]
fn blanks_do_not_end_a_line_and_words_ignore_case(rt: HostRuntime) {
    for &byte in &[b' ', b'\t', b'\r'] {
        assert!(rt; is_blank(byte), "{byte}");
    }
    assert!(rt; !is_blank(b'\n'));
    assert!(rt; is_same_word(b"MOV", b"mOv"));
    assert!(rt; !is_same_word(b"MOV", b"MOVE"));
}
