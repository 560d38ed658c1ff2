//! Calls that take no memory, when none is left.
//!
//! `make test` also runs these tests with every request for memory refused that comes after
//! `use_up` (gate/refuse/growth.py). They then end at their last line, which makes a request.
use crate::tokens::{OneValue, tokens_of};
use rc_expand::{Constants, NameTable, expand, spells};
use rc_instr::{
    Code, Instruction, Mode, Modifier, Opcode, Outlet, Rules, Warrior, after, decimal_at,
    decimal_of, default_modifier, modifier_named, opcode_named, padded_decimal,
};
use rc_text::{
    Joined, Lexer, NameClass, eval, is_blank, is_opcode_word, is_reserved_name, is_same_word,
    name_class, text_of,
};
use std::alloc::{AllocError, Global};
use std::test::Fail;

// Makes a request that is larger than all others.
fn use_up(alloc: Global) -> Result<(), AllocError> {
    drop(Vec::<u8>::with_capacity(alloc, 16_777_216)?);
    Ok(())
}

// Makes a small request.
fn ask(alloc: Global) -> Result<(), Fail> {
    drop(Vec::<u8>::with_capacity(alloc, 1)?);
    Ok(())
}

#[test]
fn words_are_read(rt: HostRuntime) -> Result<(), Fail> {
    use_up(rt.alloc())?;
    assert_eq!(rt; opcode_named(b"mov"), Some(Opcode::Mov));
    assert_eq!(rt; modifier_named(b"ab"), Some(Modifier::AB));
    assert_eq!(rt;
        default_modifier(Opcode::Dat, Mode::Direct, Mode::Direct),
        Modifier::F
    );
    assert!(rt; Instruction::empty().is_same(&Instruction::empty()));
    assert!(rt; is_blank(b' ') && is_same_word(b"mov", b"MOV"));
    assert!(rt; is_opcode_word(b"mov") && is_reserved_name(b"org"));
    assert_eq!(rt; name_class(b"CORESIZE"), NameClass::Predefined);
    ask(rt.alloc())
}

#[test]
fn decimals_are_read(rt: HostRuntime) -> Result<(), Fail> {
    use_up(rt.alloc())?;
    assert!(rt; after(b':', b":1").is_some() && decimal_at(b"12:").is_some());
    assert_eq!(rt; decimal_of(b"4294967295"), Some(4_294_967_295));
    assert_eq!(rt; padded_decimal(b"012"), Some(12));
    ask(rt.alloc())
}

#[test]
fn tokens_are_taken(rt: HostRuntime) -> Result<(), Fail> {
    use_up(rt.alloc())?;
    let text = b"x01 y".as_slice();
    let mut lexer = Lexer::new(text);
    for _ in 0..2 {
        if let Some(token) = lexer.next_token()? {
            assert!(rt; text_of(text, &token).len() <= 3);
            assert!(rt; !spells(text, &token, b"z"));
        }
    }
    assert_eq!(rt; lexer.line(), 1);
    let mut joined = Joined::new();
    joined.push(7);
    assert_eq!(rt; (joined.len(), joined.is_empty()), (1, false));
    assert_eq!(rt; joined.as_slice(), [7].as_slice());
    ask(rt.alloc())
}

// The name K has the value 7 in the table, and every name has in the expression.
#[test]
fn values_are_found(rt: HostRuntime) -> Result<(), Fail> {
    let text = b"K*(2+3)".as_slice();
    let tokens = tokens_of(rt.alloc(), text)?;
    let mut table = NameTable::new(rt.alloc());
    for token in &tokens {
        table.add(rt.alloc(), text, token, 7u64)?;
    }
    use_up(rt.alloc())?;
    assert_eq!(rt; eval(text, &tokens, &OneValue { number: Some(7) }), Ok(35));
    for token in &tokens {
        assert_eq!(rt; table.get(text, token).copied(), Some(7));
    }
    ask(rt.alloc())
}

#[test]
fn lines_are_looked_at(rt: HostRuntime) -> Result<(), Fail> {
    let constants = Constants {
        names: &[],
        values: &[],
    };
    let text = b"x y DAT 1\nz NOP\n".as_slice();
    let expanded = expand(rt.alloc(), text, &constants, &Rules::standard())?;
    use_up(rt.alloc())?;
    let mut labels = 0usize;
    for line in expanded.lines.as_slice() {
        labels = labels.saturating_add(line.labels.as_slice().len());
    }
    assert_eq!(rt; labels, 3);
    ask(rt.alloc())
}

#[test]
fn rules_and_warriors_are_made(rt: HostRuntime) -> Result<(), Fail> {
    let mut code = Vec::new(rt.alloc());
    code.push(Instruction::empty())?;
    use_up(rt.alloc())?;
    let rules = Rules::try_new(16, 20, 4, 4, 4)?;
    assert_eq!(rt; (rules.core(), rules.cycles(), rules.tasks()), (16, 20, 4));
    assert_eq!(rt; (rules.length(), rules.distance()), (4, 4));
    let code = Code::from_vec(code);
    assert_eq!(rt; code.as_slice().len(), 1);
    let warrior = Warrior::try_new(code.into_vec(), 0, &rules)?;
    assert_eq!(rt; (warrior.code().len(), warrior.start()), (1, 0));
    assert!(rt; warrior.fits(&Rules::standard()));
    ask(rt.alloc())
}

#[test]
fn outlets_pass_on(rt: HostRuntime) -> Result<(), Fail> {
    let room = Vec::with_capacity(rt.alloc(), 8)?;
    use_up(rt.alloc())?;
    let mut outlet = Outlet::new(room);
    assert!(rt; outlet.write(b"ab").is_ok() && outlet.write_all(b"cd").is_ok());
    assert!(rt; outlet.finish().is_ok() && !outlet.failed());
    assert_eq!(rt; outlet.into_inner().len(), 4);
    ask(rt.alloc())
}
