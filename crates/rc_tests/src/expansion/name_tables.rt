//! Name tables, looked up by tokens.

use rc_expand::NameTable;
use rc_text::{Joined, Kind, Token};
use std::alloc::Global;
use std::process::Abort;
use std::test::Fail;

// Returns the token of the first `hi` bytes of a text, with no counter.
fn name_token(hi: usize) -> Token {
    Token {
        kind: Kind::Name,
        lo: 0,
        hi,
        line: 1,
        joined: Joined::new(),
    }
}

// Joins one more counter to `token`, if there is room.
fn joined(token: Token, counter: u16) -> Token {
    let mut token = token;
    if token.joined.len() < 8 {
        token.joined.push(counter);
    }
    token
}

// Adds the first `hi` bytes of `source` to `table`. Returns whether the name is new.
fn add_front(
    alloc: Global,
    table: &mut NameTable<u64>,
    source: &[u8],
    hi: usize,
    value: u64,
) -> Result<bool, Fail> {
    Ok(table.add(alloc, source, &name_token(hi), value)?)
}

fn value_of(table: &NameTable<u64>, source: &[u8], token: &Token) -> Option<u64> {
    table.get(source, token).copied()
}

// A table of the names `x`, `x01` and `x014096` with the values 7, 8 and 9.
#[test]
fn names_are_found_by_their_tokens(rt: HostRuntime) -> Result<(), Fail> {
    let mut table = NameTable::with_capacity(rt.alloc(), 3)?;
    let names = b"x014096".as_slice();
    add_front(rt.alloc(), &mut table, names, 1, 7)?;
    add_front(rt.alloc(), &mut table, names, 3, 8)?;
    add_front(rt.alloc(), &mut table, names, 7, 9)?;
    let source = b"x01y".as_slice();
    let fronts = [
        value_of(&table, source, &name_token(1)),
        value_of(&table, source, &name_token(2)),
        value_of(&table, source, &name_token(3)),
        value_of(&table, source, &name_token(4)),
    ];
    assert_eq!(rt; fronts, [Some(7), None, Some(8), None]);
    let token = joined(name_token(1), 1);
    let one = value_of(&table, source, &token);
    let token = joined(token, 4096);
    let two = value_of(&table, source, &token);
    let token = joined(token, 0);
    let three = value_of(&table, source, &token);
    assert_eq!(rt; [one, two, three], [Some(8), Some(9), None]);
    Ok(())
}

#[test]
fn a_name_keeps_its_first_value(rt: HostRuntime) -> Result<(), Fail> {
    let mut table = NameTable::new(rt.alloc());
    let source = b"step".as_slice();
    let token = name_token(4);
    assert_eq!(rt; value_of(&table, source, &token), None);
    assert!(rt; add_front(rt.alloc(), &mut table, source, 4, 1)?);
    assert!(rt; add_front(rt.alloc(), &mut table, b"Step", 4, 2)?);
    assert!(rt; !add_front(rt.alloc(), &mut table, source, 4, 3)?);
    assert_eq!(rt; value_of(&table, source, &token), Some(1));
    Ok(())
}

// Adds `source` with each of 1000 counters. Each such name is new.
fn add_thousand<A: Abort>(
    rt: &A,
    alloc: Global,
    table: &mut NameTable<u64>,
    source: &[u8],
) -> Result<(), Fail> {
    for i in 0..1000_u16 {
        let token = joined(name_token(1), i);
        assert!(rt; table.add(alloc, source, &token, u64::from(i))?);
    }
    Ok(())
}

#[test]
fn many_names_are_found(rt: HostRuntime) -> Result<(), Fail> {
    let mut table = NameTable::new(rt.alloc());
    let source = b"x".as_slice();
    add_thousand(&rt, rt.alloc(), &mut table, source)?;
    for i in 0..1000_u16 {
        let token = joined(name_token(1), i);
        assert_eq!(rt; value_of(&table, source, &token), Some(u64::from(i)));
    }
    Ok(())
}
