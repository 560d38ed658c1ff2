//! Rules and their numbers, and decimals in texts.
use rc_instr::{Rules, after, decimal_at, decimal_of};
use std::test::Fail;

fn numbers_of(rules: &Rules) -> [u32; 5] {
    [
        rules.core(),
        rules.cycles(),
        rules.tasks(),
        rules.length(),
        rules.distance(),
    ]
}

#[test]
fn rules_keep_their_numbers(rt: HostRuntime) -> Result<(), Fail> {
    let rules = Rules::try_new(65535, 1_000_000, 8000, 200, 32767)?;
    assert_eq!(rt; numbers_of(&rules), [65535, 1_000_000, 8000, 200, 32767]);
    assert_eq!(rt;
        numbers_of(&Rules::standard()),
        [8000, 80000, 8000, 100, 100]
    );
    assert_eq!(rt; rules.clone()?, rules);
    Ok(())
}

#[test]
fn decimals_of_texts(rt: HostRuntime) -> Result<(), Fail> {
    assert_eq!(rt; decimal_of(b"4294967295"), Some(4_294_967_295));
    assert_eq!(rt; decimal_of(b""), None);
    let (number, rest) = decimal_at(b"12:3").ok_or("no decimal at the front")?;
    assert_eq!(rt; number, 12);
    let digits = after(b':', rest).ok_or("no colon at the front")?;
    assert_eq!(rt; digits, b"3".as_slice());
    Ok(())
}
