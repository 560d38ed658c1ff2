//! What tests of several modules share.
ghost use Rattle.rc_instr.specs.Warrior.{Fits};

use rc_instr::{Rules, RulesError, Warrior, write_loadfile};
use std::alloc::Global;
use std::test::Fail;

// A text, and what it gives: lines, a load file or the text of a fault.
pub(crate) struct Case {
    pub(crate) name: &'static str,
    pub(crate) text: &'static [u8],
    pub(crate) want: &'static [u8],
}

// Makes rules of a core of 16 cells, 20 cycles, 4 tasks, length 4 and distance 4.
pub(crate) fn small_rules() -> Result<Rules, RulesError> {
    Rules::try_new(16, 20, 4, 4, 4)
}

// Returns the load file of `warrior`.
pub(crate) fn load_of(alloc: Global, warrior: &Warrior, rules: &Rules) -> Result<Vec<u8>, Fail>
    requires { Fits rules.now warrior.now }
{
    let mut text = Vec::new(alloc);
    write_loadfile(alloc, warrior, rules, &mut text)?;
    Ok(text)
}

// Returns the names of the constants that texts are read with: K alone. Callers give it the value
// 7.
pub(crate) fn constant_name(alloc: Global) -> Result<Vec<Vec<u8>>, Fail> {
    let mut names = Vec::new(alloc);
    names.push(b"K".to_vec(alloc)?)?;
    Ok(names)
}

// Appends `piece` to `text`, `count` times.
pub(crate) fn push_times(text: &mut Vec<u8>, piece: &[u8], count: usize) -> Result<(), Fail> {
    for _ in 0..count {
        text.extend_from_slice(piece)?;
    }
    Ok(())
}
