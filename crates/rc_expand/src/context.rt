//! What the second and the third pass of the expansion share.
ghost use Rattle.rc_expand.specs.NameTables.{AreLinks};

use crate::name_table::NameTable;
use crate::names::GivenNames;
use crate::read::equs::Equ;
use std::alloc::Global;

// The source, the names given from outside of it, and its EQU names. For each EQU name the links
// say which of its tokens are EQU names themselves.
#[derive(Drop)]
pub(crate) struct Context<'a> {
    pub(crate) alloc: Global,
    pub(crate) source: &'a [u8],
    pub(crate) given: &'a GivenNames<'a>,
    pub(crate) equs: &'a NameTable<Equ>,
    pub(crate) links: &'a [Vec<Option<usize>>],
    ghost linked: { AreLinks source.now equs.now links.now },
}
