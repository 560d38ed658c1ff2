//! Tables of names, looked up by tokens.
ghost use Rattle.std.specs.Prelude.{◌≡◌, List, ℕ, [], Some, not, is_some, option_map, fold, flat_map, IfOk, OnOk, OnErr};
ghost use Rattle.std.specs.Hash as fed;
ghost use Rattle.std.specs.Str.{bytes_eq};
ghost use Rattle.rc_text.specs.Symbols.{name_of, counter_text};
ghost use Rattle.rc_expand.specs.Names.{entry_of};
ghost use Rattle.rc_expand.specs.NameTables.{joined_name, with_name, at_index};

use crate::names::{counter_text, is_joined_name, name_of};
use indexmap::{Equivalent, IndexMap};
use itoa::Buffer;
use rc_text::{Token, text_of};
use std::alloc::{AllocError, Global};
use std::hash::{Hash, Hasher};
use std::marker::Model;

/// Names with values, each name once, in the order of insertion.
#[derive(Drop)]
pub struct NameTable<V> {
    entries: IndexMap<KeptName, V>,
}

impl<V> Model for NameTable<V> {
    ghost use Rattle.std.specs.Prelude.{List, ℕ};

    ghost Value = { List (List ℕ × V) };

    ghost view = { λ t. t.entries.entries };
}

impl<V: Drop> NameTable<V> {
    /// Creates an empty table, without allocating.
    pub fn new(alloc: Global) -> Self
        ensures { result ≡ [] }
    {
        NameTable {
            entries: IndexMap::new(alloc),
        }
    }

    /// Creates an empty table with room for `capacity` names. Fails only if out of memory.
    pub fn with_capacity(alloc: Global, capacity: usize) -> Result<Self, AllocError>
        ensures { IfOk result (λ t. t ≡ []) }
    {
        let entries = IndexMap::with_capacity(alloc, capacity)?;
        Ok(NameTable { entries })
    }

    /// Adds the name that a token spells, joined counters included, with its value, unless the name
    /// is in the table already: then the table stays as it is, and `value` is dropped. Returns
    /// whether the name is new.
    ///
    /// Fails only if out of memory; the table then stays as it is.
    pub fn add(
        &mut self,
        alloc: Global,
        source: &[u8],
        token: &Token,
        value: V,
    ) -> Result<bool, AllocError>
        ensures added { IfOk result (λ added. added ≡ not (is_some (entry_of self.old (name_of source.now token.now)))) }
        ensures table { OnOk result (self.new ≡ with_name self.old (name_of source.now token.now) value) }
        ensures refused { OnErr result (self.new ≡ self.old) }
    {
        self.insert(kept_name(alloc, source, token)?, value)
    }

    // Adds a name with its value, unless the name is in the table already. Returns whether it is
    // new. Fails only if out of memory; the table then stays as it is.
    pub(crate) fn insert(&mut self, name: KeptName, value: V) -> Result<bool, AllocError>
        ensures added { IfOk result (λ added. added ≡ not (is_some (entry_of self.old name))) }
        ensures table { OnOk result (self.new ≡ with_name self.old name value) }
        ensures refused { OnErr result (self.new ≡ self.old) }
    {
        let before = self.entries.len();
        self.entries.entry(name)?.or_insert(value);
        Ok(self.entries.len() > before)
    }

    /// Returns the value of the name that a token spells, joined counters included.
    pub fn get(&self, source: &[u8], token: &Token) -> Option<&V>
        ensures { option_map (λ v. v.now) result ≡ entry_of self.now (name_of source.now token.now) }
    {
        self.entries.get(key_of(source, token))
    }

    // Returns the index of the name that a token spells.
    pub(crate) fn index_of(&self, source: &[u8], token: &Token) -> Option<usize>
        ensures { at_index self.now result ≡ entry_of self.now (name_of source.now token.now) }
    {
        self.entries.get_index_of(key_of(source, token))
    }

    // Returns the value at an index.
    pub(crate) fn at(&self, index: usize) -> Option<&V>
        ensures { option_map (λ v. v.now) result ≡ at_index self.now (Some index) }
    {
        let (_, value) = self.entries.get_index(index)?;
        Some(value)
    }
}

/// A name in a table.
#[doc(hidden)]
#[derive(Debug, Drop)]
pub struct KeptName {
    bytes: Vec<u8>,
}

impl Model for KeptName {
    ghost use Rattle.std.specs.Prelude.{List, ℕ};

    ghost Value = { List ℕ };

    ghost view = { λ n. n.bytes.items };
}

impl PartialEq for KeptName {
    ghost use Rattle.std.specs.Str.{bytes_eq};
    ghost use Rattle.std.specs.Cmp.{partial_equiv_from_equiv};
    ghost use Rattle.std.specs.Cmp.Lexicographic.{nat_list_eq_equiv};

    ghost eq = { bytes_eq };

    ghost laws = { partial_equiv_from_equiv nat_list_eq_equiv };

    fn eq(&self, other: &KeptName) -> bool {
        self.bytes.as_slice() == other.bytes.as_slice()
    }
}

impl Eq for KeptName {
    ghost use Rattle.std.specs.Cmp.Lexicographic.{nat_list_eq_equiv};

    ghost laws = { nat_list_eq_equiv };
}

impl Hash for KeptName {
    ghost use Rattle.std.specs.Prelude.{flat_map};
    ghost use Rattle.std.specs.Hash as fed;
    ghost use Rattle.std.proofs.Common.{ap};
    ghost use Rattle.std.specs.Cmp.Lexicographic.{bytes_decides};

    ghost hash_input = { flat_map fed.u8 };

    ghost respects_eq = { λ x y h. ap (flat_map fed.u8) ((bytes_decides x y).0 h) };

    fn hash<H: Hasher>(&self, state: &mut H) {
        feed_bytes(self.bytes.as_slice(), state);
    }
}

// Copies the name of a token.
pub(crate) fn kept_name(alloc: Global, source: &[u8], token: &Token) -> Result<KeptName, AllocError>
    ensures { IfOk result (λ name. name ≡ name_of source.now token.now) }
{
    let bytes = name_of(alloc, source, token)?;
    Ok(KeptName { bytes })
}

// A name by its bytes and the counters joined to it, so that a look-up builds no joined name.
#[derive(Clone, Copy, Debug, PartialEq, Eq)]
struct JoinedName<'a> {
    bytes: &'a [u8],
    counters: &'a [u16],
}

// Makes the key by which the name of a token is looked up, without a copy.
fn key_of<'a>(source: &'a [u8], token: &'a Token) -> JoinedName<'a>
    ensures { joined_name result.bytes.now result.counters.now ≡ name_of source.now token.now }
{
    JoinedName {
        bytes: text_of(source, token),
        counters: token.joined.as_slice(),
    }
}

impl<'a> Hash for JoinedName<'a> {
    ghost use Rattle.std.specs.Prelude.{flat_map};
    ghost use Rattle.std.specs.Hash as fed;
    ghost use Rattle.std.specs.Cmp.Rules.{hashing};
    ghost use Rattle.std.proofs.Common.{rules};
    ghost use Rattle.rc_expand.specs.NameTables.{joined_name};

    ghost hash_input = { λ n. flat_map fed.u8 (joined_name n.bytes.now n.counters.now) };

    ghost respects_eq = { Prim.search (hashing, rules) };

    fn hash<H: Hasher>(&self, state: &mut H) {
        feed_bytes(self.bytes, state);
        for counter in self.counters {
            feed_counter(*counter, state);
        }
    }
}

impl<'a> Equivalent<KeptName> for JoinedName<'a> {
    ghost use Rattle.std.specs.Prelude.{flat_map};
    ghost use Rattle.std.specs.Str.{bytes_eq};
    ghost use Rattle.std.specs.Hash as fed;
    ghost use Rattle.std.proofs.Common.{ap};
    ghost use Rattle.std.specs.Cmp.Lexicographic.{bytes_decides, nat_list_eq_equiv};
    ghost use Rattle.rc_expand.specs.NameTables.{joined_name};

    ghost equivalent = { λ n k. bytes_eq (joined_name n.bytes.now n.counters.now) k };

    ghost respects_hash = { λ n k h. ap (flat_map fed.u8) ((bytes_decides (joined_name n.bytes.now n.counters.now) k).0 h) };

    ghost respects_eq = { λ n x y. nat_list_eq_equiv.congr (joined_name n.bytes.now n.counters.now) x y };

    fn equivalent(&self, key: &KeptName) -> bool {
        is_joined_name(self.bytes, self.counters, key.bytes.as_slice())
    }
}

fn feed_bytes<H: Hasher>(bytes: &[u8], state: &mut H)
    ensures { state.new ≡ fold H.write state.old (flat_map fed.u8 bytes.now) }
{
    Hash::hash_slice(bytes, state);
}

// Feeds a counter, as it is joined to a name.
fn feed_counter<H: Hasher>(counter: u16, state: &mut H)
    ensures { state.new ≡ fold H.write state.old (flat_map fed.u8 (counter_text counter)) }
{
    let mut buffer = Buffer::new();
    feed_bytes(counter_text(&mut buffer, counter), state);
}
