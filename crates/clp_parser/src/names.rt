//! The names of a clause's variables.

ghost use Rattle.std.specs.Prelude.{◌≡◌, ◌<◌, ◌≤◌, ◌++◌, ◌∷◌, [], None, length, nat_lt, if◌then◌else◌, position, IfSome, IfOk, OnOk, OnErr, vec_len, vec_capacity};
ghost use Rattle.std.specs.Map.{lookup};
ghost use Rattle.std.specs.Str.{bytes_eq, IsUtf8};
ghost use Rattle.clp_parser.specs.Names.{few, spelled};

use clp_model::Name;
use indexmap::IndexMap;
use std::alloc::{AllocError, Global};
use std::marker::Model;
use std::str;

/// How many names are looked for one after another. Most clauses have no more.
const FEW: usize = 16;

/// The names of a clause's variables in the order of their numbers, and an empty name for each `_`.
/// Names that come after the first few are found by their hashes, so that no clause is slow to read.
#[derive(Drop)]
pub struct Names {
    names: Vec<Name>,
    /// The places of the names after the first few.
    later: IndexMap<String, usize>,
}

impl Model for Names {
    ghost use Rattle.std.specs.Prelude.{◌≡◌, List, ℕ, drop};
    ghost use Rattle.clp_parser.specs.Names.{few, placed, spelled};

    ghost Value = { List (List ℕ) };

    ghost view = { λ n. n.names.items };

    ghost invariant = { λ n. spelled n.later.entries ≡ placed few (drop few n.names.items) };
}

impl Names {
    pub fn new(alloc: Global) -> Names
        ensures { result ≡ [] }
    {
        Names {
            names: Vec::new(alloc),
            later: IndexMap::new(alloc),
        }
    }

    pub fn len(&self) -> usize
        ensures { result ≡ length self.now }
    {
        self.names.len()
    }

    /// The names in the order of their numbers.
    pub fn as_slice(&self) -> &[Name]
        ensures { result.now ≡ self.now }
    {
        self.names.as_slice()
    }

    /// The first place of a name.
    pub fn place_of(&self, word: &[u8]) -> Option<usize>
        requires text { IsUtf8 word.now }
        requires named { 0 < length word.now }
        ensures value { result ≡ position (bytes_eq word.now) self.now }
        ensures within { IfSome result (λ at. at < length self.now) }
    {
        let names = self.names.as_slice();
        if names.len() <= FEW {
            return place_in(names, word);
        }
        match place_in(&names[..FEW], word) {
            Some(at) => Some(at),
            None => later_place(&self.later, word),
        }
    }

    /// One more variable without a name.
    pub fn push_unnamed(&mut self, alloc: Global) -> Result<(), AllocError>
        ensures ok { OnOk result (self.new ≡ self.old ++ [] ∷ []) }
        ensures err { OnErr result (self.new ≡ self.old) }
    {
        self.names.push(Name::copy_of(alloc, "")?)?;
        Ok(())
    }

    /// One more variable, whose name is new.
    pub fn push(&mut self, alloc: Global, word: &[u8]) -> Result<(), AllocError>
        requires text { IsUtf8 word.now }
        requires named { 0 < length word.now }
        requires new { position (bytes_eq word.now) self.old ≡ None }
        ensures ok { OnOk result (self.new ≡ self.old ++ word.now ∷ []) }
        ensures err { OnErr result (self.new ≡ self.old) }
    {
        let name = Name::copy_of(alloc, text_of(word))?;
        self.names.reserve(1)?;
        note_later(alloc, &mut self.later, self.names.len(), word)?;
        put(&mut self.names, name);
        Ok(())
    }
}

/// The text of bytes that are ASCII.
pub fn text_of(word: &[u8]) -> &str
    requires { IsUtf8 word.now }
    ensures { result.now ≡ word.now }
{
    match str::from_utf8(word) {
        Ok(text) => text,
        Err(_) => unreachable!(),
    }
}

fn place_in(names: &[Name], word: &[u8]) -> Option<usize>
    ensures value { result ≡ position (bytes_eq word.now) names.now }
    ensures within { IfSome result (λ at. at < length names.now) }
{
    names
        .iter()
        .position(|known| word == known.as_str().as_bytes())
}

/// Puts a name last, for which there is room.
fn put(names: &mut Vec<Name>, name: Name)
    requires { vec_len names.old < vec_capacity names.old }
    ensures { names.new.items ≡ names.old.items ++ name ∷ [] }
{
    names.push(name).unwrap();
}

/// The place of a name after the first few.
fn later_place(later: &IndexMap<String, usize>, word: &[u8]) -> Option<usize>
    requires { IsUtf8 word.now }
    ensures { result ≡ lookup (bytes_eq word.now) (spelled later.now.entries) }
{
    later.get(text_of(word)).copied()
}

/// Notes the place of a new name, unless it is among the first few.
fn note_later(
    alloc: Global,
    later: &mut IndexMap<String, usize>,
    place: usize,
    word: &[u8],
) -> Result<(), AllocError>
    requires text { IsUtf8 word.now }
    requires new { lookup (bytes_eq word.now) (spelled later.old.entries) ≡ None }
    ensures ok { OnOk result (spelled later.new.entries ≡ (if nat_lt place few then spelled later.old.entries
        else spelled later.old.entries ++ (word.now, place) ∷ [])) }
    ensures err { OnErr result (later.new.entries ≡ later.old.entries) }
{
    if place < FEW {
        return Ok(());
    }
    let key = String::from_str(alloc, text_of(word))?;
    later.insert(key, place)?;
    Ok(())
}
