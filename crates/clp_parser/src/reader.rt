//! A reader of one text: a cursor over its tokens, and the variables of the clause so far.

ghost use Rattle.std.specs.Prelude.{◌≡◌, ◌<◌, ◌^◌, ◌+◌, length, true, IsUtf8};
ghost use Rattle.std.specs.Bool.{OnTrue};
ghost use Rattle.token_model.specs.Remaining as token;
ghost use Rattle.token_model.specs.Parsers.{Reads};
ghost use Rattle.token_model.specs.Numbers.{number_value};
ghost use Rattle.token_model.specs.declared.token.Lexeme.TheVariants.{Number as number_lexeme, Variable as variable_lexeme};
ghost use Rattle.token_cursor.specs.Escapes.{name_by};
ghost use Rattle.clp_grammar.specs.Input as spec;
ghost use Rattle.clp_grammar.specs.Names as naming;
ghost use Rattle.clp_parser.specs.Readable.{is_whole};

use crate::names::Names;
use clp_model::Name;
use std::alloc::Global;
use std::marker::Model;
use token_cursor::{Cursor, name_of};
use token_model::{Fault, Kind, Lexeme, ReadError};

/// How many brackets may be open at a place.
pub const MAX_OPEN: usize = 256;

/// A text in UTF-8 that is read clause by clause.
///
/// Contracts see it as what remains of the text, and the names of the variables of the clause so far.
#[derive(Drop)]
pub struct Reader<'a> {
    cursor: Cursor<'a>,
    names: Names,
}

impl<'a> Model for Reader<'a> {
    ghost use Rattle.clp_grammar.specs.Input.{Input};
    ghost use Rattle.clp_parser.specs.Readable.{IsReadable};

    ghost Value = { Input };

    ghost view = { λ r. record { remaining = r.cursor; names = r.names } };

    ghost invariant = { λ r. IsReadable r.cursor r.names };
}

fn is_opening(lexeme: Lexeme) -> bool
    ensures { result ≡ spec.is_opening lexeme }
{
    match lexeme {
        Lexeme::OpenRound | Lexeme::OpenSquare | Lexeme::OpenCurly => true,
        _ => false,
    }
}

impl<'a> Reader<'a> {
    /// A reader before the first token.
    #[tactic(auto, using(crate::proofs::Inputs::whole_readable))]
    pub fn new(alloc: Global, text: &'a [u8]) -> Reader<'a>
        requires text { IsUtf8 text.now }
        requires small { length text.now < 2 ^ 32 }
        ensures { result ≡ spec.start (token.whole text.now) }
    {
        Reader {
            cursor: Cursor::new(text),
            names: Names::new(alloc),
        }
    }

    /// The next clause has variables of its own.
    #[tactic(auto, using(crate::proofs::Inputs::start_readable))]
    pub fn start_clause(&mut self, alloc: Global)
        ensures { self.new ≡ spec.start self.old.remaining }
    {
        self.names = Names::new(alloc);
    }

    /// What the next token is.
    pub fn peek(&self) -> Lexeme
        ensures { result ≡ token.lexeme self.now.remaining }
    {
        self.cursor.peek()
    }

    /// Whether such a token comes next.
    pub fn sees(&self, wanted: Lexeme) -> bool
        ensures value { result ≡ spec.sees wanted self.now }
        ensures next { OnTrue result (token.lexeme self.now.remaining ≡ wanted) }
    {
        self.cursor.sees(wanted)
    }

    /// How many bytes there are from the next token on.
    pub fn left(&self) -> usize
        ensures { result ≡ spec.left self.now }
    {
        self.cursor.left()
    }

    /// A fault of this kind at the next token.
    pub fn fail(&self, kind: Kind) -> Fault
        ensures { result ≡ token.fault_at kind self.now.remaining }
    {
        self.cursor.fail(kind)
    }

    /// Why no rule goes on here, where this many more brackets may be open.
    #[tactic(auto, using(crate::proofs::Inputs::refusal_before, crate::proofs::Inputs::refusal_at_last))]
    pub fn refusal(&self, more: usize) -> Fault
        ensures { result ≡ spec.refusal more self.now.remaining }
    {
        if more > 0 {
            return self.cursor.refusal();
        }
        if is_opening(self.peek()) {
            self.fail(Kind::TooDeep)
        } else {
            self.cursor.refusal()
        }
    }

    /// The bytes of the next token, which is then passed.
    #[tactic(auto, using(crate::proofs::Inputs::spelling_readable, crate::proofs::Inputs::name_readable))]
    pub fn take(&mut self) -> &'a [u8]
        requires { is_whole (token.lexeme self.old.remaining) ≡ true }
        ensures spelling { result.now ≡ token.spelling self.old.remaining }
        ensures text { IsUtf8 result.now }
        ensures name { IsUtf8 (name_by (token.lexeme self.old.remaining) (token.spelling self.old.remaining)) }
        ensures next { self.new ≡ spec.passed self.old }
    {
        self.cursor.take()
    }

    /// Passes the next token.
    pub fn pass(&mut self)
        requires { is_whole (token.lexeme self.old.remaining) ≡ true }
        ensures { self.new ≡ spec.passed self.old }
    {
        self.take();
    }

    /// Whether such a token comes next, which is then passed.
    #[tactic(auto, unfolding(clp_grammar::specs::Input::eat))]
    pub fn eat(&mut self, wanted: Lexeme) -> bool
        requires { is_whole wanted ≡ true }
        ensures { Reads (spec.eat wanted self.old) (Ok result) self.new }
    {
        self.cursor.eat(wanted)
    }

    /// Passes such a token, where this many more brackets may be open.
    ///
    /// # Errors
    ///
    /// Another token comes next.
    #[tactic(auto, unfolding(clp_grammar::specs::Input::expect))]
    pub fn expect(&mut self, more: usize, wanted: Lexeme) -> Result<(), ReadError>
        requires { is_whole wanted ≡ true }
        ensures { Reads (spec.expect more wanted self.old) result self.new }
    {
        if self.sees(wanted) {
            self.pass();
            Ok(())
        } else {
            Err(ReadError::Fault(self.refusal(more)))
        }
    }

    /// The name that comes next, plain or quoted.
    pub fn name(&mut self, alloc: Global) -> Result<Name, ReadError>
        requires { is_whole (token.lexeme self.old.remaining) ≡ true }
        ensures { Reads (spec.name (token.lexeme self.old.remaining) self.old) result self.new }
    {
        let lexeme = self.peek();
        let spelling = self.take();
        Ok(name_of(alloc, spelling, lexeme)?)
    }

    /// The number that comes next.
    pub fn number(&mut self) -> u64
        requires { token.lexeme self.old.remaining ≡ number_lexeme }
        ensures value { result ≡ number_value (token.spelling self.old.remaining) }
        ensures next { self.new ≡ spec.passed self.old }
    {
        self.cursor.take_number()
    }

    /// The number of the variable that comes next.
    #[tactic(auto, using(crate::proofs::Inputs::variable_has_byte, crate::proofs::Inputs::variable_leaves_room), unfolding(clp_grammar::specs::Names::variable))]
    pub fn variable(&mut self, alloc: Global) -> Result<u32, ReadError>
        requires { token.lexeme self.old.remaining ≡ variable_lexeme }
        ensures { Reads (naming.variable self.old) result self.new }
    {
        let _room = &self.names;
        let word = self.take();
        self.numbered(alloc, word)
    }

    #[tactic(auto, using(crate::proofs::Inputs::named_readable), unfolding(clp_grammar::specs::Names::numbered, clp_grammar::specs::Names::fresh))]
    fn numbered(&mut self, alloc: Global, word: &[u8]) -> Result<u32, ReadError>
        requires text { IsUtf8 word.now }
        requires named { 0 < length word.now }
        requires room { length self.old.remaining.text + length self.old.names + 1 < 2 ^ 32 }
        ensures { Reads (naming.numbered word.now self.old) result self.new }
    {
        if word == b"_".as_slice() {
            self.names.push_unnamed(alloc)?;
            return Ok(self.names.len() as u32);
        }
        match self.names.place_of(word) {
            Some(at) => Ok(at as u32 + 1),
            None => {
                self.names.push(alloc, word)?;
                Ok(self.names.len() as u32)
            }
        }
    }

    /// The names of the variables of the clause so far, by their numbers, and an empty one for each `_`.
    pub fn names(&self) -> &[Name]
        ensures { result.now ≡ self.now.names }
    {
        self.names.as_slice()
    }

    /// How many variables the clause has so far.
    pub fn variables(&self) -> usize
        ensures { result ≡ length self.now.names }
    {
        self.names.len()
    }
}
