//! A cursor over the tokens of a text.

ghost use Rattle.std.specs.Prelude.{◌≡◌, ◌&&◌, OnErr, length, nat_eq, false};
ghost use Rattle.std.specs.Bool.{OnTrue};
ghost use Rattle.token_model.specs.Remaining as spec;
ghost use Rattle.token_model.specs.Parsers.{ReadsExactly};
ghost use Rattle.token_model.specs.Numbers.{number_value as value_of_digits};
ghost use Rattle.token_model.specs.declared.token.Lexeme.TheVariants.{Number as number_lexeme};

use crate::number::number_value;
use crate::token::first_token;
use crate::white::skip;
use std::marker::Model;
use token_model::{Fault, Kind, Lexeme, Token};

/// A text that is read token by token.
///
/// Contracts see it as the bytes after the last token that was taken, and whether that was a number.
#[derive(Drop)]
pub struct Cursor<'a> {
    text: &'a [u8],
    after_number: bool,
    /// The text from the next token on.
    ahead: &'a [u8],
    /// The next token, which is looked at more often than it is taken.
    token: Token,
}

impl<'a> Model for Cursor<'a> {
    ghost use Rattle.token_model.specs.Remaining.{Remaining};
    ghost use Rattle.token_cursor.specs.Ahead.{LooksAhead};

    ghost Value = { Remaining };

    ghost view = { λ c. record { text = c.text.now; after_number = c.after_number } };

    ghost invariant = { λ c. LooksAhead (record { text = c.text.now; after_number = c.after_number }) c.ahead.now c.token };
}

#[tactic(auto, unfolding(token_model::specs::Remaining::same_lexeme))]
fn same_lexeme(a: Lexeme, b: Lexeme) -> bool
    ensures value { result ≡ spec.same_lexeme a b }
    ensures same { OnTrue result (a ≡ b) }
{
    a == b
}

#[tactic(auto, unfolding(token_model::specs::Remaining::reason))]
fn reason(lexeme: Lexeme) -> Kind
    ensures { result ≡ spec.reason lexeme }
{
    match lexeme {
        Lexeme::Finish => Kind::UnexpectedEnd,
        Lexeme::NameTooLong => Kind::NameTooLong,
        Lexeme::NumberTooLarge => Kind::NumberTooLarge,
        Lexeme::Bad => Kind::BadToken,
        Lexeme::Unsupported => Kind::Unsupported,
        _ => Kind::Unexpected,
    }
}

impl<'a> Cursor<'a> {
    /// A cursor before the first token.
    pub fn new(text: &'a [u8]) -> Cursor<'a>
        ensures { result ≡ spec.whole text.now }
    {
        Cursor::after(text, false)
    }

    /// A cursor after a token, which was a number or not.
    #[tactic(auto, unfolding(token_model::specs::Remaining::ahead, token_model::specs::Remaining::next_token, token_model::specs::Remaining::touches_number))]
    fn after(text: &'a [u8], after_number: bool) -> Cursor<'a>
        ensures { result ≡ record { text = text.now; after_number = after_number } }
    {
        let ahead = skip(text);
        let touches_number = after_number && ahead.len() == text.len();
        let token = first_token(touches_number, ahead);
        Cursor {
            text,
            after_number,
            ahead,
            token,
        }
    }

    /// What the next token is.
    #[tactic(auto, unfolding(token_model::specs::Remaining::lexeme, token_model::specs::Remaining::next_token))]
    pub fn peek(&self) -> Lexeme
        ensures { result ≡ spec.lexeme self.now }
    {
        self.token.lexeme
    }

    /// How many bytes there are from the next token on.
    #[tactic(auto, unfolding(token_model::specs::Remaining::left))]
    pub fn left(&self) -> usize
        ensures { result ≡ spec.left self.now }
    {
        self.ahead.len()
    }

    /// A fault of this kind at the next token.
    #[tactic(auto, unfolding(token_model::specs::Remaining::fault_at))]
    pub fn fail(&self, kind: Kind) -> Fault
        ensures { result ≡ spec.fault_at kind self.now }
    {
        Fault {
            left: self.left(),
            kind,
        }
    }

    /// Why no rule goes on here: the fault of the next token, or that it is unexpected.
    #[tactic(auto, unfolding(token_model::specs::Remaining::refusal))]
    pub fn refusal(&self) -> Fault
        ensures { result ≡ spec.refusal self.now }
    {
        self.fail(reason(self.peek()))
    }

    /// The bytes of the next token, which is then passed.
    #[tactic(auto, unfolding(token_model::specs::Remaining::ahead, token_model::specs::Remaining::spelling, token_model::specs::Remaining::next, token_model::specs::Remaining::lexeme, token_model::specs::Remaining::next_token))]
    pub fn take(&mut self) -> &'a [u8]
        ensures text { result.now ≡ spec.spelling self.old }
        ensures next { self.new ≡ spec.next self.old }
    {
        let (spelling, rest) = self.ahead.split_at(self.token.len);
        *self = Cursor::after(rest, same_lexeme(self.token.lexeme, Lexeme::Number));
        spelling
    }

    /// The value of the number that comes next, which is then passed.
    pub fn take_number(&mut self) -> u64
        requires { spec.lexeme self.old ≡ number_lexeme }
        ensures value { result ≡ value_of_digits (spec.spelling self.old) }
        ensures next { self.new ≡ spec.next self.old }
    {
        number_value(self.take())
    }

    /// Whether such a token comes next.
    #[tactic(auto, unfolding(token_model::specs::Remaining::sees))]
    pub fn sees(&self, wanted: Lexeme) -> bool
        ensures value { result ≡ spec.sees wanted self.now }
        ensures next { OnTrue result (spec.lexeme self.now ≡ wanted) }
    {
        same_lexeme(self.peek(), wanted)
    }

    /// Whether such a token comes next, which is then passed.
    #[tactic(auto, unfolding(token_model::specs::Remaining::after))]
    pub fn eat(&mut self, wanted: Lexeme) -> bool
        ensures found { result ≡ spec.sees wanted self.old }
        ensures after { self.new ≡ spec.after wanted self.old }
    {
        let found = self.sees(wanted);
        if found {
            self.take();
        }
        found
    }

    /// Passes such a token.
    ///
    /// # Errors
    ///
    /// Another token comes next: it is not passed.
    #[tactic(auto, unfolding(token_model::specs::Remaining::expect))]
    pub fn expect(&mut self, wanted: Lexeme) -> Result<(), Fault>
        ensures value { ReadsExactly (spec.expect wanted self.old) result self.new }
        ensures unmoved { OnErr result (self.new ≡ self.old) }
    {
        if self.sees(wanted) {
            self.take();
            Ok(())
        } else {
            Err(self.refusal())
        }
    }
}
