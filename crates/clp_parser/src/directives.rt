//! Directives, which are passed over.

ghost use Rattle.std.specs.Prelude.{◌≡◌, ◌≤◌, ℕ, suc, true, IfOk, IfSome};
ghost use Rattle.token_model.specs.Remaining as token;
ghost use Rattle.token_model.specs.declared.token.Lexeme.TheVariants.{If as if_lexeme};
ghost use Rattle.clp_grammar.specs.Directives as spec;
ghost use Rattle.clp_parser.specs.Readable.{Passes, is_whole};
ghost use Rattle.clp_parser.specs.Roles.{may_stand, goes_on};

use crate::reader::{MAX_OPEN, Reader};
use clp_grammar::Role;
use token_model::{Fault, Kind, Lexeme};

/// What a token is in a directive.
fn classify(lexeme: Lexeme) -> Role
    ensures value { result ≡ spec.role lexeme }
    ensures whole { may_stand result ≡ true → is_whole lexeme ≡ true }
{
    match lexeme {
        Lexeme::End => Role::Ends,
        Lexeme::OpenRound | Lexeme::OpenSquare | Lexeme::OpenCurly => Role::Opens,
        Lexeme::CloseRound | Lexeme::CloseSquare | Lexeme::CloseCurly => Role::Closes,
        Lexeme::Finish | Lexeme::NameTooLong | Lexeme::NumberTooLarge | Lexeme::Bad => Role::Fails,
        _ => Role::Stands,
    }
}

/// Passes a token within a directive, where so many brackets are open: how many are open then, or none behind the end.
#[tactic(auto, using(crate::proofs::Inputs::refusal_before), unfolding(clp_grammar::specs::Directives::directive_from))]
fn pass_token(reader: &mut Reader<'_>, open_now: usize) -> Result<Option<usize>, Fault>
    requires { open_now ≤ 256 }
    ensures text { (n : ℕ) → spec.directive_from (suc n) open_now reader.old.remaining ≡ goes_on n result reader.new.remaining }
    ensures names { reader.new.names ≡ reader.old.names }
    ensures few { IfOk result (λ o. IfSome o (λ now. now ≤ 256)) }
{
    match classify(reader.peek()) {
        Role::Ends => {
            reader.pass();
            Ok(None)
        }
        Role::Opens if open_now == MAX_OPEN => Err(reader.fail(Kind::TooDeep)),
        Role::Opens => {
            reader.pass();
            Ok(Some(open_now + 1))
        }
        Role::Closes => {
            reader.pass();
            Ok(Some(open_now.saturating_sub(1)))
        }
        Role::Stands => {
            reader.pass();
            Ok(Some(open_now))
        }
        Role::Fails => Err(reader.refusal(MAX_OPEN)),
    }
}

/// Passes a directive, of which the `:-` comes next. It may have any tokens up to its end, and 256 brackets open at a
/// place.
///
/// # Errors
///
/// One bracket more opens, a token is none, or the text ends before the directive does.
#[tactic(auto, using(crate::proofs::Inputs::refusal_before), unfolding(clp_grammar::specs::Directives::directive, clp_grammar::specs::Directives::directive_from))]
pub fn directive(reader: &mut Reader<'_>) -> Result<(), Fault>
    requires { token.lexeme reader.old.remaining ≡ if_lexeme }
    ensures text { Passes (spec.directive reader.old.remaining) result reader.new.remaining }
    ensures names { reader.new.names ≡ reader.old.names }
{
    reader.pass();
    let mut open_now = 0;
    for _turn in 0..reader.left() {
        match pass_token(reader, open_now)? {
            Some(now) => open_now = now,
            None => return Ok(()),
        }
    }
    Err(reader.refusal(MAX_OPEN))
}
