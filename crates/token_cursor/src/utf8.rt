//! Bytes that belong to no whole character.

ghost use Rattle.std.specs.Prelude.{◌≡◌, ◌-◌, ◌<◌, length, IfSome, IfNone};
ghost use Rattle.std.specs.Str.{IsUtf8, IsValidUpTo};
ghost use Rattle.token_cursor.specs.Utf8 as spec;

use std::str;
use token_model::{Fault, Kind};

/// The first byte that belongs to no whole character of UTF-8, if there is one.
#[tactic(auto, unfolding(crate::specs::Utf8::not_utf8))]
pub fn not_utf8(text: &[u8]) -> Option<Fault>
    ensures value { result ≡ spec.not_utf8 text.now }
    ensures text { IfNone result (IsUtf8 text.now) }
    ensures fault { IfSome result (λ f. IsValidUpTo text.now (length text.now - f.left)) }
{
    match str::from_utf8(text) {
        Ok(_) => None,
        Err(error) => Some(Fault {
            left: text.len() - error.valid_up_to(),
            kind: Kind::NotUtf8,
        }),
    }
}
