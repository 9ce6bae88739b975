//! What stands before a place.

ghost use Rattle.std.specs.Prelude.{◌≡◌};
ghost use Rattle.token_model.specs.Names.{is_word as is_word_byte};
ghost use Rattle.token_at.specs.Before as spec;

fn is_word(b: u8) -> bool
    ensures { result ≡ is_word_byte b }
{
    b.is_ascii_alphanumeric() || b == b'_'
}

/// Whether the letters, digits and `_` at the end of a text are one or more digits and nothing else. They are read
/// from the right, and nothing before them is.
pub fn ends_in_number(text: &[u8]) -> bool
    ensures { result ≡ spec.ends_in_number text.now }
{
    let mut rest = text;
    let mut digits = false;
    while let Some((b, more)) = rest.split_last() {
        if !b.is_ascii_digit() {
            return digits && !is_word(*b);
        }
        digits = true;
        rest = more;
    }
    digits
}
