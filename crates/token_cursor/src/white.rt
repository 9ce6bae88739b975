//! White and comments, which stand between tokens.

ghost use Rattle.std.specs.Prelude.{◌≡◌, ◌≤◌, ◌<◌, ◌∷◌, length, IfSome, IfNone};
ghost use Rattle.token_model.specs.White as spec;

pub fn is_white(b: u8) -> bool
    ensures { result ≡ spec.is_white b }
{
    b == b' ' || b == b'\t' || b == b'\n' || b == b'\r'
}

/// The text after the line that this begins in.
#[tactic(auto, unfolding(token_model::specs::White::after_line, token_model::specs::White::skipped))]
fn after_line(text: &[u8]) -> &[u8]
    ensures value { spec.skipped result.now ≡ spec.after_line text.now }
    ensures within { length result.now ≤ length text.now }
{
    for (at, b) in text.iter().enumerate() {
        if *b == b'\n' {
            return &text[at + 1..];
        }
    }
    &[]
}

/// The text after the comment that a slash begins, of which this is what follows the slash. None where it begins none,
/// or one that isn't closed.
#[tactic(auto, unfolding(token_model::specs::White::after_slash, token_model::specs::White::in_comment, token_model::specs::White::after_star))]
fn after_comment(text: &[u8]) -> Option<&[u8]>
    ensures some { IfSome result (λ rest. (spec.after_slash text.now ≡ spec.skipped rest.now) × (length rest.now ≤ length text.now)) }
    ensures none { IfNone result (spec.after_slash text.now ≡ 47 ∷ text.now) }
{
    let (first, comment) = text.split_first()?;
    if *first != b'*' {
        return None;
    }
    let mut starred = false;
    for (at, b) in comment.iter().enumerate() {
        if starred && *b == b'/' {
            return Some(&comment[at + 1..]);
        }
        starred = *b == b'*';
    }
    None
}

/// The text from its next token on. A comment that isn't closed is left, with all that follows it.
#[tactic(auto, unfolding(token_model::specs::White::skipped))]
pub fn skip(text: &[u8]) -> &[u8]
    ensures value { result.now ≡ spec.skipped text.now }
    ensures within { length result.now ≤ length text.now }
{
    let mut rest = text;
    while let Some((b, more)) = rest.split_first() {
        rest = if is_white(*b) {
            more
        } else if *b == b'%' {
            after_line(more)
        } else if *b == b'/' {
            match after_comment(more) {
                Some(after) => after,
                None => return rest,
            }
        } else {
            return rest;
        };
    }
    rest
}
