//! Prints names.

ghost use Rattle.std.specs.Prelude.{◌≡◌, ◌++◌, OnOk, OnErr, string_bytes, encode_utf8};
ghost use Rattle.token_model.specs.Names as tokens;
ghost use Rattle.print_model.specs.Names as spec;

use term_store::NoMemory;

fn is_word(b: u8) -> bool
    ensures { result ≡ tokens.is_word b }
{
    b.is_ascii_alphanumeric() || b == b'_'
}

fn are_word(bytes: &[u8]) -> bool
    ensures { result ≡ spec.are_word bytes.now }
{
    for b in bytes {
        if !is_word(*b) {
            return false;
        }
    }
    true
}

/// Whether a name is a lower-case letter and then letters, digits and `_`.
fn is_plain(name: &str) -> bool
    ensures { result ≡ spec.is_plain name.now }
{
    match name.as_bytes().split_first() {
        Some((first, rest)) => first.is_ascii_lowercase() && are_word(rest),
        None => false,
    }
}

/// Appends a character as it stands between quotes.
#[tactic(auto, using(crate::proofs::Escapes::others_stand))]
fn push_escaped(c: char, into: &mut String) -> Result<(), NoMemory>
    ensures { OnOk result (string_bytes into.new ≡ string_bytes into.old ++ spec.all_escaped (encode_utf8 c)) }
{
    match c {
        '\\' => into.push_str("\\\\")?,
        '\'' => into.push_str("\\'")?,
        '\n' => into.push_str("\\n")?,
        '\t' => into.push_str("\\t")?,
        _ => into.push(c)?,
    }
    Ok(())
}

/// Appends a name between quotes.
#[tactic(auto, using(crate::proofs::Escapes::all_escaped_append, std::proofs::lemmas::List::append_assoc))]
fn quoted(name: &str, into: &mut String) -> Result<(), NoMemory>
    ensures { OnOk result (string_bytes into.new ≡ string_bytes into.old ++ spec.quoted name.now) }
{
    into.push_str("'")?;
    for c in name.chars() {
        push_escaped(c, into)?;
    }
    into.push_str("'")?;
    Ok(())
}

/// Appends a name; after an error more may stand there than before.
#[tactic(auto, unfolding(print_model::specs::Names::predicate_text))]
pub(crate) fn name(name: &str, into: &mut String) -> Result<(), NoMemory>
    ensures { OnOk result (string_bytes into.new ≡ string_bytes into.old ++ spec.predicate_text name.now) }
{
    if is_plain(name) {
        into.push_str(name)?;
        Ok(())
    } else {
        quoted(name, into)
    }
}

/// Appends the text of a predicate's name: as it is where it is a lower-case letter and then letters, digits and `_`,
/// else between single quotes with `\\`, `\'`, `\n` and `\t` in the place of a backslash, a quote, a line feed and a
/// tab. After an error `into` is as before.
pub fn name_text(name: &str, into: &mut String) -> Result<(), NoMemory>
    ensures ok { OnOk result (string_bytes into.new ≡ string_bytes into.old ++ spec.predicate_text name.now) }
    ensures err { OnErr result (string_bytes into.new ≡ string_bytes into.old) }
{
    let mut text = String::new(*into.allocator());
    crate::name::name(name, &mut text)?;
    into.push_str(text.as_str())?;
    Ok(())
}
