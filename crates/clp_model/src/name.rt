ghost use Rattle.std.specs.Prelude.{◌≡◌, IfOk};

use arrayvec::ArrayString;
use std::alloc::{AllocError, Global};
use std::marker::Model;

/// How many bytes of a name lie in the name itself.
const INLINE: usize = 16;

/// The text of a name. Most names are short, and then take no memory of their own.
#[derive(Debug, Drop)]
enum Text {
    Short(ArrayString<INLINE>),
    Long(String),
}

/// The name of a predicate or function symbol, which contracts see as its bytes.
#[derive(Debug, Drop)]
pub struct Name {
    text: Text,
}

impl Model for Name {
    ghost use Rattle.std.specs.Prelude.{ℕ, List};
    ghost use Rattle.clp_model.specs.Names.{bytes_of};

    ghost Value = { List ℕ };

    ghost view = { λ n. bytes_of n.text };
}

impl Name {
    pub fn copy_of(alloc: Global, text: &str) -> Result<Name, AllocError>
        ensures { IfOk result (λ n. n ≡ text.now) }
    {
        let text = match ArrayString::from(text) {
            Ok(short) => Text::Short(short),
            Err(_) => Text::Long(String::from_str(alloc, text)?),
        };
        Ok(Name { text })
    }

    pub fn as_str(&self) -> &str
        ensures { result.now ≡ self.now }
    {
        match &self.text {
            Text::Short(text) => text.as_str(),
            Text::Long(text) => text.as_str(),
        }
    }
}
