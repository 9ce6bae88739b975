//! The words of a command.

ghost use Rattle.std.specs.Prelude.{◌≡◌, ◌≢◌, [], ◌∷◌, ◌++◌, length, map, slice_get, string_bytes, IfOk, IfErr, OnOk, OnErr, IsErr, MatchResult};
ghost use Rattle.std.specs.IoError.{error_kind};
ghost use Rattle.std.specs.Vec.Iter.{into_iter_items};
ghost use Rattle.std.specs.Option.{option_copied};

use std::alloc::Global;
use std::env::Args;
use std::io::{self, ErrorKind};
use std::marker::Model;
use term_store::NoMemory;

/// The words of a command, each a text, in order.
#[derive(Debug, Drop)]
pub struct Words {
    words: Vec<String>,
}

impl Model for Words {
    ghost use Rattle.std.specs.Prelude.{ℕ, List, map, string_bytes};

    ghost Value = { List (List ℕ) };

    ghost view = { λ w. map string_bytes w.words.items };
}

impl Words {
    /// No words. It takes no memory.
    pub fn new(alloc: Global) -> Words
        ensures { result ≡ [] }
    {
        Words {
            words: Vec::new(alloc),
        }
    }

    /// Puts a word last. After an error the words are as they were.
    pub fn push(&mut self, word: &str) -> Result<(), NoMemory>
        ensures ok { OnOk result (self.new ≡ self.old ++ word.now ∷ []) }
        ensures err { OnErr result (self.new ≡ self.old) }
    {
        let word = String::from_str(*self.words.allocator(), word)?;
        self.words.push(word)?;
        Ok(())
    }

    /// The arguments of the program in order, its own name first; no words where one of them is not UTF-8.
    pub fn of_args(alloc: Global, args: io::Result<Args>) -> Result<Words, NoMemory>
        ensures told { IfOk args (λ all. IfOk result (λ words.
            words ≡ map string_bytes (into_iter_items all))) }
        ensures not_text { IfErr args (λ e. error_kind e ≢ ErrorKind.OutOfMemory
            → MatchResult result (λ words. words ≡ []) (λ _. ⊥)) }
        ensures no_memory { IfErr args (λ e. error_kind e ≡ ErrorKind.OutOfMemory → IsErr result) }
    {
        match args {
            Ok(args) => Words::of_texts(alloc, args),
            Err(error) if error.kind() == ErrorKind::OutOfMemory => Err(NoMemory),
            Err(_) => Ok(Words::new(alloc)),
        }
    }

    /// These texts in order.
    fn of_texts(alloc: Global, texts: Args) -> Result<Words, NoMemory>
        ensures { IfOk result (λ words. words ≡ map string_bytes (into_iter_items texts)) }
    {
        let mut words = Words::new(alloc);
        for text in texts {
            words.push(text.as_str())?;
        }
        Ok(words)
    }

    /// How many words there are.
    pub fn len(&self) -> usize
        ensures { result ≡ length self.now }
    {
        self.words.len()
    }

    /// The word at this place, from 0.
    pub fn get(&self, at: usize) -> Option<&str>
        ensures { option_copied result ≡ slice_get self.now at }
    {
        match self.words.get(at) {
            Some(word) => Some(word.as_str()),
            None => None,
        }
    }
}
