ghost use Rattle.std.specs.Prelude.{◌≡◌, ◌<◌, ◌++◌, ◌==◌, [], ◌∷◌, List, ℕ, map, length, OnErr, OnOk, Some, slice_get, string_bytes};

use std::alloc::{AllocError, Global};
use std::marker::Model;

/// The words of a command line, without the program's own name. Contracts see the list of their bytes.
#[derive(Drop)]
pub struct Words {
    alloc: Global,
    inner: Vec<String>,
}

impl Model for Words {
    ghost Value = { List (List ℕ) };

    ghost view = { λ words. map string_bytes words.inner.items };
}

impl Words {
    /// No words; no memory is taken.
    pub fn new(alloc: Global) -> Words
        ensures { result ≡ [] }
    {
        Words {
            alloc,
            inner: Vec::new(alloc),
        }
    }

    /// Appends a copy of the word. After `AllocError` the words are as before.
    pub fn push(&mut self, word: &str) -> Result<(), AllocError>
        ensures ok { OnOk result (self.new ≡ self.old ++ word.now ∷ []) }
        ensures err { OnErr result (self.new ≡ self.old) }
    {
        let word = String::from_str(self.alloc, word)?;
        self.inner.push(word)?;
        Ok(())
    }

    /// How many words there are.
    pub fn len(&self) -> usize
        ensures { result ≡ length self.now }
    {
        self.inner.len()
    }

    /// Whether there is no word.
    pub fn is_empty(&self) -> bool
        ensures { result ≡ (length self.now == 0) }
    {
        self.inner.is_empty()
    }

    /// The word at a place counted from 0.
    pub fn word(&self, i: usize) -> &str
        requires { i < length self.now }
        ensures { slice_get self.now i ≡ Some result.now }
    {
        self.inner[i].as_str()
    }
}
