// The words of an event while its service runs.

ghost use Rattle.std.specs.Prelude.{◌≡◌, ◌≤◌, ◌<◌, [], ◌∷◌, ◌++◌, length};

use camac_word::Word24;
use std::marker::Model;

/// At most `CAP` words, in the order in which they were put. It is cleared for each service, which an `ArrayVec` does by writing over its words.
#[derive(Drop)]
pub struct EventBuffer<const CAP: usize> {
    words: [Word24; CAP],
    // how many of them were put
    len: usize,
}

impl<const CAP: usize> Model for EventBuffer<CAP> {
    ghost use Rattle.std.specs.Prelude.{ℕ, ◌≤◌, List, take};

    ghost Value = { List ℕ };

    ghost view = { λ b. take b.len b.words };

    ghost invariant = { λ b. b.len ≤ CAP };
}

impl<const CAP: usize> EventBuffer<CAP> {
    /// No words.
    pub fn new() -> Self
        ensures { result ≡ [] }
    {
        EventBuffer {
            words: [Word24::default(); CAP],
            len: 0,
        }
    }

    /// Puts a word at the end. There is room for it where there are fewer than `CAP`.
    pub fn push(&mut self, word: Word24)
        requires { length self.old < CAP }
        ensures { self.new ≡ self.old ++ word ∷ [] }
    {
        self.words[self.len] = word;
        self.len += 1;
    }

    /// The words so far.
    pub fn words(&self) -> &[Word24]
        ensures words { result.now ≡ self.now }
        ensures fits { length result.now ≤ CAP }
    {
        &self.words[..self.len]
    }

    /// Forgets the words.
    pub fn clear(&mut self)
        ensures { self.new ≡ [] }
    {
        // without it the borrow checker does not find the type of the words
        let _ = &self.words;
        self.len = 0;
    }
}
