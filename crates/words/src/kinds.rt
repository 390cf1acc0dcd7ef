// The kinds of words by their numbers, and the word that a kind makes of a payload.

ghost use Rattle.std.specs.Prelude.{◌≡◌, ◌<◌};
ghost use Rattle.words.specs.Layout.{kind_number, word_with};

/// The kinds of words, by the numbers that stand in a word's top four bits.
#[derive(Clone, Copy, Debug, PartialEq, Eq)]
pub enum Kind {
    Head = 1,
    Size = 2,
    Binding = 3,
    Cost = 4,
    Signs = 5,
    Weight = 6,
    Step = 7,
    Easting = 8,
    Northing = 9,
    Count = 10,
    Forbidden = 11,
    High = 12,
}

impl Kind {
    /// The word of this kind with a payload of 28 bits.
    pub fn word(self, payload: u32) -> u32
        requires { payload < 268435456 }
        ensures { result ≡ word_with (kind_number self) payload }
    {
        self as u32 * 268435456 + payload
    }
}
