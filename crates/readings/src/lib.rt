// The readings of a deadline: which numbers name one, and the one that a program is told by its words.
#![tactic(auto)]

ghost use Rattle.std.specs.Prelude.{◌≡◌, ◌||◌, eqb};
ghost use Rattle.readings.specs.Reading.{reading_of, reading_told};

// There are two readings. A reading stays a number, since a caller may name any, and 22 refuses it.
pub fn is_reading(reading: u8) -> bool
    ensures { result ≡ (eqb reading 1 || eqb reading 2) }
{
    reading == 1 || reading == 2
}

// The reading that a word names: its one digit. Any other word names 0, which is refused by 22.
pub fn reading_of(word: &[u8]) -> u8
    ensures { result ≡ reading_of word.now }
{
    match word {
        [digit] => digit.saturating_sub(b'0'),
        _ => 0,
    }
}

// The reading of a program that may be told it by one word: 1 where it is not, and 0 for more words than one. Its own name is counted with the words.
pub fn reading_told(words: usize, word: &[u8]) -> u8
    ensures { result ≡ reading_told words word.now }
{
    match words {
        0 | 1 => 1,
        2 => reading_of(word),
        _ => 0,
    }
}
