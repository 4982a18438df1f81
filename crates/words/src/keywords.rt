// The words of the language.
ghost use Rattle.std.specs.Prelude.{◌≡◌};
ghost use Rattle.wording.specs.Names.{find, is_name};
ghost use Rattle.words.specs.Spans.{place_below};
ghost use Rattle.words.specs.Keywords.{keywords, inner};

use crate::names::which_name;

// Which of them a word is, in the order of `keywords`; at least 14 for none.
pub fn keyword(word: &[u8]) -> usize
    ensures { find 0 word.now keywords ≡ place_below 14 result }
{
    let words = b"inputoutputclocklocationatany->violationresetmustbeleft>=<=";
    let starts = [0usize, 5, 11, 16, 24, 26, 29, 31, 40, 45, 49, 51, 55, 57];
    let lengths = [5u8, 6, 5, 8, 2, 3, 2, 9, 5, 4, 2, 4, 2, 2];
    match which_name(words, &starts, &lengths, 0, 14, word) {
        Some(k) => k,
        None => 14,
    }
}

// A byte that may stand in a name behind the first.
fn is_inner(c: u8) -> bool
    ensures { result ≡ inner c }
{
    if c.is_ascii_lowercase() || c == b'_' {
        return true;
    }
    c.is_ascii_digit()
}

pub fn is_name(word: &[u8]) -> bool
    ensures { result ≡ is_name word.now }
{
    if word.len() == 0 || 16 < word.len() || !word[0].is_ascii_lowercase() {
        return false;
    }
    if !word[1..].iter().all(|c| is_inner(*c)) {
        return false;
    }
    12 <= keyword(word)
}
