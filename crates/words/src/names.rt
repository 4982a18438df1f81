// Names, looked up where they were declared. The places of all names of a policy's text are in two slices, `starts` and `lengths`: the signals' from 0 on,
// the inputs first, none where the length is 0; then the clocks', then the locations'.
ghost use Rattle.std.specs.Prelude.{◌≡◌, ◌+◌, ◌≤◌, ◌<◌, length, IfSome};
ghost use Rattle.wording.specs.Names.{find, letters_of};
ghost use Rattle.wording.specs.Reader.{signal_by};
ghost use Rattle.words.specs.Spans.{spans, NamesIn, found_said};

use crate::words::same_word;

// Where the places of the clocks' names begin, and those of the locations' names; and how many places there are.
pub const CLOCK_NAMES: usize = 8;

pub const LOCATION_NAMES: usize = 12;

pub const NAMES: usize = 76;

// Which of the `count` names from `first` on the word is.
pub fn which_name(
    text: &[u8],
    starts: &[usize],
    lengths: &[u8],
    first: usize,
    count: usize,
    word: &[u8],
) -> Option<usize>
    requires { NamesIn (first + count) text.now starts.now lengths.now }
    ensures found { found_said result ≡ find 0 word.now (spans text.now starts.now lengths.now first count) }
    ensures within { IfSome result (λ i. i < count) }
{
    for i in 0..count {
        let k = first + i;
        let start = starts[k];
        let end = start + usize::from(lengths[k]);
        if same_word(&text[start..end], word) {
            return Some(i);
        }
    }
    None
}

// Which of the tags the word is.
pub fn which_letter(tags: &[u8], word: &[u8]) -> Option<usize>
    ensures found { found_said result ≡ find 0 word.now (letters_of tags.now) }
    ensures within { IfSome result (λ i. i < length tags.now) }
{
    match word {
        [letter] => tags.iter().position(|tag| tag == letter),
        _ => None,
    }
}

// The signal that a word names by its letter or by its name.
pub fn which_signal(
    text: &[u8],
    tags: &[u8],
    starts: &[usize],
    lengths: &[u8],
    word: &[u8],
) -> Option<usize>
    requires { (length tags.now ≤ 8) × NamesIn 76 text.now starts.now lengths.now }
    ensures found { found_said result ≡ signal_by tags.now (spans text.now starts.now lengths.now 0 (length tags.now)) word.now }
    ensures within { IfSome result (λ i. i < length tags.now) }
{
    if word.len() == 0 {
        return None;
    }
    if word[0].is_ascii_uppercase() {
        return which_letter(tags, word);
    }
    which_name(text, starts, lengths, 0, tags.len(), word)
}
