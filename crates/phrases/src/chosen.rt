// One word more of a rule, by the part that it stands in.
ghost use Rattle.std.specs.Prelude.{◌≡◌, ℕ, ◌≤◌, length, IfOk};
ghost use Rattle.words.specs.Spans.{NamesIn};
ghost use Rattle.wording.specs.Reader.{word_at};
ghost use Rattle.conditions.specs.Steps.{part_of, begun_of, parse_said, Masked};
ghost use Rattle.conditions.specs.Conditions.{scope_of};

use crate::arms::{on_arrow, on_clear, on_gone, on_high, on_low, on_sign};
use crate::ways::{on_goes, on_more, on_opening};
use conditions::steps::{Parsed, Part};
use refusals::Refusal;

pub fn on_word(
    text: &[u8],
    tags: &[u8],
    starts: &[usize],
    lengths: &[u8],
    clocks: usize,
    places: usize,
    word: &[u8],
    parsed: Parsed,
) -> Result<Parsed, Refusal>
    requires { (length tags.now ≤ 8) × (clocks ≤ 4) × (places ≤ 64) × NamesIn 76 text.now starts.now lengths.now × Masked parsed }
    ensures said { (n : ℕ) → parse_said n result ≡ word_at (scope_of text.now tags.now starts.now lengths.now clocks places) (begun_of n parsed) (part_of parsed.part parsed.clock) word.now }
    ensures masked { IfOk result Masked }
{
    let k = parsed.clock;
    match parsed.part {
        Part::Opening => on_opening(text, tags, starts, lengths, clocks, word, parsed),
        Part::More => on_more(text, tags, starts, lengths, clocks, word, parsed),
        Part::Arrow => on_arrow(word, parsed),
        Part::Sign => on_sign(word, parsed, k),
        Part::AtLeast => on_low(word, parsed, k),
        Part::AtMost => on_high(word, parsed, k),
        Part::Goes => on_goes(text, starts, lengths, places, word, parsed),
        Part::Gone => on_gone(word, parsed),
        Part::Clears => on_clear(text, starts, lengths, clocks, word, parsed),
    }
}
