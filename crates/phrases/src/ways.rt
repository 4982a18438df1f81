// The words of a rule that ask a location, and those that may be conditions.
ghost use Rattle.std.specs.Prelude.{◌≡◌, ℕ, ◌≤◌, ◌<◌, length, IfOk};
ghost use Rattle.words.specs.Spans.{spans, NamesIn};
ghost use Rattle.wording.specs.Reader.{Scope, opening, more, goes, on_target, word_at};
ghost use Rattle.conditions.specs.Steps.{begun_of, parse_said, Masked};
ghost use Rattle.conditions.specs.Conditions.{scope_of};

use conditions::conditions::{on_condition, turned};
use conditions::steps::{Parsed, Part};
use refusals::Refusal;
use words::names::{LOCATION_NAMES, which_name};

fn on_target(parsed: Parsed, target: usize) -> Parsed
    requires { (target < 256) × Masked parsed }
    ensures { ((n : ℕ) → begun_of n result ≡ on_target (begun_of n parsed) target) × Masked result }
{
    Parsed {
        part: Part::Gone,
        target,
        ..parsed
    }
}

// The word behind the arrow.
pub fn on_goes(
    text: &[u8],
    starts: &[usize],
    lengths: &[u8],
    places: usize,
    word: &[u8],
    parsed: Parsed,
) -> Result<Parsed, Refusal>
    requires { (places ≤ 64) × NamesIn 76 text.now starts.now lengths.now × Masked parsed }
    ensures said { (n : ℕ) (d : Scope) → d.places ≡ spans text.now starts.now lengths.now 12 places → parse_said n result ≡ word_at d (begun_of n parsed) goes word.now }
    ensures masked { IfOk result Masked }
{
    if word == b"violation".as_slice() {
        return Ok(on_target(parsed, 255));
    }
    match which_name(text, starts, lengths, LOCATION_NAMES, places, word) {
        Some(location) => Ok(on_target(parsed, location)),
        None => Err(Refusal::BadName),
    }
}

// The first word of a rule: `any`, or a condition.
pub fn on_opening(
    text: &[u8],
    tags: &[u8],
    starts: &[usize],
    lengths: &[u8],
    clocks: usize,
    word: &[u8],
    parsed: Parsed,
) -> Result<Parsed, Refusal>
    requires { (length tags.now ≤ 8) × (clocks ≤ 4) × NamesIn 76 text.now starts.now lengths.now × Masked parsed }
    ensures said { (n places : ℕ) → parse_said n result ≡ word_at (scope_of text.now tags.now starts.now lengths.now clocks places) (begun_of n parsed) opening word.now }
    ensures masked { IfOk result Masked }
{
    if word == b"any".as_slice() {
        return Ok(turned(parsed, Part::Arrow, 0));
    }
    on_condition(text, tags, starts, lengths, clocks, word, parsed)
}

// A word after a condition: the arrow, or another condition.
pub fn on_more(
    text: &[u8],
    tags: &[u8],
    starts: &[usize],
    lengths: &[u8],
    clocks: usize,
    word: &[u8],
    parsed: Parsed,
) -> Result<Parsed, Refusal>
    requires { (length tags.now ≤ 8) × (clocks ≤ 4) × NamesIn 76 text.now starts.now lengths.now × Masked parsed }
    ensures said { (n places : ℕ) → parse_said n result ≡ word_at (scope_of text.now tags.now starts.now lengths.now clocks places) (begun_of n parsed) more word.now }
    ensures masked { IfOk result Masked }
{
    if word == b"->".as_slice() {
        return Ok(turned(parsed, Part::Goes, 0));
    }
    on_condition(text, tags, starts, lengths, clocks, word, parsed)
}
