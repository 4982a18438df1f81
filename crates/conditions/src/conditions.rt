// The conditions of a rule. The names stand in the text where `starts` and `lengths` say.
ghost use Rattle.std.specs.Prelude.{◌≡◌, ℕ, ◌≤◌, ◌<◌, length, IfOk};
ghost use Rattle.streams.specs.Answer.{gives};
ghost use Rattle.wording.specs.Names.{find, known};
ghost use Rattle.words.specs.Spans.{spans, NamesIn};
ghost use Rattle.wording.specs.Reader.{sign, turn, on_signal, signal_by, signal_or, condition};
ghost use Rattle.conditions.specs.Steps.{part_of, begun_of, parse_said, Masked};
ghost use Rattle.conditions.specs.Conditions.{scope_of};

use crate::steps::{Parsed, Part, on_signal};
use refusals::Refusal;
use words::names::{CLOCK_NAMES, which_name, which_signal};

// Another part, with its clock.
pub fn turned(parsed: Parsed, part: Part, clock: usize) -> Parsed
    requires { (clock < 4) × Masked parsed }
    ensures { ((n : ℕ) → begun_of n result ≡ turn (part_of part clock) (begun_of n parsed)) × Masked result }
{
    Parsed {
        part,
        clock,
        ..parsed
    }
}

// The word behind a `!`.
fn on_off(
    text: &[u8],
    tags: &[u8],
    starts: &[usize],
    lengths: &[u8],
    word: &[u8],
    parsed: Parsed,
) -> Result<Parsed, Refusal>
    requires { (length tags.now ≤ 8) × NamesIn 76 text.now starts.now lengths.now × Masked parsed }
    ensures said { (n : ℕ) → parse_said n result ≡ known (signal_by tags.now (spans text.now starts.now lengths.now 0 (length tags.now)) word.now) (on_signal (begun_of n parsed) 0) }
    ensures masked { IfOk result Masked }
{
    match which_signal(text, tags, starts, lengths, word) {
        Some(i) => on_signal(parsed, false, i),
        None => Err(Refusal::BadName),
    }
}

// A clock's name.
fn on_clock(
    text: &[u8],
    starts: &[usize],
    lengths: &[u8],
    clocks: usize,
    word: &[u8],
    parsed: Parsed,
) -> Result<Parsed, Refusal>
    requires { (clocks ≤ 4) × NamesIn 76 text.now starts.now lengths.now × Masked parsed }
    ensures said { (n : ℕ) → parse_said n result ≡ known (find 0 word.now (spans text.now starts.now lengths.now 8 clocks)) (λ k. gives (turn (sign k) (begun_of n parsed))) }
    ensures masked { IfOk result Masked }
{
    match which_name(text, starts, lengths, CLOCK_NAMES, clocks, word) {
        Some(clock) => Ok(turned(parsed, Part::Sign, clock)),
        None => Err(Refusal::BadName),
    }
}

// A signal that is to be on, or a clock.
fn on_plain(
    text: &[u8],
    tags: &[u8],
    starts: &[usize],
    lengths: &[u8],
    clocks: usize,
    word: &[u8],
    parsed: Parsed,
) -> Result<Parsed, Refusal>
    requires { (length tags.now ≤ 8) × (clocks ≤ 4) × NamesIn 76 text.now starts.now lengths.now × Masked parsed }
    ensures said { (n places : ℕ) → parse_said n result ≡ signal_or (scope_of text.now tags.now starts.now lengths.now clocks places) (begun_of n parsed) word.now (signal_by tags.now (spans text.now starts.now lengths.now 0 (length tags.now)) word.now) }
    ensures masked { IfOk result Masked }
{
    match which_signal(text, tags, starts, lengths, word) {
        Some(i) => on_signal(parsed, true, i),
        None => on_clock(text, starts, lengths, clocks, word, parsed),
    }
}

pub fn on_condition(
    text: &[u8],
    tags: &[u8],
    starts: &[usize],
    lengths: &[u8],
    clocks: usize,
    word: &[u8],
    parsed: Parsed,
) -> Result<Parsed, Refusal>
    requires { (length tags.now ≤ 8) × (clocks ≤ 4) × NamesIn 76 text.now starts.now lengths.now × Masked parsed }
    ensures said { (n places : ℕ) → parse_said n result ≡ condition (scope_of text.now tags.now starts.now lengths.now clocks places) (begun_of n parsed) word.now }
    ensures masked { IfOk result Masked }
{
    match word {
        [] => Err(Refusal::BadForm),
        [b'!', name @ ..] => on_off(text, tags, starts, lengths, name, parsed),
        _ => on_plain(text, tags, starts, lengths, clocks, word, parsed),
    }
}
