// What a word does in each part of a rule that asks no name of a signal.
ghost use Rattle.std.specs.Prelude.{◌≡◌, ℕ, ◌≤◌, ◌<◌, IfOk};
ghost use Rattle.wording.specs.Names.{find, known};
ghost use Rattle.words.specs.Spans.{spans, NamesIn};
ghost use Rattle.wording.specs.Reader.{Scope, arrow, sign, at_least, at_most, gone, on_reset, word_at};
ghost use Rattle.conditions.specs.Steps.{begun_of, parse_said, Masked};

use conditions::conditions::turned;
use conditions::steps::{Parsed, Part, on_at_least, on_at_most, on_reset};
use refusals::Refusal;
use words::names::{CLOCK_NAMES, which_name};
use words::numbers::read_number;

// The arrow after `any`.
pub fn on_arrow(word: &[u8], parsed: Parsed) -> Result<Parsed, Refusal>
    requires { Masked parsed }
    ensures said { (n : ℕ) (d : Scope) → parse_said n result ≡ word_at d (begun_of n parsed) arrow word.now }
    ensures masked { IfOk result Masked }
{
    if word == b"->".as_slice() {
        return Ok(turned(parsed, Part::Goes, 0));
    }
    Err(Refusal::BadForm)
}

// The sign after a clock's name.
pub fn on_sign(word: &[u8], parsed: Parsed, k: usize) -> Result<Parsed, Refusal>
    requires { (k < 4) × Masked parsed }
    ensures said { (n : ℕ) (d : Scope) → parse_said n result ≡ word_at d (begun_of n parsed) (sign k) word.now }
    ensures masked { IfOk result Masked }
{
    if word == b">=".as_slice() {
        return Ok(turned(parsed, Part::AtLeast, k));
    }
    if word == b"<=".as_slice() {
        return Ok(turned(parsed, Part::AtMost, k));
    }
    Err(Refusal::BadForm)
}

// The number after `>=`.
pub fn on_low(word: &[u8], parsed: Parsed, k: usize) -> Result<Parsed, Refusal>
    requires { (k < 4) × Masked parsed }
    ensures said { (n : ℕ) (d : Scope) → parse_said n result ≡ word_at d (begun_of n parsed) (at_least k) word.now }
    ensures masked { IfOk result Masked }
{
    let number = read_number(word)?;
    Ok(on_at_least(parsed, k, number))
}

// The number after `<=`.
pub fn on_high(word: &[u8], parsed: Parsed, k: usize) -> Result<Parsed, Refusal>
    requires { (k < 4) × Masked parsed }
    ensures said { (n : ℕ) (d : Scope) → parse_said n result ≡ word_at d (begun_of n parsed) (at_most k) word.now }
    ensures masked { IfOk result Masked }
{
    let number = read_number(word)?;
    Ok(on_at_most(parsed, k, number))
}

// What follows a target: nothing, or `reset`.
pub fn on_gone(word: &[u8], parsed: Parsed) -> Result<Parsed, Refusal>
    requires { Masked parsed }
    ensures said { (n : ℕ) (d : Scope) → parse_said n result ≡ word_at d (begun_of n parsed) gone word.now }
    ensures masked { IfOk result Masked }
{
    if word == b"reset".as_slice() {
        return Ok(turned(parsed, Part::Clears, 0));
    }
    Err(Refusal::BadForm)
}

// A clock that is reset.
pub fn on_clear(
    text: &[u8],
    starts: &[usize],
    lengths: &[u8],
    clocks: usize,
    word: &[u8],
    parsed: Parsed,
) -> Result<Parsed, Refusal>
    requires { (clocks ≤ 4) × NamesIn 76 text.now starts.now lengths.now × Masked parsed }
    ensures said { (n : ℕ) → parse_said n result ≡ known (find 0 word.now (spans text.now starts.now lengths.now 8 clocks)) (on_reset (begun_of n parsed)) }
    ensures masked { IfOk result Masked }
{
    match which_name(text, starts, lengths, CLOCK_NAMES, clocks, word) {
        Some(clock) => on_reset(parsed, clock),
        None => Err(Refusal::BadName),
    }
}
