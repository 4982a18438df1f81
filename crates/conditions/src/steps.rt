// A rule whose words are read, one after another.
ghost use Rattle.std.specs.Prelude.{◌≡◌, cond, ℕ, ◌^◌, ◌≤◌, ◌<◌, IfOk};
ghost use Rattle.wording.specs.Reader.{at_least_of, at_most_of, on_bound, on_signal, on_reset};
ghost use Rattle.conditions.specs.Steps.{begun_of, parse_said, Masked};

use refusals::Refusal;

// What may come next in a rule.
#[derive(Clone, Copy, PartialEq, Eq)]
pub enum Part {
    // `any` or a condition.
    Opening,
    // The arrow or another condition.
    More,
    // The arrow behind `any`.
    Arrow,
    // The sign behind a clock's name.
    Sign,
    // The number behind `>=`.
    AtLeast,
    // The number behind `<=`.
    AtMost,
    // The target.
    Goes,
    // `reset`, or the end.
    Gone,
    // A clock that is reset, or the end.
    Clears,
}

// What the words so far have said. `clock` is the clock that `part` speaks of, if it does.
#[derive(Clone, Copy)]
pub struct Parsed {
    pub part: Part,
    pub clock: usize,
    pub care: usize,
    pub value: usize,
    pub target: usize,
    pub reset: usize,
    pub low: [u16; 4],
    pub high: [u16; 4],
}

pub fn power(i: usize) -> usize
    requires { i < 8 }
    ensures { (result ≡ 2 ^ i) × (0 < result) × (result ≤ 128) }
{
    1 << i
}

// The signal i is to be on or off.
pub fn on_signal(parsed: Parsed, on: bool, i: usize) -> Result<Parsed, Refusal>
    requires { (i < 8) × Masked parsed }
    ensures said { (n : ℕ) → parse_said n result ≡ on_signal (begun_of n parsed) (cond on 1 0) i }
    ensures masked { IfOk result Masked }
{
    let bit = power(i);
    if parsed.care / bit % 2 != 0 {
        return Err(Refusal::BadName);
    }
    Ok(Parsed {
        part: Part::More,
        care: parsed.care + bit,
        value: parsed.value + usize::from(on) * bit,
        ..parsed
    })
}

// The clock i is to be reset.
pub fn on_reset(parsed: Parsed, i: usize) -> Result<Parsed, Refusal>
    requires { (i < 4) × Masked parsed }
    ensures said { (n : ℕ) → parse_said n result ≡ on_reset (begun_of n parsed) i }
    ensures masked { IfOk result Masked }
{
    let bit = power(i);
    if parsed.reset / bit % 2 != 0 {
        return Err(Refusal::BadName);
    }
    Ok(Parsed {
        part: Part::Clears,
        reset: parsed.reset + bit,
        ..parsed
    })
}

// The clock k is to be at least n.
pub fn on_at_least(parsed: Parsed, k: usize, n: u16) -> Parsed
    requires { (k < 4) × Masked parsed }
    ensures { ((m : ℕ) → begun_of m result ≡ on_bound (begun_of m parsed) k (at_least_of n)) × Masked result }
{
    let mut low = parsed.low;
    low[k] = n.max(low[k]);
    Parsed {
        part: Part::More,
        low,
        ..parsed
    }
}

// The clock k is to be at most n.
pub fn on_at_most(parsed: Parsed, k: usize, n: u16) -> Parsed
    requires { (k < 4) × Masked parsed }
    ensures { ((m : ℕ) → begun_of m result ≡ on_bound (begun_of m parsed) k (at_most_of n)) × Masked result }
{
    let mut high = parsed.high;
    high[k] = n.min(high[k]);
    Parsed {
        part: Part::More,
        high,
        ..parsed
    }
}
