// Numbers with the words around them, and the bounds of a rule, written. Each function hands back the position after what it wrote.
ghost use Rattle.std.specs.Prelude.{◌++◌, ◌+◌, ◌*◌, ◌≤◌, ◌<◌, length};
ghost use Rattle.policy.specs.File.{bounds_from};
ghost use Rattle.texts.specs.Text.{decimal};
ghost use Rattle.texts.specs.Wrote.{Wrote};
ghost use Rattle.wording.specs.Writer.{bound_words};
ghost use Rattle.rule_text.specs.Trail.{trailing};
ghost use Rattle.rule_text.specs.Pieces.{limit_piece, low_piece, high_piece, bound_piece};

use policy::bytes::pair_within;
use policy::limits::NO_UPPER_BOUND;
use texts::{put_bytes, put_decimal};

// The digits of n in decimal. Most numbers of a text have one digit or two, and `put_decimal` calls itself.
fn put_digits(text: &mut [u8], at: usize, n: usize) -> usize
    requires { at + length (decimal n) ≤ length text.old }
    ensures { Wrote text.old at (decimal n) result text.new }
{
    if n < 10 {
        return put_bytes(text, at, &[b'0' + n as u8]);
    }
    if n < 100 {
        let first = b'0' + (n / 10) as u8;
        let last = b'0' + (n % 10) as u8;
        return put_bytes(text, at, &[first, last]);
    }
    put_decimal(text, at, n)
}

// A number of at most five digits between words.
pub fn put_named(text: &mut [u8], at: usize, before: &[u8], n: usize, after: &[u8]) -> usize
    requires { (n < 65536) × (at + length before.now + 5 + length after.now ≤ length text.old) }
    ensures { Wrote text.old at (before.now ++ decimal n ++ after.now) result text.new × (result ≤ at + length before.now + 5 + length after.now) }
{
    let number = put_bytes(text, at, before);
    put_number(text, number, n, after)
}

pub fn put_number(text: &mut [u8], at: usize, n: usize, after: &[u8]) -> usize
    requires { (n < 65536) × (at + 5 + length after.now ≤ length text.old) }
    ensures { Wrote text.old at (decimal n ++ after.now) result text.new × (result ≤ at + 5 + length after.now) }
{
    let next = put_digits(text, at, n);
    put_bytes(text, next, after)
}

pub(crate) fn put_name(text: &mut [u8], at: usize, before: &[u8], n: usize) -> usize
    requires { (n < 65536) × (at + length before.now + 5 ≤ length text.old) }
    ensures { Wrote text.old at (before.now ++ decimal n) result text.new × (result ≤ at + length before.now + 5) }
{
    let next = put_bytes(text, at, before);
    put_digits(text, next, n)
}

// A clock's name, a sign and a number, with a space after them.
fn put_limit(text: &mut [u8], at: usize, sign: &[u8], k: usize, n: usize) -> usize
    requires { (length sign.now ≤ 4) × (k < 65536) × (n < 65536) × (at + 16 ≤ length text.old) }
    ensures { Wrote text.old at (limit_piece sign.now k n) result text.new × (result ≤ at + 16) }
{
    let next = put_named(text, at, b"t", k, sign);
    put_number(text, next, n, b" ")
}

fn put_low(text: &mut [u8], at: usize, k: usize, low: usize) -> usize
    requires { (k < 65536) × (low < 65536) × (at + 16 ≤ length text.old) }
    ensures { Wrote text.old at (low_piece k low) result text.new × (result ≤ at + 16) }
{
    if low == 0 {
        return at;
    }
    put_limit(text, at, b" >= ", k, low)
}

fn put_high(text: &mut [u8], at: usize, k: usize, high: usize) -> usize
    requires { (k < 65536) × (high < 65536) × (at + 16 ≤ length text.old) }
    ensures { Wrote text.old at (high_piece k high) result text.new × (result ≤ at + 16) }
{
    if high == NO_UPPER_BOUND as usize {
        return at;
    }
    put_limit(text, at, b" <= ", k, high)
}

fn put_bound(text: &mut [u8], at: usize, k: usize, low: usize, high: usize) -> usize
    requires { (k < 65536) × (low < 65536) × (high < 65536) × (at + 32 ≤ length text.old) }
    ensures { Wrote text.old at (bound_piece k low high) result text.new × (result ≤ at + 32) }
{
    let next = put_low(text, at, k, low);
    put_high(text, next, k, high)
}

// The bounds stand in the file from `from` on, four bytes a clock.
pub(crate) fn put_bounds(
    text: &mut [u8],
    at: usize,
    file: &[u8],
    from: usize,
    clocks: usize,
) -> usize
    requires { (clocks ≤ 4) × (from + 4 * clocks ≤ length file.now) × (at + 128 ≤ length text.old) }
    ensures { Wrote text.old at (trailing (bound_words 0 (bounds_from file.now from clocks))) result text.new × (result ≤ at + 128) }
{
    let mut next = at;
    for clock in 0..clocks {
        let low = pair_within(file, from + 4 * clock);
        let high = pair_within(file, from + 4 * clock + 2);
        next = put_bound(text, next, clock, low, high);
    }
    next
}
