// A rule as the bytes of the file.
ghost use Rattle.std.specs.Prelude.{◌≡◌, ◌+◌, ◌*◌, ◌/◌, ◌%◌, ◌≤◌, ◌<◌, length};
ghost use Rattle.policy.specs.Bytes.{bounds_bytes, rule_bytes};
ghost use Rattle.texts.specs.Wrote.{Wrote};
ghost use Rattle.conditions.specs.Steps.{bounds_of, begun_of, Masked};
ghost use Rattle.phrases.specs.Ended.{rule_by};

use conditions::steps::{Parsed, power};
use texts::put_bytes;

pub fn high_byte(n: u16) -> u8
    ensures { result ≡ n / 256 }
{
    (n / 256) as u8
}

pub fn low_byte(n: u16) -> u8
    ensures { result ≡ n % 256 }
{
    (n % 256) as u8
}

// A low and a high for each clock.
fn store_bounds(out: &mut [u8], at: usize, low: [u16; 4], high: [u16; 4], clocks: usize) -> usize
    requires { (clocks ≤ 4) × (at + 16 ≤ length out.old) }
    ensures { Wrote out.old at (bounds_bytes (bounds_of clocks low high)) result out.new × (result ≡ at + 4 * clocks) }
{
    let mut next = at;
    for i in 0..clocks {
        let a = low[i];
        let b = high[i];
        let four = [high_byte(a), low_byte(a), high_byte(b), low_byte(b)];
        next = put_bytes(out, next, &four);
    }
    next
}

pub fn store_rule(
    out: &mut [u8],
    at: usize,
    source: usize,
    inputs: usize,
    parsed: Parsed,
    clocks: usize,
) -> usize
    requires { (source < 256) × (inputs ≤ 4) × (clocks ≤ 4) × Masked parsed × (at + 23 ≤ length out.old) }
    ensures { Wrote out.old at (rule_bytes (rule_by inputs source (begun_of clocks parsed))) result out.new × (result ≡ at + (7 + 4 * clocks)) }
{
    let bit = power(inputs);
    let head = [
        source as u8,
        (parsed.care % bit) as u8,
        (parsed.value % bit) as u8,
        (parsed.care / bit) as u8,
        (parsed.value / bit) as u8,
        parsed.reset as u8,
        parsed.target as u8,
    ];
    let next = put_bytes(out, at, &head);
    store_bounds(out, next, parsed.low, parsed.high, clocks)
}
