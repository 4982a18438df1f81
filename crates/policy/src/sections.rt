// The sections before the rules: counts, limits, lengths and contents.
ghost use Rattle.std.specs.Prelude.{◌≡◌, ℕ, ◌+◌, ◌*◌, ◌≤◌, ◌<◌, ◌^◌, get_or, length, IfOk};
ghost use Rattle.policy.specs.File.{pairs_from, input_count, outputs_at, output_count, clocks_at, clock_count, locations_at, location_count};
ghost use Rattle.policy.specs.Check.{among, section_refusal, tags_good, ceiling_good, location_good, all_pass, inputs_refusal, outputs_refusal, clocks_refusal, locations_refusal};
ghost use Rattle.policy.specs.Number.{four, states_of};
ghost use Rattle.refusals.specs.Refused.{refusal_in};

use crate::bytes::{byte_at, pair_at};
use crate::limits::{CEILING, CLOCKS, LOCATIONS, SIGNALS};
use refusals::Refusal;

// Refused where the count at `at` or its section is cut short, and where the count n is outside its limits.
pub(crate) fn check_section(
    file: &[u8],
    at: usize,
    width: usize,
    n: usize,
    low: usize,
    high: usize,
    size: usize,
) -> Result<(), Refusal>
    requires { (at < 2 ^ 16) × (width < 2 ^ 16) × (high < 2 ^ 16) × (size < 2 ^ 16) }
    ensures { refusal_in result ≡ section_refusal file.now at width n low high size }
{
    if file.len() < at + width {
        return Err(Refusal::CutShort);
    }
    if n < low || high < n {
        return Err(Refusal::BadCount);
    }
    if file.len() < at + width + n * size {
        return Err(Refusal::CutShort);
    }
    Ok(())
}

// The tag t is one of the tags. A loop of its own, since a file is checked at every call, and std's `contains` is made for more than four.
fn is_among(t: u8, tags: &[u8]) -> bool
    ensures { result ≡ among t tags.now }
{
    for i in 0..tags.len() {
        if tags[i] == t {
            return true;
        }
    }
    false
}

// Each tag is a capital letter, and new after those before it in the file.
pub(crate) fn tags_good(before: &[u8], tags: &[u8]) -> bool
    ensures { result ≡ tags_good before.now tags.now }
{
    for (i, tag) in tags.iter().enumerate() {
        if !tag.is_ascii_uppercase() || is_among(*tag, before) || is_among(*tag, &tags[..i]) {
            return false;
        }
    }
    true
}

// Each byte is 0 or 1.
pub(crate) fn locations_good(bytes: &[u8]) -> bool
    ensures { result ≡ all_pass location_good bytes.now }
{
    bytes.iter().all(|&byte| byte <= 1)
}

// Each of the n ceilings from `at` on is 1 to 1,001.
pub(crate) fn ceilings_good(file: &[u8], at: usize, n: usize) -> bool
    requires { (at < 2 ^ 16) × (n ≤ 4) }
    ensures { result ≡ all_pass ceiling_good (pairs_from file.now at n) }
{
    for i in 0..n {
        let ceiling = pair_at(file, at + 2 * i);
        if !(1..=CEILING).contains(&ceiling) {
            return false;
        }
    }
    true
}

// The n ceilings from `at` on, then 0.
pub(crate) fn ceilings_of(file: &[u8], at: usize, n: usize) -> [u16; CLOCKS]
    requires { (at < 2 ^ 16) × (n ≤ 4) }
    ensures { result ≡ four (pairs_from file.now at n) }
{
    let mut ceilings = [0; CLOCKS];
    for i in 0..n {
        ceilings[i] = pair_at(file, at + 2 * i) as u16;
    }
    ceilings
}

// How many states there are: locations × the product of (ceiling + 1).
pub fn state_count(ceilings: &[u16], locations: usize) -> usize
    requires { (length ceilings.now ≤ 4) × (locations ≤ 64) × ((i : ℕ) → i < length ceilings.now → get_or ceilings.now i 0 ≤ 1001) }
    ensures { result ≡ states_of ceilings.now (length ceilings.now) locations }
{
    let mut states = locations;
    for &ceiling in ceilings {
        states *= usize::from(ceiling) + 1;
    }
    states
}

// The same of the first ceilings of four.
pub fn states_of(ceilings: [u16; CLOCKS], clocks: usize, locations: usize) -> usize
    requires { (clocks ≤ 4) × (locations ≤ 64) × ((i : ℕ) → i < clocks → get_or ceilings i 0 ≤ 1001) }
    ensures { result ≡ states_of ceilings clocks locations }
{
    state_count(&ceilings[..clocks], locations)
}

// How many inputs there are, if their section is good.
pub(crate) fn check_inputs(file: &[u8]) -> Result<usize, Refusal>
    ensures refuses { refusal_in result ≡ inputs_refusal file.now }
    ensures counts { IfOk result (λ n. n ≡ input_count file.now) }
{
    let n = byte_at(file, 0);
    check_section(file, 0, 1, n, 0, SIGNALS, 1)?;
    if tags_good(&[], &file[1..1 + n]) {
        Ok(n)
    } else {
        Err(Refusal::BadTag)
    }
}

// How many outputs there are, if their section is good.
pub(crate) fn check_outputs(file: &[u8], at: usize, inputs: usize) -> Result<usize, Refusal>
    requires { (inputs_refusal file.now ≡ 0) × (inputs ≡ input_count file.now) × (at ≡ outputs_at file.now) }
    ensures refuses { refusal_in result ≡ outputs_refusal file.now }
    ensures counts { IfOk result (λ n. n ≡ output_count file.now) }
{
    let n = byte_at(file, at);
    check_section(file, at, 1, n, 0, SIGNALS, 1)?;
    if tags_good(&file[1..1 + inputs], &file[at + 1..at + 1 + n]) {
        Ok(n)
    } else {
        Err(Refusal::BadTag)
    }
}

// How many clocks there are, if their section is good.
pub(crate) fn check_clocks(file: &[u8], at: usize) -> Result<usize, Refusal>
    requires { (at < 2 ^ 10) × (at ≡ clocks_at file.now) }
    ensures refuses { refusal_in result ≡ clocks_refusal file.now }
    ensures counts { IfOk result (λ n. n ≡ clock_count file.now) }
{
    let n = byte_at(file, at);
    check_section(file, at, 1, n, 0, CLOCKS, 2)?;
    if ceilings_good(file, at + 1, n) {
        Ok(n)
    } else {
        Err(Refusal::BadCeiling)
    }
}

// How many locations there are, if their section is good.
pub(crate) fn check_locations(file: &[u8], at: usize) -> Result<usize, Refusal>
    requires { (at < 2 ^ 10) × (at ≡ locations_at file.now) }
    ensures refuses { refusal_in result ≡ locations_refusal file.now }
    ensures counts { IfOk result (λ n. n ≡ location_count file.now) }
{
    let n = byte_at(file, at);
    check_section(file, at, 1, n, 1, LOCATIONS, 1)?;
    if locations_good(&file[at + 1..at + 1 + n]) {
        Ok(n)
    } else {
        Err(Refusal::BadLocation)
    }
}
