// The words behind `location`.
ghost use Rattle.std.specs.Prelude.{◌≡◌, List, ℕ, ◌+◌, ◌≤◌, ◌<◌, ◌-◌, length, IfOk, OnOk};
ghost use Rattle.refusals.specs.Refused.{refusal_in, told};
ghost use Rattle.streams.specs.Answer.{gives};
ghost use Rattle.policy.specs.File.{part};
ghost use Rattle.policy.specs.Rules.{Rule};
ghost use Rattle.wording.specs.Words.{words_of};
ghost use Rattle.words.specs.Spans.{NamesIn};
ghost use Rattle.wording.specs.Reader.{new_place, location_line};
ghost use Rattle.declarations.specs.Table.{draft_of, table_said, Fit};
ghost use Rattle.declarations.specs.Fresh.{refuse};
ghost use Rattle.declarations.specs.PlaceLine.{with_place, must_be_left, left_byte, byte_answer};

use crate::table::Table;
use refusals::Refusal;
use words::firsts::word_in;
use words::keywords::is_name;
use words::names::{LOCATION_NAMES, which_name};

// A location more, whose name has `size` bytes from `a` on.
fn add_place(
    text: &[u8],
    a: usize,
    size: u8,
    byte: u8,
    starts: &mut [usize],
    lengths: &mut [u8],
    left: &mut [u8],
    table: Table,
) -> Table
    requires { (a + size ≤ length text.now) × (table.places < 64) × Fit table × NamesIn 76 text.now starts.old lengths.old × (length left.old ≡ 64) }
    ensures { ((rules : List Rule) → draft_of text.now starts.new lengths.new left.new result rules ≡ with_place (draft_of text.now starts.old lengths.old left.old table rules) (part text.now a size) byte) × Fit result × NamesIn 76 text.now starts.new lengths.new }
{
    let n = table.places;
    starts[LOCATION_NAMES + n] = a;
    lengths[LOCATION_NAMES + n] = size;
    left[n] = byte;
    Table {
        places: n + 1,
        stage: 4,
        ..table
    }
}

// Whether the location whose name stands from `a` to `b` may be declared.
fn check_place(
    text: &[u8],
    a: usize,
    b: usize,
    starts: &[usize],
    lengths: &[u8],
    table: Table,
) -> Result<(), Refusal>
    requires { (a ≤ b) × (b ≤ length text.now) × Fit table × NamesIn 76 text.now starts.now lengths.now }
    ensures said { (left : List ℕ) (rules : List Rule) (byte : ℕ) → new_place (draft_of text.now starts.now lengths.now left table rules) (part text.now a (b - a)) byte ≡ refuse (refusal_in result) (gives (with_place (draft_of text.now starts.now lengths.now left table rules) (part text.now a (b - a)) byte)) }
    ensures room { OnOk result ((table.places < 64) × (b - a ≤ 16)) }
{
    let word = &text[a..b];
    if 4 < table.stage {
        return Err(Refusal::BadForm);
    }
    if !is_name(word) {
        return Err(Refusal::BadForm);
    }
    if which_name(text, starts, lengths, LOCATION_NAMES, table.places, word).is_some() {
        return Err(Refusal::BadName);
    }
    if 64 <= table.places {
        return Err(Refusal::NoPlace);
    }
    Ok(())
}

// The location, if it may be declared.
fn place(
    text: &[u8],
    a: usize,
    b: usize,
    byte: u8,
    starts: &mut [usize],
    lengths: &mut [u8],
    left: &mut [u8],
    table: Table,
) -> Result<Table, Refusal>
    requires { (a ≤ b) × (b ≤ length text.now) × Fit table × NamesIn 76 text.now starts.old lengths.old × (length left.old ≡ 64) }
    ensures said { (rules : List Rule) → table_said text.now starts.new lengths.new left.new rules result ≡ new_place (draft_of text.now starts.old lengths.old left.old table rules) (part text.now a (b - a)) byte }
    ensures fit { IfOk result Fit }
    ensures names { NamesIn 76 text.now starts.new lengths.new }
{
    check_place(text, a, b, starts, lengths, table)?;
    let size = (b - a) as u8;
    Ok(add_place(text, a, size, byte, starts, lengths, left, table))
}

// The words from `at` to `end` are `must be left`.
fn must_be_left(text: &[u8], end: usize, at: usize) -> bool
    requires { (at ≤ end) × (end ≤ length text.now) }
    ensures { result ≡ must_be_left (words_of (part text.now at (end - at))) }
{
    // Behind the last word each further one is empty.
    let first = word_in(text, end, at);
    let second = word_in(text, end, first.end);
    let third = word_in(text, end, second.end);
    let fourth = word_in(text, end, third.end);
    if &text[first.start..first.end] != b"must".as_slice() {
        return false;
    }
    if &text[second.start..second.end] != b"be".as_slice() {
        return false;
    }
    if &text[third.start..third.end] != b"left".as_slice() {
        return false;
    }
    fourth.end <= fourth.start
}

// The byte of a location by the words from `at` to `end`, which stand behind its name: 1 if it must be left, 0 for no word.
fn left_byte(text: &[u8], end: usize, at: usize) -> Result<u8, Refusal>
    requires { (at ≤ end) × (end ≤ length text.now) }
    ensures { told result ≡ byte_answer (left_byte (words_of (part text.now at (end - at)))) }
{
    let first = word_in(text, end, at);
    if first.end <= first.start {
        return Ok(0);
    }
    if must_be_left(text, end, at) {
        return Ok(1);
    }
    Err(Refusal::BadForm)
}

// The words from `at` to `end`, which stand behind `location`.
pub fn read_location(
    text: &[u8],
    end: usize,
    at: usize,
    starts: &mut [usize],
    lengths: &mut [u8],
    left: &mut [u8],
    table: Table,
) -> Result<Table, Refusal>
    requires { (at ≤ end) × (end ≤ length text.now) × Fit table × NamesIn 76 text.now starts.old lengths.old × (length left.old ≡ 64) }
    ensures said { (rules : List Rule) → table_said text.now starts.new lengths.new left.new rules result ≡ location_line (draft_of text.now starts.old lengths.old left.old table rules) (words_of (part text.now at (end - at))) }
    ensures fit { IfOk result Fit }
    ensures names { NamesIn 76 text.now starts.new lengths.new }
{
    let name = word_in(text, end, at);
    if name.end <= name.start {
        return Err(Refusal::BadForm);
    }
    let byte = left_byte(text, end, name.end)?;
    place(
        text, name.start, name.end, byte, starts, lengths, left, table,
    )
}
