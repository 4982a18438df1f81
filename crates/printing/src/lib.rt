// The lines that the programs print: a refusal, a verdict, a line for each tick.
#![tactic(auto)]

ghost use Rattle.std.specs.Prelude.{◌≡◌, ◌++◌, ◌+◌, ◌*◌, ◌/◌, ◌%◌, ◌^◌, ◌≤◌, ◌<◌, length};
ghost use Rattle.texts.specs.Text.{decimal};
ghost use Rattle.printing.specs.Text.{spaced, refused_line, verdict_line, halves, event_line, tick_lines};
ghost use Rattle.printing.specs.Text.{letter as text_letter};
ghost use Rattle.texts.specs.Wrote.{Wrote};

use texts::{put_bytes, put_decimal};

// A label and a number.
fn put_labelled(text: &mut [u8], at: usize, label: &[u8], n: usize) -> usize
    requires { at + length label.now + length (decimal n) ≤ length text.old }
    ensures { Wrote text.old at (label.now ++ decimal n) result text.new }
{
    let next = put_bytes(text, at, label);
    put_decimal(text, next, n)
}

// A number and a space.
fn put_spaced(text: &mut [u8], at: usize, n: usize) -> usize
    requires { at + length (spaced n) ≤ length text.old }
    ensures { Wrote text.old at (spaced n) result text.new }
{
    let next = put_decimal(text, at, n);
    put_bytes(text, next, b" ")
}

// The one line of a refusal: at most 8 + 3 + 1 bytes.
pub fn put_refused(text: &mut [u8], at: usize, n: u8) -> usize
    requires { at + 12 ≤ length text.old }
    ensures { Wrote text.old at (refused_line n) result text.new }
{
    let end = put_labelled(text, at, b"refused ", n as usize);
    put_bytes(text, end, b"\n")
}

// The first line: at most 8 + 3 + 8 + 20 + 6 + 20 + 1 bytes.
pub fn put_verdict(text: &mut [u8], at: usize, verdict: u8, states: usize, live: usize) -> usize
    requires { at + 66 ≤ length text.old }
    ensures { Wrote text.old at (verdict_line verdict states live) result text.new × (result ≤ at + 66) }
{
    let verdict_end = put_labelled(text, at, b"verdict ", verdict as usize);
    let states_end = put_labelled(text, verdict_end, b" states ", states);
    let live_end = put_labelled(text, states_end, b" live ", live);
    put_bytes(text, live_end, b"\n")
}

// F forwarded or E edited.
fn letter(given: u8, released: u8) -> u8
    ensures { result ≡ text_letter given released }
{
    if given == released { b'F' } else { b'E' }
}

// An event's x and y.
fn put_halves(text: &mut [u8], at: usize, event: u8) -> usize
    requires { at + 6 ≤ length text.old }
    ensures { Wrote text.old at (halves (event % 16) (event / 16)) result text.new }
{
    let next = put_spaced(text, at, (event % 16) as usize);
    put_spaced(text, next, (event / 16) as usize)
}

// The line of a tick: at most 21 bytes.
pub fn put_tick(text: &mut [u8], at: usize, tick: usize, event: u8, released: u8) -> usize
    requires { (tick < 10 ^ 5) × (at + 21 ≤ length text.old) }
    ensures { Wrote text.old at (event_line tick event released) result text.new }
{
    let tick_end = put_spaced(text, at, tick);
    let event_end = put_halves(text, tick_end, event);
    let released_end = put_halves(text, event_end, released);
    let letters = [
        letter(event % 16, released % 16),
        letter(event / 16, released / 16),
        b'\n',
    ];
    put_bytes(text, released_end, &letters)
}

// A line for each event, the ticks counted from 1.
pub fn put_ticks(text: &mut [u8], at: usize, events: &[u8], released: &[u8]) -> usize
    requires { (length events.now ≤ 16384) × (length events.now ≤ length released.now) × (at + 21 * length events.now ≤ length text.old) }
    ensures { Wrote text.old at (tick_lines 1 events.now released.now) result text.new }
{
    let mut next = at;
    for (i, (event, now)) in events.iter().zip(released).enumerate() {
        next = put_tick(text, next, i + 1, *event, *now);
    }
    next
}
