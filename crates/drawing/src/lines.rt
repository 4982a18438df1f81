// The lines of a text, written where there is room for them. Each function hands back the position after them.
ghost use Rattle.std.specs.Prelude.{◌≡◌, ◌+◌, ◌≤◌, length};
ghost use Rattle.texts.specs.Wrote.{Wrote};
ghost use Rattle.drawing.specs.Wave.{var_line, var_lines, time_line, value_line, value_lines, event_lines};
ghost use Rattle.drawing.specs.Streams.{opening};

use texts::{put_bytes, put_decimal};

fn var_line(tag: u8) -> [u8; 21]
    ensures { result ≡ var_line tag }
{
    [
        b'$', b'v', b'a', b'r', b' ', b'w', b'i', b'r', b'e', b' ', b'1', b' ', tag, b' ', tag,
        b' ', b'$', b'e', b'n', b'd', b'\n',
    ]
}

fn put_vars(text: &mut [u8], at: usize, tags: &[u8]) -> usize
    requires { at + length (var_lines tags.now) ≤ length text.old }
    ensures { Wrote text.old at (var_lines tags.now) result text.new }
{
    let mut next = at;
    for tag in tags {
        let line = var_line(*tag);
        next = put_bytes(text, next, &line);
    }
    next
}

pub(crate) fn put_time(text: &mut [u8], at: usize, time: usize) -> usize
    requires { at + length (time_line time) ≤ length text.old }
    ensures { Wrote text.old at (time_line time) result text.new }
{
    let digits = put_bytes(text, at, b"#");
    let end = put_decimal(text, digits, time);
    put_bytes(text, end, b"\n")
}

// The header and the line of time 0.
pub fn put_opening(text: &mut [u8], at: usize, inputs: &[u8], outputs: &[u8]) -> usize
    requires { at + length (opening inputs.now outputs.now) ≤ length text.old }
    ensures { Wrote text.old at (opening inputs.now outputs.now) result text.new }
{
    let vars = put_bytes(text, at, b"$timescale 100 ms $end\n");
    let more = put_vars(text, vars, inputs);
    let end = put_vars(text, more, outputs);
    let start = put_bytes(text, end, b"$enddefinitions $end\n");
    put_time(text, start, 0)
}

// The line of one signal, if it is shown.
fn put_value(text: &mut [u8], at: usize, tag: u8, shown: u8, values: u8) -> usize
    requires { at + length (value_line tag shown values) ≤ length text.old }
    ensures { Wrote text.old at (value_line tag shown values) result text.new }
{
    if shown % 2 == 1 {
        let line = [b'0' + values % 2, tag, b'\n'];
        return put_bytes(text, at, &line);
    }
    at
}

// The lines of the signals with these tags that have a 1 in `shown`.
fn put_values(text: &mut [u8], at: usize, tags: &[u8], shown: u8, values: u8) -> usize
    requires { at + length (value_lines tags.now shown values) ≤ length text.old }
    ensures { Wrote text.old at (value_lines tags.now shown values) result text.new }
{
    let mut next = at;
    let mut shown_on = shown;
    let mut values_on = values;
    for tag in tags {
        next = put_value(text, next, *tag, shown_on, values_on);
        shown_on /= 2;
        values_on /= 2;
    }
    next
}

// The lines of the signals that `shown` names, inputs first.
pub(crate) fn put_event(
    text: &mut [u8],
    at: usize,
    inputs: &[u8],
    outputs: &[u8],
    shown: u8,
    event: u8,
) -> usize
    requires { at + length (event_lines inputs.now outputs.now shown event) ≤ length text.old }
    ensures { Wrote text.old at (event_lines inputs.now outputs.now shown event) result text.new }
{
    let next = put_values(text, at, inputs, shown % 16, event % 16);
    put_values(text, next, outputs, shown / 16, event / 16)
}
