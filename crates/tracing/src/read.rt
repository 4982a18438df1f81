// What stands in a text from a position on: a number, a time, the lines of values.
ghost use Rattle.std.specs.Prelude.{◌≡◌, false, ◌+◌, ◌*◌, ◌≤◌, ◌<◌, length, get_or, drop};
ghost use Rattle.drawing.specs.Times.{goes_on};
ghost use Rattle.drawing.specs.Values.{line_of};
ghost use Rattle.tracing.specs.Read.{NumberRead, TimeRead, LinesRead, EventRead};

// A number, and the position after it.
#[derive(Clone, Copy)]
pub struct Number {
    pub value: usize,
    pub next: usize,
}

// A time line's time, and the position after it.
#[derive(Clone, Copy)]
pub struct Time {
    pub time: usize,
    pub next: usize,
}

// Which signals have a line there, what the lines say, and the position after them.
#[derive(Clone, Copy)]
pub struct Lines {
    pub shown: u8,
    pub values: u8,
    pub next: usize,
}

// The byte at a position; past the end stands 0.
fn byte_at(text: &[u8], at: usize) -> u8
    ensures { result ≡ get_or text.now at 0 }
{
    if at < text.len() { text[at] } else { 0 }
}

// A digit belongs to the number whose digits before it say v.
fn goes_on(v: usize, digit: u8) -> bool
    ensures { result ≡ goes_on v digit }
{
    1 <= v && v <= 16384 && b'0' <= digit && digit <= b'9'
}

// The number whose first digits say v, and whose others stand from `at` on.
fn read_digits(text: &[u8], at: usize, v: usize) -> Number
    requires { at ≤ length text.now }
    ensures { NumberRead text.now at v result }
{
    if at < text.len() {
        let digit = text[at];
        if goes_on(v, digit) {
            return read_digits(text, at + 1, v * 10 + (digit - b'0') as usize);
        }
        return Number { value: v, next: at };
    }
    Number { value: v, next: at }
}

// None where no time line stands there.
pub(crate) fn read_time(text: &[u8], at: usize) -> Option<Time>
    requires { at ≤ length text.now }
    ensures { TimeRead text.now at result }
{
    if text.len() - at < 2 {
        return None;
    }
    if text[at] != b'#' {
        return None;
    }
    let first = text[at + 1];
    if first < b'0' || b'9' < first {
        return None;
    }
    let number = read_digits(text, at + 2, (first - b'0') as usize);
    if 16384 < number.value {
        return None;
    }
    if byte_at(text, number.next) != b'\n' {
        return None;
    }
    Some(Time {
        time: number.value,
        next: number.next + 1,
    })
}

// A line of the signal stands at `at`.
fn line_at(text: &[u8], at: usize, tag: u8) -> bool
    requires { at ≤ length text.now }
    ensures { result ≡ line_of tag (drop at text.now) }
{
    let value = byte_at(text, at);
    b'0' <= value && value <= b'1' && byte_at(text, at + 1) == tag && byte_at(text, at + 2) == b'\n'
}

// The lines of the signals after one that has a line, and after one that has none.
fn with_line(value: u8, more: Lines) -> Lines
    requires { (value ≤ 1) × (more.shown < 64) × (more.values < 64) }
    ensures { result ≡ record { shown = 1 + 2 * more.shown; values = value + 2 * more.values; next = more.next } }
{
    Lines {
        shown: 1 + 2 * more.shown,
        values: value + 2 * more.values,
        next: more.next,
    }
}

fn without_line(more: Lines) -> Lines
    requires { (more.shown < 64) × (more.values < 64) }
    ensures { result ≡ record { shown = 2 * more.shown; values = 2 * more.values; next = more.next } }
{
    Lines {
        shown: 2 * more.shown,
        values: 2 * more.values,
        next: more.next,
    }
}

// The lines of the signals, each if it stands there.
fn read_lines(text: &[u8], at: usize, tags: &[u8]) -> Lines
    requires { (at ≤ length text.now) × (length tags.now ≤ 4) }
    ensures { LinesRead text.now at tags.now result }
{
    let [tag, later @ ..] = tags else {
        return Lines {
            shown: 0,
            values: 0,
            next: at,
        };
    };
    if line_at(text, at, *tag) {
        with_line(text[at] - b'0', read_lines(text, at + 3, later))
    } else {
        without_line(read_lines(text, at, later))
    }
}

// The lines of the inputs and those of the outputs.
fn both_lines(x: Lines, y: Lines) -> Lines
    requires { (x.shown < 16) × (x.values < 16) × (y.shown < 16) × (y.values < 16) }
    ensures { result ≡ record { shown = x.shown + 16 * y.shown; values = x.values + 16 * y.values; next = y.next } }
{
    Lines {
        shown: x.shown + 16 * y.shown,
        values: x.values + 16 * y.values,
        next: y.next,
    }
}

// The lines of the inputs, then of the outputs.
pub(crate) fn read_event(text: &[u8], at: usize, inputs: &[u8], outputs: &[u8]) -> Lines
    requires { (at ≤ length text.now) × (length inputs.now ≤ 4) × (length outputs.now ≤ 4) }
    ensures { EventRead inputs.now outputs.now text.now at result }
{
    let x = read_lines(text, at, inputs);
    let y = read_lines(text, x.next, outputs);
    both_lines(x, y)
}
