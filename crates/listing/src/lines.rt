// The lines that are printed.
ghost use Rattle.std.specs.Prelude.{◌+◌, ◌*◌, ◌^◌, ◌≤◌, ◌<◌, length};
ghost use Rattle.texts.specs.Wrote.{Wrote};
ghost use Rattle.listing.specs.Listed.{entry_line, bytes_lines, left_line};

use policy::bytes::pair_at;
use texts::put_about;

// The line of an entry: at most 66 bytes.
fn put_entry(text: &mut [u8], at: usize, kind: u8, number: usize) -> usize
    requires { (number < 10 ^ 5) × (at + 66 ≤ length text.old) }
    ensures { Wrote text.old at (entry_line kind number) result text.new }
{
    if kind == 1 {
        return put_about(
            text,
            at,
            b"location ",
            number,
            b": no permitted stream from the start leads to it\n",
        );
    }
    if kind == 2 {
        return put_about(text, at, b"rule ", number, b": of such a location\n");
    }
    put_about(
        text,
        at,
        b"rule ",
        number,
        b": decides no event in any state such a stream leads to\n",
    )
}

// A line for each three bytes of the list: at most 22 bytes for each of them.
pub(crate) fn put_list(text: &mut [u8], at: usize, list: &[u8]) -> usize
    requires { at + 22 * length list.now ≤ length text.old }
    ensures { Wrote text.old at (bytes_lines list.now) result text.new × (result ≤ at + 22 * length list.now) }
{
    let mut next = at;
    let mut i = 0;
    // A `while`: an entry is three bytes, and a step of three gets no measure in a `for`.
    while i + 2 < list.len() {
        next = put_entry(text, next, list[i], pair_at(list, i + 1));
        i += 3;
    }
    next
}

// The last line: at most 5 + 20 + 7 bytes.
pub(crate) fn put_left(text: &mut [u8], at: usize, n: usize) -> usize
    requires { at + 32 ≤ length text.old }
    ensures { Wrote text.old at (left_line n) result text.new }
{
    put_about(text, at, b"left ", n, b" bytes\n")
}
