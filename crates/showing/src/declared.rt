// A line before the rules, written: a signal's, a clock's, a location's.
ghost use Rattle.std.specs.Prelude.{◌+◌, ◌≤◌, ◌<◌, length};
ghost use Rattle.texts.specs.Wrote.{Wrote};
ghost use Rattle.showing.specs.Declarations.{tag_piece, clock_piece, place_piece};

use rule_text::{put_named, put_number};
use texts::put_bytes;

pub(crate) fn put_tag(text: &mut [u8], at: usize, word: &[u8], tag: u8) -> usize
    requires { (length word.now ≤ 6) × (at + 9 ≤ length text.old) }
    ensures { Wrote text.old at (tag_piece word.now tag) result text.new × (result ≤ at + 9) }
{
    let next = put_bytes(text, at, word);
    let rest = [b' ', tag, b'\n'];
    put_bytes(text, next, &rest)
}

pub(crate) fn put_clock(text: &mut [u8], at: usize, k: usize, ceiling: usize) -> usize
    requires { (k < 65536) × (ceiling < 65536) × (at + 19 ≤ length text.old) }
    ensures { Wrote text.old at (clock_piece k ceiling) result text.new × (result ≤ at + 19) }
{
    let next = put_named(text, at, b"clock t", k, b" ");
    put_number(text, next, ceiling, b"\n")
}

pub(crate) fn put_place(text: &mut [u8], at: usize, k: usize, byte: u8) -> usize
    requires { (k < 65536) × (at + 29 ≤ length text.old) }
    ensures { Wrote text.old at (place_piece k byte) result text.new × (result ≤ at + 29) }
{
    if byte == 1 {
        return put_named(text, at, b"location q", k, b" must be left\n");
    }
    put_named(text, at, b"location q", k, b"\n")
}
