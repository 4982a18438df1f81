// Bytes and numbers written into a text.
#![tactic(auto)]

ghost use Rattle.std.specs.Prelude.{[], ◌∷◌, ◌++◌, ◌+◌, ◌≤◌, ◌<◌, length};
ghost use Rattle.texts.specs.Text.{digit, decimal};
ghost use Rattle.texts.specs.Wrote.{Wrote};

// Bytes as they are.
pub fn put_bytes(text: &mut [u8], at: usize, bytes: &[u8]) -> usize
    requires { at + length bytes.now ≤ length text.old }
    ensures { Wrote text.old at bytes.now result text.new }
{
    let end = at + bytes.len();
    text[at..end].copy_from_slice(bytes);
    end
}

// The last digit of n.
fn put_digit(text: &mut [u8], at: usize, n: usize) -> usize
    requires { at < length text.old }
    ensures { Wrote text.old at (digit n ∷ []) result text.new }
{
    text[at] = b'0' + (n % 10) as u8;
    at + 1
}

// The digits of n in decimal.
pub fn put_decimal(text: &mut [u8], at: usize, n: usize) -> usize
    requires { at + length (decimal n) ≤ length text.old }
    ensures { Wrote text.old at (decimal n) result text.new }
{
    if n < 10 {
        return put_digit(text, at, n);
    }
    let last = put_decimal(text, at, n / 10);
    put_digit(text, last, n)
}

// Words, a number and words.
pub fn put_about(text: &mut [u8], at: usize, before: &[u8], n: usize, after: &[u8]) -> usize
    requires { at + length before.now + length (decimal n) + length after.now ≤ length text.old }
    ensures { Wrote text.old at (before.now ++ decimal n ++ after.now) result text.new }
{
    let number = put_bytes(text, at, before);
    let rest = put_decimal(text, number, n);
    put_bytes(text, rest, after)
}
