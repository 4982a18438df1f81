// Bytes laid into a slice from a position on, as far as the slice reaches. Each function hands back the position after them.
ghost use Rattle.std.specs.Prelude.{[], ◌∷◌, ◌+◌, ◌≤◌, ◌<◌, ◌^◌, length};
ghost use Rattle.policy.specs.Bytes.{pair_bytes};
ghost use Rattle.laying.specs.Lay.{LaidAt, bytes_from, either_from};

pub fn put(byte: usize, out: &mut [u8], at: usize) -> usize
    requires { (byte < 256) × (at < 2 ^ 32) }
    ensures { LaidAt (byte ∷ []) out.old at out.new result }
{
    if at < out.len() {
        out[at] = byte as u8;
    }
    at + 1
}

// A two-byte number, the high byte first.
pub fn put_pair(n: usize, out: &mut [u8], at: usize) -> usize
    requires { (n < 65536) × (at < 2 ^ 31) }
    ensures { LaidAt (pair_bytes n) out.old at out.new result }
{
    let next = put(n / 256, out, at);
    put(n % 256, out, next)
}

// n bytes from `start` on.
pub fn copy(from: &[u8], start: usize, n: usize, out: &mut [u8], at: usize) -> usize
    requires { (start + n ≤ length from.now) × (n < 2 ^ 16) × (at < 2 ^ 31) }
    ensures { LaidAt (bytes_from from.now start n) out.old at out.new result }
{
    let mut next = at;
    for byte in &from[start..start + n] {
        next = put(*byte as usize, out, next);
    }
    next
}

// n bytes, each with the bits of a's byte and of b's, from p and q on.
pub fn put_either(
    a: &[u8],
    p: usize,
    b: &[u8],
    q: usize,
    n: usize,
    out: &mut [u8],
    at: usize,
) -> usize
    requires { (p + n ≤ length a.now) × (q + n ≤ length b.now) × (n < 2 ^ 16) × (at < 2 ^ 31) }
    ensures { LaidAt (either_from a.now p b.now q n) out.old at out.new result }
{
    let mut next = at;
    for (first, second) in a[p..p + n].iter().zip(&b[q..q + n]) {
        next = put((first | second) as usize, out, next);
    }
    next
}
