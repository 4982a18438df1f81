// Several numbers packed into one: each has its bits, and none reaches into those of the next.
#![tactic(auto)]

ghost use Rattle.std.specs.Prelude.{◌≡◌, ◌+◌, ◌*◌, ◌%◌, ◌^◌, ◌<◌};

// By what a number is multiplied, to begin at a bit. Where a `usize` is packed it is cast, since it has no `From` into u64.
const BIT_8: u64 = 1 << 8;

const BIT_16: u64 = 1 << 16;

const BIT_40: u64 = 1 << 40;

// A place is held modulo this.
const PLACES: u64 = 1 << 32;

// A verdict from bit 8 on, a number of states from bit 16 on, and one of live states from bit 40 on.
pub fn pack_summary(verdict: u8, states: usize, live: usize) -> u64
    requires { (states < 2 ^ 24) × (live < 2 ^ 24) }
    ensures { result ≡ verdict * 256 + states * 65536 + live * 1099511627776 }
{
    u64::from(verdict) * BIT_8 + states as u64 * BIT_16 + live as u64 * BIT_40
}

// A refusal; a line or a place from bit 8 on, held modulo 2 ^ 32; and a length from bit 40 on.
pub fn pack_place(refusal: u8, at: usize, length: usize) -> u64
    requires { length < 2 ^ 24 }
    ensures { result ≡ refusal + at % 2 ^ 32 * 256 + length * 1099511627776 }
{
    u64::from(refusal) + at as u64 % PLACES * BIT_8 + length as u64 * BIT_40
}
