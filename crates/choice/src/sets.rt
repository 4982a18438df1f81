// Sets of outputs, one for each input, one bit an output.
ghost use Rattle.std.specs.Prelude.{◌≡◌, true, ℕ, ◌≤◌, ◌<◌, ltb, length, get_or, replicate};
ghost use Rattle.std.specs.Int.Bits.{bit_and, bit_or, bit_xor};
ghost use Rattle.streams.specs.Choose.{some_below};
ghost use Rattle.choice.specs.Sets.{all_below};
ghost use Rattle.choice.specs.Outs.{clear, outs};
ghost use Rattle.choice.specs.Sets.{agreed};
ghost use Rattle.choice.specs.Changed.{Changed};
ghost use Rattle.choice.specs.After.{after};

// For each of sixteen care bits, the outputs in which all of them are 0.
const CLEAR: [u16; 16] = [
    0xFFFF, 0x5555, 0x3333, 0x1111, 0x0F0F, 0x0505, 0x0303, 0x0101, 0x00FF, 0x0055, 0x0033, 0x0011,
    0x000F, 0x0005, 0x0003, 0x0001,
];

// The outputs that agree with the care bits and 0, moved up to those that agree with the value. The table is lent: a constant is laid out anew wherever it is read.
fn moved_up(table: &[u16; 16], care: usize, value: usize) -> u16
    requires { (table.now ≡ clear) × (care < 16) × (value < 16) }
    ensures { result ≡ outs care value }
{
    table[care] << (value & care)
}

// The outputs that agree with the care bits and the value, of which only the first four count.
pub fn outs(care: usize, value: usize) -> u16
    ensures { result ≡ outs care value }
{
    moved_up(&CLEAR, care % 16, value % 16)
}

// All numbers below n.
pub fn all_below(n: usize) -> u16
    requires { n ≤ 16 }
    ensures { result ≡ all_below n }
{
    ((1u32 << n) - 1) as u16
}

// For each input in range, all outputs in range.
pub fn room(inputs: usize, outputs: usize) -> [u16; 16]
    requires { (inputs ≤ 16) × (outputs ≤ 16) }
    ensures { Changed (λ x. all_below outputs) inputs (replicate 16 0) result }
{
    let mut sets = [0u16; 16];
    sets[..inputs].fill(all_below(outputs));
    sets
}

// The next input after x that agrees with the care bits as x does. From 16 on there is none.
fn after(care: usize, x: usize) -> usize
    requires { (care < 16) × (x < 16) }
    ensures { result ≡ after care x }
{
    ((x | care) + 1) & (31 - care) | (x & care)
}

// Something is left that agrees with the care bits, the value and the set.
pub fn is_left(left: &[u16; 16], inputs: usize, care: usize, value: usize, set: u16) -> bool
    requires { (inputs ≤ 16) × (care < 16) × (bit_and value care ≡ value) }
    ensures { result ≡ some_below (λ x. ltb 0 (agreed care value set x (get_or left.now x 0))) inputs }
{
    let mut x = value;
    // A `while`: `after` skips the inputs that do not agree.
    while x < inputs {
        if left[x] & set != 0 {
            return true;
        }
        x = after(care, x);
    }
    false
}

// Nothing is left with the first inputs.
pub fn nothing_left(left: &[u16; 16], inputs: usize) -> bool
    requires { inputs ≤ 16 }
    ensures { result ≡ true → (x : ℕ) → x < inputs → get_or left.now x 0 ≡ 0 }
{
    left[..inputs].iter().all(|&set| set == 0)
}

// Takes from what is left what agrees with the care bits, the value and the set.
pub fn take(left: &mut [u16; 16], inputs: usize, care: usize, value: usize, set: u16)
    requires { (inputs ≤ 16) × (care < 16) × (bit_and value care ≡ value) × (length left.old ≡ 16) }
    ensures { Changed (λ x. bit_xor (get_or left.old x 0) (agreed care value set x (get_or left.old x 0))) inputs left.old left.new }
{
    let mut x = value;
    // A `while`: `after` skips the inputs that do not agree.
    while x < inputs {
        left[x] = left[x] ^ (left[x] & set);
        x = after(care, x);
    }
}

// The same, and what agrees with the set `led` instead is found.
pub fn gather(
    left: &mut [u16; 16],
    found: &mut [u16; 16],
    inputs: usize,
    care: usize,
    value: usize,
    set: u16,
    led: u16,
)
    requires { (inputs ≤ 16) × (care < 16) × (bit_and value care ≡ value) × (length left.old ≡ 16) × (length found.old ≡ 16) }
    ensures changed { Changed (λ x. bit_xor (get_or left.old x 0) (agreed care value set x (get_or left.old x 0))) inputs left.old left.new }
    ensures changed_2 { Changed (λ x. bit_or (get_or found.old x 0) (agreed care value led x (get_or left.old x 0))) inputs found.old found.new }
{
    let mut x = value;
    // A `while`: `after` skips the inputs that do not agree.
    while x < inputs {
        found[x] = found[x] | left[x] & led;
        left[x] = left[x] ^ left[x] & set;
        x = after(care, x);
    }
}
