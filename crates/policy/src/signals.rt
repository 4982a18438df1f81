// A signal by its tag: what it adds to a value.
ghost use Rattle.std.specs.Prelude.{◌≡◌, ◌≤◌};
ghost use Rattle.policy.specs.Signals.{weight_at, input_weight, output_weight};

use crate::bytes::byte_at;
use crate::limits::SIGNALS;

// The weight of the signal with this tag in the section whose count stands at `at`: 1, 2, 4 or 8, or 0 where no signal has it. No more than four signals are looked at, so that any bytes will do.
fn weight_at(file: &[u8], at: usize, tag: u8) -> u8
    requires { at ≤ 256 }
    ensures { result ≡ weight_at file.now at tag }
{
    let count = byte_at(file, at).min(SIGNALS);
    for i in 0..count {
        if file.get(at + 1 + i) == Some(&tag) {
            return 1 << i;
        }
    }
    0
}

pub fn input_weight(file: &[u8], tag: u8) -> u8
    ensures { result ≡ input_weight file.now tag }
{
    weight_at(file, 0, tag)
}

pub fn output_weight(file: &[u8], tag: u8) -> u8
    ensures { result ≡ output_weight file.now tag }
{
    let inputs = byte_at(file, 0);
    weight_at(file, 1 + inputs, tag)
}
