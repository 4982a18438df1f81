// The frame of what `enforce` reads: a count and the policy, a count and the events.
#![tactic(auto)]

ghost use Rattle.std.specs.Prelude.{◌≡◌, ◌<◌, ◌^◌};
ghost use Rattle.refusals.specs.Refused.{refusal_in};
ghost use Rattle.frames.specs.Frame.{count_refusal, policy_frame_refusal, policy_part, events_frame_refusal, events_part, input_refusal};

use policy::bytes::pair_at;
use policy::limits::FILE;
use refusals::Refusal;

// The most events that the input may have.
pub const EVENTS: usize = 16384;

// The longest input, and one byte more: it tells that bytes are left over.
pub const INPUT: usize = 2 + FILE + 2 + EVENTS + 1;

// A count at `at`, and the bytes that it counts.
fn check_count(input: &[u8], at: usize, most: usize) -> Result<(), Refusal>
    requires { at < 2 ^ 32 }
    ensures { refusal_in result ≡ count_refusal input.now at most }
{
    if input.len() < at + 2 {
        return Err(Refusal::CutShort);
    }
    let n = pair_at(input, at);
    if most < n {
        return Err(Refusal::BadCount);
    }
    if input.len() < at + 2 + n {
        return Err(Refusal::CutShort);
    }
    Ok(())
}

// The reading, and then the policy's frame.
pub fn check_input(reading: u8, input: &[u8]) -> Result<(), Refusal>
    ensures { refusal_in result ≡ input_refusal input.now reading }
{
    if reading < 1 || 2 < reading {
        return Err(Refusal::BadReading);
    }
    check_count(input, 0, FILE)
}

// The events' frame, after the policy.
pub fn check_events(input: &[u8]) -> Result<(), Refusal>
    ensures { refusal_in result ≡ events_frame_refusal input.now }
{
    let at = 2 + pair_at(input, 0);
    check_count(input, at, EVENTS)?;
    let end = at + 2 + pair_at(input, at);
    if end < input.len() {
        return Err(Refusal::LeftOver);
    }
    Ok(())
}

// The policy of an input whose frame is not refused, and its events.
pub fn policy_in(input: &[u8]) -> &[u8]
    requires { policy_frame_refusal input.now ≡ 0 }
    ensures { result.now ≡ policy_part input.now }
{
    let end = 2 + pair_at(input, 0);
    &input[2..end]
}

pub fn events_in(input: &[u8]) -> &[u8]
    requires { events_frame_refusal input.now ≡ 0 }
    ensures { result.now ≡ events_part input.now }
{
    let start = 2 + pair_at(input, 0) + 2;
    &input[start..]
}
