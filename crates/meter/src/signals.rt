// The two signals that a meter goes by: the input P and the output D.
ghost use Rattle.std.specs.Prelude.{◌≡◌};
ghost use Rattle.policy.specs.Check.{refusal_under};
ghost use Rattle.streams.specs.Answer.{◌or_else◌};
ghost use Rattle.refusals.specs.Refused.{number_of};
ghost use Rattle.meter.specs.Meter.{with_pulse};
ghost use Rattle.meter.specs.Signals.{Found};

use policy::{input_weight, layout_under, output_weight};
use refusals::Refusal;

// What each adds to a value: 1, 2, 4 or 8.
#[derive(Clone, Copy)]
pub(crate) struct Signals {
    pub pulse: u8,
    pub dispense: u8,
}

// Both, where the policy has both.
pub(crate) fn signals_of(file: &[u8]) -> Option<Signals>
    ensures { Found file.now result }
{
    let pulse = input_weight(file, b'P');
    let dispense = output_weight(file, b'D');
    if pulse == 0 || dispense == 0 {
        return None;
    }
    Some(Signals { pulse, dispense })
}

// What is refused where the policy lacks one of them: 22 and 1 to 9, then 26.
pub(crate) fn no_signals(reading: u8, file: &[u8]) -> Refusal
    ensures { number_of result ≡ (refusal_under reading file.now or_else 26) }
{
    match layout_under(reading, file) {
        Err(refusal) => refusal,
        Ok(_) => Refusal::NoMeter,
    }
}

// P is set where there are pulses, and cleared where there are none, whatever x had there.
pub(crate) fn with_pulse(x: u8, weight: u8, pulses: u16) -> u8
    ensures { result ≡ with_pulse weight pulses x }
{
    if pulses == 0 {
        x & (u8::MAX - weight)
    } else {
        x | weight
    }
}
