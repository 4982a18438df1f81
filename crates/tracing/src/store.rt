// Events stored in a slice, as far as it reaches.
ghost use Rattle.std.specs.Prelude.{◌≡◌, ◌-◌, ◌≤◌, set, replicate};
ghost use Rattle.std.proofs.lemmas.List.Edits.{sets};

pub(crate) fn put(events: &mut [u8], at: usize, event: u8)
    ensures { events.new ≡ set events.old at event }
{
    if at < events.len() {
        events[at] = event;
    }
}

// The same event from the time `from` on, up to the time `to`.
pub(crate) fn fill(events: &mut [u8], from: usize, to: usize, event: u8)
    requires { from ≤ to }
    ensures { events.new ≡ sets events.old from (replicate (to - from) event) }
{
    for time in from..to {
        put(events, time, event);
    }
}
