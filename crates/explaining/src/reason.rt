// The reasons, and which of two goes first.
ghost use Rattle.std.specs.Prelude.{◌≡◌, ◌≤◌};
ghost use Rattle.explaining.specs.Reasons.{kind_of, count_of};
ghost use Rattle.explaining.specs.Better.{better};
ghost use Rattle.explaining.specs.CodeReasons.{reason_said};

// Kept: the half is not edited. The number is that of a rule, from 0, or how many ticks, or how many events at rest.
#[derive(Clone, Copy)]
pub enum Reason {
    Kept,
    Rule(usize),
    Unmatched,
    Ticks(usize),
    Rests(usize),
}

// For the input, and for the output.
#[derive(Clone, Copy)]
pub struct Reasons {
    pub input: Reason,
    pub output: Reason,
}

// A count of rests goes before all others, and the greater before the less.
fn with_rests(j: usize, best: Reason) -> Reason
    ensures { reason_said result ≡ better (reason_said best) (reason_said (Reason.Rests j)) }
{
    match best {
        Reason::Rests(k) => Reason::Rests(j.max(k)),
        Reason::Kept | Reason::Rule(_) | Reason::Unmatched | Reason::Ticks(_) => Reason::Rests(j),
    }
}

// A count of ticks goes before a violation.
fn with_ticks(j: usize, best: Reason) -> Reason
    ensures { reason_said result ≡ better (reason_said best) (reason_said (Reason.Ticks j)) }
{
    match best {
        Reason::Rests(_) => best,
        Reason::Ticks(k) => Reason::Ticks(j.max(k)),
        Reason::Kept | Reason::Rule(_) | Reason::Unmatched => Reason::Ticks(j),
    }
}

// Of the reason for some outputs, and that for one more.
pub(crate) fn better(best: Reason, one: Reason) -> Reason
    ensures { reason_said result ≡ better (reason_said best) (reason_said one) }
{
    match one {
        Reason::Rests(j) => with_rests(j, best),
        Reason::Ticks(j) => with_ticks(j, best),
        Reason::Kept | Reason::Rule(_) => best,
        Reason::Unmatched => best,
    }
}

// The kind of a reason: 0 not edited, 1 rule, 2 no rule, 3 ticks, 4 rests.
pub fn kind(reason: Reason) -> u64
    ensures { (result ≡ kind_of (reason_said reason)) × (result ≤ 4) }
{
    match reason {
        Reason::Kept => 0,
        Reason::Rule(_) => 1,
        Reason::Unmatched => 2,
        Reason::Ticks(_) => 3,
        Reason::Rests(_) => 4,
    }
}

// Its number; 0 where the kind has none.
pub fn number(reason: Reason) -> u64
    ensures { result ≡ count_of (reason_said reason) }
{
    match reason {
        Reason::Kept | Reason::Unmatched => 0,
        Reason::Rule(i) => i as u64,
        Reason::Ticks(k) | Reason::Rests(k) => k as u64,
    }
}
