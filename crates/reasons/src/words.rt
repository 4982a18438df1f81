// An answer as one number, for the C interface.
ghost use Rattle.std.specs.Prelude.{◌≡◌, Ok, ◌+◌, ◌*◌, ◌<◌};
ghost use Rattle.explaining.specs.Reasons.{kind_of, count_of};
ghost use Rattle.explaining.specs.CodeReasons.{reason_said};
ghost use Rattle.reasons.specs.Promise.{answer_numbered, answer_said, SmallReasons};
ghost use Rattle.reasons.specs.Word.{why_word};

use explaining::{Reason, Reasons, kind, number};

// A reason's number above its kind.
fn field(reason: Reason) -> u64
    requires { count_of (reason_said reason) < 65536 }
    ensures { (result ≡ kind_of (reason_said reason) + count_of (reason_said reason) * 256) × (result < 16777216) }
{
    kind(reason) + number(reason) * 256
}

// The two reasons.
pub(crate) fn both(reasons: Reasons) -> u64
    requires { SmallReasons (answer_said (Ok reasons)) }
    ensures { result ≡ why_word (answer_said (Ok reasons)) }
{
    let input = reasons.input;
    let output = reasons.output;
    field(input) * 256 + field(output) * 4294967296
}

// The refusal, by any number, or the word of the two.
pub fn word(answer: Result<Reasons, u8>) -> u64
    requires { SmallReasons (answer_numbered answer) }
    ensures { result ≡ why_word (answer_numbered answer) }
{
    match answer {
        Ok(reasons) => both(reasons),
        Err(refusal) => u64::from(refusal),
    }
}
