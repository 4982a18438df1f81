// Why a text is refused.
ghost use Rattle.std.specs.Prelude.{◌≡◌};
ghost use Rattle.compiling.specs.Refused.{as_whole};

use refusals::Refusal;

// The refusal, and the line that it stands in: 0 for the policy as a whole.
#[derive(Clone, Copy, Debug, PartialEq, Eq)]
pub struct LineRefusal {
    pub refusal: Refusal,
    pub line: usize,
}

impl From<Refusal> for LineRefusal {
    ghost from_gives = { λ refusal given. given ≡ as_whole refusal };

    fn from(refusal: Refusal) -> LineRefusal {
        LineRefusal { refusal, line: 0 }
    }
}
