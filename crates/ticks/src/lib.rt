// Milliseconds and ticks: a number of one never stands for the other.
#![tactic(auto)]

ghost use Rattle.std.specs.Prelude.{◌≡◌, ◌<◌};
ghost use Rattle.refusals.specs.Refused.{told};
ghost use Rattle.ticks.specs.Conversion.{rounded, upwards, Converted};

use refusals::Refusal;

#[derive(Clone, Copy)]
pub struct Milliseconds(pub u32);

// Made by the conversion alone.
#[derive(Clone, Copy)]
pub struct Ticks(u32);

#[derive(Clone, Copy)]
pub enum Rounding {
    Down,
    Up,
}

impl Ticks {
    // No conversion gives more.
    pub const MOST: u32 = 1000;

    pub fn count(self) -> u32
        ensures { result ≡ self.0 }
    {
        self.0
    }
}

impl Milliseconds {
    fn rounded(self, tick: Milliseconds, rounding: Rounding) -> Ticks
        requires { 0 < tick.0 }
        ensures { result.0 ≡ rounded self.0 tick.0 (upwards rounding) }
    {
        let time = self.0;
        let length = tick.0;
        let whole = time / length;
        let left = time % length;
        match rounding {
            Rounding::Down => Ticks(whole),
            Rounding::Up => if left == 0 {
                Ticks(whole)
            } else {
                let next = whole + 1;
                Ticks(next)
            },
        }
    }

    // NoTick for a tick length of 0, then LongTime for a count above 1,000.
    pub fn to_ticks(self, tick: Milliseconds, rounding: Rounding) -> Result<Ticks, Refusal>
        ensures { Converted self tick rounding (told result) }
    {
        if tick.0 == 0 {
            return Err(Refusal::NoTick);
        }
        let ticks = self.rounded(tick, rounding);
        if Ticks::MOST < ticks.0 {
            return Err(Refusal::LongTime);
        }
        Ok(ticks)
    }
}
