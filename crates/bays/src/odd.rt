// Numbers that are too many or too few to be a state.
ghost use Rattle.std.specs.Prelude.{◌≡◌};
ghost use Rattle.refusals.specs.Refused.{number_of};
ghost use Rattle.bays.specs.Odd.{odd_refusal};

use enforcer::layout_for;
use refusals::Refusal;

// What is refused where the numbers are too many or too few: 22 and 1 to 10 come first, then 14 where there is no room for what is to be written.
pub fn odd_refusal(reading: u8, file: &[u8], marks: &[u8], room: bool) -> Refusal
    ensures { number_of result ≡ odd_refusal reading file.now marks.now room }
{
    match layout_for(reading, file, marks) {
        Err(refusal) => refusal,
        Ok(_) if room => Refusal::BadState,
        Ok(_) => Refusal::NoRoom,
    }
}
