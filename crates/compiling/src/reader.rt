// The reader: the lines of the text, the file's own check, the room, and then the file.
ghost use Rattle.std.specs.Prelude.{◌≡◌, ℕ, ◌+◌, ◌*◌, ◌≤◌, ◌<◌, leb, length, get_or};
ghost use Rattle.streams.specs.Answer.{unless, ◌or_else◌};
ghost use Rattle.refusals.specs.Refused.{refusal_in};
ghost use Rattle.policy.specs.Number.{states_of};
ghost use Rattle.compiling.specs.Promise.{read_said, ReadTextPromise, JudgePromise};

use crate::counts::put_counts;
use crate::lines::read_lines;
use crate::refused::LineRefusal;
use policy::limits::{BOUND_SIZE, CLOCKS, LOCATIONS, RULE_HEAD, RULES, STATES};
use policy::states_of;
use refusals::Refusal;
use texts::put_bytes;
use words::names::NAMES;

// Room for all rules, each with the bounds of all clocks.
const ALL_RULES: usize = RULES * (RULE_HEAD + BOUND_SIZE * CLOCKS);

// What the file's own check refuses of a text that is read: it has no location, or too many states.
fn check_whole(ceilings: [u16; 4], clocks: usize, places: usize) -> Result<(), Refusal>
    requires { (clocks ≤ 4) × (places ≤ 64) × ((i : ℕ) → i < clocks → get_or ceilings i 0 ≤ 1001) }
    ensures { refusal_in result ≡ (unless (leb 1 places) 2 or_else unless (leb (states_of ceilings clocks places) 65536) 9) }
{
    if places < 1 {
        return Err(Refusal::BadCount);
    }
    let states = states_of(ceilings, clocks, places);
    if STATES < states {
        return Err(Refusal::ManyStates);
    }
    Ok(())
}

fn file_length(signals: usize, clocks: usize, places: usize, count: usize) -> usize
    requires { (signals ≤ 8) × (clocks ≤ 4) × (places ≤ 64) × (count ≤ 256) }
    ensures { result ≡ 6 + signals + 2 * clocks + places + count * (7 + 4 * clocks) }
{
    6 + signals + 2 * clocks + places + count * (7 + 4 * clocks)
}

// Writes the file of a policy's text, and gives its length: None where there is no room for it, and nothing is written.
pub fn judge(text: &[u8], out: &mut [u8]) -> Result<Option<usize>, LineRefusal>
    ensures { JudgePromise text.now out.old result out.new }
{
    let mut kept = [0u8; ALL_RULES];
    let mut starts = [0usize; NAMES];
    let mut lengths = [0u8; NAMES];
    let mut left = [0u8; LOCATIONS];
    let said = read_lines(text, &mut kept, &mut starts, &mut lengths, &mut left)?;
    let table = said.table;
    check_whole(table.ceilings, table.clocks, table.places)?;
    let count = said.count;
    let length = file_length(table.signals, table.clocks, table.places, count);
    if out.len() < length {
        return Ok(None);
    }
    let from = put_counts(out, &left, table, count);
    Ok(Some(put_bytes(out, from, &kept[..said.used])))
}

// Writes the file of the text, and gives its length.
pub fn compile(text: &[u8], out: &mut [u8]) -> Result<usize, LineRefusal>
    ensures { ReadTextPromise text.now out.old (read_said result) out.new }
{
    match judge(text, out)? {
        Some(length) => Ok(length),
        None => Err(LineRefusal::from(Refusal::NoRoom)),
    }
}
