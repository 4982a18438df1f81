// What `clean` decides on slices: the policy that it writes, and the lines that it prints.
#![tactic(auto)]

mod lines;

ghost use Rattle.std.specs.Prelude.{◌≡◌, length};
ghost use Rattle.printing.specs.Reply.{Replied};
ghost use Rattle.listing.specs.Listed.{written, printed};

use crate::lines::{put_left, put_list};
use cleaning::clean;
use policy::limits::{FILE, LOCATIONS, RULES};
use printing::put_refused;

// The list at the most, three bytes for each of 64 locations and 256 rules; and the text, a line of 66 bytes for each of them and one of 32.
pub const LIST: usize = 3 * (LOCATIONS + RULES);

pub const TEXT: usize = 66 * (LOCATIONS + RULES) + 32;

// How many bytes there are: of the cleaned policy, and of the text.
#[derive(Clone, Copy)]
pub struct Outcome {
    pub cleaned: usize,
    pub text: usize,
}

fn reply(reading: u8, file: &[u8], cleaned: &mut [u8], list: &mut [u8], text: &mut [u8]) -> Outcome
    requires { (length cleaned.old ≡ 5974) × (length list.old ≡ 960) × (length text.old ≡ 21152) }
    ensures replied { Replied cleaned.old (written reading file.now) result.cleaned cleaned.new }
    ensures replied_2 { Replied text.old (printed reading file.now) result.text text.new }
{
    match clean(reading, file, cleaned, list) {
        Err(refusal) => Outcome {
            cleaned: 0,
            text: put_refused(text, 0, u8::from(refusal)),
        },
        Ok(lengths) => {
            let left = lengths.cleaned;
            let struck = lengths.struck;
            let next = put_list(text, 0, &list[..struck]);
            Outcome {
                cleaned: left,
                text: put_left(text, next, left),
            }
        }
    }
}

// Writes the cleaned policy and what `clean` prints, and returns both lengths. The list is the program's scratch: what it holds, before and afterwards, is
// nobody's concern.
pub fn respond(
    reading: u8,
    file: &[u8],
    cleaned: &mut [u8; FILE],
    list: &mut [u8; LIST],
    text: &mut [u8; TEXT],
) -> Outcome
    ensures replied { Replied cleaned.old (written reading file.now) result.cleaned cleaned.new }
    ensures replied_2 { Replied text.old (printed reading file.now) result.text text.new }
{
    reply(reading, file, cleaned, list, text)
}
