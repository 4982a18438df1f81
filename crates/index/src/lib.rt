// The index of a file's rules: for each location its first rule and how many it has. What the numbers are stands in specs/.
#![tactic(auto)]

mod ends;
mod entry;

ghost use Rattle.std.specs.Prelude.{◌≡◌, ◌++◌, ◌≤◌, ◌<◌, length, drop};
ghost use Rattle.policy.specs.File.{rules_of};
ghost use Rattle.policy.specs.Own.{own_of};
ghost use Rattle.index.specs.Index.{index_of, is_index};
ghost use Rattle.index.specs.Sections.{Sections};
ghost use Rattle.index.specs.Entry.{BuildPromise};
ghost use Rattle.refusals.specs.Refused.{refusal_in};

use ends::is_entry;
pub use entry::Entry;
use entry::entry_at;
use policy::limits::{BOUND_SIZE, LOCATIONS, RULE_HEAD};
use policy::{Layout, Own, layout_of};
use refusals::Refusal;

// How many numbers an index is: two for each location that there can be.
pub const NUMBERS: usize = 2 * LOCATIONS;

// Writes the index of a checked file. One pass over the rules, location by location.
pub fn fill(file: &[u8], layout: Layout, index: &mut [u16])
    requires { Sections file.now layout × (128 ≤ length index.old) }
    ensures { index.new ≡ index_of file.now ++ drop 128 index.old }
{
    let mut first = 0;
    for location in 0..LOCATIONS {
        let entry = entry_at(file, layout, location, first);
        let at = 2 * location;
        index[at] = entry.first as u16;
        index[at + 1] = entry.number as u16;
        first += entry.number;
    }
}

// Whether the numbers are the index of a checked file. Of each location's rules only the ends are looked at, and a number only once it is known to be one of a rule.
pub fn is_index(file: &[u8], layout: Layout, index: &[u16]) -> bool
    requires { Sections file.now layout }
    ensures { result ≡ is_index file.now index.now }
{
    if index.len() != NUMBERS {
        return false;
    }
    let mut first = 0;
    for location in 0..LOCATIONS {
        let at = 2 * location;
        let given = Entry {
            first: usize::from(index[at]),
            number: usize::from(index[at + 1]),
        };
        if !is_entry(file, layout, location, first, given) {
            return false;
        }
        first += given.number;
    }
    true
}

// A location's own rules, by the index.
pub fn own_at(file: &[u8], layout: Layout, index: &[u16], location: u16) -> Own
    requires { Sections file.now layout × (index.now ≡ index_of file.now) × (location < layout.locations) }
    ensures { result ≡ own_of layout.clocks location (rules_of file.now) }
{
    let at = 2 * usize::from(location);
    Own {
        start: usize::from(index[at]) * (RULE_HEAD + BOUND_SIZE * layout.clocks),
        count: usize::from(index[at + 1]),
    }
}

// Writes the index of a file that is checked first. A refusal writes nothing, and what stands past the index stays.
pub fn write_index(file: &[u8], index: &mut [u16]) -> Result<(), Refusal>
    ensures { BuildPromise file.now index.old (refusal_in result) index.new }
{
    let layout = layout_of(file)?;
    if index.len() < NUMBERS {
        return Err(Refusal::NoRoom);
    }
    fill(file, layout, index);
    Ok(())
}
