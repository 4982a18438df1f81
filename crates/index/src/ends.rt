// Whether two numbers are a location's entry, by the ends of its rules: sources never fall, so that all rules between two of a location are its own.
ghost use Rattle.std.specs.Prelude.{◌≡◌, ◌&&◌, ◌<◌, ◌^◌, ltb, eqb};
ghost use Rattle.policy.specs.File.{rules_of};
ghost use Rattle.index.specs.Index.{lower, number, entry_of};
ghost use Rattle.index.specs.Sections.{Sections};

use crate::entry::Entry;
use policy::Layout;
use policy::bytes::byte_within;
use policy::limits::{BOUND_SIZE, RULE_HEAD};

// The location has more than `count` rules: the one that comes after so many of them is in the file, and is its own. `first` rules have a lower source.
fn has_more(file: &[u8], layout: Layout, location: usize, first: usize, count: usize) -> bool
    requires { Sections file.now layout × (first ≡ lower location (rules_of file.now)) × (count < 2 ^ 16) }
    ensures { result ≡ ltb count (number location (rules_of file.now)) }
{
    let rule = first + count;
    let size = RULE_HEAD + BOUND_SIZE * layout.clocks;
    rule < layout.rules && byte_within(file, layout.rules_start + rule * size) == location
}

// The location has exactly `count` rules: the last of so many is its own, and the next is not.
fn has_exactly(file: &[u8], layout: Layout, location: usize, first: usize, count: usize) -> bool
    requires { Sections file.now layout × (first ≡ lower location (rules_of file.now)) × (count < 2 ^ 16) }
    ensures { result ≡ eqb count (number location (rules_of file.now)) }
{
    !has_more(file, layout, location, first, count)
        && (count == 0 || has_more(file, layout, location, first, count - 1))
}

// The numbers given are the location's entry.
pub(crate) fn is_entry(
    file: &[u8],
    layout: Layout,
    location: usize,
    first: usize,
    given: Entry,
) -> bool
    requires { Sections file.now layout × (first ≡ lower location (rules_of file.now)) × (given.number < 2 ^ 16) }
    ensures { result ≡ (eqb given.first (entry_of file.now location).first && eqb given.number (entry_of file.now location).number) }
{
    if layout.locations <= location {
        return given.first == 0 && given.number == 0;
    }
    given.first == first && has_exactly(file, layout, location, first, given.number)
}
