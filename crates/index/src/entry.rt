// One location's entry of the index.
ghost use Rattle.std.specs.Prelude.{◌≡◌};
ghost use Rattle.policy.specs.File.{rules_of};
ghost use Rattle.index.specs.Index.{lower, entry_of};
ghost use Rattle.index.specs.Sections.{Sections};

use policy::limits::{BOUND_SIZE, RULE_HEAD};
use policy::{Layout, rules_below};

#[derive(Clone, Copy)]
pub struct Entry {
    pub first: usize,
    pub number: usize,
}

// `first` rules have a source below the location; past the locations stand 0 and 0.
pub(crate) fn entry_at(file: &[u8], layout: Layout, location: usize, first: usize) -> Entry
    requires { Sections file.now layout × (first ≡ lower location (rules_of file.now)) }
    ensures { result ≡ entry_of file.now location }
{
    if layout.locations <= location {
        return Entry {
            first: 0,
            number: 0,
        };
    }
    let start = layout.rules_start;
    let end = layout.rules_end;
    let number = rules_below(
        &file[start..end],
        first * (RULE_HEAD + BOUND_SIZE * layout.clocks),
        layout.rules - first,
        layout.clocks,
        location + 1,
    );
    Entry { first, number }
}
