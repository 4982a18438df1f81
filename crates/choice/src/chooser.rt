// The nearest value in a set: one chooser for both halves.
ghost use Rattle.std.specs.Prelude.{◌≡◌, ℕ, ◌≤◌, ◌<◌, ltb, get_or};
ghost use Rattle.streams.specs.Choose.{nearest};
ghost use Rattle.choice.specs.Sets.{has};
ghost use Rattle.choice.specs.Table.{table};
ghost use Rattle.choice.specs.Said.{choice_said};

use crate::table::NEAREST_FIRST;

// The value is in the set.
fn is_in(set: u16, value: u8) -> bool
    requires { value < 16 }
    ensures { result ≡ has set value }
{
    (set >> value) % 2 == 1
}

// Of the values below n in the set, the first of the wanted value's row. The table is lent: a constant is laid out anew wherever it is read.
#[tactic(auto, using(crate::proofs::ChooserLaws::left_found, crate::proofs::ChooserLaws::left_out, crate::proofs::ChooserLaws::left_passed, crate::proofs::ChooserLaws::left_ends))]
fn first_of_row(rows: &[u8; 256], set: u16, wanted: u8, n: usize) -> Option<u8>
    requires { (rows.now ≡ table) × (wanted < 16) × (n ≤ 16) }
    ensures { choice_said result ≡ nearest (has set) wanted n }
{
    let start = wanted as usize * 16;
    for &value in &rows[start..start + 16] {
        if (value as usize) < n && is_in(set, value) {
            return Some(value);
        }
    }
    None
}

// Of the values below n in the set, the one nearest to the wanted one: the first of its row. Its bits past the first four decide nothing, so they have no rows.
pub fn nearest(set: u16, wanted: u8, n: usize) -> Option<u8>
    requires { n ≤ 16 }
    ensures { choice_said result ≡ nearest (has set) wanted n }
{
    first_of_row(&NEAREST_FIRST, set, wanted % 16, n)
}

// The inputs whose set is not empty.
pub fn standing(sets: [u16; 16]) -> u16
    ensures { (x : ℕ) → has result x ≡ ltb 0 (get_or sets x 0) }
{
    let mut all = 0u16;
    for x in (0..sets.len()).rev() {
        all = all * 2 + u16::from(sets[x] != 0);
    }
    all
}
