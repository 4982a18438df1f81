// The bytes of a file before its rules: each section after its count.
ghost use Rattle.std.specs.Prelude.{◌≡◌, ◌∷◌, ◌+◌, ◌*◌, ◌≤◌, ◌<◌, length};
ghost use Rattle.policy.specs.Bytes.{pairs_bytes};
ghost use Rattle.texts.specs.Wrote.{Wrote};
ghost use Rattle.declarations.specs.Table.{Fit};
ghost use Rattle.compiling.specs.Counts.{counts_of};

use declarations::table::Table;
use phrases::stored::{high_byte, low_byte};
use texts::put_bytes;

// A count of bytes, and those bytes.
fn put_section(out: &mut [u8], at: usize, bytes: &[u8]) -> usize
    requires { (length bytes.now < 256) × (at + 1 + length bytes.now ≤ length out.old) }
    ensures { Wrote out.old at (length bytes.now ∷ bytes.now) result out.new × (result ≡ at + 1 + length bytes.now) }
{
    let next = put_bytes(out, at, &[bytes.len() as u8]);
    put_bytes(out, next, bytes)
}

// Two bytes for each clock's ceiling.
fn put_pairs(out: &mut [u8], at: usize, ceilings: &[u16]) -> usize
    requires { at + 2 * length ceilings.now ≤ length out.old }
    ensures { Wrote out.old at (pairs_bytes ceilings.now) result out.new × (result ≡ at + 2 * length ceilings.now) }
{
    let mut next = at;
    for ceiling in ceilings {
        next = put_bytes(out, next, &[high_byte(*ceiling), low_byte(*ceiling)]);
    }
    next
}

// The number of clocks and their ceilings.
fn put_ceilings(out: &mut [u8], at: usize, ceilings: &[u16]) -> usize
    requires { (length ceilings.now < 256) × (at + 1 + 2 * length ceilings.now ≤ length out.old) }
    ensures { Wrote out.old at (length ceilings.now ∷ pairs_bytes ceilings.now) result out.new × (result ≡ at + 1 + 2 * length ceilings.now) }
{
    let next = put_bytes(out, at, &[ceilings.len() as u8]);
    put_pairs(out, next, ceilings)
}

// All sections but the rules, and the number of these.
pub(crate) fn put_counts(out: &mut [u8], left: &[u8], table: Table, count: usize) -> usize
    requires { (count ≤ 256) × (6 + table.signals + 2 * table.clocks + table.places ≤ length out.old) × (length left.now ≡ 64) × Fit table }
    ensures { Wrote out.old 0 (counts_of left.now table count) result out.new }
{
    let inputs = put_section(out, 0, &table.tags[..table.inputs]);
    let outputs = put_section(out, inputs, &table.tags[table.inputs..table.signals]);
    let clocks = put_ceilings(out, outputs, &table.ceilings[..table.clocks]);
    let places = put_section(out, clocks, &left[..table.places]);
    let rules = count as u16;
    put_bytes(out, places, &[high_byte(rules), low_byte(rules)])
}
