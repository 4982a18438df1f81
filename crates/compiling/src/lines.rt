// The lines of a text, one after another.
ghost use Rattle.std.specs.Prelude.{◌≡◌, List, [], ℕ, ◌+◌, ◌≤◌, ◌<◌, length};
ghost use Rattle.wording.specs.Reader.{empty};
ghost use Rattle.words.specs.Spans.{NamesIn};
ghost use Rattle.declarations.specs.Table.{draft_of, Fit};
ghost use Rattle.compiling.specs.Stored.{Held};

use crate::line::read_line;
use crate::refused::LineRefusal;
use declarations::table::Table;
use phrases::stored::store_rule;
use words::words::line_end;

// What all lines have said, with how many rules, which take the first `used` bytes that are kept.
#[derive(Clone, Copy)]
pub(crate) struct Said {
    pub(crate) count: usize,
    pub(crate) used: usize,
    pub(crate) table: Table,
}

// Before the first line.
fn unread() -> Table
    ensures { ((text starts lengths left : List ℕ) → draft_of text starts lengths left result [] ≡ empty) × Fit result }
{
    Table {
        tags: [0; 8],
        ceilings: [0; 4],
        inputs: 0,
        signals: 0,
        clocks: 0,
        places: 0,
        stage: 0,
        source: 64,
    }
}

// Where the line after one that ends at `end` begins: after its line feed, or at the end of the text.
pub fn next_line(end: usize, length: usize) -> usize
    requires { end ≤ length }
    ensures { (result ≤ length) × (end < length → result ≡ end + 1) × (length ≤ end → result ≡ length) }
{
    if end < length { end + 1 } else { length }
}

// The rules are put aside in `kept`, since only the last line shows whether any is refused.
pub(crate) fn read_lines(
    text: &[u8],
    kept: &mut [u8],
    starts: &mut [usize],
    lengths: &mut [u8],
    left: &mut [u8],
) -> Result<Said, LineRefusal>
    requires { (length kept.old ≡ 5888) × NamesIn 76 text.now starts.old lengths.old × (length left.old ≡ 64) }
    ensures { Held text.now kept.old result (draft_of text.now starts.new lengths.new left.new) kept.new }
{
    let mut table = unread();
    let mut count = 0;
    let mut used = 0;
    let mut passed = 0;
    let mut at = 0;
    // A `while`: a step is a line, which ends where `line_end` says.
    while at < text.len() {
        let end = line_end(text, at);
        passed += 1;
        let taken = match read_line(text, end, at, starts, lengths, left, table, count) {
            Ok(taken) => taken,
            Err(refusal) => {
                return Err(LineRefusal {
                    refusal,
                    line: passed,
                });
            }
        };
        table = taken.table;
        if let Some(parsed) = taken.rule {
            used = store_rule(kept, used, table.source, table.inputs, parsed, table.clocks);
            count += 1;
        }
        at = next_line(end, text.len());
    }
    Ok(Said { count, used, table })
}
