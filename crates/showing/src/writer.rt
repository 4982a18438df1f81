// The writer: the check of the file, how long its text is, and then the text.
ghost use Rattle.std.specs.Prelude.{◌≡◌, ◌≤◌, leb, length};
ghost use Rattle.texts.specs.Wrote.{Wrote};
ghost use Rattle.wording.specs.Writer.{text_of_file};
ghost use Rattle.showing.specs.Lines.{LaidOut};
ghost use Rattle.showing.specs.Promise.{written_said, WriteTextPromise};

use crate::lines::{LINE, line_count, put_line};
use policy::{Layout, layout_of};
use refusals::Refusal;
use texts::put_bytes;

// No text is longer.
const LONGEST: usize = 39420;

// Each line is made in `line`, and only its length is kept.
fn text_length(file: &[u8], layout: Layout, line: &mut [u8]) -> usize
    requires { LaidOut file.now layout × (216 ≤ length line.old) }
    ensures { result ≡ length (text_of_file file.now) }
{
    let mut total = 0;
    for i in 0..line_count(layout) {
        total += put_line(line, 0, file, layout, i);
    }
    total
}

// Only where the longest text would not fit, the lengths are added up.
fn has_room(file: &[u8], layout: Layout, line: &mut [u8], room: usize) -> bool
    requires { LaidOut file.now layout × (216 ≤ length line.old) }
    ensures { result ≡ leb (length (text_of_file file.now)) room }
{
    LONGEST <= room || text_length(file, layout, line) <= room
}

// Each line is made in `line`, where the longest has room, and then copied.
fn put_text(out: &mut [u8], file: &[u8], layout: Layout, line: &mut [u8]) -> usize
    requires { LaidOut file.now layout × (216 ≤ length line.old) × (length (text_of_file file.now) ≤ length out.old) }
    ensures { Wrote out.old 0 (text_of_file file.now) result out.new }
{
    let mut next = 0;
    for i in 0..line_count(layout) {
        let end = put_line(line, 0, file, layout, i);
        next = put_bytes(out, next, &line[..end]);
    }
    next
}

// With the scratch `line` for one line at a time.
fn show_by(file: &[u8], out: &mut [u8], line: &mut [u8]) -> Result<usize, Refusal>
    requires { 216 ≤ length line.old }
    ensures { WriteTextPromise file.now out.old (written_said result) out.new }
{
    let layout = layout_of(file)?;
    if !has_room(file, layout, line, out.len()) {
        return Err(Refusal::NoRoom);
    }
    Ok(put_text(out, file, layout, line))
}

// Writes the text of the file, and gives its length. Nothing is written before the room is known.
pub fn show(file: &[u8], out: &mut [u8]) -> Result<usize, Refusal>
    ensures { WriteTextPromise file.now out.old (written_said result) out.new }
{
    let mut line = [0u8; LINE];
    show_by(file, out, &mut line)
}
