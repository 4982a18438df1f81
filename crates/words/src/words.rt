// The words of a line.
ghost use Rattle.std.specs.Prelude.{◌≡◌, ◌+◌, ◌≤◌, ◌<◌, eqb, length, drop};
ghost use Rattle.wording.specs.Names.{same};
ghost use Rattle.wording.specs.Words;
ghost use Rattle.words.specs.Lex.{kind_number, skips, blanks, run, Next, NextLine};

// What a byte is to the words of a line.
#[derive(Clone, Copy, PartialEq, Eq)]
pub enum Kind {
    // It parts words, or begins a comment.
    Blank,
    // Of a name, a number, or nothing that the language has.
    Plain,
    // Of the signs `->`, `>=` and `<=`.
    Sign,
}

pub fn kind_of(c: u8) -> Kind
    ensures { kind_number result ≡ Words.kind c }
{
    // Letters come first: most bytes of a word are those.
    if b'>' < c {
        return Kind::Plain;
    }
    match c {
        b' ' | b'\t' | b'\r' | b'\n' | b'#' => Kind::Blank,
        b'-' | b'<' | b'=' | b'>' => Kind::Sign,
        _ => Kind::Plain,
    }
}

// A byte that parts words and begins no comment.
fn is_skipped(c: u8) -> bool
    ensures { result ≡ skips c }
{
    c != b'#' && kind_of(c) == Kind::Blank
}

// The first byte from `at` on that parts no words, or begins a comment.
fn skip(line: &[u8], at: usize) -> usize
    requires { at ≤ length line.now }
    ensures { result ≡ at + blanks (drop at line.now) }
{
    for i in at..line.len() {
        if !is_skipped(line[i]) {
            return i;
        }
    }
    line.len()
}

fn is_of_kind(c: u8, k: Kind) -> bool
    ensures { result ≡ eqb (Words.kind c) (kind_number k) }
{
    kind_of(c) == k
}

// The first byte from `at` on that is not of the kind k.
fn run_end(line: &[u8], at: usize, k: Kind) -> usize
    requires { at ≤ length line.now }
    ensures { result ≡ at + run (kind_number k) (drop at line.now) }
{
    for i in at..line.len() {
        if !is_of_kind(line[i], k) {
            return i;
        }
    }
    line.len()
}

// Where a word stands in its line: its first byte and the one after its last.
#[derive(Clone, Copy)]
pub struct Span {
    pub start: usize,
    pub end: usize,
}

// The next word from `at` on. Where there is none, start and end are the same. Laid in where it is asked for, since to a line without words the call is most of the cost.
#[inline(always)]
pub fn next_word(line: &[u8], at: usize) -> Span
    requires { at ≤ length line.now }
    ensures { Next line.now at result.start result.end }
{
    let start = skip(line, at);
    if line.len() <= start || line[start] == b'#' {
        return Span { start, end: start };
    }
    let k = kind_of(line[start]);
    let end = run_end(line, start + 1, k);
    Span { start, end }
}

// Whether the word of the line is this one. The last byte comes first: names that are numbered differ there.
pub fn same_word(line: &[u8], word: &[u8]) -> bool
    ensures { result ≡ same line.now word.now }
{
    let length = line.len();
    if length != word.len() {
        return false;
    }
    if 0 < length && line[length - 1] != word[length - 1] {
        return false;
    }
    line == word
}

// Where the line that begins at `at` ends: its line feed, or the text's end.
pub fn line_end(text: &[u8], at: usize) -> usize
    requires { at ≤ length text.now }
    ensures { NextLine text.now at result }
{
    for i in at..text.len() {
        if text[i] == b'\n' {
            return i;
        }
    }
    text.len()
}
