// Strings, which are stored in pieces.
ghost use Rattle.std.specs.Prelude.{◌<◌};

use crate::numbers::Cursor;
use crate::parts::ABSENT;

// The longest string, unpacked.
pub const STRING: usize = 65600;

// The piece that is being read: how many bytes it has yet to make, each its own or all the same one.
#[derive(Clone, Copy)]
struct Pieces {
    left: u8,
    repeats: bool,
    next: Cursor,
}

#[derive(Clone, Copy)]
struct Made {
    byte: u8,
    pieces: Pieces,
}

impl Pieces {
    fn new(next: Cursor) -> Self {
        Self {
            left: 0,
            repeats: false,
            next,
        }
    }

    // The next piece.
    fn begin(self, cases: &[u8]) -> Self
        ensures { 0 < result.left }
    {
        let next = self.next;
        let head = next.byte(cases);
        let next = head.next;
        if head.value < 128 {
            Self {
                left: head.value + 1,
                repeats: false,
                next,
            }
        } else {
            Self {
                left: head.value - 127,
                repeats: true,
                next,
            }
        }
    }

    // One byte of the piece.
    fn take(self, cases: &[u8]) -> Made
        requires { 0 < self.left }
    {
        let left = self.left - 1;
        let next = self.next;
        let read = next.byte(cases);
        let after = read.next;
        let stays = Cursor {
            at: next.at,
            lost: after.lost,
        };
        Made {
            byte: read.value,
            pieces: Self {
                left,
                repeats: self.repeats,
                next: if self.repeats && left > 0 {
                    stays
                } else {
                    after
                },
            },
        }
    }

    fn step(self, cases: &[u8]) -> Made {
        if self.left == 0 {
            self.begin(cases).take(cases)
        } else {
            self.take(cases)
        }
    }

    // No piece goes past the end of its string.
    fn end(self) -> Cursor {
        let next = self.next;
        if self.left == 0 { next } else { next.lose() }
    }
}

impl Cursor {
    // Past the string that begins here.
    pub(crate) fn past_string(self, cases: &[u8]) -> Self {
        let head = self.word(cases);
        let start = head.next;
        let count = head.value as usize;
        if STRING < count {
            return start.lose();
        }
        let mut pieces = Pieces::new(start);
        for _ in 0..count {
            let made = pieces.step(cases);
            pieces = made.pieces;
        }
        pieces.end()
    }
}

// The string that begins there, unpacked to the start of `into`. It is empty if there is none, or no room for it.
pub fn string<'a>(cases: &[u8], at: usize, into: &'a mut [u8]) -> &'a mut [u8] {
    let head = Cursor::new(at).word(cases);
    let count = head.value as usize;
    if into.len() < count {
        return &mut into[..0];
    }
    let mut pieces = Pieces::new(head.next);
    for place in into[..count].iter_mut() {
        let made = pieces.step(cases);
        *place = made.byte;
        pieces = made.pieces;
    }
    &mut into[..count]
}

// Whether the string that begins there, if there is one, is what `held` holds.
pub(crate) fn same_string(cases: &[u8], at: usize, held: &[u8]) -> bool {
    if at == ABSENT {
        return true;
    }
    let head = Cursor::new(at).word(cases);
    if head.value as usize != held.len() {
        return false;
    }
    let mut pieces = Pieces::new(head.next);
    for byte in held {
        let made = pieces.step(cases);
        if *byte != made.byte {
            return false;
        }
        pieces = made.pieces;
    }
    true
}
