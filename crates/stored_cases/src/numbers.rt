// The stored cases, read from a file's bytes. What is read stands in independent/README.md; every reader takes any bytes, and a file
// that ends too early, or says what cannot be, loses the cursor for good. Here: numbers, the high byte first.
ghost use Rattle.std.specs.Prelude.{◌≡◌, false};
ghost use Rattle.stored_cases.specs.Numbers.{lost, byte_from, pair_from, word_from, long_from};

// Where to read next. A lost cursor stays lost.
#[derive(Clone, Copy)]
pub struct Cursor {
    pub at: usize,
    pub lost: bool,
}

#[derive(Clone, Copy)]
pub struct Byte {
    pub value: u8,
    pub next: Cursor,
}

#[derive(Clone, Copy)]
pub struct Pair {
    pub value: u16,
    pub next: Cursor,
}

#[derive(Clone, Copy)]
pub struct Word {
    pub value: u32,
    pub next: Cursor,
}

#[derive(Clone, Copy)]
pub struct Long {
    pub value: u64,
    pub next: Cursor,
}

impl Cursor {
    pub fn new(at: usize) -> Self
        ensures { result ≡ record { at = at; lost = false } }
    {
        Self { at, lost: false }
    }

    pub fn lose(self) -> Self
        ensures { result ≡ lost self }
    {
        Self {
            at: self.at,
            lost: true,
        }
    }

    // Past the end stands 0.
    #[tactic(auto, unfolding(crate::specs::Numbers::byte_from))]
    pub fn byte(self, cases: &[u8]) -> Byte
        ensures { result ≡ byte_from cases.now self }
    {
        let at = self.at;
        if at < cases.len() {
            Byte {
                value: cases[at],
                next: Self {
                    at: at + 1,
                    lost: self.lost,
                },
            }
        } else {
            Byte {
                value: 0,
                next: self.lose(),
            }
        }
    }

    #[tactic(auto, unfolding(crate::specs::Numbers::pair_from))]
    pub fn pair(self, cases: &[u8]) -> Pair
        ensures { result ≡ pair_from cases.now self }
    {
        let high = self.byte(cases);
        let middle = high.next;
        let low = middle.byte(cases);
        let next = low.next;
        Pair {
            value: high.value as u16 * 256 + low.value as u16,
            next,
        }
    }

    #[tactic(auto, unfolding(crate::specs::Numbers::word_from))]
    pub fn word(self, cases: &[u8]) -> Word
        ensures { result ≡ word_from cases.now self }
    {
        let high = self.pair(cases);
        let middle = high.next;
        let low = middle.pair(cases);
        let next = low.next;
        Word {
            value: high.value as u32 * 65536 + low.value as u32,
            next,
        }
    }

    #[tactic(auto, unfolding(crate::specs::Numbers::long_from))]
    pub fn long(self, cases: &[u8]) -> Long
        ensures { result ≡ long_from cases.now self }
    {
        let high = self.word(cases);
        let middle = high.next;
        let low = middle.word(cases);
        let next = low.next;
        Long {
            value: high.value as u64 * 4294967296 + low.value as u64,
            next,
        }
    }

    // So many bytes on.
    pub(crate) fn skip(self, cases: &[u8], count: usize) -> Self {
        let at = self.at;
        if cases.len() < at {
            return self.lose();
        }
        if cases.len() - at < count {
            return self.lose();
        }
        Self {
            at: at + count,
            lost: self.lost,
        }
    }
}
