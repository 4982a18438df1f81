// Lists of numbers. One byte says how many there are.
use crate::numbers::Cursor;
use crate::parts::ABSENT;

// The longest list.
pub const LIST: usize = 255;

// The list of numbers of 16 bits that begins there, at the start of `into`. It is empty if there is none, or no room for it.
pub fn pairs<'a>(cases: &[u8], at: usize, into: &'a mut [u16]) -> &'a mut [u16] {
    let head = Cursor::new(at).byte(cases);
    let count = head.value as usize;
    if into.len() < count {
        return &mut into[..0];
    }
    let mut next = head.next;
    for place in into[..count].iter_mut() {
        let number = next.pair(cases);
        *place = number.value;
        next = number.next;
    }
    &mut into[..count]
}

// Whether the list that begins there, if there is one, is what `held` holds.
pub(crate) fn same_pairs(cases: &[u8], at: usize, held: &[u16]) -> bool {
    if at == ABSENT {
        return true;
    }
    let head = Cursor::new(at).byte(cases);
    if head.value as usize != held.len() {
        return false;
    }
    let mut next = head.next;
    for number in held {
        let read = next.pair(cases);
        if *number != read.value {
            return false;
        }
        next = read.next;
    }
    true
}

// The same of 32 bits.
pub fn words<'a>(cases: &[u8], at: usize, into: &'a mut [u32]) -> &'a mut [u32] {
    let head = Cursor::new(at).byte(cases);
    let count = head.value as usize;
    if into.len() < count {
        return &mut into[..0];
    }
    let mut next = head.next;
    for place in into[..count].iter_mut() {
        let number = next.word(cases);
        *place = number.value;
        next = number.next;
    }
    &mut into[..count]
}

// Whether the list that begins there, if there is one, is what `held` holds.
pub(crate) fn same_words(cases: &[u8], at: usize, held: &[u32]) -> bool {
    if at == ABSENT {
        return true;
    }
    let head = Cursor::new(at).byte(cases);
    if head.value as usize != held.len() {
        return false;
    }
    let mut next = head.next;
    for number in held {
        let read = next.word(cases);
        if *number != read.value {
            return false;
        }
        next = read.next;
    }
    true
}

// The same of 64 bits.
pub fn longs<'a>(cases: &[u8], at: usize, into: &'a mut [u64]) -> &'a mut [u64] {
    let head = Cursor::new(at).byte(cases);
    let count = head.value as usize;
    if into.len() < count {
        return &mut into[..0];
    }
    let mut next = head.next;
    for place in into[..count].iter_mut() {
        let number = next.long(cases);
        *place = number.value;
        next = number.next;
    }
    &mut into[..count]
}

// Whether the list that begins there, if there is one, is what `held` holds.
pub(crate) fn same_longs(cases: &[u8], at: usize, held: &[u64]) -> bool {
    if at == ABSENT {
        return true;
    }
    let head = Cursor::new(at).byte(cases);
    if head.value as usize != held.len() {
        return false;
    }
    let mut next = head.next;
    for number in held {
        let read = next.long(cases);
        if *number != read.value {
            return false;
        }
        next = read.next;
    }
    true
}
