// The numbers that a record gives, beside its strings and lists.
use crate::numbers::Cursor;
use crate::parts;
use crate::parts::{ABSENT, PARTS};

// What a record does not have is 0. `has_state`: it gives a state, or what stands in its place.
#[derive(Clone, Copy)]
pub struct Given {
    pub reading: u8,
    pub word: u32,
    pub tick_length: u32,
    pub register: u16,
    pub x: u8,
    pub y: u8,
    pub has_state: bool,
}

impl Given {
    pub fn read(cases: &[u8], places: &[usize; PARTS]) -> Self {
        let reading = Cursor::new(places[parts::READING]).byte(cases);
        let word = Cursor::new(places[parts::WORD]).word(cases);
        let tick_length = Cursor::new(places[parts::TICK_LENGTH]).word(cases);
        let register = Cursor::new(places[parts::REGISTER]).pair(cases);
        let x = Cursor::new(places[parts::X]).byte(cases);
        let y = Cursor::new(places[parts::Y]).byte(cases);
        Self {
            reading: reading.value,
            word: word.value,
            tick_length: tick_length.value,
            register: register.value,
            x: x.value,
            y: y.value,
            has_state: places[parts::STATE] != ABSENT,
        }
    }
}
