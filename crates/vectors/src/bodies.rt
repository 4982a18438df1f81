// The body of a record: what it gives is read and lent to the call, and what it expects is compared.
use crate::calls::answer;
use stored_cases::expected::compared;
use stored_cases::given::Given;
use stored_cases::lists::{LIST, longs, pairs, words};
use stored_cases::parts;
use stored_cases::parts::PARTS;
use stored_cases::strings::{STRING, string};

// Makes the call of the record whose parts begin at those places, and says which part came out different.
pub(crate) fn body(cases: &[u8], kind: u8, places: &[usize; PARTS]) -> usize {
    let mut first = [0u8; STRING];
    let first = string(cases, places[parts::FIRST], &mut first);
    let mut second = [0u8; STRING];
    let second = string(cases, places[parts::SECOND], &mut second);
    let mut state = [0u16; LIST];
    let state = pairs(cases, places[parts::STATE], &mut state);
    let mut third = [0u8; STRING];
    let third = string(cases, places[parts::THIRD], &mut third);
    let mut reasons = [0u64; LIST];
    let reasons = longs(cases, places[parts::REASONS], &mut reasons);
    let mut totals = [0u32; LIST];
    let totals = words(cases, places[parts::TOTALS], &mut totals);
    let mut rests = [0u32; LIST];
    let rests = words(cases, places[parts::RESTS], &mut rests);
    let mut written = [0u8; STRING];
    let written = string(cases, places[parts::WRITTEN], &mut written);
    let mut struck = [0u8; STRING];
    let struck = string(cases, places[parts::STRUCK], &mut struck);
    let mut work_1 = [0u16; LIST];
    let work_1 = pairs(cases, places[parts::WORK_1], &mut work_1);
    let mut work_2 = [0u16; LIST];
    let work_2 = pairs(cases, places[parts::WORK_2], &mut work_2);
    let mut work_3 = [0u16; LIST];
    let work_3 = pairs(cases, places[parts::WORK_3], &mut work_3);
    let mut work_4 = [0u16; LIST];
    let work_4 = pairs(cases, places[parts::WORK_4], &mut work_4);
    let mut work_5 = [0u16; LIST];
    let work_5 = pairs(cases, places[parts::WORK_5], &mut work_5);
    let got = answer(
        kind,
        Given::read(cases, places),
        first,
        second,
        state,
        third,
        reasons,
        totals,
        rests,
        written,
        struck,
        work_1,
        work_2,
        work_3,
        work_4,
        work_5,
    );
    compared(cases, places, got, written, state, totals, struck, reasons)
}
