// Why an entry refuses: document 01's numbers by name.
#![tactic(auto)]

ghost use Rattle.std.specs.Prelude.{◌≡◌};
ghost use Rattle.refusals.specs.Refused.{number_of, refusal_in};

#[derive(Clone, Copy, Debug, PartialEq, Eq)]
pub enum Refusal {
    // 1: a count or its section is cut short.
    CutShort,
    // 2: a count is outside its limits.
    BadCount,
    // 3: a tag is no capital letter, or is there twice.
    BadTag,
    // 4: a ceiling is 0 or above 1,001.
    BadCeiling,
    // 5: a location byte is above 1.
    BadLocation,
    // 6: a rule's first seven bytes break the rules.
    BadHead,
    // 7: a rule's bounds break the rules.
    BadBounds,
    // 8: bytes are left over.
    LeftOver,
    // 9: more than 65,536 states.
    ManyStates,
    // 10: fewer marks than states.
    FewMarks,
    // 11: the policy is hopeless.
    Hopeless,
    // 12: two policies differ in their tags or in the order of them.
    OtherTags,
    // 13: a join is beyond the limits of a policy.
    LargeJoin,
    // 14: the slice to be written is too short.
    NoRoom,
    // 15: an event has a bit beyond its signals.
    BadEvent,
    // 16: a state is out of range, or its mark is not 1.
    BadState,
    // 17: no event leads to a state marked 1.
    NothingStands,
    // 18: the tick length is 0.
    NoTick,
    // 19: the time is more than 1,000 ticks.
    LongTime,
    // 20: the marks are not those of prepare.
    OtherMarks,
    // 21: a text is not one that the writer of waves makes.
    NoWave,
    // 22: the reading is neither 1 nor 2.
    BadReading,
    // 23: a work slice has fewer entries than there are states.
    LittleWork,
    // 24: the list has no such bay.
    NoBay,
    // 25: a list of bays is not five numbers for each of 1 to 8 bays.
    BadBays,
    // 26: the policy has no input P or no output D.
    NoMeter,
    // 27: a total would pass 4,294,967,295.
    FullTotal,
    // 28: the index is not that of the file.
    OtherIndex,
    // 29: a stream has over 16,384 events.
    ManyEvents,
    // 30: a line or a word is not of the form, or in the wrong place.
    BadForm,
    // 31: a name or a letter is taken, unknown, or said twice.
    BadName,
    // 32: a number is above 65,535.
    LargeNumber,
    // 33: more of something than a file has room for.
    NoPlace,
    // 34: an `at` names a location before the one named last.
    BadOrder,
    // 35: the text has none of this number.
    NoneSuch,
}

// Its number: what C and the programs say.
impl From<Refusal> for u8 {
    ghost from_gives = { λ refusal number. number ≡ number_of refusal };

    fn from(refusal: Refusal) -> u8 {
        match refusal {
            Refusal::CutShort => 1,
            Refusal::BadCount => 2,
            Refusal::BadTag => 3,
            Refusal::BadCeiling => 4,
            Refusal::BadLocation => 5,
            Refusal::BadHead => 6,
            Refusal::BadBounds => 7,
            Refusal::LeftOver => 8,
            Refusal::ManyStates => 9,
            Refusal::FewMarks => 10,
            Refusal::Hopeless => 11,
            Refusal::OtherTags => 12,
            Refusal::LargeJoin => 13,
            Refusal::NoRoom => 14,
            Refusal::BadEvent => 15,
            Refusal::BadState => 16,
            Refusal::NothingStands => 17,
            Refusal::NoTick => 18,
            Refusal::LongTime => 19,
            Refusal::OtherMarks => 20,
            Refusal::NoWave => 21,
            Refusal::BadReading => 22,
            Refusal::LittleWork => 23,
            Refusal::NoBay => 24,
            Refusal::BadBays => 25,
            Refusal::NoMeter => 26,
            Refusal::FullTotal => 27,
            Refusal::OtherIndex => 28,
            Refusal::ManyEvents => 29,
            Refusal::BadForm => 30,
            Refusal::BadName => 31,
            Refusal::LargeNumber => 32,
            Refusal::NoPlace => 33,
            Refusal::BadOrder => 34,
            Refusal::NoneSuch => 35,
        }
    }
}

// What C is told of an entry that gives nothing else: 0, or the refusal's number.
pub fn number(outcome: Result<(), Refusal>) -> u8
    ensures { result ≡ refusal_in outcome }
{
    match outcome {
        Ok(()) => 0,
        Err(refusal) => u8::from(refusal),
    }
}
