// The day list and the base list as the calls take them: limits and marks, the refusals of document 01's table, and
// the tests that several calls share. A day list holds flows in litres a second, a base list thousandths of that.
// Kept: two lists side by side, of plain numbers with a mark for none, as document 01 and the C interface have them; so a
// single day or value has the mark too.
#![tactic(auto)]

ghost use Rattle.std.specs.Prelude.{◌≡◌, ◌↔◌, true, false, map};
ghost use Rattle.series.specs.Units.{is_invalid_day, day_of, base_of, within};
ghost use Rattle.series.specs.Segments.{leading_gap};
ghost use Rattle.series.specs.Causes.{refusal_number, Decides};
ghost use Rattle.series.specs.Lists.{too_long, lengths_differ, any_invalid_day, is_invalid_base, any_invalid_base, list_causes};

// The most days that a list may have.
pub const DAY_LIMIT: usize = 36_525;
// The largest flow, in litres a second.
pub const FLOW_LIMIT: u32 = 10_000_000;
// A missing day in a day list.
pub const MISSING: u32 = 4_294_967_295;
// No value in a base list.
pub const NO_VALUE: u64 = 18_446_744_073_709_551_615;

// The rows of document 01's refusal table, in its order.
#[derive(Clone, Copy, Debug, PartialEq, Eq)]
pub enum Refusal {
    // 1: bytes that run out within a body, or before an end entry or a reading
    Truncated = 1,
    // 2: a kind that is none of 01, 02, 03, 04, 09, or in a reading none of 01, 02, 03
    UnknownKind = 2,
    // 3: a first entry that is not a head, or a later one that is
    MisplacedHead = 3,
    // 4: an entry's value outside the range of its kind
    ValueOutOfRange = 4,
    // 5: a record of more than 36,525 days
    TooManyDays = 5,
    // 6: no room in the day list for a record's days
    DayListTooShort = 6,
    // 7: an end entry that counts another number of days
    WrongEndCount = 7,
    // 8: bytes behind the end entry, or behind a reading
    BytesAfterEnd = 8,
    // 9: a day list of more than 36,525 days
    DayListTooLong = 9,
    // 10: a number for a day that is neither a flow nor the mark of a missing day
    InvalidDay = 10,
    // 11: a method that is not 1 to 7
    UnknownMethod = 11,
    // 12: p, q or s outside its range
    ParameterOutOfRange = 12,
    // 13: passes that are not 1, 2 or 3, or are 2 or 3 in another method than 1
    InvalidPasses = 13,
    // 14: a base list that is not as long as the day list
    LengthsDiffer = 14,
    // 15: a state whose flow is above 10,000,000, or whose base is above 1000 × that flow
    InvalidState = 15,
    // 16: block length N, factor g or choice out of range
    LineSettingOutOfRange = 16,
    // 17: no segment with two or more turning points
    NoLine = 17,
    // 18: shortest limb L out of range
    LimbDaysOutOfRange = 18,
    // 19: no ratio, since no limb counts
    NoRatio = 19,
    // 20: a base value on a missing day, or one above 1000 × the flow of its day
    InvalidBase = 20,
    // 21: a flow total Y of 0
    NoFlow = 21,
    // 22: a limb list without two numbers for each counted limb
    LimbListTooShort = 22,
    // 23: duration D out of range
    DurationOutOfRange = 23,
    // 24: a last day outside the list, or a missing day or none on one of the D days
    InvalidSpell = 24,
    // 25: a work list that is not N times as long as the day list
    WorkListLength = 25,
    // 26: a reading that is not finite, or below zero
    InvalidReading = 26,
    // 27: a reading of more than 10,000,000 litres a second
    ReadingTooLarge = 27,
    // 28: presence words that are too many or too few, a one past the last day, or a flow under a zero
    InvalidPresence = 28,
    // 29: a start that is given lies above 1000 × the first present flow
    StartTooHigh = 29,
    // 30: an output list that is shorter than the record
    RecordTooLong = 30,
    // 31: a daily limit above 10,000,000, or a quota above 10^12
    LicenceOutOfRange = 31,
}

impl Refusal {
    // Document 01's number of the refusal.
    // Kept: a method, since the promise is one of a number, by its name; a `From` would be no shorter and name nothing. And
    // `as`, which reads the number that the enum gives each case.
    pub fn number(self) -> u32
        ensures { result ≡ refusal_number self }
    {
        self as u32
    }
}

// A number of a setting lies in its range, from low to high.
// Kept: the rule's word for std's `contains`, which the definitions of causes share.
pub fn within(low: u32, high: u32, n: u32) -> bool
    ensures { result ≡ within low high n }
{
    (low..=high).contains(&n)
}

// 9: the day list is over 36,525 long.
pub fn too_long(days: &[u32]) -> bool
    ensures { result ≡ too_long days.now }
{
    DAY_LIMIT < days.len()
}

// 14: the two lists differ in length.
pub fn lengths_differ(days: &[u32], base: &[u64]) -> bool
    ensures { result ≡ lengths_differ days.now base.now }
{
    days.len() != base.len()
}

// A day that is neither a flow nor missing.
pub fn is_invalid_day(day: u32) -> bool
    ensures { result ≡ is_invalid_day day }
{
    FLOW_LIMIT < day && day != MISSING
}

// 10: a day is neither a flow nor missing. (A walk that does not stop early is the faster one.)
pub fn any_invalid_day(days: &[u32]) -> bool
    ensures { result ≡ any_invalid_day days.now }
{
    let mut invalid = false;
    for day in days {
        invalid |= is_invalid_day(*day);
    }
    invalid
}

// How many missing days a list begins with.
#[tactic(auto, using(crate::proofs::FirstDay::gap_turn, crate::proofs::FirstDay::gap_ends, crate::proofs::FirstDay::gap_of_all))]
pub fn leading_gap(days: &[u32]) -> usize
    ensures { result ≡ leading_gap (map day_of days.now) }
{
    for (t, day) in days.iter().enumerate() {
        if *day != MISSING {
            return t;
        }
    }
    days.len()
}

// 20, of one day: it is missing and has a base value, or has one above 1000 × its flow. (Without a branch: a walk over the
// days is then the faster one.)
#[tactic(auto, using(crate::proofs::Tests::base_tested))]
pub fn is_invalid_base(day: u32, base: u64) -> bool
    ensures { result ≡ is_invalid_base (day_of day) (base_of base) }
{
    (base != NO_VALUE) & ((day == MISSING) | (1000 * u64::from(day) < base))
}

// 20: that on some day of two lists.
pub fn any_invalid_base(days: &[u32], base: &[u64]) -> bool
    ensures { result ≡ any_invalid_base days.now base.now }
{
    let mut invalid = false;
    for (day, value) in days.iter().zip(base) {
        invalid |= is_invalid_base(*day, *value);
    }
    invalid
}

// One cause of refusal: a check tests them in the call's order, and `?` ends it at the first that holds.
pub fn refuse_if(holds: bool, refusal: Refusal) -> Result<(), Refusal>
    ensures ok { (result ≡ Ok tt) ↔ (holds ≡ false) }
    ensures err { (result ≡ Err refusal) ↔ (holds ≡ true) }
{
    if holds { Err(refusal) } else { Ok(()) }
}

// 9, 14, 10: what the calls over a day list and a base list have in common.
#[tactic(auto, unfolding(crate::specs::Lists::list_causes))]
pub fn check_lists(days: &[u32], base: &[u64]) -> Result<(), Refusal>
    ensures { Decides (list_causes days.now base.now) result }
{
    refuse_if(too_long(days), Refusal::DayListTooLong)?;
    refuse_if(lengths_differ(days, base), Refusal::LengthsDiffer)?;
    refuse_if(any_invalid_day(days), Refusal::InvalidDay)
}
