// A call over the days of a form, laid out in room on the stack.
ghost use Rattle.std.specs.Prelude.{◌≡◌, ◌≤◌, ◌||◌, true, length, eqb, min};
ghost use Rattle.series.specs.Lists.{any_invalid_day};
ghost use Rattle.series.specs.Causes.{refusal_number};
ghost use Rattle.series.specs.Units.{day_limit};
ghost use Rattle.series.proofs.AtTen.{comes_before_10};
ghost use Rattle.bits.specs.Private.{LaidOut, over_answer, Called};

use series::{DAY_LIMIT, Refusal};

// Rooms of so many days: four years, thirty years, and all that a list may have.
const FOUR_YEARS: usize = 1_461;

const THIRTY_YEARS: usize = 10_958;

// The call over the days that a form stands for, in the least room that has place for them: clearing the largest takes longer than
// a call over a short record. A call that writes fewer than two lists is lent empty ones in their place.
pub(crate) fn over_form<
    T: Copy,
    R: Copy,
    F: FnOnce(&[u32], &mut [u64], &mut [T]) -> Result<R, Refusal>,
>(flows: &[u32], words: &[u64], base: &mut [u64], list: &mut [T], call: F) -> Result<R, Refusal>
    requires { F.IsAlwaysCallable call }
    ensures { Called (F.post call) flows.now words.now base.old list.old result base.new list.new }
{
    if flows.len() <= FOUR_YEARS {
        in_room::<FOUR_YEARS, T, R, F>(flows, words, base, list, call)
    } else if flows.len() <= THIRTY_YEARS {
        in_room::<THIRTY_YEARS, T, R, F>(flows, words, base, list, call)
    } else {
        in_room::<DAY_LIMIT, T, R, F>(flows, words, base, list, call)
    }
}

// The same, in a room of this size; never inlined, so that no more than one is on the stack.
#[inline(never)]
fn in_room<
    const ROOM: usize,
    T: Copy,
    R: Copy,
    F: FnOnce(&[u32], &mut [u64], &mut [T]) -> Result<R, Refusal>,
>(flows: &[u32], words: &[u64], base: &mut [u64], list: &mut [T], call: F) -> Result<R, Refusal>
    requires room { (min (length flows.now) day_limit ≤ ROOM) × (ROOM ≤ day_limit) }
    requires call { F.IsAlwaysCallable call }
    ensures { Called (F.post call) flows.now words.now base.old list.old result base.new list.new }
{
    let mut room = [0u32; ROOM];
    let form = Days::of(flows, words, &mut room);
    form.answer(call(form.days, base, list))
}

// The days that a form stands for; or, where it stands for none, a list of the same length that no call accepts unless it is empty,
// and the refusal of the form.
#[derive(Clone, Copy)]
struct Days<'a> {
    days: &'a [u32],
    form: Result<u32, Refusal>,
}

impl<'a> Days<'a> {
    #[tactic(auto, using(crate::proofs::Forms::room_for, crate::proofs::Forms::long_form))]
    fn of(flows: &'a [u32], words: &[u64], room: &'a mut [u32]) -> Self
        requires { min (length flows.now) day_limit ≤ length room.old }
        ensures { LaidOut flows.now words.now result.days.now result.form }
    {
        if series::too_long(flows) {
            return Days {
                days: flows,
                form: Err(Refusal::DayListTooLong),
            };
        }
        let days = &mut room[..flows.len()];
        let form = presence::from_bits(flows, words, &mut *days);
        if form.is_ok() {
            return Days { days, form };
        }
        spoil(&mut *days);
        Days { days, form }
    }

    // What a call over the form answers, by its answer over these days: what comes before 10 in its order comes before 28.
    fn answer<T: Copy>(self, answer: Result<T, Refusal>) -> Result<T, Refusal>
        ensures { result ≡ over_answer self.entry.form answer }
    {
        match (self.form, answer) {
            (Ok(_), answer) => answer,
            (Err(_), Err(first)) if comes_before_10(first) => Err(first),
            (Err(refusal), _) => Err(refusal),
        }
    }
}

// No call accepts these days any more, unless there are none.
#[tactic(auto, using(crate::proofs::Forms::spoiled_days))]
fn spoil(days: &mut [u32])
    ensures { (eqb (length days.new) 0 || any_invalid_day days.new) ≡ true }
{
    if let Some(first) = days.first_mut() {
        *first = series::MISSING - 1; // neither a flow nor a missing day
    }
}

// It comes before 10 in the order of the call that it belongs to.
fn comes_before_10(refusal: Refusal) -> bool
    ensures { result ≡ comes_before_10 (refusal_number refusal) }
{
    matches!(
        refusal,
        Refusal::DayListTooLong
            | Refusal::UnknownMethod
            | Refusal::ParameterOutOfRange
            | Refusal::InvalidPasses
            | Refusal::LengthsDiffer
            | Refusal::LineSettingOutOfRange
            | Refusal::LimbDaysOutOfRange
            | Refusal::DurationOutOfRange
            | Refusal::WorkListLength
    )
}
