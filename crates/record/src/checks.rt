// The checking walk: entry by entry, in document 01's order.
ghost use Rattle.std.specs.Prelude.{ℕ, ◌≡◌, ◌+◌, false, ◌≤◌, length, IfOk, MatchResult};
ghost use Rattle.series.specs.Units.{day_limit};
ghost use Rattle.series.specs.Causes.{refusal_number, refusal_of, outcome_of, first_cause, map_outcome};
ghost use Rattle.std.proofs.Math.Option.{some};
ghost use Rattle.record.specs.Entries.{misplaced, days_of};
ghost use Rattle.record.specs.Call.{days_from};
ghost use Rattle.record.specs.Private.{front_causes, Placed, whole_causes};

use crate::entry::{Entries, Entry, Kind};
use series::{DAY_LIMIT, Refusal, refuse_if};

// Whether an entry is out of its place: a first one that is not a head, or a later one that is.
// Kept: `first`, a test's outcome, since an enum of two places would be compared as this bool is.
fn is_misplaced(kind: Kind, first: bool) -> bool
    ensures { result ≡ misplaced first (some kind) }
{
    (kind == Kind::Head) != first
}

// The entry at the front of `bytes`, with the checks that come first: kind, place, body complete.
#[tactic(auto, using(crate::proofs::Fronts::unknown, crate::proofs::Fronts::out_of_place, crate::proofs::Fronts::cut_short))]
fn entry_in_place(bytes: &[u8], first: bool) -> Result<Entry<'_>, Refusal>
    ensures { MatchResult result (λ entry. Placed first bytes.now entry) (λ e. (n room : ℕ) → first_cause (front_causes first n room bytes.now) ≡ some (refusal_number e)) }
{
    let (byte, body) = bytes.split_first().ok_or(Refusal::Truncated)?;
    let kind = Kind::try_from(*byte)?;
    if is_misplaced(kind, first) {
        return Err(Refusal::MisplacedHead);
    }
    Entry::of_kind(kind, body, 0).ok_or(Refusal::Truncated)
}

// The checks of a whole entry behind `counted` days, for a list of `room` days: value, total days, list space, and of an
// end entry then its count and what lies behind it. Gives the days counted with its own.
fn count_on(entry: Entry<'_>, counted: usize, room: usize) -> Result<usize, Refusal>
    requires { (counted ≤ day_limit) × (counted ≤ room) }
    ensures causes { refusal_of result ≡ first_cause (whole_causes counted room (some entry.entry.kind) entry.entry.value entry.entry.behind.now) }
    ensures counted { IfOk result (λ n. (n ≡ counted + length (days_of (some entry.entry.kind) entry.entry.value)) × (n ≤ day_limit) × (n ≤ room)) }
{
    let with_own = counted + entry.day_count();
    let end = entry.kind == Kind::End;
    // Kept: `as`, since std has no From between u32 and usize, and TryFrom would add an error that never comes.
    let wrong_count = entry.value as usize != counted;
    refuse_if(entry.is_out_of_range(), Refusal::ValueOutOfRange)?;
    // One test for both limits, since a walk over many entries reaches neither.
    if DAY_LIMIT.min(room) < with_own {
        refuse_if(DAY_LIMIT < with_own, Refusal::TooManyDays)?;
        refuse_if(room < with_own, Refusal::DayListTooShort)?;
    }
    refuse_if(end && wrong_count, Refusal::WrongEndCount)?;
    refuse_if(end && !entry.behind.is_empty(), Refusal::BytesAfterEnd)?;
    Ok(with_own)
}

// The checks of the entry at the front of `bytes`, behind `counted` days, for a list of `room` days. (Not inlined: the
// walk's loop stays short.)
#[inline(never)]
#[tactic(auto, using(crate::proofs::Fronts::whole))]
pub(crate) fn check_entry(
    bytes: &[u8],
    first: bool,
    counted: usize,
    room: usize,
) -> Result<Entry<'_>, Refusal>
    requires { (counted ≤ day_limit) × (counted ≤ room) }
    ensures causes { refusal_of result ≡ first_cause (front_causes first counted room bytes.now) }
    ensures found { IfOk result (λ entry. Placed first bytes.now entry) }
{
    let entry = entry_in_place(bytes, first)?;
    count_on(entry, counted, room)?;
    Ok(entry)
}

// Checks the bytes behind a head, for a list of `room` days, and counts their days. (Not inlined: each walk has the
// registers to itself.)
#[inline(never)]
pub(crate) fn check_days(bytes: &[u8], room: usize) -> Result<u32, Refusal>
    ensures { outcome_of result ≡ map_outcome length (days_from false 0 room 0 bytes.now) }
{
    let mut rest = bytes;
    let mut counted = 0;
    for entry in Entries::of(bytes) {
        counted = count_on(entry, counted, room)?;
        rest = entry.behind;
    }
    // What is left begins with no whole entry of days: it is refused, or it is the end.
    check_entry(rest, false, counted, room)?;
    // Kept: `as`, since a proof shows that the count fits.
    Ok(counted as u32)
}
