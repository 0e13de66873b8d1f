// Puts a record into bytes, entry by entry.
ghost use Rattle.std.specs.Prelude.{ℕ, ◌≡◌, ◌+◌, ◌*◌, ◌≤◌, ◌∷◌, ◌++◌, length, drop};
ghost use Rattle.record.specs.declared.entry.Kind.TheVariants.{Flow};
ghost use Rattle.numbers.specs.Lists.{stored};
ghost use Rattle.series.specs.Units.{day_limit};
ghost use Rattle.record.specs.Writing.{byte_of, entry_bytes, gap_entry, entries, written};

use crate::entry::Kind;
use series::MISSING;

// How many bytes a flow's entry has.
const FLOW_LEN: usize = 5;
// How many bytes a head and an end have together.
const ENDS: usize = 10;

// An entry, by its kind and its body; gives the position behind it.
fn put_entry(bytes: &mut [u8], at: usize, kind: Kind, body: &[u8]) -> usize
    requires { at + 1 + length body.now ≤ length bytes.old }
    ensures behind { result ≡ at + length (byte_of kind ∷ body.now) }
    ensures output { bytes.new ≡ stored bytes.old at (byte_of kind ∷ body.now) }
{
    let end = at + 1 + body.len();
    bytes[at] = kind.byte();
    bytes[at + 1..end].copy_from_slice(body);
    end
}

// The entry of a gap of so many days, if there are any; gives the position behind it.
#[tactic(auto, using(crate::proofs::Putting::none_put, crate::proofs::Sentences::missing_days), unfolding(crate::specs::Writing::gap_entry, crate::specs::Writing::bytes_of))]
fn put_gap(bytes: &mut [u8], at: usize, gap: u16) -> usize
    requires { at + length (gap_entry gap) ≤ length bytes.old }
    ensures behind { result ≡ at + length (gap_entry gap) }
    ensures output { bytes.new ≡ stored bytes.old at (gap_entry gap) }
{
    match gap {
        0 => at,
        1 => put_entry(bytes, at, Kind::MissingDay, &[]),
        _ => put_entry(bytes, at, Kind::MissingDays, &gap.to_le_bytes()),
    }
}

// The entry of a gap, and behind it a flow's; gives the position behind both.
#[tactic(auto, using(crate::proofs::Putting::four_bytes_are, crate::proofs::Putting::stored_behind))]
fn put_flow(bytes: &mut [u8], at: usize, gap: u16, flow: u32) -> usize
    requires { at + length (gap_entry gap) + 5 ≤ length bytes.old }
    ensures behind { result ≡ at + length (gap_entry gap) + 5 }
    ensures output { bytes.new ≡ stored bytes.old at (gap_entry gap ++ entry_bytes Flow flow) }
{
    let behind = put_gap(bytes, at, gap);
    put_entry(bytes, behind, Kind::Flow, &flow.to_le_bytes())
}

// How many bytes longer the entry of a gap of so many days is with one more.
#[tactic(auto, using(crate::proofs::Putting::as_long), unfolding(crate::specs::Writing::gap_entry, crate::specs::Writing::bytes_of))]
fn gap_growth(gap: u16) -> usize
    ensures { result + length (gap_entry gap) ≡ length (gap_entry (gap + 1)) }
{
    match gap {
        0 => 1,
        1 => 2,
        _ => 0,
    }
}

// How many bytes the record of the days has.
#[inline(never)]
#[tactic(auto, using(crate::proofs::Putting::written_length, crate::proofs::Putting::gap_bound, crate::proofs::Putting::entries_bound, crate::proofs::Putting::missing_here, crate::proofs::Putting::flow_long, crate::proofs::Putting::none_left), unfolding(crate::specs::Writing::gap_entry))]
pub(crate) fn record_len(days: &[u32]) -> usize
    requires { length days.now ≤ day_limit }
    ensures of_record { (first_day : ℕ) → result ≡ length (written first_day days.now) }
    ensures bound { result ≤ 5 * length days.now + 10 }
{
    let mut len = ENDS;
    let mut gap = 0;
    for day in days {
        if *day == MISSING {
            len += gap_growth(gap);
            gap += 1;
        } else {
            len += FLOW_LEN;
            gap = 0;
        }
    }
    len
}

// The entries of the days, from `from` on; gives the position behind them.
#[inline(never)]
#[tactic(auto, using(crate::proofs::Putting::missing_here, crate::proofs::Putting::flow_long, crate::proofs::Putting::flow_put, crate::proofs::Putting::none_left))]
fn put_days(days: &[u32], bytes: &mut [u8], from: usize) -> usize
    requires limit { length days.now ≤ day_limit }
    requires room { from + length (entries 0 days.now) ≤ length bytes.old }
    ensures behind { result ≡ from + length (entries 0 days.now) }
    ensures output { bytes.new ≡ stored bytes.old from (entries 0 days.now) }
{
    let mut at = from;
    let mut gap = 0;
    for day in days {
        if *day == MISSING {
            gap += 1;
        } else {
            at = put_flow(bytes, at, gap, *day);
            gap = 0;
        }
    }
    put_gap(bytes, at, gap)
}

// The record of a first day and days, from the start on.
#[tactic(auto, using(crate::proofs::Putting::four_bytes_are, crate::proofs::Putting::written_length, crate::proofs::Putting::written_put))]
pub(crate) fn put_record(first_day: u32, days: &[u32], bytes: &mut [u8])
    requires limit { length days.now ≤ day_limit }
    requires room { length (written first_day days.now) ≤ length bytes.old }
    ensures { bytes.new ≡ written first_day days.now ++ drop (length (written first_day days.now)) bytes.old }
{
    let from = put_entry(bytes, 0, Kind::Head, &first_day.to_le_bytes());
    let end = put_days(days, bytes, from);
    // Kept: `as`, since a proof shows that the number of days fits.
    put_entry(bytes, end, Kind::End, &(days.len() as u32).to_le_bytes());
}
