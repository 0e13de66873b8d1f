// Reads a record: any bytes end in the days that they state, or in the one refusal that document 01 fixes. There are two
// walks over the bytes, which stay where they are; nothing is allocated. And writes one: its length is known before the first
// byte of it is written.
#![tactic(auto)]

mod checks;
mod entry;
mod put;
mod writing;

ghost use Rattle.std.specs.Prelude.{◌≡◌, ◌≤◌, length, IfOk};
ghost use Rattle.series.specs.Units.{day_limit};
ghost use Rattle.series.specs.Causes.{refusal_of, outcome_of, first_cause};
ghost use Rattle.record.specs.Call.{reading, reply_of, read_leaves};
ghost use Rattle.record.specs.Writing.{written, write_causes, write_outcome, write_leaves};

use checks::{check_days, check_entry};
use entry::FIRST_DAY_LIMIT;
use put::{put_record, record_len};
use series::{Refusal, any_invalid_day, refuse_if, too_long};
use writing::write_days;

// What reading gives: the first day, as days since 1 January 1900, and the number of days.
#[derive(Clone, Copy, Debug, PartialEq, Eq)]
pub struct Reply {
    pub first_day: u32,
    pub day_count: u32,
}

// Reads a record into the day list. The first walk checks all bytes and counts the days; the second stores them, and runs
// only where the first found nothing to refuse.
pub fn read(bytes: &[u8], days: &mut [u32]) -> Result<Reply, Refusal>
    ensures answer { outcome_of result ≡ reply_of (reading (length days.old) bytes.now) }
    ensures list { days.new ≡ read_leaves (reading (length days.old) bytes.now) days.old }
{
    let head = check_entry(bytes, true, 0, days.len())?;
    let day_count = check_days(head.behind, days.len())?;
    // Kept: `as`, since std has no From between u32 and usize, and TryFrom would add an error that never comes.
    write_days(head.behind, &mut days[..day_count as usize]);
    Ok(Reply {
        first_day: head.value,
        day_count,
    })
}

// Writes the record of a first day and a day list from the output's start on, and gives its length.
#[tactic(auto, unfolding(series::specs::Causes::leaves))]
pub fn write(first_day: u32, days: &[u32], bytes: &mut [u8]) -> Result<u32, Refusal>
    ensures answer { outcome_of result ≡ write_outcome first_day days.now bytes.old }
    ensures output { bytes.new ≡ write_leaves first_day days.now bytes.old }
{
    let len = check_write(first_day, days, bytes)?;
    put_record(first_day, days, bytes);
    Ok(len)
}

// The length of the record, unless one of the causes of refusal holds; the causes in their order.
#[tactic(auto, unfolding(crate::specs::Writing::write_causes, series::specs::Units::within, series::specs::Lists::too_long))]
fn check_write(first_day: u32, days: &[u32], bytes: &[u8]) -> Result<u32, Refusal>
    ensures refusal { refusal_of result ≡ first_cause (write_causes first_day days.now bytes.now) }
    ensures long { IfOk result (λ n. (n ≡ length (written first_day days.now)) × (n ≤ length bytes.now) × (length days.now ≤ day_limit)) }
{
    let in_range = (0..=FIRST_DAY_LIMIT).contains(&first_day);
    refuse_if(too_long(days), Refusal::DayListTooLong)?;
    refuse_if(!in_range, Refusal::ValueOutOfRange)?;
    refuse_if(any_invalid_day(days), Refusal::InvalidDay)?;
    let len = record_len(days);
    refuse_if(bytes.len() < len, Refusal::RecordTooLong)?;
    // Kept: `as`, since a proof shows that the length fits.
    Ok(len as u32)
}
