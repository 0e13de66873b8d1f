// A record of a day list.
// Kept: kinds of entry as bare bytes, since a test that shared the reader's names would share its mistakes.
use std::alloc::{AllocError, Global};

// An entry with a body of four bytes, low byte first.
fn put_entry(bytes: &mut Vec<u8>, kind: u8, n: u32) -> Result<(), AllocError> {
    bytes.push(kind)?;
    bytes.extend_from_slice(&n.to_le_bytes())?;
    Ok(())
}

fn put_day(bytes: &mut Vec<u8>, day: u32) -> Result<(), AllocError> {
    if day == series::MISSING {
        bytes.push(3)?;
        return Ok(());
    }
    put_entry(bytes, 2, day)
}

// The record of a day list, with a first day, and a number of days in its end entry.
pub fn record_of(
    alloc: Global,
    first_day: u32,
    days: &[u32],
    day_count: u32,
) -> Result<Vec<u8>, AllocError> {
    let mut bytes = Vec::new(alloc);
    put_entry(&mut bytes, 1, first_day)?;
    for day in days {
        put_day(&mut bytes, *day)?;
    }
    put_entry(&mut bytes, 9, day_count)?;
    Ok(bytes)
}
