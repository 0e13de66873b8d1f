// Records written: of made rivers, which are read again, and of days worked through.
use crate::{calls, show};
use std::io;

// The record of a day list, with the whole output printed; how long it is, and 0 on a refusal.
pub fn write(rt: &impl Print, first_day: u32, days: &[u32], bytes: &mut [u8]) -> io::Result<usize> {
    print!(rt; "write {first_day} {}", days.len())?;
    let mut length = 0;
    match record::write(first_day, days, &mut *bytes) {
        Ok(written) => {
            print!(rt; ": written {written}")?;
            length = written as usize;
        }
        Err(refusal) => show::refusal(rt, refusal)?,
    }
    show::bytes(rt, bytes)?;
    Ok(length)
}

// A day list written, and its record read.
fn there_and_back(
    rt: &impl Print,
    first_day: u32,
    days: &[u32],
    bytes: &mut [u8],
    again: &mut [u32],
) -> io::Result<()> {
    let length = write(rt, first_day, days, &mut *bytes)?;
    match bytes.split_at_checked(length) {
        Some((record, _)) => calls::reading(rt, record, again),
        None => Ok(()),
    }
}

// Thirty years, with room for any of so many days.
pub fn of_years(rt: &impl Print, days: &[u32]) -> io::Result<()> {
    let mut bytes = [7u8; 54795];
    let mut again = [7u32; 10957];
    there_and_back(rt, 0, days, &mut bytes, &mut again)
}

// A full record, with room for the longest one.
pub fn of_full_list(rt: &impl Print, days: &[u32]) -> io::Result<()> {
    let mut bytes = [7u8; 182635];
    let mut again = [7u32; 36525];
    there_and_back(rt, 99_999, days, &mut bytes, &mut again)
}

// No days; one missing day and two; gaps at both ends; 36,525 missing days, and days that are all present.
pub fn worked(rt: &impl Print) -> io::Result<()> {
    let missing = series::MISSING;
    let mut again = [7u32; 4];
    there_and_back(rt, 0, &[], &mut [7; 12], &mut again)?;
    there_and_back(rt, 7, &[5, missing, 7], &mut [7; 21], &mut again)?;
    there_and_back(rt, 0, &[missing], &mut [7; 11], &mut again)?;
    there_and_back(rt, 0, &[missing; 2], &mut [7; 13], &mut again)?;
    there_and_back(
        rt,
        0,
        &[missing, 5, missing, missing],
        &mut [7; 20],
        &mut again,
    )?;
    write(rt, 99_999, &[missing; 36525], &mut [7; 14])?;
    write(rt, 99_999, &[10_000_000; 36525], &mut [7; 182635])?;
    Ok(())
}

// A record whose gap of six days is in four entries, and the record of its days, in which it is in one.
pub fn read_and_written(rt: &impl Print) -> io::Result<()> {
    let record = [
        1, 3, 0, 0, 0, 3, 3, 4, 1, 0, 4, 3, 0, 2, 5, 0, 0, 0, 9, 7, 0, 0, 0,
    ];
    let mut days = [7u32; 7];
    calls::reading(rt, &record, &mut days)?;
    there_and_back(rt, 3, &days, &mut [7; 18], &mut [7; 8])
}
