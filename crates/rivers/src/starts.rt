// Filters from a start, worked through: over days, and over flows and words.
use crate::calls::{River, plain};
use crate::over_bits::BitRiver;
use std::io;

// A river from a start, in each number of passes.
fn each_pass(rt: &impl Print, days: &[u32], base: &mut [u64], start: u64) -> io::Result<()> {
    let mut river = River { rt, days, base };
    for passes in 1..=3 {
        river.filter_from(plain(1, 9250, 0), passes, start)?;
    }
    Ok(())
}

// From 0, from all of the first flow, and from more than that.
pub fn at_ends(rt: &impl Print) -> io::Result<()> {
    each_pass(rt, &[100, 200], &mut [7; 2], 0)?;
    each_pass(rt, &[100, 200], &mut [7; 2], 100_000)?;
    each_pass(rt, &[100, 200], &mut [7; 2], 100_001)?;
    each_pass(rt, &[100, 20], &mut [7; 2], 100_000)
}

// No present day, a first day that is missing, and a second segment.
pub fn with_gaps(rt: &impl Print) -> io::Result<()> {
    each_pass(rt, &[series::MISSING; 2], &mut [7; 2], 0)?;
    each_pass(rt, &[series::MISSING; 2], &mut [7; 2], u64::MAX)?;
    each_pass(rt, &[series::MISSING, 100, 200], &mut [7; 3], 0)?;
    each_pass(rt, &[100, series::MISSING, 100, 200], &mut [7; 4], 0)
}

// The same over flows and words.
pub fn over_bits(rt: &impl Print) -> io::Result<()> {
    let mut absent = BitRiver {
        rt,
        flows: &[0; 2],
        words: &[0],
        base: &mut [7; 2],
    };
    let mut late = BitRiver {
        rt,
        flows: &[0, 100, 200],
        words: &[6],
        base: &mut [7; 3],
    };
    let mut apart = BitRiver {
        rt,
        flows: &[100, 0, 100, 200],
        words: &[13],
        base: &mut [7; 4],
    };
    absent.filter_from(plain(1, 9250, 0), 3, u64::MAX)?;
    late.filter_from(plain(1, 9250, 0), 3, 0)?;
    late.filter_from(plain(1, 9250, 0), 3, 100_001)?;
    apart.filter_from(plain(1, 9250, 0), 3, 0)
}
