// Every refusal of the calls over presence bits at least once.
use crate::calls::plain;
use crate::over_bits;
use crate::over_bits::BitRiver;
use std::io;

// 9, 14, 28 and 28 where 10 holds too, 10; and a day that passes.
pub fn of_to_bits(rt: &impl Print) -> io::Result<()> {
    let mut flows = [7u32; 2];
    let mut words = [7u64; 1];
    over_bits::to_bits(rt, &[1; 36526], &mut flows, &mut words)?;
    over_bits::to_bits(rt, &[1; 3], &mut flows, &mut words)?;
    over_bits::to_bits(rt, &[1; 2], &mut flows, &mut [])?;
    over_bits::to_bits(rt, &[1, 10_000_001], &mut flows, &mut [7; 2])?;
    over_bits::to_bits(rt, &[1, 10_000_001], &mut flows, &mut words)?;
    over_bits::to_bits(rt, &[series::MISSING, 10_000_000], &mut flows, &mut words)
}

// 9, 14, each cause of 28, 28 where 10 holds too, 10; and flows that pass.
pub fn of_from_bits(rt: &impl Print) -> io::Result<()> {
    let mut days = [7u32; 2];
    over_bits::from_bits(rt, &[1; 36526], &[3], &mut days)?;
    over_bits::from_bits(rt, &[1; 3], &[7], &mut days)?;
    over_bits::from_bits(rt, &[1; 2], &[], &mut days)?;
    over_bits::from_bits(rt, &[1; 2], &[3, 0], &mut days)?;
    over_bits::from_bits(rt, &[1; 2], &[7], &mut days)?;
    over_bits::from_bits(rt, &[1; 2], &[0x8000_0000_0000_0003], &mut days)?;
    over_bits::from_bits(rt, &[1; 2], &[2], &mut days)?;
    over_bits::from_bits(rt, &[series::MISSING; 2], &[2], &mut days)?;
    over_bits::from_bits(rt, &[1, 10_000_001], &[3], &mut days)?;
    over_bits::from_bits(rt, &[1, series::MISSING], &[3], &mut days)?;
    over_bits::from_bits(rt, &[0, 10_000_000], &[2], &mut days)
}

// 28 by the number of words of 65 days and of none, and days that fill a word.
pub fn of_word_counts(rt: &impl Print) -> io::Result<()> {
    let mut days = [7u32; 65];
    let mut flows = [7u32; 65];
    over_bits::to_bits(rt, &[1; 65], &mut flows, &mut [7; 1])?;
    over_bits::to_bits(rt, &[1; 65], &mut flows, &mut [7; 2])?;
    over_bits::to_bits(rt, &[1; 64], &mut [7; 64], &mut [7; 1])?;
    over_bits::to_bits(rt, &[], &mut [], &mut [])?;
    over_bits::to_bits(rt, &[], &mut [], &mut [7; 1])?;
    over_bits::from_bits(rt, &[1; 65], &[u64::MAX], &mut days)?;
    over_bits::from_bits(rt, &[1; 65], &[u64::MAX, 1], &mut days)?;
    over_bits::from_bits(rt, &[1; 65], &[u64::MAX, 3], &mut days)?;
    over_bits::from_bits(rt, &[], &[], &mut [])
}

// 11, 12, 13, 16, 25, 18, 23, where 28 holds too; and so 11, 12, 13 from a start, where 29 does as well.
pub fn of_settings(rt: &impl Print) -> io::Result<()> {
    let mut limbs = [7u32; 2];
    let mut work = [7u64; 4];
    let mut river = BitRiver {
        rt,
        flows: &[100, 200],
        words: &[1],
        base: &mut [7; 2],
    };
    river.filter(plain(8, 9250, 0), 1)?;
    river.filter(plain(2, 3333, 0), 1)?;
    river.filter(plain(2, 9250, 0), 2)?;
    river.filter_from(plain(8, 9250, 0), 1, 100_001)?;
    river.filter_from(plain(2, 3333, 0), 1, 100_001)?;
    river.filter_from(plain(2, 9250, 0), 2, 100_001)?;
    river.line(31, 9000)?;
    river.staggered(2, 9000, 4, &mut work)?;
    river.staggered(1, 9000, 1, &mut work)?;
    river.ratios(61, &mut limbs)?;
    river.bfimax(1, 2, 0)?;
    river.bfimax(1, 1, 9500)
}

// Each call over a river of two days, or over one that is refused for its lists; the start is above a first flow of 1.
fn each_call(river: &mut BitRiver<'_, '_, impl Print>) -> io::Result<()> {
    let mut limbs = [7u32; 2];
    let mut work = [7u64; 2];
    river.filter(plain(1, 9250, 0), 1)?;
    river.filter_from(plain(1, 9250, 0), 1, 1001)?;
    river.line(1, 9000)?;
    river.staggered(1, 9000, 1, &mut work)?;
    river.totals()?;
    river.ratios(2, &mut limbs)?;
    river.bfimax(1, 2, 9500)
}

fn each_over(rt: &impl Print, flows: &[u32], words: &[u64]) -> io::Result<()> {
    each_call(&mut BitRiver {
        rt,
        flows,
        words,
        base: &mut [7; 2],
    })
}

// 9, 14, each cause of 28, 28 where 10 holds too, 10.
pub fn of_lists(rt: &impl Print) -> io::Result<()> {
    each_over(rt, &[1; 36526], &[3])?;
    each_over(rt, &[1; 3], &[3])?;
    each_over(rt, &[1; 2], &[3, 0])?;
    each_over(rt, &[1; 2], &[])?;
    each_over(rt, &[1; 2], &[7])?;
    each_over(rt, &[1; 2], &[1])?;
    each_over(rt, &[series::MISSING; 2], &[1])?;
    each_over(rt, &[1, series::MISSING], &[3])?;
    each_over(rt, &[1, 10_000_001], &[3])
}

// 17, 19, 20, 21, 22, 24; and 29, by the first flow that is present.
pub fn of_values(rt: &impl Print) -> io::Result<()> {
    let flows = [0, 100, 90, 81, 0];
    let mut limbs = [7u32; 1];
    let mut work = [7u64; 5];
    let mut without = BitRiver {
        rt,
        flows: &flows,
        words: &[15],
        base: &mut [series::NO_VALUE; 5],
    };
    without.line(1, 9000)?;
    without.staggered(1, 9000, 1, &mut work)?;
    without.totals()?;
    without.ratios(2, &mut limbs)?;
    without.bfimax(4, 2, 9500)?;
    without.filter_from(plain(1, 9250, 0), 1, 1)?;
    let mut behind_gap = BitRiver {
        rt,
        flows: &[0, 100],
        words: &[2],
        base: &mut [7; 2],
    };
    behind_gap.filter_from(plain(1, 9250, 0), 1, 100_001)?;
    let at_base = BitRiver {
        rt,
        flows: &flows,
        words: &[15],
        base: &mut [0, 100_000, 90_000, 81_000, series::NO_VALUE],
    };
    at_base.ratios(2, &mut limbs)?;
    let on_missing = BitRiver {
        rt,
        flows: &flows,
        words: &[15],
        base: &mut [0; 5],
    };
    on_missing.totals()?;
    on_missing.ratios(2, &mut limbs)
}

// 21 of BFImax, and a spell that passes.
pub fn of_spells(rt: &impl Print) -> io::Result<()> {
    let mut river = BitRiver {
        rt,
        flows: &[0, 100, 0, 0],
        words: &[14],
        base: &mut [7; 4],
    };
    river.bfimax(3, 2, 9500)?;
    river.bfimax(3, 3, 9500)
}
