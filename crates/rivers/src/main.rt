// Runs longer and published rivers through the calls and prints what they give: check sums and selected days. The file
// stdout holds what tests/rivers.py works out by document 01's rules.
#![tactic(auto)]

mod bits_refusals;
mod calls;
mod licences;
mod over_bits;
mod published;
mod reading_of;
mod record_of;
mod records;
mod refusals;
mod river;
mod show;
mod starts;

use calls::{River, plain, signed};
use over_bits::BitRiver;
use record_of::record_of;
use river::Gaps;
use std::alloc::Global;
use std::io;

fn all_methods(river: &mut River<'_, '_, impl Print>) -> io::Result<()> {
    for passes in 1..=3 {
        river.filter_and_totals(plain(1, 9250, 0), passes)?;
    }
    river.filter_and_totals(plain(2, 9500, 0), 1)?;
    river.filter_and_totals(plain(3, 9250, 0), 1)?;
    river.filter_and_totals(plain(4, 9780, 500), 1)?;
    river.filter_and_totals(plain(5, 9780, 8000), 1)?;
    river.filter_and_totals(plain(6, 9250, 0), 1)?;
    river.filter_and_totals(signed(7, 9700, 300, -9999), 1)
}

// From a start: 0, all of the first flow, and more than that, which is refused.
fn all_starts(river: &mut River<'_, '_, impl Print>) -> io::Result<()> {
    let whole = river::first_whole(river.days);
    for start in [0, whole, whole + 1] {
        river.filter_from(plain(1, 9250, 0), 3, start)?;
        river.filter_from(plain(5, 9780, 8000), 1, start)?;
        river.filter_from(signed(7, 9700, 300, -9999), 1, start)?;
    }
    Ok(())
}

fn all_steps(river: &River<'_, '_, impl Print>) -> io::Result<()> {
    river.steps(plain(1, 9250, 0))?;
    river.steps(plain(5, 9780, 8000))?;
    river.steps(signed(7, 9700, 300, -9999))
}

fn lines(river: &mut River<'_, '_, impl Print>) -> io::Result<()> {
    for (block_days, factor) in [(1, 9000), (5, 9000), (5, 9999), (7, 1), (30, 9500)] {
        river.line_and_totals(block_days, factor)?;
    }
    Ok(())
}

fn all_staggered(river: &mut River<'_, '_, impl Print>) -> io::Result<()> {
    let mut work = [0u64; 54785];
    for choice in 1..=3 {
        river.staggered(5, 9000, choice, &mut work)?;
    }
    Ok(())
}

fn two_staggered(river: &mut River<'_, '_, impl Print>) -> io::Result<()> {
    let mut work = [0u64; 73050];
    river.staggered(2, 9000, 3, &mut work)
}

fn limbs(river: &River<'_, '_, impl Print>, limb_days: &[u32]) -> io::Result<()> {
    for shortest in limb_days {
        let mut limbs = [0u32; 8192];
        river.ratios(*shortest, &mut limbs)?;
    }
    Ok(())
}

// Ratios with every day at base, and from the days on which a line meets the flow.
fn limbs_at_base(river: &mut River<'_, '_, impl Print>) -> io::Result<()> {
    river::at_base(river.days, &mut *river.base);
    limbs(river, &[2, 5, 10, 60])?;
    river.line(5, 9000)?;
    limbs(river, &[2, 5, 10, 60])
}

// Spells at the end of thirty years, in their middle and at their start.
fn spells(river: &mut River<'_, '_, impl Print>) -> io::Result<()> {
    river.bfimax(10_956, 60, 9800)?;
    river.bfimax(5000, 3650, 9500)?;
    river.bfimax(29, 30, 9999)
}

// Calls over presence bits that thirty years and a full record share. Each gives what the call over the days gave.
fn all_over_bits(river: &mut BitRiver<'_, '_, impl Print>) -> io::Result<()> {
    let mut limbs = [0u32; 8192];
    river.filter_from(plain(1, 9250, 0), 3, 0)?;
    river.filter(plain(1, 9250, 0), 3)?;
    river.totals()?;
    river.line(5, 9000)?;
    river.totals()?;
    river.ratios(2, &mut limbs)
}

// Thirty years as flows and words, and the days again.
fn years_in_bits(rt: &impl Print, days: &[u32], base: &mut [u64]) -> io::Result<()> {
    let mut flows = [0u32; 10957];
    let mut words = [0u64; 172];
    let mut work = [0u64; 54785];
    let mut again = [0u32; 10957];
    over_bits::to_bits(rt, days, &mut flows, &mut words)?;
    let mut river = BitRiver {
        rt,
        flows: &flows,
        words: &words,
        base,
    };
    all_over_bits(&mut river)?;
    river.filter(signed(7, 9700, 300, -9999), 1)?;
    river.filter_from(signed(7, 9700, 300, -9999), 1, 0)?;
    river.staggered(5, 9000, 3, &mut work)?;
    river.bfimax(5000, 3650, 9500)?;
    over_bits::from_bits(rt, &flows, &words, &mut again)
}

// A full record as flows and words, and the days again.
fn record_in_bits(rt: &impl Print, days: &[u32], base: &mut [u64]) -> io::Result<()> {
    let mut flows = [0u32; 36525];
    let mut words = [0u64; 571];
    let mut work = [0u64; 73050];
    let mut again = [0u32; 36525];
    over_bits::to_bits(rt, days, &mut flows, &mut words)?;
    let mut river = BitRiver {
        rt,
        flows: &flows,
        words: &words,
        base,
    };
    all_over_bits(&mut river)?;
    river.staggered(2, 9000, 3, &mut work)?;
    river.bfimax(36_524, 3650, 9780)?;
    over_bits::from_bits(rt, &flows, &words, &mut again)
}

// Thirty years of days through every method and number of passes, filters from a start, the daily step, the line, the
// staggered lines, the ratios, BFImax and licences; then as a record, and as flows and words.
fn thirty_years(rt: &impl Print, seed: u32, gaps: Gaps) -> io::Result<()> {
    let mut days = [0u32; 10957];
    let mut base = [0u64; 10957];
    river::fill(&mut days, seed, gaps);
    // Kept: `as`, which reads the number that the enum gives each case.
    print!(rt; "thirty years {}", gaps as u32)?;
    show::list(rt, "days", &days)?;
    let mut river = River {
        rt,
        days: &days,
        base: &mut base,
    };
    all_methods(&mut river)?;
    all_starts(&mut river)?;
    all_steps(&river)?;
    lines(&mut river)?;
    all_staggered(&mut river)?;
    limbs_at_base(&mut river)?;
    spells(&mut river)?;
    licences::of_years(&mut river)?;
    records::of_years(rt, &days)?;
    years_in_bits(rt, &days, &mut base)
}

// A full record, of 36,525 days, made here and read back into the same list; then written by the engine.
fn full_record(rt: &impl Print, alloc: Global) -> io::Result<()> {
    let mut days = [0u32; 36525];
    let mut base = [0u64; 36525];
    river::fill(&mut days, 7, Gaps::Everywhere);
    let bytes = record_of(alloc, 99_999, &days, 36_525)?;
    calls::reading(rt, &bytes, &mut days)?;
    let mut river = River {
        rt,
        days: &days,
        base: &mut base,
    };
    river.filter_from(plain(1, 9250, 0), 3, 0)?;
    river.filter_and_totals(plain(1, 9250, 0), 3)?;
    river.line_and_totals(5, 9000)?;
    limbs(&river, &[2])?;
    two_staggered(&mut river)?;
    river.bfimax(36_524, 3650, 9780)?;
    licences::of_full_list(&mut river)?;
    records::of_full_list(rt, &days)?;
    record_in_bits(rt, &days, &mut base)
}

// Half-lives at both ends of the range, beside it, and where a half is met exactly.
fn half_lives(rt: &impl Print) -> io::Result<()> {
    for p in [0, 1, 500, 501, 900, 990, 999, 1000] {
        calls::half_life(rt, p)?;
    }
    Ok(())
}

// Readings worked through, in litres and in cubic metres.
fn readings(rt: &impl Print) -> io::Result<()> {
    for bits in [
        0x4020_0000, // 2.5
        0x4060_0000, // 3.5
        0x3f00_0000, // 0.5
        0x3fc0_0000, // 1.5
        0x8000_0000, // negative zero
        1, // the smallest subnormal
        0x4aff_ffff, // 8,388,607.5
        0x4b18_9680, // 10,000,000
    ] {
        calls::meter_float(rt, 2, bits)?;
    }
    for bits in [
        0x3fc0_0000, // 1.5
        0x3a03_126f, // 0.0005
        0x3a03_126e, // the float below that
        0x3d80_0000, // 0.0625
        0x3e40_0000, // 0.1875
        0x8000_0000, // negative zero
        0x7f_ffff, // the largest subnormal
        0x461c_4000, // 10,000
    ] {
        calls::meter_float(rt, 1, bits)?;
    }
    calls::no_reading(rt)
}

// Thirty years as a meter sends them, a reading a day, and the steps over what is read.
fn metered_years(rt: &impl Print) -> io::Result<()> {
    let mut days = [0u32; 10957];
    river::fill(&mut days, 4, Gaps::Everywhere);
    for day in days.iter_mut() {
        *day = calls::metered_day(rt, *day)?;
    }
    print!(rt; "metered years")?;
    show::list(rt, "days", &days)?;
    all_steps(&River {
        rt,
        days: &days,
        base: &mut [],
    })
}

// Every refusal of the calls over presence bits.
fn bits_refused(rt: &impl Print) -> io::Result<()> {
    bits_refusals::of_to_bits(rt)?;
    bits_refusals::of_from_bits(rt)?;
    bits_refusals::of_word_counts(rt)?;
    bits_refusals::of_settings(rt)?;
    bits_refusals::of_lists(rt)?;
    bits_refusals::of_values(rt)?;
    bits_refusals::of_spells(rt)
}

fn main(rt: HostRuntime) -> io::Result<()> {
    thirty_years(&rt, 1, Gaps::Nowhere)?;
    thirty_years(&rt, 2, Gaps::AtStart)?;
    thirty_years(&rt, 3, Gaps::AtEnd)?;
    thirty_years(&rt, 4, Gaps::Everywhere)?;
    thirty_years(&rt, 5, Gaps::DrySummers)?;
    full_record(&rt, rt.alloc())?;
    refusals::of_entries(&rt)?;
    refusals::of_day_counts(&rt)?;
    refusals::of_records(&rt)?;
    refusals::of_settings(&rt)?;
    refusals::of_lists(&rt)?;
    refusals::of_starts(&rt)?;
    refusals::of_steps(&rt)?;
    refusals::of_values(&rt)?;
    refusals::of_spells(&rt)?;
    refusals::of_staggered(&rt)?;
    refusals::of_licences(&rt)?;
    refusals::of_meters(&rt)?;
    refusals::of_floats(&rt)?;
    bits_refused(&rt)?;
    records::worked(&rt)?;
    records::read_and_written(&rt)?;
    starts::at_ends(&rt)?;
    starts::with_gaps(&rt)?;
    starts::over_bits(&rt)?;
    licences::until_spent(&rt)?;
    licences::by_litres(&rt)?;
    licences::of_nothing(&rt)?;
    half_lives(&rt)?;
    readings(&rt)?;
    metered_years(&rt)?;
    published::recession_constants(&rt)?;
    published::base_flow_indices(&rt)?;
    published::minima_line(&rt)
}
