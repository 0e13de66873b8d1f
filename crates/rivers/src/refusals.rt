// Every refusal of document 01's table at least once.
use crate::calls::{River, plain, signed};
use crate::{calls, records};
use filter::{DailyFilter, Yesterday};
use std::io;

fn read(rt: &impl Print, bytes: &[u8]) -> io::Result<()> {
    let mut days = [7u32; 2];
    calls::reading(rt, bytes, &mut days)
}

// 1 to 4, after the record of zero days, which passes.
pub fn of_entries(rt: &impl Print) -> io::Result<()> {
    read(rt, &[1, 0, 0, 0, 0, 9, 0, 0, 0, 0])?;
    read(rt, &[1, 0, 0])?;
    read(rt, &[5])?;
    read(rt, &[2, 1, 0, 0, 0])?;
    read(rt, &[1, 160, 134, 1, 0])
}

// 5 to 8.
pub fn of_day_counts(rt: &impl Print) -> io::Result<()> {
    read(rt, &[1, 0, 0, 0, 0, 4, 174, 142])?;
    read(rt, &[1, 0, 0, 0, 0, 3, 3, 3])?;
    read(rt, &[1, 0, 0, 0, 0, 9, 1, 0, 0, 0])?;
    read(rt, &[1, 0, 0, 0, 0, 9, 0, 0, 0, 0, 0])
}

// 9, 4, 10, each where the ones behind it and 30 hold too, and 30, a byte short and without a day.
pub fn of_records(rt: &impl Print) -> io::Result<()> {
    let mut bytes = [7u8; 14];
    records::write(rt, 100_000, &[10_000_001; 36526], &mut bytes)?;
    records::write(rt, 100_000, &[10_000_001], &mut bytes)?;
    records::write(rt, 99_999, &[10_000_001], &mut bytes)?;
    records::write(rt, 99_999, &[10_000_000], &mut bytes)?;
    records::write(rt, 0, &[], &mut [7; 9])?;
    Ok(())
}

// 11, 12, 13, 16, 18, and method 2's least p, which passes.
pub fn of_settings(rt: &impl Print) -> io::Result<()> {
    let mut limbs = [7u32; 2];
    let mut river = River {
        rt,
        days: &[100, 200],
        base: &mut [7; 2],
    };
    river.filter(plain(8, 9250, 0), 1)?;
    river.filter(plain(2, 3333, 0), 1)?;
    river.filter(signed(4, 9250, 500, 1), 1)?;
    river.filter(signed(7, 9250, 500, -10_000), 1)?;
    river.filter(plain(2, 9250, 0), 2)?;
    river.filter(plain(2, 3334, 0), 1)?;
    river.line(31, 9000)?;
    river.line(5, 10_000)?;
    river.ratios(1, &mut limbs)?;
    river.ratios(61, &mut limbs)
}

// 9, 14, 10.
pub fn of_lists(rt: &impl Print) -> io::Result<()> {
    let days = [100, 10_000_001];
    let mut limbs = [7u32; 2];
    let mut invalid = River {
        rt,
        days: &days,
        base: &mut [7; 2],
    };
    let mut short = River {
        rt,
        days: &days,
        base: &mut [7; 1],
    };
    let mut long = River {
        rt,
        days: &[1; 36526],
        base: &mut [7; 2],
    };
    long.filter(plain(1, 9250, 0), 1)?;
    short.filter(plain(1, 9250, 0), 1)?;
    invalid.filter(plain(1, 9250, 0), 1)?;
    invalid.line(5, 9000)?;
    invalid.totals()?;
    long.ratios(2, &mut limbs)?;
    short.ratios(2, &mut limbs)?;
    invalid.ratios(2, &mut limbs)
}

// 11, 12, 13, 9, 14, 10, each where 29 holds too, and 29 alone; by the first present flow, and not by the first day.
pub fn of_starts(rt: &impl Print) -> io::Result<()> {
    let days = [series::MISSING, 100, 10_000_001];
    let mut base = [7u64; 3];
    let mut invalid = River {
        rt,
        days: &days,
        base: &mut base,
    };
    invalid.filter_from(plain(8, 9250, 0), 1, 100_001)?;
    invalid.filter_from(plain(2, 3333, 0), 1, 100_001)?;
    invalid.filter_from(plain(2, 9250, 0), 2, 100_001)?;
    invalid.filter_from(plain(1, 9250, 0), 1, 100_001)?;
    let mut long = River {
        rt,
        days: &[1; 36526],
        base: &mut base,
    };
    long.filter_from(plain(1, 9250, 0), 1, 1001)?;
    let mut short = River {
        rt,
        days: &days,
        base: &mut [7; 2],
    };
    short.filter_from(plain(1, 9250, 0), 1, 100_001)?;
    let mut river = River {
        rt,
        days: &[series::MISSING, 100, 10_000_000],
        base: &mut base,
    };
    river.filter_from(plain(1, 9250, 0), 1, 100_001)?;
    river.filter_from(plain(1, 9250, 0), 1, u64::MAX)
}

fn step_after(rt: &impl Print, yesterday: Yesterday, method: u32, p: u32) -> io::Result<()> {
    let state = DailyFilter {
        yesterday: Some(yesterday),
    };
    let _ = calls::step(rt, state, plain(method, p, 0), 10_000_001)?;
    Ok(())
}

// 11, 12, 15, 10.
pub fn of_steps(rt: &impl Print) -> io::Result<()> {
    let above_flow = Yesterday {
        flow: 5,
        base: 5001,
    };
    let at_flow = Yesterday {
        flow: 5,
        base: 5000,
    };
    step_after(rt, above_flow, 0, 0)?;
    step_after(rt, above_flow, 1, 0)?;
    step_after(rt, above_flow, 1, 9250)?;
    step_after(rt, at_flow, 1, 9250)
}

// 17, 19, 20, 21, 22.
pub fn of_values(rt: &impl Print) -> io::Result<()> {
    let days = [0, 100, 90, 81];
    let mut limbs = [7u32; 1];
    let mut without = River {
        rt,
        days: &days,
        base: &mut [series::NO_VALUE; 4],
    };
    let at_base = River {
        rt,
        days: &days,
        base: &mut [0, 100_000, 90_000, 81_000],
    };
    let above_flow = River {
        rt,
        days: &days,
        base: &mut [0, 0, 90_001, 0],
    };
    without.line(1, 9000)?;
    without.ratios(2, &mut limbs)?;
    at_base.ratios(4, &mut limbs)?;
    at_base.ratios(3, &mut limbs)?;
    above_flow.ratios(2, &mut limbs)?;
    without.totals()?;
    above_flow.totals()
}

// 12, 23, 24, 21.
pub fn of_spells(rt: &impl Print) -> io::Result<()> {
    let mut river = River {
        rt,
        days: &[100, 0, 0, series::MISSING],
        base: &mut [7; 4],
    };
    river.bfimax(2, 2, 0)?;
    river.bfimax(2, 1, 9500)?;
    river.bfimax(2, 3651, 9500)?;
    river.bfimax(4, 2, 9500)?;
    river.bfimax(0, 2, 9500)?;
    river.bfimax(3, 2, 9500)?;
    river.bfimax(2, 2, 9500)?;
    river.bfimax(2, 3, 9500)
}

// 16, 17, 9, 14, 25, 10.
pub fn of_staggered(rt: &impl Print) -> io::Result<()> {
    let mut base = [7u64; 3];
    let mut work = [7u64; 6];
    let mut river = River {
        rt,
        days: &[5, 4, 6],
        base: &mut base,
    };
    river.staggered(31, 9000, 1, &mut work)?;
    river.staggered(2, 9000, 0, &mut work)?;
    river.staggered(2, 9000, 4, &mut work)?;
    river.staggered(2, 9000, 1, &mut work)?;
    let mut long = River {
        rt,
        days: &[1; 36526],
        base: &mut base,
    };
    long.staggered(2, 9000, 1, &mut work)?;
    let mut short = River {
        rt,
        days: &[5, 4, 6],
        base: &mut [7; 1],
    };
    short.staggered(2, 9000, 1, &mut work)?;
    let mut no_room = River {
        rt,
        days: &[5, 4, 6],
        base: &mut base,
    };
    no_room.staggered(1, 9000, 1, &mut work)?;
    let mut invalid = River {
        rt,
        days: &[5, 10_000_001, 6],
        base: &mut base,
    };
    invalid.staggered(2, 9000, 1, &mut work)
}

// 31 for either number, 9, 14 for either list, 10, each where the ones behind it hold too; and 20, though there is nothing
// to take.
pub fn of_licences(rt: &impl Print) -> io::Result<()> {
    let days = [series::MISSING, 10_000_001];
    let mut base = [7u64; 2];
    let mut takings = [7u32; 2];
    let long = River {
        rt,
        days: &[1; 36526],
        base: &mut base,
    };
    long.licence(10_000_001, 1_000_000_000_000, &mut takings)?;
    long.licence(10_000_000, 1_000_000_000_001, &mut takings)?;
    long.licence(10_000_000, 1_000_000_000_000, &mut takings)?;
    let short = River {
        rt,
        days: &days,
        base: &mut [7; 1],
    };
    short.licence(10_000_000, 1_000_000_000_000, &mut takings)?;
    let invalid = River {
        rt,
        days: &days,
        base: &mut base,
    };
    invalid.licence(10_000_000, 1_000_000_000_000, &mut [7; 3])?;
    invalid.licence(10_000_000, 1_000_000_000_000, &mut takings)?;
    let on_missing = River {
        rt,
        days: &[series::MISSING, 100],
        base: &mut base,
    };
    on_missing.licence(10_000_000, 1_000_000_000_000, &mut takings)?;
    let above_flow = River {
        rt,
        days: &[series::MISSING, 100],
        base: &mut [series::NO_VALUE, 100_001],
    };
    above_flow.licence(0, 0, &mut takings)
}

// 1, 2, 8.
pub fn of_meters(rt: &impl Print) -> io::Result<()> {
    calls::meter(rt, &[])?;
    calls::meter(rt, &[1])?;
    calls::meter(rt, &[2, 0, 0, 128])?;
    calls::meter(rt, &[0])?;
    calls::meter(rt, &[4, 0, 0, 128, 63])?;
    calls::meter(rt, &[255, 0, 0, 128, 63, 0])?;
    calls::meter(rt, &[3, 3])?;
    calls::meter(rt, &[1, 0, 0, 128, 127, 0])
}

// 26, 27.
pub fn of_floats(rt: &impl Print) -> io::Result<()> {
    for bits in [
        0x7f80_0000, // infinity
        0xff80_0000, // and below zero
        0x7fc0_0000, // a quiet NaN
        0xffc0_0000, // with a sign
        0x7f80_0001, // a signalling NaN
        0xff80_0001, // with a sign
        0x8000_0001, // the float next below zero
        0xbf80_0000, // -1
        0xff7f_c99e, // -3.4e38
    ] {
        calls::meter_float(rt, 1, bits)?;
        calls::meter_float(rt, 2, bits)?;
    }
    // next above 10,000,000 litres and 10,000 cubic metres, and 3.4e38 of both
    calls::meter_float(rt, 2, 0x4b18_9681)?;
    calls::meter_float(rt, 1, 0x461c_4001)?;
    calls::meter_float(rt, 2, 0x7f7f_c99e)?;
    calls::meter_float(rt, 1, 0x7f7f_c99e)
}
