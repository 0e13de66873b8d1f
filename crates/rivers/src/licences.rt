// Licences replayed: over made rivers, and worked through.
use crate::calls::{River, plain};
use std::io;

// Thirty years, against a filter: by flow and base flow alone, held to the daily limit, and until the quota runs out; and
// so against a line.
pub fn of_years(river: &mut River<'_, '_, impl Print>) -> io::Result<()> {
    let mut takings = [7u32; 10957];
    river.filter(plain(1, 9250, 0), 1)?;
    river.licence(10_000_000, 1_000_000_000_000, &mut takings)?;
    river.licence(50_000, 1_000_000_000_000, &mut takings)?;
    river.licence(50_000, 100_000_000, &mut takings)?;
    river.line(5, 9000)?;
    river.licence(50_000, 20_000_000, &mut takings)
}

// A full record, against a filter.
pub fn of_full_list(river: &mut River<'_, '_, impl Print>) -> io::Result<()> {
    river.filter(plain(1, 9250, 0), 1)?;
    river.licence(50_000, 1_000_000_000_000, &mut [7; 36525])
}

// A quota that is enough, one that runs out within a day's amount, and one that runs out with it.
pub fn until_spent(rt: &impl Print) -> io::Result<()> {
    let mut takings = [7u32; 4];
    for quota in [150, 120, 110] {
        let river = River {
            rt,
            days: &[100, 200, series::MISSING, 50],
            base: &mut [50_000, 57_500, series::NO_VALUE, 25_000],
        };
        river.licence(60, quota, &mut takings)?;
    }
    Ok(())
}

// Base flow beside whole litres, at the flow, within its last litre, 0 and none; and the most that a day can give.
pub fn by_litres(rt: &impl Print) -> io::Result<()> {
    let river = River {
        rt,
        days: &[10; 7],
        base: &mut [3000, 3001, 2999, 10_000, 9001, 0, series::NO_VALUE],
    };
    river.licence(10_000_000, 1_000_000_000_000, &mut [7; 7])?;
    let full = River {
        rt,
        days: &[10_000_000],
        base: &mut [0],
    };
    full.licence(10_000_000, 1_000_000_000_000, &mut [7; 1])
}

// A daily limit of 0, a quota of 0, and no days.
pub fn of_nothing(rt: &impl Print) -> io::Result<()> {
    let river = River {
        rt,
        days: &[10; 2],
        base: &mut [0; 2],
    };
    river.licence(0, 5, &mut [7; 2])?;
    river.licence(5, 0, &mut [7; 2])?;
    let without = River {
        rt,
        days: &[],
        base: &mut [],
    };
    without.licence(5, 5, &mut [])
}
