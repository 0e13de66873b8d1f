// Figures that the field publishes, on rivers for which they are known: the recession constant of a river that falls by
// it, BFImax as the index of a steady river, and the line below a river of steady flow and storms.
use crate::calls::{River, plain};
use crate::river;
use crate::river::Storms;
use std::io;

// Source document 000: 0.973 to 0.980 and 0.95 in the Chesapeake Bay watershed, 0.977 of the worked stream, 0.978 for 45
// days. Source document 004: 0.916, 0.945 and 0.899, the last estimates of its first three basins.
const CONSTANTS: [u32; 8] = [9730, 9800, 9500, 9770, 9780, 9160, 9450, 8990];

// Twenty days of a fall, all of it base flow; limbs of at least five days count.
pub fn recession_constants(rt: &impl Print) -> io::Result<()> {
    for constant in CONSTANTS {
        let mut days = [0u32; 20];
        let mut base = [0u64; 20];
        let mut limbs = [0u32; 2];
        river::fall(&mut days, 10_000_000, constant, None);
        river::at_base(&days, &mut base);
        let river = River {
            rt,
            days: &days,
            base: &mut base,
        };
        river.ratios(5, &mut limbs)?;
    }
    Ok(())
}

fn steady_index(rt: &impl Print, method: u32, p: u32, q: u32) -> io::Result<()> {
    let mut days = [0u32; 10957];
    let mut base = [0u64; 10957];
    river::fall(&mut days, 1_000_000, 10_000, None);
    let mut river = River {
        rt,
        days: &days,
        base: &mut base,
    };
    river.filter_and_totals(plain(method, p, q), 1)
}

// Source documents 000 and 002: BFImax 0.80, 0.50 and 0.25 with a 0.978; source documents 000 and 001: parameters 0.90,
// 0.925 and 0.95, with which a steady river is all base flow.
pub fn base_flow_indices(rt: &impl Print) -> io::Result<()> {
    steady_index(rt, 5, 9780, 8000)?;
    steady_index(rt, 5, 9780, 5000)?;
    steady_index(rt, 5, 9780, 2500)?;
    steady_index(rt, 1, 9000, 0)?;
    steady_index(rt, 1, 9250, 0)?;
    steady_index(rt, 1, 9500, 0)
}

// Source document 002: blocks of five days, factor 0.9. The storms of a tenfold flow come every tenth day, so the line
// lies at the steady flow, and the index between turning points is 10 / 19 in the long run.
pub fn minima_line(rt: &impl Print) -> io::Result<()> {
    let mut days = [0u32; 1000];
    let mut base = [0u64; 1000];
    let storms = Storms {
        apart: 10,
        flow: 1000,
    };
    river::fall(&mut days, 100, 10_000, Some(storms));
    let mut river = River {
        rt,
        days: &days,
        base: &mut base,
    };
    river.line_and_totals(5, 9000)
}
