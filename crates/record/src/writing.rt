// The writing walk, over a record that has passed.
ghost use Rattle.std.specs.Prelude.{◌≡◌, false, length};
ghost use Rattle.series.specs.Causes.{accepted, map_outcome};
ghost use Rattle.record.specs.Call.{days_from};

use crate::entry::{Entries, Kind};
use series::MISSING;

// Stores the days of the bytes behind a head: the list is as long as they are many. All days are missing at first, and each
// flow is stored in its place. (Not inlined: each walk has the registers to itself.)
#[inline(never)]
pub(crate) fn write_days(bytes: &[u8], days: &mut [u32])
    requires { map_outcome length (days_from false 0 (length days.old) 0 bytes.now) ≡ accepted (length days.old) }
    ensures { accepted days.new ≡ days_from false 0 (length days.old) 0 bytes.now }
{
    days.fill(MISSING);
    // Kept: by position, since with `split_at_mut` the loop would hand on what is left of the list, and be as long.
    let mut counted = 0;
    for entry in Entries::of(bytes) {
        if entry.kind == Kind::Flow {
            days[counted] = entry.value;
        }
        counted += entry.day_count();
    }
}
