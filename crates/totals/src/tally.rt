// What the walk over the days adds up.
ghost use Rattle.std.specs.Prelude.{◌*◌, ◌≤◌};

use super::Totals;
use series::Refusal;

// The sums over some days with a base value: how many they are, their flows and their base values.
#[derive(Clone, Copy)]
pub(crate) struct Tally {
    pub(crate) days: u32,
    pub(crate) flow: u64,
    pub(crate) base: u64,
    // no more days than a list may have, each of a flow that a u32 holds
    ghost few: { days ≤ 36525 },
    ghost small: { flow ≤ 4294967295 * days },
}

impl Tally {
    ghost use Rattle.std.specs.Prelude.{◌≡◌, ◌<◌};
    ghost use Rattle.series.specs.Units.{day_of, base_of};
    ghost use Rattle.totals.specs.Private.{totals_from, AddsDay};

    // Of no days.
    pub(crate) const NONE: Tally = Tally {
        days: 0,
        flow: 0,
        base: 0,
    };

    // The sums with one day more. (Without a branch, so that a walk over the days is the faster one; an invalid base value may
    // wrap its sum round, which then is not used.)
    #[tactic(auto, using(crate::proofs::Summing::uncounted, crate::proofs::Summing::counted))]
    pub(crate) fn with_day(self, day: u32, base: u64) -> Tally
        requires { self.days < 36525 }
        ensures { AddsDay self day base result }
    {
        let (count, flow, value) = if base == series::NO_VALUE {
            (0, 0, 0)
        } else {
            (1, u64::from(day), base)
        };
        Tally {
            days: self.days + count,
            flow: self.flow + flow,
            base: self.base.wrapping_add(value),
        }
    }

    // The totals from the sums.
    #[tactic(auto, using(crate::proofs::Outcomes::index_below))]
    pub(crate) fn totals(self) -> Totals
        requires { self.base ≤ 1000 * self.flow }
        ensures { result ≡ totals_from self }
    {
        let index = numbers::near(10 * self.base, self.flow);
        Totals {
            days: self.days,
            flow: self.flow,
            base: self.base,
            quick: 1000 * self.flow - self.base,
            // Kept: `as`, where a proof shows that the index fits; TryFrom would add an error that never comes.
            index: index as u32,
        }
    }
}
