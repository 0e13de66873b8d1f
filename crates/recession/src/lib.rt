// Recession ratios: the recession constant of a river from its own falling limbs, with every counted limb listed.
#![tactic(auto)]

ghost use Rattle.std.specs.Prelude.{◌≡◌, ◌≤◌};
ghost use Rattle.series.specs.Units.{day_limit};
ghost use Rattle.series.specs.Causes.{Decides, outcome_of};
ghost use Rattle.recession.specs.Call.{ratio_outcome, ratio_leaves};
ghost use Rattle.recession.specs.Private.{day_causes, tally_causes};

mod limbs;
mod places;
mod tally;

use limbs::Limbs;
use places::{count_longer, list_limbs};
use series::{Refusal, refuse_if};
use tally::{Tally, at_rank, tally_limbs};

// The range of L, the fewest days of a limb that counts.
pub const LEAST_LIMB_DAYS: u32 = 2;

pub const MOST_LIMB_DAYS: u32 = 60;

// What an accepted call answers: the number of ratios, and their median in ten-thousandths. (A median of 0 or 10000 is no
// filter parameter.)
#[derive(Clone, Copy, Debug, PartialEq, Eq)]
pub struct Statistics {
    pub count: u32,
    pub median: u32,
}

// The checks before a limb is looked for: 18, 9, 14, 10.
#[tactic(auto, unfolding(crate::specs::Call::ratio_causes, series::specs::Lists::list_causes))]
fn check(shortest: u32, days: &[u32], base: &[u64]) -> Result<(), Refusal>
    ensures { Decides (day_causes shortest days.now base.now) result }
{
    refuse_if(
        !series::within(LEAST_LIMB_DAYS, MOST_LIMB_DAYS, shortest),
        Refusal::LimbDaysOutOfRange,
    )?;
    series::check_lists(days, base)
}

// The checks of the limbs that were found: 19, 22. (20 ends the walk that finds them.)
fn check_limbs(found: Tally, room: usize) -> Result<(), Refusal>
    requires { found.limbs ≤ day_limit }
    ensures { Decides (tally_causes found room) result }
{
    refuse_if(found.ratios == 0, Refusal::NoRatio)?;
    refuse_if(room < 2 * found.limbs, Refusal::LimbListTooShort)
}

// The number of recession ratios and their median, for limbs of at least `shortest` days (document 01: L). Only days at
// base, whose base value is 1000 × their flow, belong to limbs. The limb list gets, from its start, two numbers for each of
// these limbs: the position of its first day and its number of days. The longest limb comes first, and of limbs of one
// length the earlier. A refusal leaves the list as it was.
pub fn ratios(
    shortest: u32,
    days: &[u32],
    base: &[u64],
    limbs: &mut [u32],
) -> Result<Statistics, Refusal>
    ensures answer { outcome_of result ≡ ratio_outcome shortest days.now base.now limbs.old }
    ensures limb_list { limbs.new ≡ ratio_leaves shortest days.now base.now limbs.old }
{
    check(shortest, days, base)?;
    let counted = Limbs {
        // Kept: `as`, since std has no From between u32 and usize, and TryFrom would add an error that never comes.
        shortest: shortest as usize,
        days,
        base,
    };
    // Kept: arrays of fixed sizes, of which `firsts` is filled as far as limbs were found, since the engine has no heap.
    let mut counts = [0; 10001];
    let mut lengths = [0; 36526];
    let mut firsts = [0; 18263];
    let found = tally_limbs(&counted, &mut counts, &mut lengths, &mut firsts)?;
    check_limbs(found, limbs.len())?;
    count_longer(&mut lengths, found.longest);
    list_limbs(&counted, &firsts[..found.limbs], &mut lengths, &mut *limbs);
    // Kept: `as`, since a proof shows that the number fits, and TryFrom would add an error that never comes.
    let count = found.ratios as u32;
    let rank = (count + 1) / 2;
    let median = at_rank(&counts, count, rank);
    Ok(Statistics { count, median })
}
