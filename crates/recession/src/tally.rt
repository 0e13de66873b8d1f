// What the limbs that count come to: how many, how long, and the histogram of their ratios.
ghost use Rattle.std.specs.Prelude.{◌≡◌, ℕ, ◌+◌, ◌<◌, ◌≤◌, ◌^◌, get_or, sum};
ghost use Rattle.recession.specs.Ratios.{ratio, pair_ratios};
ghost use Rattle.recession.specs.Private.{Falling, how_many, Added, Walks, AtRank};

use crate::limbs::Limbs;
use series::Refusal;

// The ratio of two neighbouring days of a limb, in ten-thousandths.
fn ratio(earlier: u32, later: u32) -> u64
    requires { later < earlier }
    ensures { result ≡ ratio earlier later }
{
    numbers::near_small(10_000 * u64::from(later), u64::from(earlier))
}

// Counts the ratios of one limb, each at its value.
fn tally_pairs(limb: &[u32], counts: &mut [u16; 10001])
    requires falling { Falling limb.now }
    requires by_index { (v : ℕ) → get_or counts.old v 0 + how_many v (pair_ratios limb.now) < 2 ^ 16 }
    ensures { Added (pair_ratios limb.now) counts.old counts.new }
{
    for pair in limb.windows(2) {
        // Kept: `as`, here and below, where a proof shows that the number fits; TryFrom would add an error that never comes.
        let r = ratio(pair[0], pair[1]) as usize;
        counts[r] += 1;
    }
}

// How many limbs count, how many ratios they have, and the most days that one of them has.
#[derive(Clone, Copy)]
pub(crate) struct Tally {
    pub(crate) limbs: usize,
    pub(crate) ratios: usize,
    pub(crate) longest: usize,
}

// Counts the limbs, each also at its number of days, and their ratios, each also at its value; and notes where each limb
// starts. (A limb has at least 2 days.) Refused where a day is invalid.
pub(crate) fn tally_limbs(
    limbs: &Limbs,
    counts: &mut [u16; 10001],
    lengths: &mut [u16; 36526],
    firsts: &mut [u16; 18263],
) -> Result<Tally, Refusal>
    requires counts_zero { (v : ℕ) → get_or counts.old v 0 ≡ 0 }
    requires lengths_zero { (v : ℕ) → get_or lengths.old v 0 ≡ 0 }
    ensures { Walks limbs.now result counts.old counts.new lengths.old lengths.new firsts.new }
{
    let mut found = Tally {
        limbs: 0,
        ratios: 0,
        longest: 0,
    };
    let mut at = 0;
    // Kept: an iterator of limbs would have `at` for a field and results for items, and is no plainer than this `?`.
    while let Some(limb) = limbs.next_limb(at)? {
        let size = limb.end - limb.first;
        tally_pairs(&limbs.days[limb.first..limb.end], &mut *counts);
        lengths[size] += 1;
        firsts[found.limbs] = limb.first as u16;
        found = Tally {
            limbs: found.limbs + 1,
            ratios: found.ratios + (size - 1),
            longest: found.longest.max(size),
        };
        at = limb.end;
    }
    Ok(found)
}

// The value of a rank, counted from 1, among the `count` ratios of a histogram: found by cumulative counts, from the
// largest value down, since a recession's ratios lie close to it.
pub(crate) fn at_rank(counts: &[u16; 10001], count: u32, rank: u32) -> u32
    requires { (0 < rank) × (rank ≤ count) × (count ≡ sum counts.now) }
    ensures { AtRank counts.now rank result }
{
    let above = count - rank;
    let mut reached = 0;
    for (v, here) in counts.iter().enumerate().skip(1).rev() {
        reached += u32::from(*here);
        if above < reached {
            return v as u32;
        }
    }
    0 // no ratio of the rank stands above
}
