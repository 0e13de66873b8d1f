// Takings under a licence (docs/RULES.md, "Licence"): a day list and its base list replayed day by day against a daily limit
// and a quota.
#![tactic(auto)]

ghost use Rattle.std.specs.Prelude.{◌≡◌, false, IfOk};
ghost use Rattle.series.specs.Units.{day_of, base_of};
ghost use Rattle.series.specs.Lists.{is_invalid_base};
ghost use Rattle.series.specs.Causes.{outcome_of, Decides};
ghost use Rattle.licence.specs.Rule.{taking};
ghost use Rattle.licence.specs.Call.{out_of_range, licence_causes, licence_outcome, licence_leaves, listed_takings, listed_left};
ghost use Rattle.licence.specs.Kept.{Kept};
ghost use Rattle.licence.specs.Private.{Ready};

use series::{Refusal, refuse_if};

// The largest daily limit, in litres a second.
pub const LIMIT_MOST: u32 = 10_000_000;
// The largest quota, in litres a second, summed over days.
pub const QUOTA_MOST: u64 = 1_000_000_000_000;

// A licence: the daily limit M, and the quota Q, which is summed over days; both in litres a second.
#[derive(Clone, Copy, Debug, PartialEq, Eq)]
pub struct Licence {
    pub daily_limit: u32,
    pub quota: u64,
}

// 31: M or Q is too large.
#[tactic(auto, unfolding(crate::specs::Call::out_of_range))]
fn out_of_range(licence: Licence) -> bool
    ensures { result ≡ out_of_range licence }
{
    LIMIT_MOST < licence.daily_limit || QUOTA_MOST < licence.quota
}

// The causes of refusal, in the call's order.
#[tactic(auto, unfolding(crate::specs::Call::licence_causes, series::specs::Lists::lengths_differ))]
fn check(licence: Licence, days: &[u32], base: &[u64], takings: &[u32]) -> Result<(), Refusal>
    ensures { Decides (licence_causes licence days.now base.now takings.now) result }
{
    let differ = series::lengths_differ(days, base) || days.len() != takings.len();
    refuse_if(out_of_range(licence), Refusal::LicenceOutOfRange)?;
    refuse_if(series::too_long(days), Refusal::DayListTooLong)?;
    refuse_if(differ, Refusal::LengthsDiffer)?;
    refuse_if(series::any_invalid_day(days), Refusal::InvalidDay)?;
    refuse_if(series::any_invalid_base(days, base), Refusal::InvalidBase)
}

// What a day takes, of the quota left. (The mark of no value is above 1000 × any flow, so nothing is spare there: no branch.)
#[tactic(auto, using(crate::proofs::Days::taken))]
fn taking(daily_limit: u32, left: u64, day: u32, base: u64) -> u32
    requires { is_invalid_base (day_of day) (base_of base) ≡ false }
    ensures { result ≡ taking daily_limit left (day_of day) (base_of base) }
{
    let spare = (1000 * u64::from(day)).saturating_sub(base) / 1000;
    // Kept: the quota left and M first, since behind `spare` the loop gets a branch, and takes up to twice as long; and
    // `as`, where a proof shows that the taking fits.
    left.min(u64::from(daily_limit)).min(spare) as u32
}

// The takings of all days; gives the quota left.
#[tactic(auto, using(crate::proofs::Days::within_left, crate::proofs::Lists::valid_at, crate::proofs::Loops::left_start, crate::proofs::Loops::left_turn, crate::proofs::Loops::left_end, crate::proofs::Loops::takings_start, crate::proofs::Loops::takings_turn, crate::proofs::Loops::takings_end))]
fn put_takings(licence: Licence, days: &[u32], base: &[u64], takings: &mut [u32]) -> u64
    requires { Ready days.now base.now takings.old }
    ensures left { result ≡ listed_left licence days.now base.now }
    ensures list { takings.new ≡ listed_takings licence days.now base.now }
{
    let mut left = licence.quota;
    // Kept: days by their index, since behind a zip of iter_mut a proof knows no value that was written.
    for (t, place) in takings.iter_mut().enumerate() {
        let taken = taking(licence.daily_limit, left, days[t], base[t]);
        *place = taken;
        left -= u64::from(taken);
    }
    left
}

// Replays a day list and its base list against a licence, into a takings list of the same length. Answers the quota left.
#[tactic(auto, using(crate::proofs::Calls::replay_ready, crate::proofs::Calls::replay_refuses, crate::proofs::Calls::takings_stay, crate::proofs::Calls::replay_answers, crate::proofs::Calls::takings_put))]
pub fn replay(
    licence: Licence,
    days: &[u32],
    base: &[u64],
    takings: &mut [u32],
) -> Result<u64, Refusal>
    ensures answer { outcome_of result ≡ licence_outcome licence days.now base.now takings.old }
    ensures taking_list { takings.new ≡ licence_leaves licence days.now base.now takings.old }
    ensures promises { IfOk result (λ left. Kept licence days.now base.now takings.new left) }
{
    check(licence, days, base, takings)?;
    Ok(put_takings(licence, days, base, takings))
}
