// BFImax, the q of method 5, from a dry spell of the river itself (docs/RULES.md, "BFImax"): base flow by a filter that runs
// backwards from the spell's last day, and its share of the flow.
#![tactic(auto)]

ghost use Rattle.std.specs.Prelude.{◌≡◌, ◌*◌, ◌≤◌, ◌<◌, true, length, MatchOption, IfSome};
ghost use Rattle.numbers.specs.Arithmetic.{rounded};
ghost use Rattle.series.specs.Causes.{Decides, outcome_of};
ghost use Rattle.bfimax.specs.Rule.{flow_total, values, value_total};
ghost use Rattle.bfimax.specs.Call.{spell, no_spell, spell_of, bfimax_outcome, bfimax_leaves, Promised};
ghost use Rattle.bfimax.specs.Private.{SpellFrom, Flows, value_before, first_causes};

use series::{Refusal, refuse_if};

// The range of D, the days of a spell, and of p, in ten-thousandths.
pub const LEAST_DURATION: u32 = 2;

pub const MOST_DURATION: u32 = 3650;

pub const MOST_P: u32 = 9999;

// The place of the first of the D days that end on the last day. None is 24: the last day is not in the list, or one of the
// D days lies before the list or is missing.
#[tactic(auto, using(crate::proofs::Calls::before_list, crate::proofs::Calls::not_listed, crate::proofs::Calls::in_list))]
fn spell_start(last_day: u32, duration: u32, days: &[u32]) -> Option<usize>
    ensures { MatchOption result (no_spell last_day duration days.now ≡ true) (SpellFrom last_day duration days.now) }
{
    // Kept: `as`, here and in `bfimax`, since std has no From between u32 and usize, and TryFrom would add an error that never comes.
    let end = last_day as usize + 1;
    let start = end.checked_sub(duration as usize)?;
    let flows = days.get(start..end)?;
    if flows.contains(&series::MISSING) {
        None
    } else {
        Some(start)
    }
}

// Y, the flow total.
fn flow_total(flows: &[u32]) -> u64
    requires { Flows flows.now }
    ensures { result ≡ flow_total flows.now }
{
    flows.iter().map(|flow| u64::from(*flow)).sum()
}

// The value of a day of the spell, from that of the following day; the last day has none.
#[tactic(auto, unfolding(crate::specs::Private::value_before))]
fn day_value(p: u32, flow: u32, following: Option<u64>) -> u64
    requires { (0 < p) × (p ≤ 9999) × (flow ≤ 10000000) × IfSome following (λ v. v ≤ 10000000000) }
    ensures { (result ≡ value_before p flow following) × (result ≤ 10000000000) }
{
    let whole = 1000 * u64::from(flow);
    match following {
        Some(value) => whole.min(numbers::near_small(10_000 * value, u64::from(p))),
        None => whole,
    }
}

// The values of a spell, from its last day to its first, and their sum.
#[tactic(auto, using(crate::proofs::Spells::valued_start, crate::proofs::Spells::valued_done))]
fn backwards(p: u32, flows: &[u32], base: &mut [u64]) -> u64
    requires p_nonzero { (0 < p) × (p ≤ 9999) }
    requires flows_nonzero { (length flows.now ≡ length base.old) × Flows flows.now }
    ensures { (base.new ≡ values rounded p flows.now) × (result ≡ value_total rounded (values rounded p flows.now)) × (result ≤ 36500000000000) }
{
    let mut following = None;
    let mut sum = 0;
    // Kept: by index, since behind `iter_mut().rev()`, with `zip` or `enumerate` before it, a proof knows no element that was written.
    for day in (0..flows.len()).rev() {
        let value = day_value(p, flows[day], following);
        base[day] = value;
        following = Some(value);
        sum += value;
    }
    sum
}

// The checks before the spell is looked for: 12, 23, 9, 14, 10.
#[tactic(auto, unfolding(crate::specs::Call::bfimax_causes, series::specs::Lists::list_causes))]
fn check(duration: u32, p: u32, days: &[u32], base: &[u64]) -> Result<(), Refusal>
    ensures { Decides (first_causes duration p days.now base.now) result }
{
    refuse_if(!series::within(1, MOST_P, p), Refusal::ParameterOutOfRange)?;
    refuse_if(
        !series::within(LEAST_DURATION, MOST_DURATION, duration),
        Refusal::DurationOutOfRange,
    )?;
    series::check_lists(days, base)
}

// BFImax in ten-thousandths (0 and 10000 are no q of method 5), from the D days that end on the last day, whose place counts
// from 0. The base list gets the values of these days, and no value on any other. A refusal leaves it as it was.
#[tactic(auto, using(crate::proofs::Calls::passed_checks, crate::proofs::Calls::checks_answer, crate::proofs::Calls::list_kept, crate::proofs::Calls::no_spell_answer, crate::proofs::Calls::no_spell_list, crate::proofs::Calls::dry_answer, crate::proofs::Calls::dry_list))]
pub fn bfimax(
    last_day: u32,
    duration: u32,
    p: u32,
    days: &[u32],
    base: &mut [u64],
) -> Result<u32, Refusal>
    ensures answer { outcome_of result ≡ bfimax_outcome (spell_of last_day duration p) days.now base.old }
    ensures base_list { base.new ≡ bfimax_leaves (spell_of last_day duration p) days.now base.old }
    ensures error { Promised (outcome_of result) p (spell last_day duration days.now) }
{
    check(duration, p, days, base)?;
    let start = spell_start(last_day, duration, days).ok_or(Refusal::InvalidSpell)?;
    let end = start + duration as usize;
    let flows = &days[start..end];
    let total = flow_total(flows);
    refuse_if(total == 0, Refusal::NoFlow)?;
    base.fill(series::NO_VALUE);
    let sum = backwards(p, flows, &mut base[start..end]);
    // Kept: `as`, where a proof shows that BFImax fits; TryFrom would add an error that never comes.
    Ok(numbers::near_small(10 * sum, total) as u32)
}
