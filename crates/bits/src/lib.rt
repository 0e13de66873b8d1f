// The calls over the second form of days (docs/RULES.md, "Presence"): each is the call over the days that a form stands for, laid
// out in a list of its own.
#![tactic(auto)]

mod form;

ghost use Rattle.std.specs.Prelude.{◌≡◌};
ghost use Rattle.series.specs.Causes.{refusal_of, outcome_of, first_cause};
ghost use Rattle.staggered.specs.Call.{Promised as StaggeredPromised};
ghost use Rattle.bfimax.specs.Call.{spell, spell_of, Promised as BfimaxPromised};
ghost use Rattle.presence.specs.Form.{days_of};
ghost use Rattle.bits.specs.Calls.{filter_bits_causes, filter_bits_leaves, line_bits_causes, line_bits_leaves, staggered_bits_causes, base_bits_leaves, work_bits_leaves, totals_bits_outcome, ratio_bits_outcome, ratio_bits_leaves, bfimax_bits_outcome, bfimax_bits_leaves};

use filter::{Setting, Start};
use form::over_form;
use minima::LineSetting;
use recession::Statistics;
use series::Refusal;
use totals::Totals;

// Base flow by a filter, over flows and presence words.
pub fn filter(
    setting: Setting,
    passes: u32,
    start: Start,
    flows: &[u32],
    words: &[u64],
    base: &mut [u64],
) -> Result<(), Refusal>
    ensures refusal { refusal_of result ≡ first_cause (filter_bits_causes setting passes start flows.now words.now base.old) }
    ensures base_list { base.new ≡ filter_bits_leaves setting passes start flows.now words.now base.old }
{
    over_form(
        flows,
        words,
        base,
        &mut [(); 0],
        |days, base, _| filter::filter(setting, passes, start, days, base),
    )
}

// Base flow by the minima line.
pub fn line(
    setting: LineSetting,
    flows: &[u32],
    words: &[u64],
    base: &mut [u64],
) -> Result<(), Refusal>
    ensures refusal { refusal_of result ≡ first_cause (line_bits_causes setting flows.now words.now base.old) }
    ensures base_list { base.new ≡ line_bits_leaves setting flows.now words.now base.old }
{
    over_form(
        flows,
        words,
        base,
        &mut [(); 0],
        |days, base, _| minima::line(setting, days, base),
    )
}

// Base flow by staggered blocks.
pub fn staggered(
    setting: LineSetting,
    choice: u32,
    flows: &[u32],
    words: &[u64],
    base: &mut [u64],
    work: &mut [u64],
) -> Result<(), Refusal>
    ensures refusal { refusal_of result ≡ first_cause (staggered_bits_causes setting choice flows.now words.now base.old work.old) }
    ensures base_list { base.new ≡ base_bits_leaves setting choice flows.now words.now base.old work.old }
    ensures work_list { work.new ≡ work_bits_leaves setting choice flows.now words.now base.old work.old }
    ensures error { StaggeredPromised (refusal_of result) setting choice (days_of flows.now words.now) }
{
    over_form(
        flows,
        words,
        base,
        work,
        |days, base, work| staggered::staggered(setting, choice, days, base, work),
    )
}

// Totals over the days with a base value, and the base flow index.
pub fn totals(flows: &[u32], words: &[u64], base: &[u64]) -> Result<Totals, Refusal>
    ensures answer { outcome_of result ≡ totals_bits_outcome flows.now words.now base.now }
{
    over_form(
        flows,
        words,
        &mut [],
        &mut [(); 0],
        |days, _, _| totals::total(days, base),
    )
}

// Recession ratios, with every counted limb listed.
pub fn ratios(
    shortest: u32,
    flows: &[u32],
    words: &[u64],
    base: &[u64],
    limbs: &mut [u32],
) -> Result<Statistics, Refusal>
    ensures answer { outcome_of result ≡ ratio_bits_outcome shortest flows.now words.now base.now limbs.old }
    ensures limb_list { limbs.new ≡ ratio_bits_leaves shortest flows.now words.now base.now limbs.old }
{
    over_form(
        flows,
        words,
        &mut [],
        limbs,
        |days, _, limbs| recession::ratios(shortest, days, base, limbs),
    )
}

// BFImax from a dry spell of the river itself.
pub fn bfimax(
    last_day: u32,
    duration: u32,
    p: u32,
    flows: &[u32],
    words: &[u64],
    base: &mut [u64],
) -> Result<u32, Refusal>
    ensures answer { outcome_of result ≡ bfimax_bits_outcome (spell_of last_day duration p) flows.now words.now base.old }
    ensures base_list { base.new ≡ bfimax_bits_leaves (spell_of last_day duration p) flows.now words.now base.old }
    ensures error { BfimaxPromised (outcome_of result) p (spell last_day duration (days_of flows.now words.now)) }
{
    over_form(
        flows,
        words,
        base,
        &mut [(); 0],
        |days, base, _| bfimax::bfimax(last_day, duration, p, days, base),
    )
}
