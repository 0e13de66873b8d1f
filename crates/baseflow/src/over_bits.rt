// The calls over flows and presence words.
ghost use Rattle.std.specs.Prelude.{◌≡◌};
ghost use Rattle.series.specs.Causes.{first_cause};
ghost use Rattle.bfimax.specs.Call.{spell_of};
ghost use Rattle.filter.specs.declared.start.Start.TheVariants.{Usual, Given};
ghost use Rattle.presence.specs.Call.{to_bits_outcome, flows_left, words_left, from_bits_outcome, days_left};
ghost use Rattle.bits.specs.Calls.{filter_bits_causes, filter_bits_leaves, line_bits_causes, line_bits_leaves, staggered_bits_causes, base_bits_leaves, work_bits_leaves, totals_bits_outcome, ratio_bits_outcome, ratio_bits_leaves, bfimax_bits_outcome, bfimax_bits_leaves};
ghost use Rattle.baseflow.specs.Interface.{returned, returned_cause, handed_out, setting_of, line_setting_of};

use crate::number;
use filter::{Setting, Start};
use minima::LineSetting;

// The flows and presence words of a day list.
pub fn baseflow_to_bits(
    days: &[u32],
    flows: &mut [u32],
    words: &mut [u64],
    present: &mut u32,
) -> u32
    ensures value { result ≡ returned (to_bits_outcome days.now flows.old words.old) }
    ensures flows_after { flows.new ≡ flows_left days.now flows.old words.old }
    ensures words_after { words.new ≡ words_left days.now flows.old words.old }
    ensures present_after { present.new ≡ handed_out (λ n. n) (to_bits_outcome days.now flows.old words.old) present.old }
{
    match presence::to_bits(days, flows, words) {
        Ok(count) => {
            *present = count;
            0
        }
        Err(refusal) => refusal.number(),
    }
}

// The day list of flows and presence words.
pub fn baseflow_from_bits(flows: &[u32], words: &[u64], days: &mut [u32], present: &mut u32) -> u32
    ensures value { result ≡ returned (from_bits_outcome flows.now words.now days.old) }
    ensures days_after { days.new ≡ days_left flows.now words.now days.old }
    ensures present_after { present.new ≡ handed_out (λ n. n) (from_bits_outcome flows.now words.now days.old) present.old }
{
    match presence::from_bits(flows, words, days) {
        Ok(count) => {
            *present = count;
            0
        }
        Err(refusal) => refusal.number(),
    }
}

// Base flow by a filter, after 1 to 3 passes, over flows and presence words.
pub fn baseflow_filter_bits(
    method: u32,
    p: u32,
    q: u32,
    s: i32,
    passes: u32,
    flows: &[u32],
    words: &[u64],
    base: &mut [u64],
) -> u32
    ensures value { result ≡ returned_cause (first_cause (filter_bits_causes (setting_of method p q s) passes Usual flows.now words.now base.old)) }
    ensures base_after { base.new ≡ filter_bits_leaves (setting_of method p q s) passes Usual flows.now words.now base.old }
{
    let setting = Setting { method, p, q, s };
    number(bits::filter(setting, passes, Start::Usual, flows, words, base))
}

// The same, from a start that is given for the first segment.
pub fn baseflow_filter_from_bits(
    method: u32,
    p: u32,
    q: u32,
    s: i32,
    passes: u32,
    start: u64,
    flows: &[u32],
    words: &[u64],
    base: &mut [u64],
) -> u32
    ensures value { result ≡ returned_cause (first_cause (filter_bits_causes (setting_of method p q s) passes (Given start) flows.now words.now base.old)) }
    ensures base_after { base.new ≡ filter_bits_leaves (setting_of method p q s) passes (Given start) flows.now words.now base.old }
{
    let setting = Setting { method, p, q, s };
    number(bits::filter(setting, passes, Start::Given(start), flows, words, base))
}

// Base flow by the minima line, over flows and presence words.
pub fn baseflow_line_bits(
    block_days: u32,
    factor: u32,
    flows: &[u32],
    words: &[u64],
    base: &mut [u64],
) -> u32
    ensures value { result ≡ returned_cause (first_cause (line_bits_causes (line_setting_of block_days factor) flows.now words.now base.old)) }
    ensures base_after { base.new ≡ line_bits_leaves (line_setting_of block_days factor) flows.now words.now base.old }
{
    let setting = LineSetting { block_days, factor };
    number(bits::line(setting, flows, words, base))
}

// The lowest, the highest or the median of the minima lines of all shifts, over flows and presence words.
pub fn baseflow_staggered_bits(
    block_days: u32,
    factor: u32,
    choice: u32,
    flows: &[u32],
    words: &[u64],
    base: &mut [u64],
    work: &mut [u64],
) -> u32
    ensures value { result ≡ returned_cause (first_cause (staggered_bits_causes (line_setting_of block_days factor) choice flows.now words.now base.old work.old)) }
    ensures base_after { base.new ≡ base_bits_leaves (line_setting_of block_days factor) choice flows.now words.now base.old work.old }
    ensures work_after { work.new ≡ work_bits_leaves (line_setting_of block_days factor) choice flows.now words.now base.old work.old }
{
    let setting = LineSetting { block_days, factor };
    number(bits::staggered(setting, choice, flows, words, base, work))
}

// Totals and index of a base list, over flows and presence words.
pub fn baseflow_totals_bits(
    flows: &[u32],
    words: &[u64],
    base: &[u64],
    base_days: &mut u32,
    flow_total: &mut u64,
    base_total: &mut u64,
    quick_total: &mut u64,
    index: &mut u32,
) -> u32
    ensures value { result ≡ returned (totals_bits_outcome flows.now words.now base.now) }
    ensures base_days_after { base_days.new ≡ handed_out (λ t. t.days) (totals_bits_outcome flows.now words.now base.now) base_days.old }
    ensures flow_total_after { flow_total.new ≡ handed_out (λ t. t.flow) (totals_bits_outcome flows.now words.now base.now) flow_total.old }
    ensures base_total_after { base_total.new ≡ handed_out (λ t. t.base) (totals_bits_outcome flows.now words.now base.now) base_total.old }
    ensures quick_total_after { quick_total.new ≡ handed_out (λ t. t.quick) (totals_bits_outcome flows.now words.now base.now) quick_total.old }
    ensures index_after { index.new ≡ handed_out (λ t. t.index) (totals_bits_outcome flows.now words.now base.now) index.old }
{
    match bits::totals(flows, words, base) {
        Ok(t) => {
            *base_days = t.days;
            *flow_total = t.flow;
            *base_total = t.base;
            *quick_total = t.quick;
            *index = t.index;
            0
        }
        Err(refusal) => refusal.number(),
    }
}

// BFImax of the D days that end on the last day, over flows and presence words.
pub fn baseflow_bfimax_bits(
    last_day: u32,
    duration: u32,
    p: u32,
    flows: &[u32],
    words: &[u64],
    base: &mut [u64],
    bfimax: &mut u32,
) -> u32
    ensures value { result ≡ returned (bfimax_bits_outcome (spell_of last_day duration p) flows.now words.now base.old) }
    ensures base_after { base.new ≡ bfimax_bits_leaves (spell_of last_day duration p) flows.now words.now base.old }
    ensures bfimax_after { bfimax.new ≡ handed_out (λ q. q) (bfimax_bits_outcome (spell_of last_day duration p) flows.now words.now base.old) bfimax.old }
{
    match bits::bfimax(last_day, duration, p, flows, words, base) {
        Ok(found) => {
            *bfimax = found;
            0
        }
        Err(refusal) => refusal.number(),
    }
}

// Recession ratios of the days at base, over flows and presence words.
pub fn baseflow_recession_bits(
    limb_days: u32,
    flows: &[u32],
    words: &[u64],
    base: &[u64],
    limbs: &mut [u32],
    ratio_count: &mut u32,
    ratio: &mut u32,
) -> u32
    ensures value { result ≡ returned (ratio_bits_outcome limb_days flows.now words.now base.now limbs.old) }
    ensures limbs_after { limbs.new ≡ ratio_bits_leaves limb_days flows.now words.now base.now limbs.old }
    ensures ratio_count_after { ratio_count.new ≡ handed_out (λ s. s.count) (ratio_bits_outcome limb_days flows.now words.now base.now limbs.old) ratio_count.old }
    ensures ratio_after { ratio.new ≡ handed_out (λ s. s.median) (ratio_bits_outcome limb_days flows.now words.now base.now limbs.old) ratio.old }
{
    match bits::ratios(limb_days, flows, words, base, limbs) {
        Ok(ratios) => {
            *ratio_count = ratios.count;
            *ratio = ratios.median;
            0
        }
        Err(refusal) => refusal.number(),
    }
}
