// The C interface (include/baseflow.h): each function makes one call, answers 0 or document 01's number of the refusal,
// and writes what the call gives through its out-parameters. On a refusal it writes to none of them. The crate baseflow_c
// exports them.
// Kept: a list, a setting and a result as numbers of their own, side by side, since C passes and takes them so; and a
// match for each call that has values, since its arm writes to out-parameters, which a closure could not do with as little text.
#![tactic(auto)]

mod over_bits;

ghost use Rattle.std.specs.Prelude.{◌≡◌, length};
ghost use Rattle.series.specs.Causes.{refusal_of, first_cause};
ghost use Rattle.record.specs.Call.{reading, reply_of, read_leaves};
ghost use Rattle.record.specs.Writing.{write_outcome, write_leaves};
ghost use Rattle.filter.specs.declared.start.Start.TheVariants.{Usual, Given};
ghost use Rattle.filter.specs.Call.{filter_causes, filter_leaves, step_rule};
ghost use Rattle.minima.specs.Call.{line_causes, line_leaves};
ghost use Rattle.staggered.specs.Call.{staggered_causes, base_leaves, work_leaves};
ghost use Rattle.totals.specs.Call.{totals_outcome};
ghost use Rattle.bfimax.specs.Call.{spell_of, bfimax_outcome, bfimax_leaves};
ghost use Rattle.recession.specs.Call.{ratio_outcome, ratio_leaves};
ghost use Rattle.half_life.specs.Call.{half_life_outcome};
ghost use Rattle.meter.specs.Call.{meter_outcome};
ghost use Rattle.licence.specs.Call.{licence_outcome, licence_leaves};
ghost use Rattle.baseflow.specs.Interface.{returned, returned_cause, handed_out, setting_of, line_setting_of, licence_of, state_of, state_numbers, value_out, state_out};

use filter::{DailyFilter, Setting, Start, Yesterday};
use licence::Licence;
use minima::LineSetting;
pub use over_bits::{
    baseflow_bfimax_bits, baseflow_filter_bits, baseflow_filter_from_bits, baseflow_from_bits,
    baseflow_line_bits, baseflow_recession_bits, baseflow_staggered_bits, baseflow_to_bits,
    baseflow_totals_bits,
};
use series::Refusal;

// 0 for an accepted call, else the number of its refusal.
// Kept: written out, since C's 0 for an accepted call is no number of a refusal, and no conversion of `Result` has it.
fn number(answer: Result<(), Refusal>) -> u32
    ensures { result ≡ returned_cause (refusal_of answer) }
{
    match answer {
        Ok(()) => 0,
        Err(refusal) => refusal.number(),
    }
}

// Reads a record into a day list.
pub fn baseflow_read(
    bytes: &[u8],
    days: &mut [u32],
    first_day: &mut u32,
    day_count: &mut u32,
) -> u32
    ensures value { result ≡ returned (reply_of (reading (length days.old) bytes.now)) }
    ensures days_after { days.new ≡ read_leaves (reading (length days.old) bytes.now) days.old }
    ensures first_day_after { first_day.new ≡ handed_out (λ s. s.first_day) (reply_of (reading (length days.old) bytes.now)) first_day.old }
    ensures day_count_after { day_count.new ≡ handed_out (λ s. s.day_count) (reply_of (reading (length days.old) bytes.now)) day_count.old }
{
    match record::read(bytes, days) {
        Ok(stated) => {
            *first_day = stated.first_day;
            *day_count = stated.day_count;
            0
        }
        Err(refusal) => refusal.number(),
    }
}

// Writes the record of a first day and a day list.
pub fn baseflow_write(first_day: u32, days: &[u32], bytes: &mut [u8], record_len: &mut u32) -> u32
    ensures value { result ≡ returned (write_outcome first_day days.now bytes.old) }
    ensures bytes_after { bytes.new ≡ write_leaves first_day days.now bytes.old }
    ensures record_len_after { record_len.new ≡ handed_out (λ n. n) (write_outcome first_day days.now bytes.old) record_len.old }
{
    match record::write(first_day, days, bytes) {
        Ok(length) => {
            *record_len = length;
            0
        }
        Err(refusal) => refusal.number(),
    }
}

// Base flow of a day list by a filter, after 1 to 3 passes.
pub fn baseflow_filter(
    method: u32,
    p: u32,
    q: u32,
    s: i32,
    passes: u32,
    days: &[u32],
    base: &mut [u64],
) -> u32
    ensures value { result ≡ returned_cause (first_cause (filter_causes (setting_of method p q s) passes Usual days.now base.old)) }
    ensures base_after { base.new ≡ filter_leaves (setting_of method p q s) passes Usual days.now base.old }
{
    let setting = Setting { method, p, q, s };
    number(filter::filter(setting, passes, Start::Usual, days, base))
}

// The same, from a start that is given for the first segment.
pub fn baseflow_filter_from(
    method: u32,
    p: u32,
    q: u32,
    s: i32,
    passes: u32,
    start: u64,
    days: &[u32],
    base: &mut [u64],
) -> u32
    ensures value { result ≡ returned_cause (first_cause (filter_causes (setting_of method p q s) passes (Given start) days.now base.old)) }
    ensures base_after { base.new ≡ filter_leaves (setting_of method p q s) passes (Given start) days.now base.old }
{
    let setting = Setting { method, p, q, s };
    number(filter::filter(setting, passes, Start::Given(start), days, base))
}

// Base flow of a day list by the minima line.
pub fn baseflow_line(block_days: u32, factor: u32, days: &[u32], base: &mut [u64]) -> u32
    ensures value { result ≡ returned_cause (first_cause (line_causes (line_setting_of block_days factor) days.now base.old)) }
    ensures base_after { base.new ≡ line_leaves (line_setting_of block_days factor) days.now base.old }
{
    let setting = LineSetting { block_days, factor };
    number(minima::line(setting, days, base))
}

// The lowest, the highest or the median of the minima lines of all shifts of the blocks.
pub fn baseflow_staggered(
    block_days: u32,
    factor: u32,
    choice: u32,
    days: &[u32],
    base: &mut [u64],
    work: &mut [u64],
) -> u32
    ensures value { result ≡ returned_cause (first_cause (staggered_causes (line_setting_of block_days factor) choice days.now base.old work.old)) }
    ensures base_after { base.new ≡ base_leaves (line_setting_of block_days factor) choice days.now base.old work.old }
    ensures work_after { work.new ≡ work_leaves (line_setting_of block_days factor) choice days.now base.old work.old }
{
    let setting = LineSetting { block_days, factor };
    number(staggered::staggered(setting, choice, days, base, work))
}

// Totals and index of a day list and its base list.
pub fn baseflow_totals(
    days: &[u32],
    base: &[u64],
    base_days: &mut u32,
    flow_total: &mut u64,
    base_total: &mut u64,
    quick_total: &mut u64,
    index: &mut u32,
) -> u32
    ensures value { result ≡ returned (totals_outcome days.now base.now) }
    ensures base_days_after { base_days.new ≡ handed_out (λ t. t.days) (totals_outcome days.now base.now) base_days.old }
    ensures flow_total_after { flow_total.new ≡ handed_out (λ t. t.flow) (totals_outcome days.now base.now) flow_total.old }
    ensures base_total_after { base_total.new ≡ handed_out (λ t. t.base) (totals_outcome days.now base.now) base_total.old }
    ensures quick_total_after { quick_total.new ≡ handed_out (λ t. t.quick) (totals_outcome days.now base.now) quick_total.old }
    ensures index_after { index.new ≡ handed_out (λ t. t.index) (totals_outcome days.now base.now) index.old }
{
    match totals::total(days, base) {
        Ok(t) => {
            *base_days = t.days;
            *flow_total = t.flow;
            *base_total = t.base;
            *quick_total = t.quick;
            *index = t.index;
            0
        }
        Err(refusal) => refusal.number(),
    }
}

// BFImax of the D days that end on the last day.
pub fn baseflow_bfimax(
    last_day: u32,
    duration: u32,
    p: u32,
    days: &[u32],
    base: &mut [u64],
    bfimax: &mut u32,
) -> u32
    ensures value { result ≡ returned (bfimax_outcome (spell_of last_day duration p) days.now base.old) }
    ensures base_after { base.new ≡ bfimax_leaves (spell_of last_day duration p) days.now base.old }
    ensures bfimax_after { bfimax.new ≡ handed_out (λ q. q) (bfimax_outcome (spell_of last_day duration p) days.now base.old) bfimax.old }
{
    match bfimax::bfimax(last_day, duration, p, days, base) {
        Ok(found) => {
            *bfimax = found;
            0
        }
        Err(refusal) => refusal.number(),
    }
}

// Recession ratios of the days at base, with every counted limb listed, the longest first.
pub fn baseflow_recession(
    limb_days: u32,
    days: &[u32],
    base: &[u64],
    limbs: &mut [u32],
    ratio_count: &mut u32,
    ratio: &mut u32,
) -> u32
    ensures value { result ≡ returned (ratio_outcome limb_days days.now base.now limbs.old) }
    ensures limbs_after { limbs.new ≡ ratio_leaves limb_days days.now base.now limbs.old }
    ensures ratio_count_after { ratio_count.new ≡ handed_out (λ s. s.count) (ratio_outcome limb_days days.now base.now limbs.old) ratio_count.old }
    ensures ratio_after { ratio.new ≡ handed_out (λ s. s.median) (ratio_outcome limb_days days.now base.now limbs.old) ratio.old }
{
    match recession::ratios(limb_days, days, base, limbs) {
        Ok(ratios) => {
            *ratio_count = ratios.count;
            *ratio = ratios.median;
            0
        }
        Err(refusal) => refusal.number(),
    }
}

// Days until half is left, for p in thousandths.
pub fn baseflow_half_life(p: u32, days: &mut u32) -> u32
    ensures value { result ≡ returned (half_life_outcome p) }
    ensures days_after { days.new ≡ handed_out (λ n. n) (half_life_outcome p) days.old }
{
    match half_life::half_life(p) {
        Ok(n) => {
            *days = n;
            0
        }
        Err(refusal) => refusal.number(),
    }
}

// The day that a meter's bytes say.
pub fn baseflow_meter(bytes: &[u8], day: &mut u32) -> u32
    ensures value { result ≡ returned (meter_outcome bytes.now) }
    ensures day_after { day.new ≡ handed_out (λ n. n) (meter_outcome bytes.now) day.old }
{
    match meter::meter(bytes) {
        Ok(said) => {
            *day = said;
            0
        }
        Err(refusal) => refusal.number(),
    }
}

// What a pump takes of a river under a licence, and the quota that it leaves.
pub fn baseflow_licence(
    daily_limit: u32,
    quota: u64,
    days: &[u32],
    base: &[u64],
    takings: &mut [u32],
    quota_left: &mut u64,
) -> u32
    ensures value { result ≡ returned (licence_outcome (licence_of daily_limit quota) days.now base.now takings.old) }
    ensures takings_after { takings.new ≡ licence_leaves (licence_of daily_limit quota) days.now base.now takings.old }
    ensures quota_left_after { quota_left.new ≡ handed_out (λ n. n) (licence_outcome (licence_of daily_limit quota) days.now base.now takings.old) quota_left.old }
{
    let licence = Licence { daily_limit, quota };
    match licence::replay(licence, days, base, takings) {
        Ok(left) => {
            *quota_left = left;
            0
        }
        Err(refusal) => refusal.number(),
    }
}

// The daily step's state in three numbers, which C takes and is handed.
#[derive(Clone, Copy)]
struct StateNumbers {
    // Kept: a flag beside flow and base, as the C interface has it.
    has: u32,
    flow: u32,
    base: u64,
}

impl From<StateNumbers> for DailyFilter {
    ghost from_gives = { λ n state. state ≡ state_of n.has n.flow n.base };

    #[tactic(auto, unfolding(crate::specs::Interface::state_of))]
    fn from(numbers: StateNumbers) -> Self {
        let StateNumbers { has, flow, base } = numbers;
        DailyFilter {
            yesterday: (has != 0).then_some(Yesterday { flow, base }),
        }
    }
}

impl From<DailyFilter> for StateNumbers {
    ghost from_gives = { λ state n. n ≡ state_numbers state.yesterday };

    fn from(state: DailyFilter) -> Self {
        match state.yesterday {
            None => StateNumbers {
                has: 0,
                flow: 0,
                base: 0,
            },
            Some(Yesterday { flow, base }) => StateNumbers { has: 1, flow, base },
        }
    }
}

// The base value of one day more, with the state that goes from day to day.
pub fn baseflow_step(
    method: u32,
    p: u32,
    q: u32,
    s: i32,
    day: u32,
    has_yesterday: &mut u32,
    flow: &mut u32,
    base: &mut u64,
    value: &mut u64,
) -> u32
    ensures value { result ≡ returned (step_rule (setting_of method p q s) (state_of has_yesterday.old flow.old base.old) day).outcome }
    ensures has_yesterday_after { has_yesterday.new ≡ state_out (λ n. n.has) (step_rule (setting_of method p q s) (state_of has_yesterday.old flow.old base.old) day) has_yesterday.old }
    ensures flow_after { flow.new ≡ state_out (λ n. n.flow) (step_rule (setting_of method p q s) (state_of has_yesterday.old flow.old base.old) day) flow.old }
    ensures base_after { base.new ≡ state_out (λ n. n.base) (step_rule (setting_of method p q s) (state_of has_yesterday.old flow.old base.old) day) base.old }
    ensures value_after { value.new ≡ value_out (step_rule (setting_of method p q s) (state_of has_yesterday.old flow.old base.old) day) value.old }
{
    let state = DailyFilter::from(StateNumbers {
        has: *has_yesterday,
        flow: *flow,
        base: *base,
    });
    let setting = Setting { method, p, q, s };
    match state.step(setting, day) {
        Ok(next) => {
            let numbers = StateNumbers::from(next.state);
            *has_yesterday = numbers.has;
            *flow = numbers.flow;
            *base = numbers.base;
            *value = next.base;
            0
        }
        Err(refused) => refused.refusal.number(),
    }
}
