// Base flow by seven recursive filters (document 01, "Filters"): the filter call over a day list, with up to three
// passes, and the daily step.
#![tactic(auto)]

mod daily;
mod method;
mod pass;
mod start;
mod usable;

ghost use Rattle.std.specs.Prelude.{◌≡◌, IfOk};
ghost use Rattle.series.specs.Causes.{refusal_of, first_cause};
ghost use Rattle.filter.specs.Call.{filter_causes, filter_leaves};

use series::{Refusal, refuse_if};
pub use start::Start;
use usable::Filter;

// A filter's setting: the method's number and its parameters in ten-thousandths; q and s are 0 where the method has none.
// Kept: the method by its number, and 0 for a parameter that it has not, as C passes them and document 01 has them: the call
// itself refuses what is no such number (11, 12).
#[derive(Clone, Copy, Debug, PartialEq, Eq)]
pub struct Setting {
    pub method: u32,
    pub p: u32,
    pub q: u32,
    pub s: i32,
}

// A day behind the daily filter: its flow in litres a second and its base in thousandths.
#[derive(Clone, Copy, Debug, PartialEq, Eq)]
pub struct Yesterday {
    pub flow: u32,
    pub base: u64,
}

// The state of the daily step: the day before, where it is known.
#[derive(Clone, Copy, Debug, PartialEq, Eq)]
pub struct DailyFilter {
    pub yesterday: Option<Yesterday>,
}

// A day's base value, series::NO_VALUE on a missing day, and the state after it.
#[derive(Clone, Copy, Debug, PartialEq, Eq)]
pub struct Advanced {
    pub state: DailyFilter,
    pub base: u64,
}

// Why a step refused, and the state that was given.
#[derive(Clone, Copy, Debug, PartialEq, Eq)]
pub struct Refused {
    pub refusal: Refusal,
    pub state: DailyFilter,
}

// Base flow of a day list by a setting's filter, after 1 to 3 passes, into a base list of the same length.
pub fn filter(
    setting: Setting,
    passes: u32,
    start: Start,
    days: &[u32],
    base: &mut [u64],
) -> Result<(), Refusal>
    ensures result_value { refusal_of result ≡ first_cause (filter_causes setting passes start days.now base.old) }
    ensures base_after { base.new ≡ filter_leaves setting passes start days.now base.old }
{
    let filter = check(setting, passes, start, days, base)?;
    filter.run(passes, start, days, base);
    Ok(())
}

// The filter of a call, unless one of its causes of refusal holds; the causes in their order.
#[tactic(auto, unfolding(crate::specs::Call::filter_causes, series::specs::Lists::too_long))]
fn check(
    setting: Setting,
    passes: u32,
    start: Start,
    days: &[u32],
    base: &[u64],
) -> Result<Filter, Refusal>
    ensures refusal { refusal_of result ≡ first_cause (filter_causes setting passes start days.now base.now) }
    ensures of_setting { IfOk result (λ f. f.setting ≡ setting) }
{
    let filter = Filter::new(setting)?;
    refuse_if(filter.refuses_passes(passes), Refusal::InvalidPasses)?;
    // Kept: not series::check_lists, since 9 is tested with the daily filter's own limit (a rule of the project).
    refuse_if(DailyFilter::DAY_LIMIT < days.len(), Refusal::DayListTooLong)?;
    refuse_if(series::lengths_differ(days, base), Refusal::LengthsDiffer)?;
    refuse_if(series::any_invalid_day(days), Refusal::InvalidDay)?;
    refuse_if(start.is_too_high(days), Refusal::StartTooHigh)?;
    Ok(filter)
}
