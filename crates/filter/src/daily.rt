// The daily step: pass 1 for one day, with the state that goes from day to day.
ghost use Rattle.std.specs.Prelude.{◌≡◌, false, ◌≤◌, ◌*◌, IfOk};
ghost use Rattle.series.specs.Units.{is_invalid_day};
ghost use Rattle.series.specs.Causes.{first_cause, refusal_of};
ghost use Rattle.filter.specs.Daily.{fresh, after, invalid_yesterday, day_base};
ghost use Rattle.filter.specs.Call.{step_causes, step_rule, outcome_of};
ghost use Rattle.filter.specs.Private.{SmallBase, day_state, day_mark};

use crate::usable::Filter;
use crate::{Advanced, DailyFilter, Refused, Setting, Yesterday};
use series::{Refusal, refuse_if};

impl Yesterday {
    // 15: its flow is over the limit, or its base over 1000 × the flow.
    #[tactic(auto, unfolding(crate::specs::Daily::invalid_yesterday))]
    fn is_invalid(self) -> bool
        ensures { result ≡ invalid_yesterday (Some self) }
    {
        DailyFilter::FLOW_LIMIT < self.flow || 1000 * u64::from(self.flow) < self.base
    }
}

impl DailyFilter {
    // The most days of a list, and the largest flow in litres a second.
    pub const DAY_LIMIT: usize = series::DAY_LIMIT;

    pub const FLOW_LIMIT: u32 = series::FLOW_LIMIT;

    // The state without yesterday.
    pub fn fresh() -> Self
        ensures { result ≡ fresh }
    {
        DailyFilter { yesterday: None }
    }

    // The state after a day of this flow and base.
    pub(crate) fn after(flow: u32, base: u64) -> Self
        ensures { result ≡ after flow base }
    {
        DailyFilter {
            yesterday: Some(Yesterday { flow, base }),
        }
    }

    // The day's base value by the setting's filter, from the state that the day before left.
    pub fn step(self, setting: Setting, day: u32) -> Result<Advanced, Refused>
        ensures { outcome_of result ≡ step_rule setting self day }
    {
        // Kept: a match, since the refusal takes the state with it: `map_err` with a closure is as long.
        match self.check(setting, day) {
            Ok(filter) => Ok(filter.advance(self, day)),
            Err(refusal) => Err(Refused {
                refusal,
                state: self,
            }),
        }
    }

    // 15: its yesterday is invalid.
    #[tactic(auto, unfolding(crate::specs::Daily::invalid_yesterday))]
    fn is_invalid(self) -> bool
        ensures { result ≡ invalid_yesterday self.yesterday }
    {
        self.yesterday.is_some_and(|day| day.is_invalid())
    }

    // The filter of a step, unless one of its causes of refusal holds; the causes in their order.
    #[tactic(auto, unfolding(crate::specs::Call::step_causes))]
    fn check(self, setting: Setting, day: u32) -> Result<Filter, Refusal>
        ensures refusal { refusal_of result ≡ first_cause (step_causes setting self day) }
        ensures of_setting { IfOk result (λ f. f.setting ≡ setting) }
    {
        let filter = Filter::new(setting)?;
        refuse_if(self.is_invalid(), Refusal::InvalidState)?;
        refuse_if(series::is_invalid_day(day), Refusal::InvalidDay)?;
        Ok(filter)
    }
}

impl Filter {
    // The step over input that has passed its checks: what pass 1 does with each day.
    // Inlined, and `present` with it, so that in both callers the compiler knows which way the filter divides: no day tests it.
    #[inline(always)]
    pub(crate) fn advance(self, state: DailyFilter, day: u32) -> Advanced
        requires { (invalid_yesterday state.yesterday ≡ false) × (is_invalid_day day ≡ false) }
        ensures state_value { (result.state ≡ day_state self.setting state day) × (result.base ≡ day_mark self.setting state day) }
        ensures next_yesterday { (invalid_yesterday result.state.yesterday ≡ false) × SmallBase result.base }
    {
        if day == series::MISSING {
            return Advanced {
                state: DailyFilter::fresh(),
                base: series::NO_VALUE,
            };
        }
        let base = self.present(state.yesterday, day);
        Advanced {
            state: DailyFilter::after(day, base),
            base,
        }
    }

    // The base value of a day that is not missing: a segment's first, or one behind a yesterday.
    #[inline(always)]
    fn present(self, yesterday: Option<Yesterday>, flow: u32) -> u64
        requires valid { invalid_yesterday yesterday ≡ false }
        requires small { flow ≤ 10000000 }
        ensures value { result ≡ day_base self.setting yesterday flow }
        ensures below { result ≤ 1000 * flow }
    {
        let flow = u64::from(flow);
        match yesterday {
            None => self.first_day(flow),
            Some(day) => self.smoothed(day.base, 1000 * flow, 1000 * u64::from(day.flow)),
        }
    }
}
