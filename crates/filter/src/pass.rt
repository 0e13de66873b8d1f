// The passes over whole lists: pass 1 from the day list into the base list, passes 2 and 3 in place.
ghost use Rattle.std.specs.Prelude.{◌≡◌, false, ◌≤◌, length, map};
ghost use Rattle.series.specs.Units.{day_of};
ghost use Rattle.series.specs.Lists.{any_invalid_day};
ghost use Rattle.filter.specs.Methods.{weights, invalid_passes, start_too_high};
ghost use Rattle.filter.specs.Daily.{invalid_yesterday};
ghost use Rattle.filter.specs.Call.{filtered_list};
ghost use Rattle.filter.specs.Private.{Small, SmallBase, SmallList, SmallPrevious, steps_run, Begins, output, pass_state, pass_mark, forward_run, backward_run};

use crate::usable::Filter;
use crate::{DailyFilter, Start};

// The day that a pass looked at last: its u and its f.
#[derive(Clone, Copy)]
pub(crate) struct Previous {
    input: u64,
    output: u64,
}

// Where the steps of pass 1 begin, and from which state.
#[derive(Clone, Copy)]
struct Begun {
    day: usize,
    state: DailyFilter,
}

// A day's f, and what the next day sees of it: nothing before a segment's first day.
#[derive(Clone, Copy)]
struct Passed {
    previous: Option<Previous>,
    base: u64,
}

// Kept: that the values of a list are small is a clause of its passes; a type of small numbers would be taken apart at each use.
impl Filter {
    // The passes of an accepted call.
    pub(crate) fn run(self, passes: u32, start: Start, days: &[u32], base: &mut [u64])
        requires passes_value { invalid_passes self.setting passes ≡ false }
        requires days_value { (any_invalid_day days.now ≡ false) × (length days.now ≡ length base.old) }
        requires start_value { start_too_high start (map day_of days.now) ≡ false }
        ensures { base.new ≡ filtered_list self.setting passes start days.now }
    {
        self.first_pass(start, days, base);
        // Kept: passes are a number, of which each needs the one before; an enum of three would be read back as that number.
        if passes == 1 {
            return;
        }
        self.backward_pass(base);
        if passes == 2 {
            return;
        }
        self.forward_pass(base);
    }

    // Pass 1: a daily step on each day; a start that is given stands for the step on the first present day.
    fn first_pass(self, start: Start, days: &[u32], base: &mut [u64])
        requires days_value { (any_invalid_day days.now ≡ false) × (length days.now ≡ length base.old) }
        requires start_value { start_too_high start (map day_of days.now) ≡ false }
        ensures { base.new ≡ filtered_list self.setting 1 start days.now }
    {
        let begun = self.begin(start, days, base);
        self.steps(begun.state, &days[begun.day..], &mut base[begun.day..]);
    }

    // Up to a start that is given, which is written, the missing days before it with it; else nothing is done.
    fn begin(self, start: Start, days: &[u32], base: &mut [u64]) -> Begun
        requires days_value { (any_invalid_day days.now ≡ false) × (length days.now ≡ length base.old) }
        requires start_value { start_too_high start (map day_of days.now) ≡ false }
        ensures { Begins self.setting start days.now result base.new }
    {
        let first = series::leading_gap(days);
        match start {
            Start::Given(value) if first < days.len() => {
                base[..first].fill(series::NO_VALUE);
                base[first] = value;
                Begun {
                    day: first + 1,
                    state: DailyFilter::after(days[first], value),
                }
            }
            _ => Begun {
                day: 0,
                state: DailyFilter::fresh(),
            },
        }
    }

    // A daily step on each day, from a state.
    fn steps(self, state: DailyFilter, days: &[u32], base: &mut [u64])
        requires days_value { (any_invalid_day days.now ≡ false) × (length days.now ≡ length base.old) }
        requires state_value { invalid_yesterday state.yesterday ≡ false }
        ensures { base.new ≡ steps_run self.setting state days.now }
    {
        let filter = self.for_many_days();
        let mut state = state;
        // Kept: days by their index, since behind a zip of iter_mut a proof knows no value that was written.
        for (t, value) in base.iter_mut().enumerate() {
            let next = filter.advance(state, days[t]);
            *value = next.base;
            state = next.state;
        }
    }

    // Pass 2: from the last day to the first.
    fn backward_pass(self, base: &mut [u64])
        requires { SmallList base.old }
        ensures { (base.new ≡ backward_run (weights self.setting) base.old) × SmallList base.new }
    {
        base.reverse();
        self.forward_pass(base);
        base.reverse();
    }

    // Pass 3: from the first day to the last.
    fn forward_pass(self, base: &mut [u64])
        requires { SmallList base.old }
        ensures { (base.new ≡ forward_run (weights self.setting) base.old) × SmallList base.new }
    {
        let filter = self.for_many_days();
        let mut previous = None;
        for value in base.iter_mut() {
            let passed = filter.pass_day(previous, *value);
            *value = passed.base;
            previous = passed.previous;
        }
    }

    // One day of pass 2 or 3, whose u is `base`.
    // Kept: a pass beside the daily step, for the walk, for its day and for what it hands on: the step takes litres, starts by
    // its method's rule and is C's, with C's state; a pass takes thousandths and starts with u.
    fn pass_day(self, previous: Option<Previous>, base: u64) -> Passed
        requires { SmallPrevious previous × SmallBase base }
        ensures previous_value { (result.previous ≡ pass_state (weights self.setting) previous base) × (result.base ≡ pass_mark (weights self.setting) previous base) }
        ensures small_previous { SmallPrevious result.previous × SmallBase result.base }
    {
        if base == series::NO_VALUE {
            return Passed {
                previous: None,
                base,
            };
        }
        let f = self.present_day(previous, base);
        let day = Previous {
            input: base,
            output: f,
        };
        Passed {
            previous: Some(day),
            base: f,
        }
    }

    // f on a present day of input u.
    fn present_day(self, previous: Option<Previous>, u: u64) -> u64
        requires { SmallPrevious previous × Small u }
        ensures { (result ≡ output (weights self.setting) previous u) × (result ≤ u) }
    {
        match previous {
            None => u,
            Some(day) => self.smoothed(day.output, u, day.input),
        }
    }
}
