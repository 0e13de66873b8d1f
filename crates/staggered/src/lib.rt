// Base flow by staggered blocks (docs/RULES.md, "Staggered blocks"): the minima lines of all shifts of the blocks, and the
// lowest, the highest or the middle one of their values on each day.
#![tactic(auto)]

mod day;

ghost use Rattle.std.specs.Prelude.{◌≡◌, map, length, IfOk};
ghost use Rattle.series.specs.Units.{day_of};
ghost use Rattle.series.specs.Causes.{refusal_of, first_cause};
ghost use Rattle.staggered.specs.Call.{work_differs, no_lines, staggered_causes, work_list, base_leaves, work_leaves, Promised};
ghost use Rattle.staggered.specs.Private.{ReadsChoice, number_of, chosen_from, Sized, first_causes};

use day::DayValues;
use minima::LineSetting;
use series::{Refusal, refuse_if};

// Which of a day's values is chosen.
#[derive(Clone, Copy, Debug, PartialEq, Eq)]
enum Choice {
    Lowest = 1,
    Highest = 2,
    Median = 3,
}

impl TryFrom<u32> for Choice {
    type Error = Refusal;

    ghost try_from_gives = { ReadsChoice };

    #[tactic(auto, using(std::proofs::lemmas::Bool::Decides::nat_tests), unfolding(series::specs::Units::within))]
    fn try_from(number: u32) -> Result<Self, Refusal> {
        match number {
            1 => Ok(Choice::Lowest),
            2 => Ok(Choice::Highest),
            3 => Ok(Choice::Median),
            _ => Err(Refusal::LineSettingOutOfRange),
        }
    }
}

// The lines of a day list, one for each shift of the blocks.
#[derive(Clone, Copy)]
struct Shifts<'a> {
    setting: LineSetting,
    days: &'a [u32],
}

impl Shifts<'_> {
    // 25: the work list is not N × the day list long. (A product that does not fit is no list's length.)
    fn work_differs(&self, work: &[u64]) -> bool
        ensures { result ≡ work_differs self.now.setting self.now.days.now work.now }
    {
        // Kept: `as`, here and below, since std has no From between u32 and usize, and TryFrom would add an error that never comes.
        (self.setting.block_days as usize).checked_mul(self.days.len()) != Some(work.len())
    }

    // The checks before a line is looked for: 16, 9, 14, 25, 10; and the choice by its number.
    #[tactic(auto, unfolding(crate::specs::Call::staggered_causes, crate::specs::Call::bad_setting))]
    fn check(&self, choice: u32, base: &[u64], work: &[u64]) -> Result<Choice, Refusal>
        ensures refusal { refusal_of result ≡ first_cause (first_causes self.now.setting choice self.now.days.now base.now work.now) }
        ensures choice { IfOk result (λ c. choice ≡ number_of c) }
    {
        refuse_if(
            minima::out_of_range(self.setting),
            Refusal::LineSettingOutOfRange,
        )?;
        let choice = Choice::try_from(choice)?;
        // Kept: not series::check_lists, since 25 stands between 14 and 10.
        refuse_if(series::too_long(self.days), Refusal::DayListTooLong)?;
        refuse_if(
            series::lengths_differ(self.days, base),
            Refusal::LengthsDiffer,
        )?;
        refuse_if(self.work_differs(work), Refusal::WorkListLength)?;
        refuse_if(series::any_invalid_day(self.days), Refusal::InvalidDay)?;
        Ok(choice)
    }

    // 17: no shift has a line.
    fn no_lines(&self) -> bool
        ensures { result ≡ no_lines self.now.setting (map day_of self.now.days.now) }
    {
        let has_none = |o| minima::no_shifted_line(self.setting, o, self.days);
        (0..self.setting.block_days as usize).all(has_none)
    }

    // Draws the lines, one behind the other.
    fn draw(&self, work: &mut [u64])
        requires { Sized work.old self.now.setting.block_days (length self.now.days.now) }
        ensures { work.new ≡ work_list self.now.setting self.now.days.now }
    {
        // Kept: slices by their place, since behind `chunks_exact_mut` a proof knows nothing of what was written.
        for o in 0..self.setting.block_days as usize {
            let start = o * self.days.len();
            let line = &mut work[start..start + self.days.len()];
            minima::shifted_line(self.setting, o, self.days, line);
        }
    }
}

// The chosen value of each day.
fn choose(choice: Choice, work: &[u64], base: &mut [u64])
    ensures { base.new ≡ chosen_from choice work.now (length base.old) }
{
    let days = base.len();
    for (t, value) in base.iter_mut().enumerate() {
        *value = DayValues::new(work, days, t).chosen(choice);
    }
}

// The staggered line of a day list, by a choice: 1 the lowest, 2 the highest, 3 the middle one of the values that the lines
// have on a day. The base list gets the chosen values, and the work list the N lines, in the order of their shift. A refusal
// leaves both as they were.
// Kept: the choice by its number, as C passes it: the call itself refuses what is no such number (16).
pub fn staggered(
    setting: LineSetting,
    choice: u32,
    days: &[u32],
    base: &mut [u64],
    work: &mut [u64],
) -> Result<(), Refusal>
    ensures refusal { refusal_of result ≡ first_cause (staggered_causes setting choice days.now base.old work.old) }
    ensures base_list { base.new ≡ base_leaves setting choice days.now base.old work.old }
    ensures work_list { work.new ≡ work_leaves setting choice days.now base.old work.old }
    ensures error { Promised (refusal_of result) setting choice days.now }
{
    let shifts = Shifts { setting, days };
    let choice = shifts.check(choice, base, work)?;
    refuse_if(shifts.no_lines(), Refusal::NoLine)?;
    shifts.draw(&mut *work);
    choose(choice, work, base);
    Ok(())
}
