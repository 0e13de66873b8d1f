// From the bytes of a record to its base flow, totals and index, over lists that the caller lends: one run of the calls,
// one after the other, which carries document 01's demand 3 as a promise.
#![tactic(auto)]

ghost use Rattle.std.specs.Prelude.{◌≡◌, length};
ghost use Rattle.series.specs.Causes.{refusal_of, first_cause, leaves};
ghost use Rattle.accuracy.specs.Choosing.{chosen_causes, base_list};
ghost use Rattle.accuracy.specs.Call.{base_flow_over, base_flow_leaves, run, base_flow_of, run_of};
ghost use Rattle.accuracy.specs.Claim.{Demand3};

use filter::{Setting, Start};
use minima::LineSetting;
use record::Reply;
use series::Refusal;
use totals::Totals;

// How base flow is to be found.
#[derive(Clone, Copy, Debug, PartialEq, Eq)]
pub enum Choice {
    Filter {
        setting: Setting,
        passes: u32,
        start: Start,
    },
    Line(LineSetting),
}

// What a run comes to where reading accepts. The day list then holds the days that were read, whatever base flow comes to:
// a refusal, which leaves the base list as it was, or what the totals over it come to.
#[derive(Clone, Copy, Debug, PartialEq, Eq)]
pub struct Separation {
    pub first_day: u32,
    pub day_count: u32,
    pub base_flow: Result<Result<Totals, Refusal>, Refusal>,
}

// Reads a record into the day list, finds its base flow into the front of the base list, and its totals. Where reading
// refuses, both lists are as they were.
pub fn separate(
    bytes: &[u8],
    choice: Choice,
    days: &mut [u32],
    base: &mut [u64],
) -> Result<Separation, Refusal>
    ensures equals { run_of result days.new base.new ≡ run bytes.now choice days.old base.old }
    ensures demand_3 { Demand3 (length days.old) bytes.now choice base.old (run_of result days.new base.new) }
{
    let Reply {
        first_day,
        day_count,
    } = record::read(bytes, days)?;
    // Kept: `as`, since std has no From between u32 and usize, and TryFrom would add an error that never comes.
    let n = day_count as usize;
    let base_flow = over_days(choice, &days[..n], base);
    Ok(Separation {
        first_day,
        day_count,
        base_flow,
    })
}

// Base flow and totals over the days that were read.
fn over_days(
    choice: Choice,
    days: &[u32],
    base: &mut [u64],
) -> Result<Result<Totals, Refusal>, Refusal>
    ensures result_value { base_flow_of result ≡ base_flow_over choice days.now base.old }
    ensures base_after { base.new ≡ base_flow_leaves choice days.now base.old }
{
    let n = days.len().min(base.len());
    base_flow(choice, days, &mut base[..n])?;
    Ok(totals::total(days, &base[..n]))
}

// The chosen call.
fn base_flow(choice: Choice, days: &[u32], base: &mut [u64]) -> Result<(), Refusal>
    ensures result_value { refusal_of result ≡ first_cause (chosen_causes choice days.now base.old) }
    ensures base_after { base.new ≡ leaves (chosen_causes choice days.now base.old) (base_list choice days.now) base.old }
{
    match choice {
        Choice::Filter {
            setting,
            passes,
            start,
        } => filter::filter(setting, passes, start, days, base),
        Choice::Line(setting) => minima::line(setting, days, base),
    }
}
