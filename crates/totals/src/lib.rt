// Totals over the days with a base value, and the base flow index (document 01, "Totals and index").
#![tactic(auto)]

mod tally;

ghost use Rattle.std.specs.Prelude.{◌≡◌, ◌≤◌, length};
ghost use Rattle.series.specs.Units.{day_limit};
ghost use Rattle.series.specs.Causes.{outcome_of};
ghost use Rattle.totals.specs.Call.{totals_outcome};
ghost use Rattle.totals.specs.Private.{FoundIn};

use series::Refusal;
use tally::Tally;

// The totals over the days with a base value.
#[derive(Clone, Copy, Debug, PartialEq, Eq)]
pub struct Totals {
    // m: how many these days are
    pub days: u32,
    // Y: their flows, in litres a second
    pub flow: u64,
    // T: their base values, in thousandths of that
    pub base: u64,
    // 1000 × Y - T
    pub quick: u64,
    // near(10 × T / Y), in ten-thousandths
    pub index: u32,
}

// Number of days with a base value, flow, base and quick total, and the index, of a day list and its base list.
#[tactic(auto, using(crate::proofs::Outcomes::short, crate::proofs::Outcomes::lists_refuse, crate::proofs::Outcomes::found_invalid, crate::proofs::Outcomes::found_dry, crate::proofs::Outcomes::found_flow))]
pub fn total(days: &[u32], base: &[u64]) -> Result<Totals, Refusal>
    ensures { outcome_of result ≡ totals_outcome days.now base.now }
{
    series::check_lists(days, base)?;
    let tally = sums(days, base)?;
    series::refuse_if(tally.flow == 0, Refusal::NoFlow)?;
    Ok(tally.totals())
}

// The sums over two lists, or that a base value is invalid.
fn sums(days: &[u32], base: &[u64]) -> Result<Tally, Refusal>
    requires { length days.now ≤ day_limit }
    ensures { FoundIn days.now base.now result }
{
    let mut tally = Tally::NONE;
    let mut invalid = false;
    for (day, base) in days.iter().zip(base) {
        invalid |= series::is_invalid_base(*day, *base);
        tally = tally.with_day(*day, *base);
    }
    series::refuse_if(invalid, Refusal::InvalidBase)?;
    Ok(tally)
}
