// Days until half is left (docs/RULES.md, "Half-life"): a river that keeps p thousandths of its flow from each day to the
// next has, after so many days, at most half of it.
#![tactic(auto)]

mod table;

ghost use Rattle.std.specs.Prelude.{◌≡◌, ◌≤◌};
ghost use Rattle.half_life.specs.Rule.{half_life};
ghost use Rattle.series.specs.Causes.{outcome_of};
ghost use Rattle.half_life.specs.Call.{half_life_outcome, Promised};
ghost use Rattle.half_life.specs.Private.{Right};

use series::{Refusal, refuse_if};

// The range of p, in thousandths.
pub const LEAST_P: u32 = 1;

pub const MOST_P: u32 = 999;

// What a table that is right has for p.
#[tactic(auto, using(crate::proofs::Halving::entry_found, crate::proofs::Sentences::no_other))]
fn entry(table: &[u16; 999], p: u32) -> u32
    requires right { Right table.now }
    requires le_p { (1 ≤ p) × (p ≤ 999) }
    ensures { result ≡ half_life p }
{
    // Kept: `as`, since std has no From between u32 and usize, and TryFrom would add an error that never comes.
    u32::from(table[(p - 1) as usize])
}

// The days until half is left, for p in thousandths.
#[tactic(auto, using(crate::proofs::Calls::refuses_outside, crate::proofs::Calls::accepts_inside, crate::proofs::Calls::least, series::proofs::Views::not_outside))]
pub fn half_life(p: u32) -> Result<u32, Refusal>
    ensures answer { outcome_of result ≡ half_life_outcome p }
    ensures least { Promised (half_life_outcome p) p }
{
    refuse_if(
        !series::within(LEAST_P, MOST_P, p),
        Refusal::ParameterOutOfRange,
    )?;
    Ok(entry(&table::HALF_LIVES, p))
}
