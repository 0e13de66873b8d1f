// A flow meter's reading as a day (docs/RULES.md, "Meter"): the litre nearest to the float that the meter sends, at a half
// the even one, or a missing day.
#![tactic(auto)]

mod bits;

ghost use Rattle.std.specs.Prelude.{◌≡◌, ◌<◌, ◌≤◌};
ghost use Rattle.series.specs.Causes.{outcome_of};
ghost use Rattle.meter.specs.Call.{reading_outcome, meter_outcome};
ghost use Rattle.meter.specs.Private.{float_outcome, body_outcome};

use series::{Refusal, refuse_if};

// How many litres a second each unit has.
const CUBIC_METRE: u32 = 1000;

const LITRE: u32 = 1;

// The unit of a float by its kind. (A table, so that no branch hangs on the unit of a reading: 1.3 to 1.9 times the C's time.)
const UNITS: [u32; 3] = [0, CUBIC_METRE, LITRE];

// What a meter says: a flow in one of two units, or nothing.
#[derive(Clone, Copy, Debug, PartialEq)]
pub enum Reading {
    CubicMetres(f32),
    Litres(f32),
    NoReading,
}

// The day of a float in units of so many litres a second. (Of a NaN no bits may be read.)
#[tactic(auto, using(crate::proofs::Floats::own_bits, crate::proofs::Floats::no_number), unfolding(crate::specs::Private::float_outcome))]
fn day_of_float(flow: f32, unit: u32) -> Result<u32, Refusal>
    requires { (0 < unit) × (unit ≤ 1000) }
    ensures { outcome_of result ≡ float_outcome unit flow }
{
    refuse_if(flow.is_nan(), Refusal::InvalidReading)?;
    bits::day(flow.to_bits(), unit)
}

impl Reading {
    // The day that a reading says, as a day list has it.
    #[tactic(auto, unfolding(crate::specs::Call::reading_outcome, crate::specs::Rule::reading_causes, crate::specs::Rule::day_said, crate::specs::Private::float_outcome))]
    pub fn day(self) -> Result<u32, Refusal>
        ensures answer { outcome_of result ≡ reading_outcome self }
    {
        match self {
            Reading::CubicMetres(flow) => day_of_float(flow, CUBIC_METRE),
            Reading::Litres(flow) => day_of_float(flow, LITRE),
            Reading::NoReading => Ok(series::MISSING),
        }
    }
}

// The day of a body that has to be a float, in units of so many litres a second.
#[tactic(auto, using(crate::proofs::Floats::whole), unfolding(crate::specs::Private::body_outcome))]
fn day_of_body(body: &[u8], unit: u32) -> Result<u32, Refusal>
    requires { (0 < unit) × (unit ≤ 1000) }
    ensures { outcome_of result ≡ body_outcome unit body.now }
{
    let (number, behind) = body.split_first_chunk::<4>().ok_or(Refusal::Truncated)?;
    refuse_if(!behind.is_empty(), Refusal::BytesAfterEnd)?;
    bits::day(u32::from_le_bytes(*number), unit)
}

// The day that a meter's bytes say, as a day list has it.
#[tactic(auto, unfolding(crate::specs::Private::body_outcome, crate::specs::Call::meter_outcome, crate::specs::Call::meter_causes, crate::specs::Call::reading_in, crate::specs::Rule::reading_causes, crate::specs::Rule::day_said, series::specs::Units::within))]
pub fn meter(bytes: &[u8]) -> Result<u32, Refusal>
    ensures answer { outcome_of result ≡ meter_outcome bytes.now }
{
    let (kind, body) = bytes.split_first().ok_or(Refusal::Truncated)?;
    match kind {
        1 | 2 => day_of_body(body, UNITS[usize::from(*kind)]),
        3 => {
            refuse_if(!body.is_empty(), Refusal::BytesAfterEnd)?;
            Ok(series::MISSING)
        }
        _ => Err(Refusal::UnknownKind),
    }
}
