// A float's bits as a day: they are taken apart, and its exact value is rounded, by whole numbers.
ghost use Rattle.std.specs.Prelude.{ℕ, ◌≡◌, ◌*◌, ◌^◌, ◌<◌, ◌≤◌};
ghost use Rattle.std.specs.Float.Ieee.{binary32, of_bits};
ghost use Rattle.numbers.specs.Near.{near};
ghost use Rattle.series.specs.Causes.{outcome_of};
ghost use Rattle.meter.specs.Bits.{exponent, significand, upper, lower};
ghost use Rattle.meter.specs.Private.{float_outcome};

use series::{FLOW_LIMIT, Refusal, refuse_if};

// The weight of the exponent.
const EXPONENT: u32 = 0x0080_0000;

// The bits of 2^24, which is too large in either unit; of infinity; and of -0, above which everything is below zero.
const FAR: u32 = 0x4b80_0000;

const INFINITY: u32 = 0x7f80_0000;

const MINUS_ZERO: u32 = 0x8000_0000;

// The eight bits below the sign, which is none.
fn exponent(bits: u32) -> u32
    requires { bits < 1266679808 }
    ensures { result ≡ exponent bits }
{
    bits / EXPONENT
}

// The fraction with a one before it, which a subnormal number does not have.
fn significand(bits: u32) -> u32
    requires { bits < 1266679808 }
    ensures { result ≡ significand bits }
{
    let fraction = bits % EXPONENT;
    if exponent(bits) == 0 {
        fraction
    } else {
        EXPONENT + fraction
    }
}

// The nearest litre in units of so many litres a second, of a value below 2^24 units.
#[tactic(auto, using(crate::proofs::Values::shifted))]
fn nearest_litre(bits: u32, unit: u32) -> u64
    requires { (unit ≤ 1000) × (bits < 1266679808) }
    ensures { result ≡ near (unit * upper bits) lower }
{
    // a shift by more than 40 leaves less than a half, as one by 40 does; so an exponent of 0 need not count as 1
    let below = 1u64 << (150 - exponent(bits)).min(40);
    numbers::near(u64::from(unit) * u64::from(significand(bits)), below)
}

// The day of a float of these bits, in units of so many litres a second.
#[tactic(auto, using(crate::proofs::Values::refused_from_infinity, crate::proofs::Values::zero_with_a_sign, crate::proofs::Values::far_too_large, crate::proofs::Values::decided))]
pub(crate) fn day(bits: u32, unit: u32) -> Result<u32, Refusal>
    requires { (0 < unit) × (unit ≤ 1000) }
    ensures { outcome_of result ≡ float_outcome unit (of_bits binary32 bits) }
{
    if FAR <= bits {
        refuse_if(bits < INFINITY, Refusal::ReadingTooLarge)?;
        refuse_if(bits != MINUS_ZERO, Refusal::InvalidReading)?;
        return Ok(0);
    }
    let litres = nearest_litre(bits, unit);
    refuse_if(u64::from(FLOW_LIMIT) < litres, Refusal::ReadingTooLarge)?;
    Ok(litres as u32)
}
