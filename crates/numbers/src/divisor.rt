// Division of many numbers by one.
ghost use Rattle.std.specs.Prelude.{◌≡◌, ℕ, ◌+◌, ◌-◌, ◌/◌, ◌%◌, ◌<◌};
ghost use Rattle.numbers.specs.Near.{near};

// A number that many are divided by, with its reciprocal in 64 bits. Making it costs a division; each quotient is then two
// products and a test, where a division takes many processors some 40 cycles. For a single quotient it is a loss.
#[derive(Clone, Copy)]
pub struct Divisor {
    pub by: u64,
    reciprocal: u64,
    ghost above_zero: { 0 < by },
    ghost reciprocal_is: { reciprocal ≡ 18446744073709551615 / by },
}

// The whole part of a quotient, and what is left over.
#[derive(Clone, Copy)]
struct Divided {
    quotient: u64,
    remainder: u64,
}

impl Divisor {
    pub fn new(by: u64) -> Self
        requires { 0 < by }
        ensures { result.by ≡ by }
    {
        Divisor {
            by,
            reciprocal: u64::MAX / by,
        }
    }

    // The parts of h / by: the product with the reciprocal is the quotient, or one less.
    fn divide(self, h: u64) -> Divided
        ensures { (result.quotient ≡ h / self.by) × (result.remainder ≡ h % self.by) }
    {
        // Kept: `as`, since std has no From between u128 and u64, and TryFrom would add an error that never comes.
        let quotient = ((u128::from(h) * u128::from(self.reciprocal)) >> 64) as u64;
        let remainder = h - quotient * self.by;
        if remainder < self.by {
            Divided {
                quotient,
                remainder,
            }
        } else {
            Divided {
                quotient: quotient + 1,
                remainder: remainder - self.by,
            }
        }
    }

    // crate::near_halved, with this divisor for b.
    pub fn near_halved(self, h: u64) -> u64
        ensures { (a loss : ℕ) → h ≡ a + self.by / 2 - loss → result ≡ near (a - loss) self.by }
    {
        let parts = self.divide(h);
        crate::near_of_parts(parts.quotient, parts.remainder, self.by)
    }
}
