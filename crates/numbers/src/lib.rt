// Rounding to the nearest whole number, document 01's near.
#![tactic(auto)]

mod divisor;

ghost use Rattle.std.specs.Prelude.{◌≡◌, ℕ, ◌+◌, ◌-◌, ◌/◌, ◌%◌, ◌≤◌, ◌<◌};
ghost use Rattle.numbers.specs.Near.{near};

pub use divisor::Divisor;

// near(a / b), for any a and b. As near's definition has it, a quotient by zero is 0.
pub fn near(a: u64, b: u64) -> u64
    ensures { result ≡ near a b }
{
    if b == 0 {
        return 0;
    }
    let q = a / b;
    let r = a % b;
    if b - r < r + q % 2 { q + 1 } else { q }
}

// near(a / b) from h, which is a with half of b added (or what a loss leaves of the two, where a is what it leaves of a).
pub fn near_halved(h: u64, b: u64) -> u64
    requires { 0 < b }
    ensures { (a loss : ℕ) → h ≡ a + b / 2 - loss → result ≡ near (a - loss) b }
{
    near_of_parts(h / b, h % b, b)
}

// near_halved from the parts of h / b: the whole part, and where nothing is left over and b is even, the even one of it and the
// one below. The compiler does not know the divisor 2 - b % 2, so it leaves that division, which is rare, behind a branch: no
// day waits for it.
fn near_of_parts(whole: u64, rest: u64, b: u64) -> u64
    requires { 0 < b }
    ensures { (h a loss : ℕ) → whole ≡ h / b → rest ≡ h % b → h ≡ a + b / 2 - loss → result ≡ near (a - loss) b }
{
    if rest < whole % 2 {
        // Kept: `as`, since std has no From between u64 and u32, and TryFrom would add an error that never comes. (32 bits hold
        // what is left of a division by 4, and make the shorter division.)
        let last_bits = (whole % 4) as u32;
        whole - u64::from(last_bits % ((2 - b % 2) as u32))
    } else {
        whole
    }
}

// near(a / b), where b is above 0 and its half can be added to a.
pub fn near_small(a: u64, b: u64) -> u64
    requires { (0 < b) × (a + b ≤ 18446744073709551615) }
    ensures { result ≡ near a b }
{
    near_halved(a + b / 2, b)
}

// What is left of two gains, and 0 where the loss is larger.
pub fn balance(last: u64, first: u64, loss: u64) -> u64
    requires { last + first ≤ 18446744073709551615 }
    ensures { result ≡ last + first - loss }
{
    (last + first).saturating_sub(loss)
}
