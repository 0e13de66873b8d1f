// What the calls give, as text: check sums and selected days.
ghost use Rattle.std.specs.Prelude.{◌<◌};

use filter::{Setting, Start};
use series::Refusal;
use std::io;

const MODULUS: u64 = 1_000_000_007;

// A check sum with one number more.
pub fn mixed(sum: u64, n: u64) -> u64
    ensures { result < 1000000007 }
{
    ((sum % MODULUS) * 31 + n % MODULUS + 1) % MODULUS
}

// The check sum of a list of flows, of base values or of bytes.
fn check_sum<T: Copy + Into<u64>>(list: &[T]) -> u64 {
    let mut sum = 0;
    for n in list {
        sum = mixed(sum, (*n).into());
    }
    sum
}

// The end of a line with a base list: its check sum, and its values on the first, the middle and the last day.
pub fn base_list(rt: &impl Print, base: &[u64]) -> io::Result<()> {
    print!(rt; ", base {}", check_sum(base))?;
    if let (Some(first), Some(last)) = (base.first(), base.last()) {
        print!(rt; " {first} {} {last}", base[base.len() / 2])?;
    }
    println!(rt;)
}

// The end of a line with a list of days or of limbs: its check sum.
pub fn list(rt: &impl Print, name: &str, list: &[u32]) -> io::Result<()> {
    println!(rt; ", {name} {}", check_sum(list))
}

// The end of a line with an output of bytes: its check sum.
pub fn bytes(rt: &impl Print, bytes: &[u8]) -> io::Result<()> {
    println!(rt; ", bytes {}", check_sum(bytes))
}

// The check sum of words, within a line.
pub fn words(rt: &impl Print, words: &[u64]) -> io::Result<()> {
    print!(rt; ", words {}", check_sum(words))
}

pub fn refusal(rt: &impl Print, refusal: Refusal) -> io::Result<()> {
    print!(rt; ": refused {}", refusal.number())
}

// A filter's setting and passes, and a start that is given.
pub fn filter(rt: &impl Print, setting: Setting, passes: u32, start: Start) -> io::Result<()> {
    let Setting { method, p, q, s } = setting;
    print!(rt; "filter {method} {p} {q} {s} {passes}")?;
    match start {
        Start::Usual => Ok(()),
        Start::Given(value) => print!(rt; " from {value}"),
    }
}

// What a call without values comes to.
pub fn accepted(rt: &impl Print, answer: Result<(), Refusal>) -> io::Result<()> {
    match answer {
        Ok(()) => print!(rt; ": accepted"),
        Err(cause) => refusal(rt, cause),
    }
}
