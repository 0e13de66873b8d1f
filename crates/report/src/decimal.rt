// Numbers as decimal digits, the most significant first.
// Kept: written by recursion and not by Display, since document 01 names this form.
ghost use Rattle.std.specs.Prelude.{◌≡◌, ◌^◌, ◌<◌};
ghost use Rattle.report.specs.Decimal.{digit as decimal_digit, decimal as decimal_decimal, last_digits, fixed_point};
ghost use Rattle.report.specs.Private.{Writes};

use crate::page::Page;

// The character of a digit.
fn digit(d: u64) -> u8
    requires { d < 10 }
    ensures { result ≡ decimal_digit d }
{
    // Kept: `as`, since the digit's proof shows that it fits a byte.
    b'0' + d as u8
}

#[tactic(auto, using(crate::proofs::Paging::append_text))]
impl Page<'_> {
    // A number: the digits of the number divided by ten, and then the last.
    #[tactic(auto, using(crate::proofs::Paging::append_text, crate::proofs::Numerals::decimal_below, crate::proofs::Numerals::decimal_more))]
    pub(crate) fn put_decimal(&mut self, number: u64)
        ensures { Writes (decimal_decimal number) self.old self.new }
    {
        if number < 10 {
            self.put(digit(number));
        } else {
            let last = digit(number % 10);
            self.put_decimal(number / 10);
            self.put(last);
        }
    }

    // The last digits of a number, as many as asked, leading zeros kept.
    #[tactic(auto, using(crate::proofs::Paging::append_text, crate::proofs::Paging::no_text, crate::proofs::Numerals::last_none, crate::proofs::Numerals::last_more))]
    fn put_last_digits(&mut self, count: u32, number: u64)
        ensures { Writes (last_digits count number) self.old self.new }
    {
        if count > 0 {
            self.put_last_digits(count - 1, number / 10);
            self.put(digit(number % 10));
        }
    }

    // A number with a point before its last digits, as many as asked.
    pub(crate) fn put_fixed_point(&mut self, decimals: u32, number: u64)
        requires { 10 ^ decimals < 2 ^ 64 }
        ensures { Writes (fixed_point decimals number) self.old self.new }
    {
        self.put_decimal(number / 10u64.pow(decimals));
        self.put_text(b".");
        self.put_last_digits(decimals, number);
    }
}
