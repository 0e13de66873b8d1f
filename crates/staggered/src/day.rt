// What the lines have on one day: a value, or none.
ghost use Rattle.std.specs.Prelude.{◌≡◌, ◌<◌, eqb, not};
ghost use Rattle.series.specs.Units.{no_value_mark};

use crate::Choice;

// The lines' base values on day t, line after line, with the mark where a line has none. The lines stand in the work list
// one behind the other, each as many days long.
#[derive(Clone, Copy)]
// Kept: a type of its own, since `chunks_exact(days).map(..)` has a closure in its type, which no struct can name, and a result of `impl Iterator` gets no proof.
pub(crate) struct DayValues<'a> {
    lines: &'a [u64],
    days: usize,
    t: usize,
    ghost inside: { t < days },
}

impl Iterator for DayValues<'_> {
    type Item = u64;

    ghost use Rattle.std.specs.Iterator.{YieldsFirst, item_count};
    ghost use Rattle.staggered.specs.Private.{numbers_of};

    ghost next_gives = { YieldsFirst numbers_of };

    ghost remaining = { item_count numbers_of };

    fn next(&mut self) -> Option<u64> {
        let (line, behind) = self.lines.split_at_checked(self.days)?;
        self.lines = behind;
        Some(line[self.t])
    }
}

// A number of the work list is a value, and not the mark.
fn is_value(number: &u64) -> bool
    ensures { result ≡ not (eqb number.now no_value_mark) }
{
    *number != series::NO_VALUE
}

impl<'a> DayValues<'a> {
    ghost use Rattle.std.specs.Prelude.{ℕ, Bool, length, ◌^◌};
    ghost use Rattle.std.specs.List.{filter};
    ghost use Rattle.std.specs.Iterator.{ActsAsAt};
    ghost use Rattle.numbers.specs.Arithmetic.{rounded};
    ghost use Rattle.series.specs.Units.{base_of, base_mark};
    ghost use Rattle.staggered.specs.Rule.{chosen};
    ghost use Rattle.staggered.specs.Private.{numbers_of, shown_on, shown_by, values_of, has_rank, number_of, option_of};

    pub(crate) fn new(lines: &'a [u64], days: usize, t: usize) -> Self
        requires { t < days }
        ensures { shown_by result ≡ shown_on lines.now days t }
    {
        DayValues { lines, days, t }
    }

    // How many of the day's numbers pass a test.
    #[tactic(auto, using(crate::proofs::Columns::column_few))]
    fn count<F: FnMut(&u64) -> bool>(self, passes: F) -> usize
        requires { (test : _) (number : _) → F.pre test number }
        ensures number { (test : ℕ → Bool) → ActsAsAt F.FnMut passes test → result ≡ length (filter test (numbers_of self.entry)) }
        ensures few { result < 2 ^ 61 }
    {
        self.filter(passes).count()
    }

    // Whether v is a value of rank k: fewer than k of the day's are smaller, and at least k are at most v.
    fn has_rank(self, k: usize, v: u64) -> bool
        requires { v < no_value_mark }
        ensures { result ≡ has_rank k v (values_of self.entry) }
    {
        let mut smaller = 0;
        let mut up_to = 0;
        // Kept: a loop for both counts, since each by itself walks over all lines, and the median takes up to 1.5 times as long.
        for number in self {
            smaller += usize::from(number < v);
            up_to += usize::from(number <= v);
        }
        smaller < k && k <= up_to
    }

    // The middle one of the values, and of two middle ones the lower.
    fn median(self) -> Option<u64>
        ensures { option_of result ≡ chosen rounded 3 (shown_by self.entry) }
    {
        let k = (self.count(is_value) + 1) / 2;
        self.filter(is_value).find(|v| self.has_rank(k, *v))
    }

    // The chosen value, or the mark where no line has one.
    pub(crate) fn chosen(self, choice: Choice) -> u64
        ensures { result ≡ base_mark (chosen rounded (number_of choice) (shown_by self.entry)) }
    {
        let value = match choice {
            Choice::Lowest => self.filter(is_value).min(),
            Choice::Highest => self.filter(is_value).max(),
            Choice::Median => self.median(),
        };
        value.unwrap_or(series::NO_VALUE)
    }
}
