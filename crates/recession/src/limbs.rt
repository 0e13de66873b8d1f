// The days of a day list and its base list as limbs see them, and the search from one limb to the next.
ghost use Rattle.std.specs.Prelude.{◌≡◌, ◌≤◌, length};
ghost use Rattle.series.specs.Units.{day_limit};

use series::Refusal;

// A limb that counts, by the position of its first day and the one behind its last.
#[derive(Clone, Copy)]
pub(crate) struct Span {
    pub(crate) first: usize,
    pub(crate) end: usize,
}

// The limbs of at least `shortest` days in a day list and its base list.
#[derive(Clone, Copy)]
pub(crate) struct Limbs<'a> {
    pub(crate) shortest: usize,
    pub(crate) days: &'a [u32],
    pub(crate) base: &'a [u64],
    ghost two_days: { 2 ≤ shortest },
    ghost few_days: { length days.now ≤ day_limit },
    ghost as_long: { length base.now ≡ length days.now },
}

impl<'a> Limbs<'a> {
    ghost use Rattle.recession.specs.Private.{NextAtBase, StartsRun, EndsRun, NextLimb};

    // The first position from `from` on whose day is at base, if there is one; or the refusal of an invalid day before it.
    fn next_at_base(&self, from: usize) -> Result<Option<usize>, Refusal>
        ensures { NextAtBase self.now from result }
    {
        // Kept: a walk by positions, since they are what it hands on: by zip, they would come from `skip` and `enumerate`.
        for at in from..self.days.len() {
            let day = self.days[at];
            let value = self.base[at];
            // Kept: the test of a day at base comes before that of an invalid one, which takes longer: a dry river takes up to 1.3
            // times as long the other way round.
            if value == 1000 * u64::from(day) {
                if day == series::MISSING {
                    return Err(Refusal::InvalidBase); // a missing day
                }
                return Ok(Some(at));
            }
            if series::is_invalid_base(day, value) {
                return Err(Refusal::InvalidBase); // not at base
            }
        }
        Ok(None)
    }

    // The position behind the longest fall that starts at `first`, on a day at base.
    #[tactic(auto, using(crate::proofs::Walk::falls_start, crate::proofs::Walk::falls_on, crate::proofs::Walk::falls_on_no_base, crate::proofs::Walk::falls_no_lower, crate::proofs::Walk::falls_out, crate::proofs::Walk::valid_on))]
    pub(crate) fn run_end(&self, first: usize) -> usize
        requires { StartsRun self.now first }
        ensures { EndsRun self.now first result }
    {
        let second = first + 1;
        let mut last = self.days[first];
        // Kept: a walk by positions, as above.
        for end in second..self.days.len() {
            let flow = self.days[end];
            if self.base[end] != 1000 * u64::from(flow) {
                return end; // the day is not at base
            }
            // a missing day's mark is below no flow
            if last <= flow {
                return end;
            }
            last = flow;
        }
        self.days.len() // it falls up to the last day
    }

    // The next limb that counts, from a position on, if there is one; or the refusal of an invalid day that comes first.
    pub(crate) fn next_limb(&self, from: usize) -> Result<Option<Span>, Refusal>
        ensures { NextLimb self.now from result }
    {
        let mut at = from;
        while let Some(first) = self.next_at_base(at)? {
            let end = self.run_end(first);
            if self.shortest <= end - first {
                return Ok(Some(Span { first, end }));
            }
            at = end;
        }
        Ok(None)
    }
}
