// The start of pass 1 in the first segment.
ghost use Rattle.std.specs.Prelude.{◌≡◌, map};
ghost use Rattle.series.specs.Units.{day_of};
ghost use Rattle.filter.specs.Methods.{start_too_high};

// As the setting's method starts every segment, or at a value that is given, in thousandths of a litre a second.
#[derive(Clone, Copy, Debug, PartialEq, Eq)]
pub enum Start {
    Usual,
    Given(u64),
}

impl Start {
    // 29: a value that is given lies above 1000 × the first present flow.
    #[tactic(auto, using(crate::proofs::Starts::above_first, crate::proofs::Starts::none_above), unfolding(crate::specs::Methods::start_too_high))]
    pub(crate) fn is_too_high(self, days: &[u32]) -> bool
        ensures { result ≡ start_too_high self (map day_of days.now) }
    {
        let Start::Given(value) = self else {
            return false;
        };
        let first = series::leading_gap(days);
        first < days.len() && 1000 * u64::from(days[first]) < value
    }
}
