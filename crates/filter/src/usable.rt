// The filter of a setting that can be used, and a day's f by it.
ghost use Rattle.std.specs.Prelude.{◌≡◌, ℕ, ◌+◌, ◌-◌, ◌/◌, [], ◌∷◌, ◌≤◌, IfOk};
ghost use Rattle.std.specs.Option.{ForSome};
ghost use Rattle.numbers.specs.Arithmetic.{rounded};
ghost use Rattle.numbers.specs.Near.{near};
ghost use Rattle.series.specs.Causes.{cause, first_cause, refusal_of};
ghost use Rattle.filter.specs.Methods.{method_of, weights, start, unknown_method, out_of_range, invalid_passes, Usable};
ghost use Rattle.filter.specs.Passes.{step};
ghost use Rattle.filter.specs.Private.{weights_of, Small, dividend};

use crate::Setting;
use crate::method::{Coefficients, Method, Share};
use numbers::Divisor;
use series::{Refusal, refuse_if};

// A setting that passed its checks, with its method and its row of the table. Where it filters many days, d stands once more,
// as their divisor.
#[derive(Clone, Copy)]
pub(crate) struct Filter {
    pub(crate) setting: Setting,
    method: Method,
    row: Coefficients,
    divisor: Option<Divisor>,
    ghost usable: { Usable setting },
    ghost method_is: { method ≡ method_of setting.method },
    ghost row_is: { weights_of row ≡ weights setting },
    ghost divisor_is: { ForSome divisor (λ v. v.by ≡ row.d) },
}

// Kept: that f, u and v are small stands in each clause; a type of small numbers would be taken apart at each product.
impl Filter {
    // The filter of a setting, unless 11 or 12 holds.
    // Inlined, since the daily step makes one for each day: out of line the step takes 1.3 to 1.7 times as long.
    #[inline(always)]
    pub(crate) fn new(setting: Setting) -> Result<Self, Refusal>
        ensures refusal { refusal_of result ≡ first_cause (cause (unknown_method setting) 11 ∷ cause (out_of_range setting) 12 ∷ []) }
        ensures of_setting { IfOk result (λ f. f.setting ≡ setting) }
    {
        let method = Method::try_from(setting.method)?;
        refuse_if(!method.admits(setting), Refusal::ParameterOutOfRange)?;
        let row = method.coefficients(setting);
        Ok(Filter {
            setting,
            method,
            row,
            divisor: None,
        })
    }

    // The same filter with a divisor. Each walk over days makes its own, at one division, and in its loop the compiler then knows
    // which way the filter divides. A single day has none, since that would be its second division.
    #[inline(always)]
    pub(crate) fn for_many_days(self) -> Self
        ensures { result.setting ≡ self.setting }
    {
        Filter {
            setting: self.setting,
            method: self.method,
            row: self.row,
            divisor: Some(Divisor::new(self.row.d)),
        }
    }

    // 13: the passes are not 1 to 3 in method 1, or not 1 in another.
    #[tactic(auto, using(crate::proofs::MethodNumbers::passes_of_1, crate::proofs::MethodNumbers::passes_of_others))]
    pub(crate) fn refuses_passes(self, passes: u32) -> bool
        ensures { result ≡ invalid_passes self.setting passes }
    {
        match self.method {
            Method::LyneHollick => !series::within(1, 3, passes),
            _ => passes != 1,
        }
    }

    // The base value of a segment's first day in pass 1.
    #[tactic(auto, using(crate::proofs::MethodNumbers::start_eckhardt, crate::proofs::MethodNumbers::start_other))]
    pub(crate) fn first_day(self, flow: u64) -> u64
        requires { flow ≤ 10000000 }
        ensures { result ≡ start rounded self.setting flow }
    {
        match self.method {
            Method::Eckhardt => numbers::near(9 * u64::from(self.setting.q) * flow, 100),
            _ => 500 * flow,
        }
    }

    // What the weighted mean divides by d, with half of d added: the part that the day before left comes last.
    #[tactic(auto, using(crate::proofs::MethodNumbers::small_products))]
    fn sum(self, f: u64, u: u64, v: u64) -> u64
        requires { Small f × Small u × Small v }
        ensures { result ≡ dividend (weights self.setting) f u v }
    {
        let row = self.row;
        let brought = row.b * u + row.d / 2;
        match row.c {
            Share::Raises(c) => row.a * f + (brought + c * v),
            Share::Lowers(c) => numbers::balance(row.a * f, brought, c * v),
        }
    }

    // near(a / d) from a sum in which half of d is added to a: by the divisor, where there is one.
    fn mean(self, sum: u64) -> u64
        ensures { (a loss : ℕ) → sum ≡ a + self.row.d / 2 - loss → result ≡ near (a - loss) self.row.d }
    {
        match self.divisor {
            None => numbers::near_halved(sum, self.row.d),
            Some(divisor) => divisor.near_halved(sum),
        }
    }

    // f(t), from f = f(t-1), u = u(t) and v = u(t-1).
    pub(crate) fn smoothed(self, f: u64, u: u64, v: u64) -> u64
        requires { Small f × Small u × Small v }
        ensures { result ≡ step rounded (weights self.setting) f u v }
    {
        let rounded = self.mean(self.sum(f, u, v));
        u.min(rounded)
    }
}
