// The seven methods: document 01's table of coefficients, ranges and starts.
ghost use Rattle.std.specs.Prelude.{◌≡◌, ◌&&◌, eqb, ◌≤◌};
ghost use Rattle.series.specs.Units.{within};
ghost use Rattle.filter.specs.Methods.{method_range, method_span, method_weights, spans};
ghost use Rattle.filter.specs.Private.{numbered, RowLimits, share, weights_of};

use self::Share::{Lowers, Raises};
use crate::Setting;
use series::Refusal;

// The rows of the table.
#[derive(Clone, Copy, Debug, PartialEq, Eq)]
pub(crate) enum Method {
    LyneHollick,
    Chapman1991,
    ChapmanMaxwell,
    Boughton,
    Eckhardt,
    TularamIlahee,
    JakemanHornberger,
}

// C of a row, by its sign: a weight that raises the sum, or one that lowers it.
#[derive(Clone, Copy, Debug, PartialEq, Eq)]
pub(crate) enum Share {
    Raises(u64),
    Lowers(u64),
}

// The A, B, C and d of a setting.
#[derive(Clone, Copy, Debug, PartialEq, Eq)]
pub(crate) struct Coefficients {
    pub(crate) a: u64,
    pub(crate) b: u64,
    pub(crate) c: Share,
    pub(crate) d: u64,
}

impl TryFrom<u32> for Method {
    type Error = Refusal;

    ghost try_from_gives = { λ number result. result ≡ numbered number };

    #[tactic(auto, unfolding(crate::specs::Private::numbered, crate::specs::Methods::method_of, series::specs::Units::within))]
    fn try_from(number: u32) -> Result<Self, Refusal> {
        match number {
            1 => Ok(Method::LyneHollick),
            2 => Ok(Method::Chapman1991),
            3 => Ok(Method::ChapmanMaxwell),
            4 => Ok(Method::Boughton),
            5 => Ok(Method::Eckhardt),
            6 => Ok(Method::TularamIlahee),
            7 => Ok(Method::JakemanHornberger),
            _ => Err(Refusal::UnknownMethod),
        }
    }
}

// Whether s lies no further than `most` from 0.
#[tactic(auto, using(crate::proofs::MethodNumbers::size_spans))]
fn spans(most: u32, s: i32) -> bool
    ensures { result ≡ spans most s }
{
    s.unsigned_abs() <= most
}

// The ranges of a method with one parameter: p from `low` on, and no q or s.
// Kept: beside the ranges of two parameters, since q has to be 0 here, and a range of its own there.
fn one_parameter(low: u32, setting: Setting) -> bool
    ensures { result ≡ (within low 9999 setting.p && eqb setting.q 0 && spans 0 setting.s) }
{
    series::within(low, 9999, setting.p) && setting.q == 0 && spans(0, setting.s)
}

// The ranges of a method with two parameters: q up to `high`, and s up to `most` from 0.
fn two_parameters(high: u32, most: u32, setting: Setting) -> bool
    ensures { result ≡ (within 1 9999 setting.p && within 1 high setting.q && spans most setting.s) }
{
    series::within(1, 9999, setting.p)
        && series::within(1, high, setting.q)
        && spans(most, setting.s)
}

// A row, as the table has it.
fn row(a: u64, b: u64, c: Share, d: u64) -> Coefficients
    ensures { result ≡ record { a = a; b = b; c = c; d = d } }
{
    Coefficients { a, b, c, d }
}

// C of a row with an s: s × q, by its sign.
#[tactic(auto, unfolding(crate::specs::Private::share))]
fn signed(s: i32, q: u64) -> Share
    requires { q ≤ 10000 }
    ensures { result ≡ share s q }
{
    let size = u64::from(s.unsigned_abs()) * q;
    if s < 0 { Lowers(size) } else { Raises(size) }
}

impl Method {
    // Whether p, q and s lie in the ranges of the method.
    #[tactic(auto, unfolding(crate::specs::Methods::method_range, crate::specs::Methods::method_span))]
    pub(crate) fn admits(self, setting: Setting) -> bool
        ensures { result ≡ (method_range self setting && spans (method_span self) setting.s) }
    {
        match self {
            Method::LyneHollick => one_parameter(1, setting),
            Method::Chapman1991 => one_parameter(3334, setting),
            Method::ChapmanMaxwell => one_parameter(1, setting),
            Method::Boughton => two_parameters(10_000, 0, setting),
            Method::Eckhardt => two_parameters(9999, 0, setting),
            Method::TularamIlahee => one_parameter(1, setting),
            Method::JakemanHornberger => two_parameters(10_000, 9999, setting),
        }
    }

    // The method's row of the table.
    #[tactic(auto, unfolding(crate::specs::Methods::method_weights))]
    pub(crate) fn coefficients(self, setting: Setting) -> Coefficients
        requires { RowLimits self setting }
        ensures { weights_of result ≡ method_weights self setting }
    {
        let p = u64::from(setting.p);
        let q = u64::from(setting.q);
        match self {
            Method::LyneHollick => row(2 * p, 10_000 - p, Raises(10_000 - p), 20_000),
            Method::Chapman1991 => row(3 * p - 10_000, 10_000 - p, Raises(10_000 - p), 30_000 - p),
            Method::ChapmanMaxwell => row(p, 10_000 - p, Raises(0), 20_000 - p),
            Method::Boughton => row(p, q, Raises(0), 10_000 + q),
            Method::Eckhardt => row(
                p * (10_000 - q),
                (10_000 - p) * q,
                Raises(0),
                100_000_000 - p * q,
            ),
            Method::TularamIlahee => row(p, 10_000 - p, Raises(0), 10_000),
            Method::JakemanHornberger => row(
                10_000 * p,
                10_000 * q,
                signed(setting.s, q),
                10_000 * (10_000 + q),
            ),
        }
    }
}
