// Rivers made for the tests. tests/rivers.py makes the same ones.
ghost use Rattle.std.specs.Prelude.{◌<◌};

// What a made river goes by: the number that its weather is drawn from, and the water in its ground.
#[derive(Clone, Copy, Debug, PartialEq, Eq)]
struct Weather {
    drawn: u32,
    store: u32,
}

// Where days are missing, and where there is no flow.
#[derive(Clone, Copy, Debug, PartialEq, Eq)]
pub enum Gaps {
    Nowhere,
    AtStart,
    AtEnd,
    Everywhere,
    // no gaps, and no flow for a third of each year
    DrySummers,
}

fn draw(x: u32) -> u32 {
    x.wrapping_mul(1_664_525).wrapping_add(1_013_904_223)
}

impl Weather {
    // The day after: a sixteenth of the store runs off, and it rains on one day in ten.
    fn day_after(self) -> Weather {
        let drawn = draw(self.drawn);
        let left = self.store - self.store / 16;
        let rain = if drawn < 429_496_730 && left < 100_000_000 {
            drawn / 64
        } else {
            0
        };
        Weather {
            drawn,
            store: left + rain,
        }
    }
}

impl Gaps {
    // Day i of a list is missing.
    fn miss(self, i: usize, days: usize, drawn: u32) -> bool {
        match self {
            Gaps::AtStart => i < 100,
            Gaps::AtEnd => days <= 100 || days - 100 <= i,
            Gaps::Everywhere => drawn.is_multiple_of(13),
            Gaps::Nowhere | Gaps::DrySummers => false,
        }
    }

    fn dry(self, i: usize) -> bool {
        self == Gaps::DrySummers && 240 <= i % 365
    }
}

// Fills a day list with the days of a made river.
pub fn fill(days: &mut [u32], seed: u32, gaps: Gaps) {
    let mut weather = Weather {
        drawn: seed,
        store: 4_000_000,
    };
    let count = days.len();
    for (i, day) in days.iter_mut().enumerate() {
        weather = weather.day_after();
        *day = if gaps.miss(i, count, weather.drawn) {
            series::MISSING
        } else if gaps.dry(i) {
            0
        } else {
            weather.store / 16
        };
    }
}

// A part of a flow, in ten-thousandths.
fn part(flow: u32, share: u32) -> u32 {
    let part = numbers::near(u64::from(flow) * u64::from(share), 10_000);
    u32::try_from(part).unwrap_or(u32::MAX)
}

// A flow on every so many days.
#[derive(Clone, Copy, Debug, PartialEq, Eq)]
pub struct Storms {
    pub apart: usize,
    pub flow: u32,
}

// Fills a day list with a river that falls from a flow by a constant, in ten-thousandths (10,000 is a steady river), and
// has storms or none.
pub fn fall(days: &mut [u32], from: u32, constant: u32, storms: Option<Storms>) {
    let mut flow = from;
    for (i, day) in days.iter_mut().enumerate() {
        *day = match storms {
            Some(storm) if i.is_multiple_of(storm.apart) => storm.flow,
            _ => flow,
        };
        flow = part(flow, constant);
    }
}

// 1000 times the first present flow, or 0 where there is none.
pub fn first_whole(days: &[u32]) -> u64
    ensures { result < 4294967296000 }
{
    for day in days {
        if *day != series::MISSING {
            return 1000 * u64::from(*day);
        }
    }
    0
}

// Fills a base list with the values that its days have where all of their flow is base flow.
pub fn at_base(days: &[u32], base: &mut [u64]) {
    for (value, day) in base.iter_mut().zip(days) {
        *value = if *day == series::MISSING {
            series::NO_VALUE
        } else {
            1000 * u64::from(*day)
        };
    }
}
