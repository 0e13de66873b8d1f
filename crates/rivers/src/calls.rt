// Each call over a river, with its answer and the lists that it leaves printed.
use crate::{reading_of, show};
use filter::{Advanced, DailyFilter, Refused, Setting, Start};
use licence::Licence;
use meter::Reading;
use minima::LineSetting;
use recession::Statistics;
use record::Reply;
use series::Refusal;
use std::{io, num};
use totals::Totals;

// A setting without s.
pub fn plain(method: u32, p: u32, q: u32) -> Setting {
    signed(method, p, q, 0)
}

pub fn signed(method: u32, p: u32, q: u32, s: i32) -> Setting {
    Setting { method, p, q, s }
}

pub fn reading(rt: &impl Print, bytes: &[u8], days: &mut [u32]) -> io::Result<()> {
    print!(rt; "read {}", bytes.len())?;
    match record::read(bytes, days) {
        Ok(
            Reply {
                first_day,
                day_count,
            },
        ) => print!(rt; ": stated {first_day} {day_count}")?,
        Err(refusal) => show::refusal(rt, refusal)?,
    }
    show::list(rt, "days", days)
}

pub fn half_life(rt: &impl Print, p: u32) -> io::Result<()> {
    print!(rt; "half-life {p}")?;
    match half_life::half_life(p) {
        Ok(days) => print!(rt; ": days {days}")?,
        Err(refusal) => show::refusal(rt, refusal)?,
    }
    println!(rt;)
}

// What a reading comes to.
fn metered(rt: &impl Print, answer: Result<u32, Refusal>) -> io::Result<()> {
    match answer {
        Ok(day) => print!(rt; ": day {day}"),
        Err(refusal) => show::refusal(rt, refusal),
    }
}

pub fn meter(rt: &impl Print, bytes: &[u8]) -> io::Result<()> {
    print!(rt; "meter {}", bytes.len())?;
    metered(rt, meter::meter(bytes))?;
    println!(rt;)
}

// The end of a line with what it comes to as a value.
fn reading_day(rt: &impl Print, reading: Reading) -> io::Result<()> {
    print!(rt; ", reading")?;
    metered(rt, reading.day())?;
    println!(rt;)
}

// A float of a kind by its bits, over bytes and as a value.
pub fn meter_float(rt: &impl Print, kind: u8, bits: u32) -> io::Result<()> {
    let float = num::f32_from_bits_with_nan(bits);
    let reading = if kind == 1 {
        Reading::CubicMetres(float)
    } else {
        Reading::Litres(float)
    };
    print!(rt; "meter {kind} {bits}")?;
    metered(rt, meter::meter(&reading_of::float(kind, bits)))?;
    reading_day(rt, reading)
}

pub fn no_reading(rt: &impl Print) -> io::Result<()> {
    print!(rt; "meter 3")?;
    metered(rt, meter::meter(&[3]))?;
    reading_day(rt, Reading::NoReading)
}

// The day that a meter's reading of a day is read as; a refusal is printed, and leaves the day missing.
pub fn metered_day(rt: &impl Print, day: u32) -> io::Result<u32> {
    match reading_of::day(day) {
        Ok(found) => Ok(found),
        Err(refusal) => {
            print!(rt; "meter")?;
            show::refusal(rt, refusal)?;
            println!(rt;)?;
            Ok(series::MISSING)
        }
    }
}

// A river, with room for its base flow, and where the calls over it are printed.
#[derive(Drop)]
pub struct River<'a, 'b, P> {
    pub rt: &'a P,
    pub days: &'a [u32],
    pub base: &'b mut [u64],
}

impl<'a, 'b, P: Print> River<'a, 'b, P> {
    // The end of a line that a call without values, which filled the base list, began.
    fn filled(&self, answer: Result<(), Refusal>) -> io::Result<()> {
        show::accepted(self.rt, answer)?;
        show::base_list(self.rt, self.base)
    }

    pub fn totals(&self) -> io::Result<()> {
        let rt = self.rt;
        print!(rt; "totals")?;
        match totals::total(self.days, self.base) {
            Ok(
                Totals {
                    days,
                    flow,
                    base,
                    quick,
                    index,
                },
            ) => print!(rt; ": summed {days} {flow} {base} {quick} {index}")?,
            Err(refusal) => show::refusal(rt, refusal)?,
        }
        println!(rt;)
    }

    fn started(&mut self, setting: Setting, passes: u32, start: Start) -> io::Result<()> {
        show::filter(self.rt, setting, passes, start)?;
        let answer = filter::filter(setting, passes, start, self.days, &mut *self.base);
        self.filled(answer)
    }

    pub fn filter(&mut self, setting: Setting, passes: u32) -> io::Result<()> {
        self.started(setting, passes, Start::Usual)
    }

    pub fn filter_from(&mut self, setting: Setting, passes: u32, start: u64) -> io::Result<()> {
        self.started(setting, passes, Start::Given(start))
    }

    // A call and then the totals. Kept: one for each call, here and below, since each call has parameters of its own.
    pub fn filter_and_totals(&mut self, setting: Setting, passes: u32) -> io::Result<()> {
        self.filter(setting, passes)?;
        self.totals()
    }

    pub fn line(&mut self, block_days: u32, factor: u32) -> io::Result<()> {
        let rt = self.rt;
        print!(rt; "line {block_days} {factor}")?;
        let setting = LineSetting { block_days, factor };
        let answer = minima::line(setting, self.days, &mut *self.base);
        self.filled(answer)
    }

    pub fn line_and_totals(&mut self, block_days: u32, factor: u32) -> io::Result<()> {
        self.line(block_days, factor)?;
        self.totals()
    }

    pub fn staggered(
        &mut self,
        block_days: u32,
        factor: u32,
        choice: u32,
        work: &mut [u64],
    ) -> io::Result<()> {
        let rt = self.rt;
        print!(rt; "staggered {block_days} {factor} {choice}")?;
        let setting = LineSetting { block_days, factor };
        let answer = staggered::staggered(setting, choice, self.days, &mut *self.base, &mut *work);
        self.filled(answer)?;
        print!(rt; "work")?;
        show::base_list(rt, work)
    }

    pub fn bfimax(&mut self, last_day: u32, duration: u32, p: u32) -> io::Result<()> {
        let rt = self.rt;
        print!(rt; "bfimax {last_day} {duration} {p}")?;
        match bfimax::bfimax(last_day, duration, p, self.days, &mut *self.base) {
            Ok(found) => print!(rt; ": found {found}")?,
            Err(refusal) => show::refusal(rt, refusal)?,
        }
        show::base_list(rt, self.base)
    }

    pub fn ratios(&self, limb_days: u32, limbs: &mut [u32]) -> io::Result<()> {
        let rt = self.rt;
        print!(rt; "ratios {limb_days}")?;
        match recession::ratios(limb_days, self.days, self.base, &mut *limbs) {
            Ok(Statistics { count, median }) => print!(rt; ": found {count} {median}")?,
            Err(refusal) => show::refusal(rt, refusal)?,
        }
        show::list(rt, "limbs", limbs)
    }

    pub fn licence(&self, daily_limit: u32, quota: u64, takings: &mut [u32]) -> io::Result<()> {
        let rt = self.rt;
        print!(rt; "licence {daily_limit} {quota}")?;
        let granted = Licence { daily_limit, quota };
        match licence::replay(granted, self.days, self.base, &mut *takings) {
            Ok(left) => print!(rt; ": left {left}")?,
            Err(refusal) => show::refusal(rt, refusal)?,
        }
        show::list(rt, "takings", takings)
    }

    // Steps over the river from the fresh state: the check sum of their values is that of pass 1.
    pub fn steps(&self, setting: Setting) -> io::Result<()> {
        let mut state = DailyFilter::fresh();
        let mut sum = 0;
        for day in self.days {
            match step(self.rt, state, setting, *day)? {
                Ok(next) => {
                    sum = show::mixed(sum, next.base);
                    state = next.state;
                }
                Err(refused) => state = refused.state,
            }
        }
        let rt = self.rt;
        println!(rt; "steps {} {sum}", setting.method)
    }
}

// One step; a refusal is printed.
pub fn step(
    rt: &impl Print,
    state: DailyFilter,
    setting: Setting,
    day: u32,
) -> io::Result<Result<Advanced, Refused>> {
    let step = state.step(setting, day);
    if let Err(refused) = step {
        print!(rt; "step")?;
        show::refusal(rt, refused.refusal)?;
        println!(rt;)?;
    }
    Ok(step)
}
