// Each call over presence bits, with what it gives printed as the call over days prints it.
use crate::show;
use filter::{Setting, Start};
use minima::LineSetting;
use recession::Statistics;
use series::Refusal;
use std::io;
use totals::Totals;

// What a conversion comes to.
fn converted(rt: &impl Print, answer: Result<u32, Refusal>) -> io::Result<()> {
    match answer {
        Ok(present) => print!(rt; ": present {present}"),
        Err(refusal) => show::refusal(rt, refusal),
    }
}

pub fn to_bits(
    rt: &impl Print,
    days: &[u32],
    flows: &mut [u32],
    words: &mut [u64],
) -> io::Result<()> {
    print!(rt; "to bits {}", days.len())?;
    converted(rt, presence::to_bits(days, &mut *flows, &mut *words))?;
    show::words(rt, words)?;
    show::list(rt, "flows", flows)
}

pub fn from_bits(
    rt: &impl Print,
    flows: &[u32],
    words: &[u64],
    days: &mut [u32],
) -> io::Result<()> {
    print!(rt; "from bits {}", flows.len())?;
    converted(rt, presence::from_bits(flows, words, &mut *days))?;
    show::list(rt, "days", days)
}

// A river as flows and words, with room for its base flow, and where the calls over it are printed.
#[derive(Drop)]
pub struct BitRiver<'a, 'b, P> {
    pub rt: &'a P,
    pub flows: &'a [u32],
    pub words: &'a [u64],
    pub base: &'b mut [u64],
}

impl<'a, 'b, P: Print> BitRiver<'a, 'b, P> {
    // The end of a line that a call without values, which filled the base list, began.
    fn filled(&self, answer: Result<(), Refusal>) -> io::Result<()> {
        show::accepted(self.rt, answer)?;
        show::base_list(self.rt, self.base)
    }

    pub fn totals(&self) -> io::Result<()> {
        let rt = self.rt;
        print!(rt; "bits totals")?;
        match bits::totals(self.flows, self.words, self.base) {
            Ok(
                Totals {
                    days,
                    flow,
                    base,
                    quick,
                    index,
                },
            ) => print!(rt; ": summed {days} {flow} {base} {quick} {index}")?,
            Err(refusal) => show::refusal(rt, refusal)?,
        }
        println!(rt;)
    }

    fn started(&mut self, setting: Setting, passes: u32, start: Start) -> io::Result<()> {
        let rt = self.rt;
        print!(rt; "bits ")?;
        show::filter(rt, setting, passes, start)?;
        let answer = bits::filter(
            setting,
            passes,
            start,
            self.flows,
            self.words,
            &mut *self.base,
        );
        self.filled(answer)
    }

    pub fn filter(&mut self, setting: Setting, passes: u32) -> io::Result<()> {
        self.started(setting, passes, Start::Usual)
    }

    pub fn filter_from(&mut self, setting: Setting, passes: u32, start: u64) -> io::Result<()> {
        self.started(setting, passes, Start::Given(start))
    }

    pub fn line(&mut self, block_days: u32, factor: u32) -> io::Result<()> {
        let rt = self.rt;
        print!(rt; "bits line {block_days} {factor}")?;
        let setting = LineSetting { block_days, factor };
        let answer = bits::line(setting, self.flows, self.words, &mut *self.base);
        self.filled(answer)
    }

    pub fn staggered(
        &mut self,
        block_days: u32,
        factor: u32,
        choice: u32,
        work: &mut [u64],
    ) -> io::Result<()> {
        let rt = self.rt;
        print!(rt; "bits staggered {block_days} {factor} {choice}")?;
        let setting = LineSetting { block_days, factor };
        let answer = bits::staggered(
            setting,
            choice,
            self.flows,
            self.words,
            &mut *self.base,
            &mut *work,
        );
        self.filled(answer)?;
        print!(rt; "work")?;
        show::base_list(rt, work)
    }

    pub fn ratios(&self, limb_days: u32, limbs: &mut [u32]) -> io::Result<()> {
        let rt = self.rt;
        print!(rt; "bits ratios {limb_days}")?;
        match bits::ratios(limb_days, self.flows, self.words, self.base, &mut *limbs) {
            Ok(Statistics { count, median }) => print!(rt; ": found {count} {median}")?,
            Err(refusal) => show::refusal(rt, refusal)?,
        }
        show::list(rt, "limbs", limbs)
    }

    pub fn bfimax(&mut self, last_day: u32, duration: u32, p: u32) -> io::Result<()> {
        let rt = self.rt;
        print!(rt; "bits bfimax {last_day} {duration} {p}")?;
        match bits::bfimax(
            last_day,
            duration,
            p,
            self.flows,
            self.words,
            &mut *self.base,
        ) {
            Ok(found) => print!(rt; ": found {found}")?,
            Err(refusal) => show::refusal(rt, refusal)?,
        }
        show::base_list(rt, self.base)
    }
}
