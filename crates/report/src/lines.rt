// The lines of the text.
ghost use Rattle.std.specs.Prelude.{◌≡◌, ◌≤◌, length};
ghost use Rattle.std.proofs.Math.Option.{some};
ghost use Rattle.series.specs.Units.{day_of};
ghost use Rattle.series.specs.Causes.{refusal_number, refused, outcome_of};
ghost use Rattle.report.specs.Text.{day_line, day_lines, index_line, record_text};
ghost use Rattle.report.specs.Private.{Writes};

use crate::page::Page;
use series::Refusal;
use totals::Totals;

#[tactic(auto, using(crate::proofs::Paging::append_text))]
impl Page<'_> {
    // The line of a present day.
    fn put_present_day(&mut self, day: u64, flow: u32, base: u64)
        ensures { Writes (day_line day (some flow) base) self.old self.new }
    {
        self.put_decimal(day);
        self.put_text(b" ");
        self.put_decimal(u64::from(flow));
        self.put_text(b" ");
        self.put_fixed_point(3, base);
        self.put_text(b"\n");
    }

    // The line of a day.
    #[tactic(auto, using(crate::proofs::Paging::append_text, series::proofs::Views::day_missing, series::proofs::Views::day_present))]
    fn put_day(&mut self, day: u64, flow: u32, base: u64)
        ensures { Writes (day_line day (day_of flow) base) self.old self.new }
    {
        if flow == series::MISSING {
            self.put_decimal(day);
            self.put_text(b" missing\n");
        } else {
            self.put_present_day(day, flow, base);
        }
    }

    // A line for each day of a list.
    pub(crate) fn put_days(&mut self, first_day: u32, days: &[u32], base: &[u64])
        requires { (length days.now ≤ 2048) × (length base.now ≡ length days.now) }
        ensures { Writes (day_lines first_day days.now base.now) self.old self.new }
    {
        for (day, (flow, value)) in (u64::from(first_day)..).zip(days.iter().zip(base)) {
            self.put_day(day, *flow, *value);
        }
    }

    // The last line.
    pub(crate) fn put_index(&mut self, totals: Result<Totals, Refusal>)
        ensures { Writes (index_line (outcome_of totals)) self.old self.new }
    {
        match totals {
            Ok(t) => {
                self.put_text(b"index ");
                self.put_fixed_point(4, u64::from(t.index));
                self.put_text(b"\n");
            }
            Err(_) => self.put_text(b"index none\n"),
        }
    }

    // The one line of a refusal.
    pub(crate) fn put_refused(&mut self, refusal: Refusal)
        ensures { Writes (record_text (refused (refusal_number refusal))) self.old self.new }
    {
        self.put_text(b"refused ");
        self.put_decimal(u64::from(refusal.number()));
        self.put_text(b"\n");
    }
}
