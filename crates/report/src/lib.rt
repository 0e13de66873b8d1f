// The text of the program `separate`: what it writes for the bytes of a record, into a buffer that the caller lends.
#![tactic(auto)]

mod decimal;
mod lines;
mod page;

ghost use Rattle.std.specs.Prelude.{◌≡◌, ◌++◌, ◌≤◌, length, drop};
ghost use Rattle.record.specs.Call.{reading};
ghost use Rattle.series.specs.Causes.{outcome_of};
ghost use Rattle.accuracy.specs.declared.Choice.TheVariants.{Filter};
ghost use Rattle.filter.specs.declared.start.Start.TheVariants.{Usual};
ghost use Rattle.report.specs.Decimal.{characters};
ghost use Rattle.report.specs.Text.{setting, day_lines, index_line, record_text, separate_text};
ghost use Rattle.report.specs.Private.{content, with_text, Writes};

use accuracy::{Choice, Separation};
use filter::{Setting, Start};
use page::Page;
use series::Refusal;
use totals::Totals;

// The most bytes of a record.
pub const RECORD_LIMIT: usize = 32_768;

// Writes the text for a record's bytes to the buffer's start, and answers its length. The rest of the buffer stays.
// Kept: a lent buffer of fixed size and the length of the text, since the box has no heap.
pub fn report(bytes: &[u8], text: &mut [u8; 65536]) -> usize
    ensures length { result ≡ length (separate_text bytes.now) }
    ensures text { text.new ≡ separate_text bytes.now ++ drop result text.old }
    ensures fits { result ≤ length text.new }
{
    write(bytes, text)
}

// The same for a buffer of any length: what does not fit is left out.
fn write(bytes: &[u8], text: &mut [u8]) -> usize
    ensures { content text.new result ≡ with_text (separate_text bytes.now) (content text.old 0) }
{
    let mut page = Page { text, at: 0 };
    page.put_report(bytes);
    page.at
}

// Method 1, p 9250, one pass.
fn choice() -> Choice
    ensures { result ≡ Filter setting 1 Usual }
{
    Choice::Filter {
        setting: Setting {
            method: 1,
            p: 9250,
            q: 0,
            s: 0,
        },
        passes: 1,
        start: Start::Usual,
    }
}

#[tactic(auto, using(crate::proofs::Paging::append_text))]
impl Page<'_> {
    // The text of a record's bytes.
    #[tactic(auto, using(crate::proofs::Paging::append_text), unfolding(crate::specs::Text::separate_text))]
    fn put_report(&mut self, bytes: &[u8])
        ensures { Writes (separate_text bytes.now) self.old self.new }
    {
        if RECORD_LIMIT < bytes.len() {
            self.put_text(b"too long\n");
        } else {
            self.put_record(bytes);
        }
    }

    // The text of a record that is not too long.
    fn put_record(&mut self, bytes: &[u8])
        ensures { Writes (record_text (reading 2048 bytes.now)) self.old self.new }
    {
        // Kept: lists of fixed size, of which the record's days are a part, since the box has no heap.
        let mut days = [0u32; 2048];
        let mut base = [0u64; 2048];
        match accuracy::separate(bytes, choice(), &mut days, &mut base) {
            Ok(
                Separation {
                    first_day,
                    day_count,
                    base_flow: Ok(totals),
                },
            ) => {
                // Kept: `as`, since std has no From between u32 and usize, and TryFrom would add an error that never comes.
                let n = day_count as usize;
                self.put_table(first_day, &days[..n], &base[..n], totals);
            }
            Ok(
                Separation {
                    base_flow: Err(refusal),
                    ..
                },
            ) => self.put_refused(refusal),
            Err(refusal) => self.put_refused(refusal),
        }
    }

    // The header, a line for each day, and the index.
    fn put_table(
        &mut self,
        first_day: u32,
        days: &[u32],
        base: &[u64],
        totals: Result<Totals, Refusal>,
    )
        requires { (length days.now ≤ 2048) × (length base.now ≡ length days.now) }
        ensures { Writes (characters "day flow base\n" ++ day_lines first_day days.now base.now ++ index_line (outcome_of totals)) self.old self.new }
    {
        self.put_text(b"day flow base\n");
        self.put_days(first_day, days, base);
        self.put_index(totals);
    }
}
