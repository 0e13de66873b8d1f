// Base flow by the minima line (document 01, "Block-minima line"): straight lines between the turning points of the
// blocks' minima.
#![tactic(auto)]

mod block;
mod piece;
mod river;
mod segment;

ghost use Rattle.std.specs.Prelude.{◌≡◌, map, ◌≤◌, length};
ghost use Rattle.series.specs.Units.{day_of};
ghost use Rattle.series.specs.Causes.{refusal_of, first_cause, Decides};
ghost use Rattle.minima.specs.Call.{blocks_at, blocks_of, out_of_range, no_line, line_causes, line_list, line_leaves};
ghost use Rattle.minima.specs.Private.{NextLined};

use block::Blocks;
use river::{Lined, River};
use series::{Refusal, refuse_if};

// The setting of a line: the block length N in days, and the factor g of the turning points in ten-thousandths.
#[derive(Clone, Copy, Debug, PartialEq, Eq)]
pub struct LineSetting {
    pub block_days: u32,
    pub factor: u32,
}

// 16: N or g lies outside its range.
#[tactic(auto, unfolding(crate::specs::Call::out_of_range, series::specs::Units::within))]
pub fn out_of_range(setting: LineSetting) -> bool
    ensures { result ≡ out_of_range setting }
{
    !((1..=30).contains(&setting.block_days) && (1..=9999).contains(&setting.factor))
}

// The blocks of a setting that run from `shift` days into each segment.
fn blocks_at(setting: LineSetting, shift: usize) -> Blocks
    ensures { result ≡ blocks_at setting shift }
{
    Blocks {
        days: setting.block_days as usize, // Kept: `as`, since std has no From here, and TryFrom would add an error.
        factor: setting.factor,
        origin: shift,
    }
}

// The causes of refusal, in the call's order; the last by the first segment with a line.
#[tactic(auto, unfolding(crate::specs::Call::line_causes, series::specs::Lists::list_causes), using(crate::proofs::AllSegments::none_lined))]
fn check(
    setting: LineSetting,
    days: &[u32],
    base: &[u64],
    first: Option<Lined>,
) -> Result<(), Refusal>
    requires { NextLined (blocks_of setting) days.now 0 first }
    ensures { Decides (line_causes setting days.now base.now) result }
{
    refuse_if(out_of_range(setting), Refusal::LineSettingOutOfRange)?;
    series::check_lists(days, base)?;
    refuse_if(first.is_none(), Refusal::NoLine)
}

// The minima line of a day list, into a base list of the same length.
#[tactic(auto, using(crate::proofs::Acceptance::checked_room, crate::proofs::Acceptance::checked_drawn))]
pub fn line(setting: LineSetting, days: &[u32], base: &mut [u64]) -> Result<(), Refusal>
    ensures result_value { refusal_of result ≡ first_cause (line_causes setting days.now base.old) }
    ensures base_after { base.new ≡ line_leaves setting days.now base.old }
{
    let blocks = blocks_at(setting, 0);
    let river = River { blocks, days };
    let first = river.next_lined(0);
    check(setting, days, base, first)?;
    river.draw(base, first);
    Ok(())
}

// For the staggered lines: the line of blocks that run from `shift` days into each segment, ..
pub fn shifted_line(setting: LineSetting, shift: usize, days: &[u32], base: &mut [u64])
    requires { (length days.now ≤ 36525) × (length days.now ≡ length base.old) }
    ensures { base.new ≡ line_list (blocks_at setting shift) days.now }
{
    let blocks = blocks_at(setting, shift);
    let river = River { blocks, days };
    river.draw(base, river.next_lined(0));
}

// .. and whether no segment has it.
pub fn no_shifted_line(setting: LineSetting, shift: usize, days: &[u32]) -> bool
    ensures { result ≡ no_line (blocks_at setting shift) (map day_of days.now) }
{
    let blocks = blocks_at(setting, shift);
    let river = River { blocks, days };
    river.next_lined(0).is_none()
}
