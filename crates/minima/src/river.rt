// A day list: its segments, and the line of each.
ghost use Rattle.std.specs.Prelude.{◌≡◌, ◌≤◌, length};
ghost use Rattle.minima.specs.Call.{line_list};
ghost use Rattle.minima.specs.Private.{segment_end, Apart, NextLined, Room};

use crate::block::{Blocks, Points};
use crate::segment::Segment;

// A segment with a line: its first day, the day behind its last, and its first two turning points.
#[derive(Clone, Copy)]
pub(crate) struct Lined {
    pub from: usize,
    pub end: usize,
    pub points: Points,
}

// A day list, and the blocks of its segments.
#[derive(Clone, Copy)]
pub(crate) struct River<'a> {
    pub blocks: Blocks,
    pub days: &'a [u32],
}

impl<'a> River<'a> {
    // The first missing day from day `from` on, or the list's end.
    fn segment_end(&self, from: usize) -> usize
        requires { from ≤ length self.now.days.now }
        ensures end { result ≡ segment_end self.now.days.now from }
        ensures inside { (from ≤ result) × (result ≤ length self.now.days.now) }
    {
        let rest = &self.days[from..];
        let present = rest.iter().position(|day| *day == series::MISSING);
        from + present.unwrap_or(rest.len())
    }

    // The next segment with a line, from day `from` on.
    // Kept: a loop from segment to segment, since `split` hands them over without their places, which would be counted beside it.
    pub(crate) fn next_lined(&self, from: usize) -> Option<Lined>
        requires { (from ≤ length self.now.days.now) × Apart self.now.blocks self.now.days.now from }
        ensures { NextLined self.now.blocks self.now.days.now from result }
    {
        let mut from = from;
        while from < self.days.len() {
            let end = self.segment_end(from);
            let segment = Segment::new(self.blocks, &self.days[from..end]);
            if let Some(points) = segment.first_two() {
                return Some(Lined { from, end, points });
            }
            from = end + 1;
        }
        None
    }

    // The lines of all segments, from the first that has one on, and no value on the days between them.
    pub(crate) fn draw(&self, base: &mut [u64], first: Option<Lined>)
        requires room { Room self.now.days.now base.old }
        requires next_lined { NextLined self.now.blocks self.now.days.now 0 first }
        ensures { base.new ≡ line_list self.now.blocks self.now.days.now }
    {
        let mut t = 0;
        let mut next = first;
        while let Some(Lined { from, end, points }) = next {
            base[t..from].fill(series::NO_VALUE);
            let segment = Segment::new(self.blocks, &self.days[from..end]);
            segment.draw(&mut base[from..end], points);
            t = end;
            next = self.next_lined(end);
        }
        base[t..].fill(series::NO_VALUE);
    }
}
