// One segment: its turning points, one after the other, and its line.
ghost use Rattle.std.specs.Prelude.{◌≡◌, map, ◌≤◌, ◌<◌, length};
ghost use Rattle.numbers.specs.Arithmetic.{rounded};
ghost use Rattle.series.specs.Units.{base_mark};
ghost use Rattle.minima.specs.Blocks.{block_count, lowest, earliest, minimum_day};
ghost use Rattle.minima.specs.Line.{line};
ghost use Rattle.minima.specs.Private.{Low, Found, FirstPoints, FirstTwo, Room};

use crate::block::{Blocks, Points, Turning, turns};
use crate::piece::Piece;

// The day of the lowest flow, the earliest such.
// Kept: a loop, since with `min_by_key`, which proves, the line at blocks of 5 days with the gaps at the end takes 1.18 times as
// long: 0.94 to 1.11 of the C's time, where 1.1 is the most that a call may take; with this loop it takes 0.80 to 0.90.
fn lowest_day(flows: &[u32]) -> usize
    requires { 0 < length flows.now }
    ensures day { result ≡ earliest (lowest flows.now) flows.now }
    ensures inside { result < length flows.now }
{
    let mut low = 0;
    let mut lowest = flows[0];
    // From the second day on, by its number: with blocks of one day the first is all there is.
    for t in 1..flows.len() {
        let flow = flows[t];
        if flow < lowest {
            low = t;
            lowest = flow;
        }
    }
    low
}

// A segment's flows, its blocks and their number.
#[derive(Clone, Copy)]
pub(crate) struct Segment<'a> {
    blocks: Blocks,
    flows: &'a [u32],
    count: usize,
    ghost counted: { count ≡ block_count blocks flows.now },
}

impl<'a> Segment<'a> {
    pub(crate) fn new(blocks: Blocks, flows: &'a [u32]) -> Self
        ensures blocks_kept { result.blocks ≡ blocks }
        ensures flows_kept { result.flows.now ≡ flows.now }
    {
        Segment {
            blocks,
            flows,
            count: blocks.count(flows),
        }
    }

    // The day of a block's minimum.
    #[tactic(auto, using(crate::proofs::Minima::block_inside, crate::proofs::Minima::block_part, crate::proofs::Minima::block_some))]
    fn minimum_day(&self, k: usize) -> usize
        requires { k < self.now.count }
        ensures day { result ≡ minimum_day self.now.blocks self.now.flows.now k }
        ensures inside { result < length self.now.flows.now }
    {
        let start = self.blocks.origin + k * self.blocks.days;
        start + lowest_day(&self.flows[start..start + self.blocks.days])
    }

    // The first turning point behind a block: the middle of three from that block on. Each minimum is found once. (Inlined:
    // as a call for each turning point, a line takes up to 1.2 times as long.)
    #[inline(always)]
    pub(crate) fn next_turning(&self, at: Turning) -> Option<Turning>
        requires { Low self.now.blocks self.now.flows.now at }
        ensures { Found self.now.blocks self.now.flows.now at.block result }
    {
        let Segment {
            blocks,
            flows,
            count,
        } = *self;
        let mut left = at;
        // Kept: by the block's number, by which a turning point is told; the blocks are no list that an iterator could walk.
        for k in at.block + 2..count {
            let middle = Turning {
                day: left.after,
                block: left.block + 1,
                after: self.minimum_day(k),
            };
            let turns = turns(
                blocks.factor,
                flows[left.day],
                flows[middle.day],
                flows[middle.after],
            );
            if turns {
                return Some(middle);
            }
            left = middle;
        }
        None
    }

    // The first two turning points of a segment.
    pub(crate) fn first_two(&self) -> Option<Points>
        ensures { FirstTwo self.now.blocks self.now.flows.now result }
    {
        if self.count < 3 {
            return None;
        }
        let first = self.next_turning(Turning {
            day: self.minimum_day(0),
            block: 0,
            after: self.minimum_day(1),
        })?;
        let second = self.next_turning(first)?;
        Some(Points { first, second })
    }

    // The line from the first two turning points on.
    pub(crate) fn draw(&self, base: &mut [u64], points: Points)
        requires room { Room self.now.flows.now base.old }
        requires first_two { FirstPoints self.now.blocks self.now.flows.now points }
        ensures { base.new ≡ map base_mark (line rounded self.now.blocks self.now.flows.now) }
    {
        let Points { first, second } = points;
        base[..first.day].fill(series::NO_VALUE);
        base[first.day] = 1000 * u64::from(self.flows[first.day]);
        let mut left = first;
        let mut next = Some(second);
        while let Some(right) = next {
            Piece::new(self.flows, left.day, right.day).fill(base);
            left = right;
            next = self.next_turning(right);
        }
        base[left.day + 1..].fill(series::NO_VALUE);
    }
}
