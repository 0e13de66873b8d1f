// Pieces of the line of one segment: from one turning point to the next.
ghost use Rattle.std.specs.Prelude.{◌≡◌, ◌≤◌, ◌<◌, length};
ghost use Rattle.numbers.specs.Arithmetic.{rounded};
ghost use Rattle.minima.specs.Blocks.{flow_on};
ghost use Rattle.minima.specs.Line.{between};
ghost use Rattle.minima.specs.Private.{Span, FilledTo};

// The piece from the turning point on day `left` to the next, on day `right`, and the flows of these two days.
#[derive(Clone, Copy)]
pub(crate) struct Piece<'a> {
    flows: &'a [u32],
    left: usize,
    right: usize,
    first: u32,
    last: u32,
    ghost span: { Span flows.now left right },
    ghost first_is: { first ≡ flow_on flows.now left },
    ghost last_is: { last ≡ flow_on flows.now right },
}

impl<'a> Piece<'a> {
    pub(crate) fn new(flows: &'a [u32], left: usize, right: usize) -> Self
        requires { Span flows.now left right }
        ensures flows_kept { result.flows.now ≡ flows.now }
        ensures days_kept { (result.left ≡ left) × (result.right ≡ right) }
    {
        Piece {
            flows,
            left,
            right,
            first: flows[left],
            last: flows[right],
        }
    }

    // The straight line between the two flows, and at most the flow.
    // Kept: `as u64`, since std has no From from usize, and TryFrom would add an error that never comes.
    fn value(&self, t: usize) -> u64
        requires { (self.now.left ≤ t) × (t ≤ self.now.right) }
        ensures { result ≡ between rounded self.now.flows.now self.now.left self.now.right t }
    {
        let from_left = u64::from(self.first) * ((self.right - t) as u64);
        let from_right = u64::from(self.last) * ((t - self.left) as u64);
        let straight = numbers::near_small(
            1000 * (from_left + from_right),
            (self.right - self.left) as u64,
        );
        let top = 1000 * u64::from(self.flows[t]);
        top.min(straight)
    }

    // The days behind the left turning point, up to the right one.
    pub(crate) fn fill(&self, base: &mut [u64])
        requires { length self.now.flows.now ≡ length base.old }
        ensures { FilledTo self.now.flows.now self.now.left self.now.right base.old base.new }
    {
        // Kept: by the day's number, by which the line is told; an iterator over the days between would count from the left one.
        for t in self.left + 1..self.right + 1 {
            base[t] = self.value(t);
        }
    }
}
