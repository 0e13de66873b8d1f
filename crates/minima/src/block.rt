// Blocks of a segment, and the turning points among their minima.
ghost use Rattle.std.specs.Prelude.{◌≡◌, ◌*◌};
ghost use Rattle.minima.specs.Blocks.{block_count};
ghost use Rattle.minima.specs.TurningPoints.{turns};

// The blocks of a segment: their length in days, the factor of their turning points in ten-thousandths, and the day of
// the segment from which they run.
#[derive(Clone, Copy)]
pub(crate) struct Blocks {
    pub days: usize,
    pub factor: u32,
    pub origin: usize,
}

impl Blocks {
    // How many a segment has; without a length there are none.
    #[tactic(auto, unfolding(crate::specs::Blocks::block_count))]
    pub(crate) fn count(self, flows: &[u32]) -> usize
        ensures { result ≡ block_count self flows.now }
    {
        let days = flows.len().saturating_sub(self.origin);
        days.checked_div(self.days).unwrap_or(0)
    }
}

// A block's minimum, where a turning point lies or from where one is looked for: its day, its block and the day of the
// next block's minimum.
#[derive(Clone, Copy)]
pub(crate) struct Turning {
    pub day: usize,
    pub block: usize,
    pub after: usize,
}

// The first two turning points of a segment, with which its line begins.
#[derive(Clone, Copy)]
pub(crate) struct Points {
    pub first: Turning,
    pub second: Turning,
}

fn times(factor: u32, flow: u32) -> u64
    ensures { result ≡ factor * flow }
{
    u64::from(factor) * u64::from(flow)
}

// The test of a turning point, by the flows of three minima. A dry block turns whatever is beside it.
#[tactic(auto, unfolding(crate::specs::TurningPoints::turns))]
pub(crate) fn turns(g: u32, left: u32, middle: u32, right: u32) -> bool
    ensures { result ≡ turns g left middle right }
{
    if middle == 0 {
        return true;
    }
    let low = times(g, middle);
    low < times(10_000, left) && low < times(10_000, right)
}
