// The entries of a record: a byte that tells the kind, and its body. Numbers are read from the caller's bytes, where they
// stand.
ghost use Rattle.std.specs.Prelude.{◌≡◌, ◌<◌, ◌≤◌, length, take, drop, MatchOption, MatchResult};
ghost use Rattle.std.specs.Iterator.{at_most};
ghost use Rattle.std.proofs.Math.Option.{some, none};
ghost use Rattle.series.specs.declared.Refusal.TheVariants.{UnknownKind};
ghost use Rattle.record.specs.Entries.{kind_of, body_length, out_of_range, days_of};
ghost use Rattle.record.specs.Private.{OfKind, left, NextEntry};
ghost use Rattle.record.specs.Writing.{byte_of};

use series::{FLOW_LIMIT, Refusal};

// The largest first day, as days since 1 January 1900.
pub(crate) const FIRST_DAY_LIMIT: u32 = 99_999;
// The most missing days of one entry.
const GAP_LIMIT: u32 = 65_535;

// The kinds of entry, in document 01's order, each with its byte.
#[derive(Clone, Copy, Debug, PartialEq, Eq)]
pub(crate) enum Kind {
    // 01: the first day
    Head = 0x01,
    // 02: one day's flow
    Flow = 0x02,
    // 03: one missing day
    MissingDay = 0x03,
    // 04: a number of missing days
    MissingDays = 0x04,
    // 09: the number of days
    End = 0x09,
}

impl Kind {
    // The byte that names it.
    // Kept: `as`, which reads the byte that the enum gives each kind.
    pub(crate) fn byte(self) -> u8
        ensures { result ≡ byte_of self }
    {
        self as u8
    }

    // How many bytes its body has.
    fn body_len(self) -> usize
        ensures { result ≡ body_length (some self) }
    {
        match self {
            Kind::MissingDay => 0,
            Kind::MissingDays => 2,
            Kind::Head | Kind::Flow | Kind::End => 4,
        }
    }
}

// The kind that a byte names.
impl TryFrom<u8> for Kind {
    type Error = Refusal;

    ghost try_from_gives = { λ byte r. MatchResult r (λ kind. kind_of byte ≡ some kind) (λ e. (kind_of byte ≡ none) × (e ≡ UnknownKind)) };

    #[tactic(auto, unfolding(crate::specs::Entries::kind_of))]
    fn try_from(byte: u8) -> Result<Kind, Refusal> {
        match byte {
            1 => Ok(Kind::Head),
            2 => Ok(Kind::Flow),
            3 => Ok(Kind::MissingDay),
            4 => Ok(Kind::MissingDays),
            9 => Ok(Kind::End),
            _ => Err(Refusal::UnknownKind),
        }
    }
}

// An entry: its kind, the value of its body (0 where it has none), and the bytes behind it.
#[derive(Clone, Copy)]
// Kept: kind and value side by side, 0 where a kind has no body: an enum with bodies would be taken apart into these two at each
// clause, which speak of the definition's entry.
pub(crate) struct Entry<'a> {
    pub(crate) kind: Kind,
    pub(crate) value: u32,
    pub(crate) behind: &'a [u8],
}

impl<'a> Entry<'a> {
    // The entry of a kind whose body stands in `bytes` from a position on, the lowest byte of its number first; none where
    // they end within the body.
    #[tactic(auto, using(series::proofs::Bytes::two_read, series::proofs::Bytes::four_read), unfolding(series::specs::Units::number))]
    pub(crate) fn of_kind(kind: Kind, bytes: &'a [u8], at: usize) -> Option<Entry<'a>>
        requires { at ≤ length bytes.now }
        ensures { MatchOption result (length (drop at bytes.now) < body_length (some kind)) (λ entry. OfKind kind (drop at bytes.now) entry) }
    {
        let value = match kind {
            Kind::MissingDay => 0,
            Kind::MissingDays => {
                let body = bytes.get(at..at + 2)?.first_chunk::<2>()?;
                u32::from(u16::from_le_bytes(*body))
            }
            Kind::Head | Kind::Flow | Kind::End => {
                let body = bytes.get(at..at + 4)?.first_chunk::<4>()?;
                u32::from_le_bytes(*body)
            }
        };
        Some(Entry {
            kind,
            value,
            behind: &bytes[at + kind.body_len()..],
        })
    }

    // Its value is outside the range of its kind: first day, flow, count of missing days.
    #[tactic(auto, unfolding(series::specs::Units::within))]
    pub(crate) fn is_out_of_range(self) -> bool
        ensures { result ≡ out_of_range (some self.entry.kind) self.entry.value }
    {
        match self.kind {
            Kind::Head => !(0..=FIRST_DAY_LIMIT).contains(&self.value),
            Kind::Flow => !(0..=FLOW_LIMIT).contains(&self.value),
            Kind::MissingDays => !(1..=GAP_LIMIT).contains(&self.value),
            Kind::MissingDay | Kind::End => false,
        }
    }

    // How many days it states.
    pub(crate) fn day_count(self) -> usize
        ensures { result ≡ length (days_of (some self.entry.kind) self.entry.value) }
    {
        match self.kind {
            Kind::Flow | Kind::MissingDay => 1,
            // Kept: `as`, since std has no From between u32 and usize, and TryFrom would add an error that never comes.
            Kind::MissingDays => self.value as usize,
            Kind::Head | Kind::End => 0,
        }
    }
}

// The entries of days in bytes from a position on, up to what is no whole one. (By position, since a slice that gets shorter
// costs its walks up to twice the time.)
#[derive(Drop)]
pub(crate) struct Entries<'a> {
    bytes: &'a [u8],
    at: usize,
}

impl<'a> Entries<'a> {
    // From the start on.
    pub(crate) fn of(bytes: &'a [u8]) -> Entries<'a>
        ensures { left result ≡ bytes.now }
    {
        Entries { bytes, at: 0 }
    }
}

impl<'a> Iterator for Entries<'a> {
    type Item = Entry<'a>;

    ghost next_gives = { λ s r t. NextEntry (left s) r (left t) };

    ghost remaining = { λ s. at_most (length (left s)) };

    fn next(&mut self) -> Option<Entry<'a>> {
        let kind = Kind::try_from(*self.bytes.get(self.at)?).ok()?;
        if matches!(kind, Kind::Head | Kind::End) {
            return None;
        }
        let entry = Entry::of_kind(kind, self.bytes, self.at + 1)?;
        self.at += 1 + kind.body_len();
        Some(entry)
    }
}
