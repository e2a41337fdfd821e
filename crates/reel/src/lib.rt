//! A reel of recorded frames: its check, and the records of a reel that passed.
#![tactic(auto)]

ghost use Rattle.std.specs.Prelude.{◌≡◌, ◌+◌, ◌-◌, false, is_some, Some, None, MatchOption, MatchResult};
ghost use Rattle.std.specs.Iterator.{at_most};
ghost use Rattle.service.specs.Refusals.{fault_is};
ghost use Rattle.reel.specs.Lawful.{Lawful};
ghost use Rattle.reel.specs.Layout.{count};
ghost use Rattle.reel.specs.Records.{RecordAt};
ghost use Rattle.reel.specs.Tests.{fault};

use checks::Layout;
use service::Fault;

mod checks;
mod layout;
mod records;

pub use records::Record;

/// The most bytes that a reel may have.
pub const MAX_BYTES: usize = 65_536;

/// A header alone: no records, and the record list and the packet area at its end.
const EMPTY: [u8; 16] = [0, 0, 0, 0, 16, 0, 0, 0, 16, 0, 0, 0, 16, 0, 0, 0];

/// A reel that passed its check.
#[derive(Clone, Copy, PartialEq, Eq, Debug)]
pub struct Reel<'a> {
    layout: Layout<'a>,
    ghost lawful: { is_some (fault layout.bytes.now) ≡ false },
}

impl<'a> Reel<'a> {
    ghost use Rattle.reel.specs.Reels.{bytes_of};

    /// The reel of these bytes, or the first test that they fail.
    pub fn new(bytes: &'a [u8]) -> Result<Reel<'a>, Fault>
        ensures answer { MatchResult result
            (λ reel. (fault bytes.now ≡ None) × (bytes_of reel ≡ bytes.now))
            (λ e. fault bytes.now ≡ Some (fault_is e)) }
        ensures lawful { MatchResult result (λ _. Lawful bytes.now) (λ _. Lawful bytes.now → ⊥) }
    {
        let layout = Layout::new(bytes)?;
        layout.check_records()?;
        Ok(Reel { layout })
    }

    /// A reel with no records, to load another into.
    pub fn empty() -> Reel<'a>
        ensures { count (bytes_of result) ≡ 0 }
    {
        Reel::new(&EMPTY).unwrap()
    }

    /// Checks the bytes of a reel. A lawful reel takes the place of this one; at a fault nothing is altered.
    pub fn load(&mut self, bytes: &'a [u8]) -> Result<(), Fault>
        ensures answer { MatchResult result
            (λ _. (fault bytes.now ≡ None) × (bytes_of self.new ≡ bytes.now))
            (λ e. (fault bytes.now ≡ Some (fault_is e)) × (self.new ≡ self.old)) }
        ensures lawful { MatchResult result (λ _. Lawful bytes.now) (λ _. Lawful bytes.now → ⊥) }
    {
        *self = Reel::new(bytes)?;
        Ok(())
    }

    /// How many records there are.
    pub fn record_count(&self) -> usize
        ensures { result ≡ count (bytes_of self.now) }
    {
        self.layout.count()
    }

    /// Record `k`, from 0; none if there are not so many.
    // Inlined: as a call it takes more than twice as long.
    #[inline(always)]
    #[tactic(auto, using(crate::proofs::First::record_passes))]
    pub fn record(&self, k: usize) -> Option<Record<'a>>
        ensures { RecordAt (bytes_of self.now) k result }
    {
        if self.layout.count() <= k {
            return None;
        }
        self.layout.record(k).ok()
    }

    /// The records, the first of the list first.
    pub fn iter(&self) -> Iter<'a>
        ensures { (result.reel ≡ self.now) × (result.at ≡ 0) }
    {
        Iter { reel: *self, at: 0 }
    }
}

/// The records of a reel that are left.
#[derive(Clone, Debug, Drop)]
pub struct Iter<'a> {
    /// The reel.
    pub reel: Reel<'a>,
    /// How many of its records were given; the next is the one at this place of the list, from 0.
    pub at: usize,
}

impl<'a> Iterator for Iter<'a> {
    ghost use Rattle.reel.specs.Reels.{bytes_of};

    type Item = Record<'a>;

    ghost next_gives = { λ old item new. (new.reel ≡ old.reel) × RecordAt (bytes_of old.reel) old.at item
        × MatchOption item (new.at ≡ old.at) (λ _. new.at ≡ old.at + 1) };

    ghost remaining = { λ iter. at_most (count (bytes_of iter.reel) - iter.at) };

    fn next(&mut self) -> Option<Record<'a>> {
        let record = self.reel.record(self.at)?;
        self.at += 1;
        Some(record)
    }
}
