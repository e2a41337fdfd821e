//! The check of a reel: its tests, in their order.
ghost use Rattle.std.specs.Prelude.{◌≡◌, ◌^◌, ◌<◌, true, false, length, Some, None, IfErr, MatchOption, MatchResult};
ghost use Rattle.service.specs.Categories.{category_is};
ghost use Rattle.service.specs.Refusals.{fault_is};
ghost use Rattle.reel.specs.Headers.{HeaderOf};
ghost use Rattle.reel.specs.Lawful.{Lawful};
ghost use Rattle.reel.specs.Layout.{count, part};
ghost use Rattle.reel.specs.Records.{IsRecord};
ghost use Rattle.reel.specs.Tests.{first, fault, header_tests, record_tests, past_end};

use crate::MAX_BYTES;
use crate::layout::{
    HEADER_BYTES, Header, RECORD_BYTES, RECORD_CATEGORY_AT, RECORD_LAST_AT, RECORD_LENGTH_AT,
    RECORD_ZERO_AT, word_at,
};
use crate::records::Record;
use service::{Category, Fault};

/// The most records that a reel may have.
const MAX_RECORDS: usize = 2_048;

/// The bytes of a reel whose header passed its tests, with that header.
#[derive(Clone, Copy, PartialEq, Eq, Debug)]
pub(crate) struct Layout<'a> {
    bytes: &'a [u8],
    header: Header,
    ghost read: { HeaderOf bytes.now header },
    ghost passed: { first (header_tests bytes.now) ≡ None },
}

impl<'a> Layout<'a> {
    /// The layout of these bytes, or the first test of their header that fails.
    #[tactic(auto, using(crate::proofs::First::fault_by_header, crate::proofs::Lawfulness::unlawful_from_some))]
    pub(crate) fn new(bytes: &'a [u8]) -> Result<Layout<'a>, Fault>
        ensures answer { MatchResult result (λ layout. layout.bytes.now ≡ bytes.now)
            (λ e. fault bytes.now ≡ Some (fault_is e)) }
        ensures lawful { IfErr result (λ _. Lawful bytes.now → ⊥) }
    {
        let length = bytes.len();
        if length < HEADER_BYTES || MAX_BYTES < length {
            return Err(Fault::Size);
        }
        let header = Header::read(bytes);
        if header.length != length {
            return Err(Fault::LengthField);
        }
        if MAX_RECORDS < header.count {
            return Err(Fault::RecordCount);
        }
        if header.list < HEADER_BYTES
            || header.area < header.list + RECORD_BYTES * header.count
            || length < header.area
        {
            return Err(Fault::Offsets);
        }
        Ok(Layout { bytes, header })
    }

    /// How many records there are.
    pub(crate) fn count(&self) -> usize
        ensures { result ≡ count self.now.bytes.now }
    {
        self.header.count
    }

    /// Passes a lawful reel, and answers the first test that any other fails.
    pub(crate) fn check_records(&self) -> Result<(), Fault>
        ensures answer { MatchResult result (λ _. fault self.now.bytes.now ≡ None)
            (λ e. fault self.now.bytes.now ≡ Some (fault_is e)) }
        ensures lawful { MatchResult result (λ _. Lawful self.now.bytes.now)
            (λ _. Lawful self.now.bytes.now → ⊥) }
    {
        // `try_for_each` was tried: it needs a `map(|_| ())` more, and neither clause was proved of it.
        for k in 0..self.header.count {
            self.record(k)?;
        }
        Ok(())
    }

    /// Record `k`, from 0, or the first of its tests that fails.
    // Inlined, so that a check of a reel makes no records: as a call it takes about twice as long.
    #[inline(always)]
    pub(crate) fn record(&self, k: usize) -> Result<Record<'a>, Fault>
        requires { k < count self.now.bytes.now }
        ensures { MatchResult result
            (λ x. (first (record_tests self.now.bytes.now k) ≡ None) × IsRecord self.now.bytes.now k x)
            (λ e. first (record_tests self.now.bytes.now k) ≡ Some (fault_is e)) }
    {
        let bytes = self.bytes;
        let at = self.header.list + RECORD_BYTES * k;
        let number = k as u32 + 1;
        let category = Category::from_number(bytes[at + RECORD_CATEGORY_AT], number)?;
        category.check_length(usize::from(bytes[at + RECORD_LENGTH_AT]), number)?;
        if bytes[at + RECORD_ZERO_AT] != 0 || bytes[at + RECORD_LAST_AT] != 0 {
            return Err(Fault::Reserved(number));
        }
        let start = self.header.area + word_at(bytes, at);
        let packet = packet_at(bytes, start, category).ok_or(Fault::PastEnd(number))?;
        category.check_spare_bits(packet, number)?;
        Ok(Record::new(category, packet))
    }
}

/// The packet of this category that starts at an offset, if it ends within the reel.
fn packet_at(bytes: &[u8], start: usize, category: Category) -> Option<&[u8]>
    requires { start < 2 ^ 63 }
    ensures { MatchOption result (past_end bytes.now start category ≡ true)
        (λ packet. (past_end bytes.now start category ≡ false)
        × (packet.now ≡ part bytes.now start category)
        × (length packet.now ≡ (category_is category).bytes)) }
{
    let size = category.packet_bytes();
    if size == 0 {
        return Some(&[]);
    }
    bytes.get(start..start + size)
}
