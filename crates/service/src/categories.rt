//! The categories in which a frame arrives, and what each asks of its packet.
ghost use Rattle.std.specs.Prelude.{◌≡◌, true, false, Some, MatchResult};
ghost use Rattle.service.specs.Categories.{category_is, packet as packet_of};
ghost use Rattle.service.specs.Rates.{rate_is};
ghost use Rattle.service.specs.Refusals.{fault_is, refused_at};
ghost use Rattle.service.specs.Tests.{unknown_category, wrong_length, spare_bits_set};
ghost use Rattle.service.specs.Texts.{category_text};

use crate::rates::Rate;
use crate::refusals::Fault;
use std::fmt;

/// How a frame arrived.
#[derive(Clone, Copy, PartialEq, Eq, Debug)]
pub enum Category {
    /// 0: a blank, a frame in which the sender sent no voice packet.
    Blank = 0,
    /// 1: a packet at Rate 1/8.
    Eighth = 1,
    /// 2: a packet at Rate 1/4.
    Quarter = 2,
    /// 3: a packet at Rate 1/2.
    Half = 3,
    /// 4: a packet at Rate 1.
    Full = 4,
    /// 5: suspect, a packet at Rate 1 with probable bit errors.
    Suspect = 5,
    /// 6: an erasure, a frame of insufficient quality.
    Erasure = 6,
}

/// The index of a Rate 1 packet's last byte: it has 22.
const LAST_BYTE: usize = 21;

/// The values of that byte's lowest five bits, which carry nothing: 22 bytes hold 176 bits, and a packet has 171.
const SPARE_VALUES: u8 = 1 << 5;

impl Category {
    /// The category of this number, or fault 5 at this place.
    // Not TryFrom: the fault names the place, for which a conversion of the number alone has no room.
    pub fn from_number(number: u8, place: u32) -> Result<Category, Fault>
        ensures { MatchResult result
            (λ category. (unknown_category number ≡ false) × ((category_is category).number ≡ number))
            (λ e. (unknown_category number ≡ true) × (fault_is e ≡ refused_at 5 place)) }
    {
        match number {
            0 => Ok(Category::Blank),
            1 => Ok(Category::Eighth),
            2 => Ok(Category::Quarter),
            3 => Ok(Category::Half),
            4 => Ok(Category::Full),
            5 => Ok(Category::Suspect),
            6 => Ok(Category::Erasure),
            _ => Err(Fault::UnknownCategory(place)),
        }
    }

    /// The rate of the packet; a blank and an erasure have none.
    pub fn rate(self) -> Option<Rate>
        ensures { result ≡ (category_is self).rate }
    {
        match self {
            Category::Blank | Category::Erasure => None,
            Category::Eighth => Some(Rate::Eighth),
            Category::Quarter => Some(Rate::Quarter),
            Category::Half => Some(Rate::Half),
            Category::Full | Category::Suspect => Some(Rate::Full),
        }
    }

    /// How many bytes the packet has; a blank and an erasure have none.
    pub fn packet_bytes(self) -> usize
        ensures { result ≡ (category_is self).bytes }
    {
        self.rate().map_or(0, |rate| rate.packet_bytes())
    }

    /// Passes the length of the category's packet, and answers fault 6 at this place for any other.
    pub fn check_length(self, length: usize, place: u32) -> Result<(), Fault>
        ensures { MatchResult result (λ _. wrong_length self length ≡ false)
            (λ e. (wrong_length self length ≡ true) × (fault_is e ≡ refused_at 6 place)) }
    {
        if length != self.packet_bytes() {
            return Err(Fault::Length(place));
        }
        Ok(())
    }

    /// Answers fault 9 at this place if a spare bit of the category's packet is set. Bytes past the packet's
    /// length are not looked at, and one that is missing counts as zero.
    pub fn check_spare_bits(self, packet: &[u8], place: u32) -> Result<(), Fault>
        ensures { MatchResult result (λ _. spare_bits_set self packet.now ≡ false)
            (λ e. (spare_bits_set self packet.now ≡ true) × (fault_is e ≡ refused_at 9 place)) }
    {
        if matches!(self, Category::Full | Category::Suspect) && spare_bits_set(packet) {
            return Err(Fault::SpareBits(place));
        }
        Ok(())
    }
}

/// Whether a spare bit of a Rate 1 packet is set. A byte that is missing counts as zero.
fn spare_bits_set(packet: &[u8]) -> bool
    ensures { result ≡ spare_bits_set Category.Full packet.now }
{
    packet
        .get(LAST_BYTE)
        .is_some_and(|byte| byte % SPARE_VALUES != 0)
}

impl fmt::Display for Category {
    ghost output = { λ category. Some (category_text category) };

    /// Writes what arrived, in words.
    fn fmt<W: fmt::Write>(&self, f: &mut fmt::Formatter<W>) -> fmt::Result {
        f.write_str(match self {
            Category::Blank => "blank",
            Category::Eighth => "Rate 1/8",
            Category::Quarter => "Rate 1/4",
            Category::Half => "Rate 1/2",
            Category::Full => "Rate 1",
            Category::Suspect => "suspect Rate 1",
            Category::Erasure => "erasure",
        })
    }
}

impl From<Category> for u8 {
    ghost from_gives = { λ category number. number ≡ (category_is category).number };

    /// The category's number, from 0 to 6.
    fn from(category: Category) -> u8 {
        category as u8
    }
}

impl From<Rate> for Category {
    ghost from_gives = { λ rate category. category_is category ≡ packet_of (rate_is rate).number rate };

    fn from(rate: Rate) -> Category {
        match rate {
            Rate::Eighth => Category::Eighth,
            Rate::Quarter => Category::Quarter,
            Rate::Half => Category::Half,
            Rate::Full => Category::Full,
        }
    }
}
