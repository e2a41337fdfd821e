//! A record of a checked reel.
ghost use Rattle.std.specs.Prelude.{◌≡◌, length};
ghost use Rattle.service.specs.Categories.{category_is};
ghost use Rattle.reel.specs.Records.{record_is, record_of, ProperCase};

use service::Category;

/// What was recorded of one frame. The bytes of a packet are a part of the reel.
#[derive(Clone, Copy, PartialEq, Eq, Debug)]
pub enum Record<'a> {
    /// A frame in which no voice packet was sent.
    Blank,
    /// A frame of insufficient quality.
    Erasure,
    /// A packet, with the category in which it arrived.
    Packet { category: Category, bytes: &'a [u8] },
}

impl<'a> Record<'a> {
    /// The record of this category with this packet, which a blank and an erasure lack.
    pub(crate) fn new(category: Category, packet: &'a [u8]) -> Record<'a>
        requires { length packet.now ≡ (category_is category).bytes }
        ensures values { record_is result ≡ record_of category packet.now }
        ensures proper { ProperCase result }
    {
        match category {
            Category::Blank => Record::Blank,
            Category::Erasure => Record::Erasure,
            _ => Record::Packet {
                category,
                bytes: packet,
            },
        }
    }

    /// The category in which the frame arrived.
    pub fn category(self) -> Category
        ensures { result ≡ (record_is self.entry).category }
    {
        match self {
            Record::Blank => Category::Blank,
            Record::Erasure => Category::Erasure,
            Record::Packet { category, bytes: _ } => category,
        }
    }

    /// The bytes of the packet; a blank and an erasure have none.
    pub fn bytes(self) -> &'a [u8]
        ensures { result.now ≡ (record_is self.entry).bytes }
    {
        match self {
            Record::Blank | Record::Erasure => &[],
            Record::Packet { category: _, bytes } => bytes,
        }
    }
}
