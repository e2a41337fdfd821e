//! Where the parts of a reel lie.
ghost use Rattle.std.specs.Prelude.{◌≡◌, ◌+◌, ◌^◌, ◌<◌, ◌≤◌, length};
ghost use Rattle.reel.specs.Headers.{HeaderOf};
ghost use Rattle.reel.specs.Layout.{word};

/// How many bytes the header has.
pub(crate) const HEADER_BYTES: usize = 16;

/// Where the number of records stands.
const COUNT_AT: usize = 0;

/// Where the offset of the record list stands.
const LIST_AT: usize = 4;

/// Where the offset of the packet area stands.
const AREA_AT: usize = 8;

/// Where the reel's length stands.
const LENGTH_AT: usize = 12;

/// How many bytes a record has. The packet's place is at its start.
pub(crate) const RECORD_BYTES: usize = 8;

/// Where the category stands in a record.
pub(crate) const RECORD_CATEGORY_AT: usize = 4;

/// Where the packet's length stands in a record.
pub(crate) const RECORD_LENGTH_AT: usize = 5;

/// Where the first of the two zero bytes stands in a record.
pub(crate) const RECORD_ZERO_AT: usize = 6;

/// Where the last byte stands in a record.
pub(crate) const RECORD_LAST_AT: usize = 7;

/// The four numbers that a reel starts with.
#[derive(Clone, Copy, PartialEq, Eq, Debug)]
pub(crate) struct Header {
    /// How many records there are.
    pub(crate) count: usize,
    /// Where the record list starts.
    pub(crate) list: usize,
    /// Where the packet area starts.
    pub(crate) area: usize,
    /// How many bytes the reel has.
    pub(crate) length: usize,
}

impl Header {
    /// The header of a reel that is long enough to have one.
    pub(crate) fn read(bytes: &[u8]) -> Header
        requires { 16 ≤ length bytes.now }
        ensures { HeaderOf bytes.now result }
    {
        Header {
            count: word_at(bytes, COUNT_AT),
            list: word_at(bytes, LIST_AT),
            area: word_at(bytes, AREA_AT),
            length: word_at(bytes, LENGTH_AT),
        }
    }
}

/// The 32-bit number at an offset, low byte first.
pub(crate) fn word_at(bytes: &[u8], at: usize) -> usize
    requires { at + 4 ≤ length bytes.now }
    ensures value { result ≡ word bytes.now at }
    ensures bound { result < 2 ^ 32 }
{
    u32::from_le_bytes(*bytes[at..].first_chunk().unwrap()) as usize
}
