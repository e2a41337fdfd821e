//! Why a call refuses, each cause with its number and the place that it names.
ghost use Rattle.std.specs.Prelude.{◌≡◌, Some};
ghost use Rattle.service.specs.Refusals.{fault_is, refusal_is};
ghost use Rattle.service.specs.Texts.{refused_text};

use std::error::Error;
use std::fmt;

/// What a reel, an arrival or a packet can be faulted for. A record is counted from 1 on a reel.
#[derive(Clone, Copy, PartialEq, Eq, Debug)]
pub enum Fault {
    /// 1: the reel has under 16 or over 65,536 bytes.
    Size,
    /// 2: the reel's length field is not the number of its bytes.
    LengthField,
    /// 3: the reel has more than 2,048 records.
    RecordCount,
    /// 4: the reel's parts overlap or pass its end.
    Offsets,
    /// 5: the category of this record is above 6.
    UnknownCategory(u32),
    /// 6: the length of this record is not its category's.
    Length(u32),
    /// 7: one of the last two bytes of this record is not zero.
    Reserved(u32),
    /// 8: the packet of this record passes the reel's end.
    PastEnd(u32),
    /// 9: the spare bits of this record's Rate 1 packet are not zero.
    SpareBits(u32),
}

/// Why a call refused.
#[derive(Clone, Copy, PartialEq, Eq, Debug)]
pub enum Refusal {
    /// 1 to 9: a fault of a reel, an arrival or a packet.
    Faulty(Fault),
    /// 10: the frequency of this LSP, from 1, is out of range.
    Frequency(u8),
    /// 11: the pitch lag or gain of this subframe, from 1, is out of range.
    Pitch(u8),
    /// 12: the codebook index, increment or sign of this subframe, from 1, is out of range.
    Codebook(u8),
    /// 13: sixteen draws of the seed each gave a packet of all ones.
    Draws,
    /// 14: the line is full.
    LineFull,
    /// 15: no arrival of that number waits.
    NoArrival,
    /// 16: the output buffer is too short.
    ShortBuffer,
    /// 17: no such rate, a code too wide, or a code that the rate lacks.
    Codes,
    /// 18: the reel of a page is unlawful.
    UnlawfulReel,
}

impl Fault {
    /// The number that a caller sees, from 1 to 9.
    // Not From: it would be this same match, since a case that carries a place has no `as`.
    pub fn number(self) -> u8
        ensures { result ≡ (fault_is self).number }
    {
        match self {
            Fault::Size => 1,
            Fault::LengthField => 2,
            Fault::RecordCount => 3,
            Fault::Offsets => 4,
            Fault::UnknownCategory(_) => 5,
            Fault::Length(_) => 6,
            Fault::Reserved(_) => 7,
            Fault::PastEnd(_) => 8,
            Fault::SpareBits(_) => 9,
        }
    }

    /// The record that it names, if it names one.
    pub fn place(self) -> Option<u32>
        ensures { result ≡ (fault_is self).place }
    {
        match self {
            Fault::UnknownCategory(record)
            | Fault::Length(record)
            | Fault::Reserved(record)
            | Fault::PastEnd(record)
            | Fault::SpareBits(record) => Some(record),
            _ => None,
        }
    }
}

impl Refusal {
    /// The number that a caller sees, from 1 to 18.
    // Not From: it would be this same match, since a case that carries a place has no `as`.
    pub fn number(self) -> u8
        ensures { result ≡ (refusal_is self).number }
    {
        match self {
            Refusal::Faulty(fault) => fault.number(),
            Refusal::Frequency(_) => 10,
            Refusal::Pitch(_) => 11,
            Refusal::Codebook(_) => 12,
            Refusal::Draws => 13,
            Refusal::LineFull => 14,
            Refusal::NoArrival => 15,
            Refusal::ShortBuffer => 16,
            Refusal::Codes => 17,
            Refusal::UnlawfulReel => 18,
        }
    }

    /// The record, LSP or subframe that it names, if it names one.
    pub fn place(self) -> Option<u32>
        ensures { result ≡ (refusal_is self).place }
    {
        match self {
            Refusal::Faulty(fault) => fault.place(),
            Refusal::Frequency(lsp) => Some(u32::from(lsp)),
            Refusal::Pitch(subframe) | Refusal::Codebook(subframe) => Some(u32::from(subframe)),
            _ => None,
        }
    }
}

impl From<Fault> for Refusal {
    ghost from_gives = { λ fault refusal. refusal_is refusal ≡ fault_is fault };

    fn from(cause: Fault) -> Refusal {
        Refusal::Faulty(cause)
    }
}

impl fmt::Display for Refusal {
    ghost output = { λ refusal. Some (refused_text (refusal_is refusal)) };

    /// Writes the refusal's number, and the place that it names.
    fn fmt<W: fmt::Write>(&self, f: &mut fmt::Formatter<W>) -> fmt::Result {
        let number = self.number();
        match self.place() {
            Some(place) => write!(f, "refused {number} {place}"),
            None => write!(f, "refused {number}"),
        }
    }
}

impl fmt::Display for Fault {
    ghost output = { λ fault. Some (refused_text (fault_is fault)) };

    /// Writes what is written of the refusal.
    fn fmt<W: fmt::Write>(&self, f: &mut fmt::Formatter<W>) -> fmt::Result {
        Refusal::from(*self).fmt(f)
    }
}

impl Error for Refusal {}

impl Error for Fault {}
