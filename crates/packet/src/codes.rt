//! The codes of a frame.
ghost use Rattle.std.specs.Prelude.{◌≡◌, ◌^◌, ◌++◌, ◌<◌, ◌≤◌, MatchBool, MatchResult, drop, length};
ghost use Rattle.service.specs.Rates.{rate_is};
ghost use Rattle.service.specs.Refusals.{refusal_is, refused};
ghost use Rattle.packet_layout.specs.CodeBits.{Fits, bits_at};
ghost use Rattle.packet.specs.Bits.{packet_of};
ghost use Rattle.packet.specs.Reading.{ReadsTo};
ghost use Rattle.packet.specs.Calls.{Holds, PacksCodes};
ghost use Rattle.packet.specs.Codes.{Within, with_cbseed};

use crate::kinds::{EighthPacket, FullPacket, HalfPacket, QuarterPacket};
use crate::lists::{CodeList, from_list, packet_list};
use crate::packing::{read, write};
use lsp::LspCodes;
use packet_layout::{CodeName, CodebookCodes, PitchCodes};
use service::{Category, Fault, Rate, Refusal};

// CBSEED has four bits.
const CBSEED_VALUES: u8 = 16;

// What faults name in place of a record: a packet that stands alone has none.
const NO_RECORD: u32 = 0;

/// The codes of a frame as plain numbers, with no check bits.
#[derive(Clone, Copy, PartialEq, Eq, Debug, Default)]
pub struct CodeNumbers {
    /// LSP 1 to 10.
    pub lsp: [u8; 10],
    /// PLAG and PGAIN.
    pub pitch: PitchCodes,
    /// CBINDEX and CBGAIN.
    pub codebook: CodebookCodes,
    /// CBSEED.
    pub cbseed: u8,
}

/// The codes of a frame at a rate: each is within its width, and those that the rate lacks are zero.
#[derive(Clone, Copy, PartialEq, Eq, Debug)]
pub struct Codes {
    /// The rate.
    pub rate: Rate,
    /// The codes as plain numbers.
    pub numbers: CodeNumbers,
    pub ghost within: { Within rate numbers },
}

impl Codes {
    ghost use Rattle.packet.specs.Unpacking.{UnpacksCodes};

    /// These codes, or refusal 17 if one is too wide for the rate or the rate lacks one that is not zero.
    pub fn new(rate: Rate, numbers: CodeNumbers) -> Result<Codes, Refusal>
        ensures { MatchResult result (λ c. (c.rate ≡ rate) × (c.numbers ≡ numbers))
            (λ e. (refusal_is e ≡ refused 17) × (Within rate numbers → ⊥)) }
    {
        if !within(rate, &numbers) {
            return Err(Refusal::Codes);
        }
        Ok(Codes { rate, numbers })
    }

    /// The rate.
    pub fn rate(self) -> Rate
        ensures { result ≡ self.rate }
    {
        self.rate
    }

    /// The codes as plain numbers.
    pub fn numbers(self) -> CodeNumbers
        ensures value { result ≡ self.numbers }
        ensures within { Within self.rate result }
    {
        self.numbers
    }

    /// The LSP codes, with the rate.
    #[tactic(auto, using(crate::proofs::Parts::lsp_within))]
    pub fn lsp(self) -> LspCodes
        ensures rate { result.rate ≡ self.rate }
        ensures codes { result.codes ≡ self.numbers.lsp }
    {
        let codes = self.numbers.lsp;
        LspCodes {
            rate: self.rate,
            codes,
        }
    }

    /// PLAG and PGAIN of each pitch subframe.
    pub fn pitch(self) -> PitchCodes
        ensures { result ≡ self.numbers.pitch }
    {
        self.numbers.pitch
    }

    /// CBINDEX and CBGAIN of each codebook subframe.
    pub fn codebook(self) -> CodebookCodes
        ensures { result ≡ self.numbers.codebook }
    {
        self.numbers.codebook
    }

    /// The codes with the lowest four bits of a number as CBSEED at Rate 1/8. The other rates have no CBSEED, and their codes
    /// stay as they are.
    #[tactic(auto, using(crate::proofs::Parts::seeded_within))]
    pub fn with_cbseed(self, cbseed: u8) -> Codes
        ensures rate { result.rate ≡ self.rate }
        ensures numbers { result.numbers ≡ with_cbseed self.rate cbseed self.numbers }
    {
        let mut numbers = self.numbers;
        if self.rate == Rate::Eighth {
            numbers.cbseed = cbseed % CBSEED_VALUES;
        }
        Codes {
            rate: self.rate,
            numbers,
        }
    }

    /// Writes the packet of the codes, with its check bits, from the buffer's start, keeps the rest of the buffer, and answers
    /// the packet's length; or refusal 16 if the buffer is too short, which leaves it as it was.
    pub fn pack(self, out: &mut [u8]) -> Result<usize, Refusal>
        ensures { PacksCodes self.rate self.numbers out.old out.new result }
    {
        let bytes = self.rate.packet_bytes();
        if out.len() < bytes {
            return Err(Refusal::ShortBuffer);
        }
        let list = packet_list(self.rate, &self.numbers);
        write_at(self.rate, &list, bytes, out);
        Ok(bytes)
    }

    /// The codes that a packet holds, whatever its check bits; or, with record 0, fault 6 if it does not have the length of
    /// the rate, and then fault 9 if a spare bit is set.
    pub fn unpack(rate: Rate, packet: &[u8]) -> Result<Codes, Fault>
        ensures { UnpacksCodes rate packet.now result }
    {
        let category = Category::from(rate);
        category.check_length(packet.len(), NO_RECORD)?;
        category.check_spare_bits(packet, NO_RECORD)?;
        let numbers = held(rate, packet);
        Ok(Codes { rate, numbers })
    }
}

// Writes the packet of the list at a rate.
fn write_at(rate: Rate, list: &CodeList, bytes: usize, out: &mut [u8])
    requires kind { bytes ≡ (rate_is rate).bytes }
    requires room { bytes ≤ length out.old }
    ensures { out.new ≡ packet_of rate list.now ++ drop bytes out.old }
{
    match rate {
        Rate::Full => write::<FullPacket>(list, bytes, out),
        Rate::Half => write::<HalfPacket>(list, bytes, out),
        Rate::Quarter => write::<QuarterPacket>(list, bytes, out),
        Rate::Eighth => write::<EighthPacket>(list, bytes, out),
    }
}

// The list that a packet holds at a rate.
fn read_at(rate: Rate, packet: &[u8]) -> CodeList
    requires { length packet.now ≡ (rate_is rate).bytes }
    ensures { ReadsTo rate (rate_is rate).bits packet.now result }
{
    let bits = rate.packet_bits();
    match rate {
        Rate::Full => read::<FullPacket>(packet, bits),
        Rate::Half => read::<HalfPacket>(packet, bits),
        Rate::Quarter => read::<QuarterPacket>(packet, bits),
        Rate::Eighth => read::<EighthPacket>(packet, bits),
    }
}

// The codes that a packet holds at a rate.
#[tactic(auto, using(crate::proofs::Held::read_narrow, crate::proofs::Held::read_holds))]
fn held(rate: Rate, packet: &[u8]) -> CodeNumbers
    requires { length packet.now ≡ (rate_is rate).bytes }
    ensures { Holds rate packet.now result }
{
    from_list(&read_at(rate, packet))
}

// How many bits the code of this name at an index has: none if the rate lacks it.
fn bits_at(rate: Rate, name: CodeName, index: usize) -> u32
    ensures { result ≡ bits_at rate name index }
{
    if index < name.count(rate) {
        name.width(rate)
    } else {
        0
    }
}

// Whether a code has at most so many bits.
#[tactic(auto, using(crate::proofs::Numbers::fits, crate::proofs::Numbers::fits_not))]
fn fits(code: u8, bits: u32) -> bool
    ensures { MatchBool result (code < 2 ^ bits) (2 ^ bits ≤ code) }
{
    code.unbounded_shr(bits) == 0
}

// Whether each code of a name is within its width.
fn all_fit(rate: Rate, name: CodeName, codes: &[u8]) -> bool
    ensures { MatchBool result (Fits rate name codes.now) (Fits rate name codes.now → ⊥) }
{
    codes
        .iter()
        .enumerate()
        .all(|(i, code)| fits(*code, bits_at(rate, name, i)))
}

// Whether all codes of a frame are within their widths.
fn within(rate: Rate, c: &CodeNumbers) -> bool
    ensures { MatchBool result (Within rate c.now) (Within rate c.now → ⊥) }
{
    all_fit(rate, CodeName::Lsp, &c.lsp)
        && all_fit(rate, CodeName::Plag, &c.pitch.plag)
        && all_fit(rate, CodeName::Pgain, &c.pitch.pgain)
        && all_fit(rate, CodeName::Cbindex, &c.codebook.cbindex)
        && all_fit(rate, CodeName::Cbgain, &c.codebook.cbgain)
        && all_fit(rate, CodeName::Cbseed, &[c.cbseed])
}
