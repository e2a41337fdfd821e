//! The rates of a voice packet.
ghost use Rattle.std.specs.Prelude.{◌≡◌};
ghost use Rattle.service.specs.Rates.{rate_is};
ghost use Rattle.service.specs.Names.{NamesRate};

use crate::refusals::Refusal;

/// The rate of a packet, as a share of Rate 1.
#[derive(Clone, Copy, PartialEq, Eq, Debug)]
pub enum Rate {
    /// Rate 1/8.
    Eighth = 1,
    /// Rate 1/4.
    Quarter = 2,
    /// Rate 1/2.
    Half = 3,
    /// Rate 1.
    Full = 4,
}

impl TryFrom<u8> for Rate {
    type Error = Refusal;

    ghost try_from_gives = { NamesRate };

    /// The rate that calls name by this number, or refusal 17.
    fn try_from(number: u8) -> Result<Rate, Refusal> {
        match number {
            1 => Ok(Rate::Eighth),
            2 => Ok(Rate::Quarter),
            3 => Ok(Rate::Half),
            4 => Ok(Rate::Full),
            _ => Err(Refusal::Codes),
        }
    }
}

impl From<Rate> for u8 {
    ghost from_gives = { λ rate number. number ≡ (rate_is rate).number };

    /// The number by which calls name the rate.
    fn from(rate: Rate) -> u8 {
        rate as u8
    }
}

impl Rate {
    /// How many bits a packet has.
    pub fn packet_bits(self) -> usize
        ensures { result ≡ (rate_is self).bits }
    {
        match self {
            Rate::Eighth => 16,
            Rate::Quarter => 40,
            Rate::Half => 80,
            Rate::Full => 171,
        }
    }

    /// How many bytes hold a packet.
    pub fn packet_bytes(self) -> usize
        ensures { result ≡ (rate_is self).bytes }
    {
        self.packet_bits().div_ceil(8)
    }

    /// How many pitch subframes a frame has: PLAG and PGAIN stand once for each.
    pub fn pitch_subframes(self) -> usize
        ensures { result ≡ (rate_is self).pitch_subframes }
    {
        match self {
            Rate::Eighth => 0,
            Rate::Quarter => 1,
            Rate::Half => 2,
            Rate::Full => 4,
        }
    }

    /// How many codebook subframes a frame has: CBGAIN stands once for each, and CBINDEX too but at Rate 1/8.
    pub fn codebook_subframes(self) -> usize
        ensures { result ≡ (rate_is self).codebook_subframes }
    {
        match self {
            Rate::Eighth => 1,
            Rate::Quarter => 2,
            Rate::Half => 4,
            Rate::Full => 8,
        }
    }
}
