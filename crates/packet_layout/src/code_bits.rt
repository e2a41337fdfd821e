//! The bits of the codes, named as IS-96 names them.
ghost use Rattle.std.specs.Prelude.{◌≡◌};
ghost use Rattle.packet_layout.specs.CodeBits.{count, index, width};

use service::Rate;

/// The name of the codes of one kind. Its number is where its codes begin among the 36 of a frame, which stand in this order:
/// LSP 1 to 10, PLAG 1 to 4, PGAIN 1 to 4, CBINDEX 1 to 8, CBGAIN 1 to 8, CBSEED and PCB.
#[derive(Clone, Copy, PartialEq, Eq, Debug)]
pub enum CodeName {
    /// Line spectral pairs.
    Lsp = 0,
    /// Pitch lags.
    Plag = 10,
    /// Pitch gains.
    Pgain = 14,
    /// Codebook indexes.
    Cbindex = 18,
    /// Codebook gains.
    Cbgain = 26,
    /// The codebook seed of Rate 1/8.
    Cbseed = 34,
    /// The parity check bits of Rate 1.
    Pcb = 35,
}

impl CodeName {
    /// How many codes of this name a frame has: at Rate 1/8 CBSEED stands in place of CBINDEX, and only Rate 1 has PCB.
    pub fn count(self, rate: Rate) -> usize
        ensures { result ≡ count rate self }
    {
        match self {
            CodeName::Lsp => 10,
            CodeName::Plag | CodeName::Pgain => rate.pitch_subframes(),
            CodeName::Cbindex if rate == Rate::Eighth => 0,
            CodeName::Cbindex | CodeName::Cbgain => rate.codebook_subframes(),
            CodeName::Cbseed => usize::from(rate == Rate::Eighth),
            CodeName::Pcb => usize::from(rate == Rate::Full),
        }
    }

    /// How many bits each code of this name has, at a rate that has it.
    pub fn width(self, rate: Rate) -> u32
        ensures { result ≡ width rate self }
    {
        match self {
            CodeName::Lsp => match rate {
                Rate::Full => 4,
                Rate::Half => 2,
                Rate::Quarter | Rate::Eighth => 1,
            },
            CodeName::Plag | CodeName::Cbindex => 7,
            CodeName::Pgain => 3,
            CodeName::Cbgain if rate == Rate::Eighth => 2,
            CodeName::Cbgain => 3,
            CodeName::Cbseed => 4,
            CodeName::Pcb => 11,
        }
    }
}

/// A bit of a code.
#[derive(Clone, Copy, PartialEq, Eq, Debug)]
pub struct CodeBit {
    /// The name of the code.
    pub name: CodeName,
    /// The number of the code among those of its name, counted from 1; CBSEED and PCB have the number 1.
    pub number: u8,
    /// The number of the bit, counted from 0 at the lowest.
    pub bit: u8,
}

/// A code bit in short: `code_bit!(Lsp, 1, 3)` is LSP1[3].
#[macro_export]
macro_rules! code_bit {
    ($name:ident, $number:expr, $bit:expr) => {
        $crate::CodeBit {
            name: $crate::CodeName::$name,
            number: $number,
            bit: $bit,
        }
    };
}

impl CodeBit {
    /// Where the code stands among the 36 of a frame, counted from 0, if a frame has a code of this number. Any other number
    /// above 0 is counted on from the first code of the name, and 0 has the index before it, or 0.
    pub fn index(self) -> usize
        ensures { result ≡ index self }
    {
        (self.name as usize + usize::from(self.number)).saturating_sub(1)
    }
}
