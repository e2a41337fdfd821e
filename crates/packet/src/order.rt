//! The 35 codes of a frame in order: LSP 1 to 10, PLAG 1 to 4, PGAIN 1 to 4, CBINDEX 1 to 8, CBGAIN 1 to 8 and CBSEED.
ghost use Rattle.std.specs.Prelude.{◌≡◌, ◌+◌, ◌++◌, ◌≤◌, length, take, drop};
ghost use Rattle.packet.specs.Codes.{in_order, numbers_of};

use crate::codes::CodeNumbers;
use packet_layout::{CodeName, CodebookCodes, PitchCodes};

// Where the codes of each name begin.
const PLAG: usize = CodeName::Plag as usize;

const PGAIN: usize = CodeName::Pgain as usize;

const CBINDEX: usize = CodeName::Cbindex as usize;

const CBGAIN: usize = CodeName::Cbgain as usize;

const CBSEED: usize = CodeName::Cbseed as usize;

impl CodeNumbers {
    /// The codes of a list: LSP 1 to 10, PLAG 1 to 4, PGAIN 1 to 4, CBINDEX 1 to 8, CBGAIN 1 to 8 and CBSEED.
    pub fn from_order(codes: [u8; 35]) -> CodeNumbers
        ensures { result ≡ numbers_of codes }
    {
        CodeNumbers {
            lsp: part(&codes, 0),
            pitch: PitchCodes {
                plag: part(&codes, PLAG),
                pgain: part(&codes, PGAIN),
            },
            codebook: CodebookCodes {
                cbindex: part(&codes, CBINDEX),
                cbgain: part(&codes, CBGAIN),
            },
            cbseed: codes[CBSEED],
        }
    }

    /// The codes as a list: LSP 1 to 10, PLAG 1 to 4, PGAIN 1 to 4, CBINDEX 1 to 8, CBGAIN 1 to 8 and CBSEED.
    #[tactic(auto, using(crate::proofs::Fields::order_put))]
    pub fn in_order(self) -> [u8; 35]
        ensures { result ≡ in_order self }
    {
        let mut codes = [0; 35];
        put(&mut codes, 0, &self.lsp);
        put(&mut codes, PLAG, &self.pitch.plag);
        put(&mut codes, PGAIN, &self.pitch.pgain);
        put(&mut codes, CBINDEX, &self.codebook.cbindex);
        put(&mut codes, CBGAIN, &self.codebook.cbgain);
        codes[CBSEED] = self.cbseed;
        codes
    }
}

// N codes, from a place on.
fn part<const N: usize>(codes: &[u8; 35], from: usize) -> [u8; N]
    requires { from + N ≤ 35 }
    ensures { result ≡ take N (drop from codes.now) }
{
    codes[from..from + N].try_into().unwrap()
}

// Writes codes from a place on. Nothing is said of what stands past them.
#[tactic(auto, using(crate::proofs::Fields::put_none, crate::proofs::Fields::put_more, crate::proofs::Fields::put_all))]
fn put(order: &mut [u8; 35], from: usize, codes: &[u8])
    requires { from + length codes.now ≤ 35 }
    ensures { take (from + length codes.now) order.new ≡ take from order.old ++ codes.now }
{
    for (i, code) in codes.iter().enumerate() {
        order[from + i] = *code;
    }
}
