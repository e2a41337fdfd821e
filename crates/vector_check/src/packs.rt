//! Packing, and unpacking what was packed, against its cases.
ghost use Rattle.std.specs.Prelude.{◌≡◌, IfOk, MatchResult, string_bytes};
ghost use Rattle.std.specs.Option.{option_map};
ghost use Rattle.packet_lines.specs.Answers.{Answers};
ghost use Rattle.vector_check.specs.Differences.{Finds, joined};
ghost use Rattle.vector_check.specs.Packs.{FindsPack, IsPackCase, IsRightPack, NamesPack, PackLine};

use crate::differences::{both, line_difference};
use crate::files::{CaseError, CaseFile, Malformed};
use crate::words::{first_word, last_word};
use std::alloc::{AllocError, Global};

/// A rate, the 35 codes and the packet.
pub(crate) struct PackFile;

impl CaseFile for PackFile {
    ghost is_case = { λ _. IsPackCase };

    ghost is_right = { λ _. IsRightPack };

    ghost names = { λ _. NamesPack };

    fn compare(&self, heap: Global, line: &str) -> Result<Option<String>, CaseError> {
        let case = pack_case(line)?;
        Ok(case.differences(heap)?)
    }
}

// The case of a line.
#[derive(Clone, Copy)]
struct PackCase<'a> {
    rate: &'a str,
    codes: &'a str,
    packet: &'a str,
}

// The parts of a line.
fn pack_case(line: &str) -> Result<PackCase<'_>, Malformed>
    ensures { MatchResult result (λ case. PackLine line.now case.rate.now case.codes.now case.packet.now)
        (λ _. IsPackCase line.now → ⊥) }
{
    let (rate, rest) = first_word(line).ok_or(Malformed::Packet)?;
    let (codes, packet) = last_word(rest).ok_or(Malformed::Codes)?;
    Ok(PackCase {
        rate,
        codes,
        packet,
    })
}

impl PackCase<'_> {
    // What differs, where the codes do not give the packet or the packet does not give the codes.
    fn differences(self, heap: Global) -> Result<Option<String>, AllocError>
        ensures { IfOk result (λ found. FindsPack self.entry.rate.now self.entry.codes.now self.entry.packet.now
            (option_map string_bytes found)) }
    {
        let PackCase {
            rate,
            codes,
            packet,
        } = self;
        let pack = format!(in heap; "pack {rate} {codes}")?;
        let unpack = format!(in heap; "unpack {rate} {packet}")?;
        let packed = line_difference(heap, pack.as_str(), packet)?;
        let unpacked = line_difference(heap, unpack.as_str(), codes)?;
        both(heap, packed, unpacked)
    }
}
