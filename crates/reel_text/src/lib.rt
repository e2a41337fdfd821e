//! The text of a reel: a line for each record, and a verdict.
#![tactic(auto)]

ghost use Rattle.std.specs.Prelude.{◌≡◌, IfOk, Some, string_bytes};
ghost use Rattle.reel.specs.Layout.{count};
ghost use Rattle.reel.specs.Records.{record_is};
ghost use Rattle.reel.specs.Reels.{bytes_of};
ghost use Rattle.reel.specs.Tests.{fault};
ghost use Rattle.service.specs.Refusals.{fault_is};
ghost use Rattle.service.specs.Texts.{refused_text};
ghost use Rattle.reel_text.specs.Text.{answer_text, record_text, record_lines, reel_text, verdict_text};

use packet_hex::packet_text;
use reel::{Record, Reel};
use service::Fault;
use std::alloc::{AllocError, Global};
use std::fmt;

/// The whole text of a reel: a line for each record and the verdict, or the refusal alone.
pub fn listing(heap: Global, bytes: &[u8]) -> Result<String, AllocError>
    ensures { IfOk result (λ s. string_bytes s ≡ reel_text bytes.now) }
{
    let reel = Reel::new(bytes);
    let mut text = match &reel {
        Ok(reel) => record_lines(heap, reel)?,
        Err(_) => String::new(heap),
    };
    let verdict = Verdict(reel.map(|reel| reel.record_count()));
    writeln!(text, "{verdict}")?;
    Ok(text)
}

/// The text of a record under its number: what it is, and its bytes.
pub fn record_text(heap: Global, number: usize, item: Record<'_>) -> Result<String, AllocError>
    ensures { IfOk result (λ s. string_bytes s ≡ record_text number (record_is item.entry)) }
{
    let category = item.category();
    let bytes = packet_text(heap, item.bytes())?;
    format!(in heap; "{number};{category};{bytes}")
}

/// The text of the verdict on a reel: how many records it has, or its fault.
pub fn verdict_text(heap: Global, verdict: Result<usize, Fault>) -> Result<String, AllocError>
    ensures { IfOk result (λ s. string_bytes s ≡ verdict_text verdict) }
{
    let verdict = Verdict(verdict);
    format!(in heap; "{verdict}")
}

/// The text of what the check of a reel answers.
pub fn answer_text(heap: Global, bytes: &[u8]) -> Result<String, AllocError>
    ensures { IfOk result (λ s. string_bytes s ≡ answer_text (fault bytes.now)) }
{
    match Reel::new(bytes) {
        Ok(_) => String::from_str(heap, "ok"),
        Err(fault) => refused_text(heap, fault),
    }
}

/// The text of a fault: its number, and the record that it names.
pub fn refused_text(heap: Global, fault: Fault) -> Result<String, AllocError>
    ensures { IfOk result (λ s. string_bytes s ≡ refused_text (fault_is fault)) }
{
    format!(in heap; "{fault}")
}

/// The lines of all records.
#[tactic(auto, using(crate::proofs::Lines::lines_none, crate::proofs::Lines::lines_more))]
fn record_lines(heap: Global, reel: &Reel<'_>) -> Result<String, AllocError>
    ensures { IfOk result (λ s. string_bytes s
        ≡ record_lines (bytes_of reel.now) (count (bytes_of reel.now))) }
{
    let mut text = String::new(heap);
    for (k, item) in reel.iter().enumerate() {
        let row = record_text(heap, k + 1, item)?;
        writeln!(text, "{row}")?;
    }
    Ok(text)
}

/// The verdict on a reel: how many records it has, or its fault.
#[derive(Clone, Copy)]
struct Verdict(Result<usize, Fault>);

impl fmt::Display for Verdict {
    ghost output = { λ verdict. Some (verdict_text verdict.0) };

    /// Writes the last line.
    fn fmt<W: fmt::Write>(&self, f: &mut fmt::Formatter<W>) -> fmt::Result {
        match &self.0 {
            Ok(count) => write!(f, "ok {count}"),
            Err(fault) => fault.fmt(f),
        }
    }
}

#[cfg(test)]
mod tests {
    use super::*;
    use std::test::Fail;

    // Two packets at Rate 1/8.
    const TWO_PACKETS: &[u8; 36] = b"\
        \x02\x00\x00\x00\x10\x00\x00\x00\x20\x00\x00\x00\
        \x24\x00\x00\x00\x00\x00\x00\x00\x01\x02\x00\x00\
        \x02\x00\x00\x00\x01\x02\x00\x00\x00\x00\xff\xff\
    ";

    // Not assert_eq: in a function below a test it would need the bound Abort.
    fn check_text(heap: Global, bytes: &[u8], expected: &str) -> Result<(), Fail> {
        let text = listing(heap, bytes)?;
        if text.as_str() == expected {
            Ok(())
        } else {
            Err(Fail::from(text))
        }
    }

    #[test]
    fn lists_a_lawful_reel(rt: HostRuntime) -> Result<(), Fail> {
        check_text(
            rt.alloc(),
            TWO_PACKETS,
            "1;Rate 1/8;0000\n2;Rate 1/8;ffff\nok 2\n",
        )
    }

    #[test]
    fn names_the_first_fault(rt: HostRuntime) -> Result<(), Fail> {
        let heap = rt.alloc();
        let mut bytes = *TWO_PACKETS;
        bytes[31] = 1;
        check_text(heap, &bytes, "refused 7 2\n")?;
        bytes[29] = 3;
        check_text(heap, &bytes, "refused 6 2\n")?;
        bytes[20] = 7;
        check_text(heap, &bytes, "refused 5 1\n")?;
        bytes[12] = 35;
        check_text(heap, &bytes, "refused 2\n")?;
        check_text(heap, &bytes[0..15], "refused 1\n")
    }

    #[test]
    fn a_refused_reel_alters_nothing(rt: HostRuntime) {
        let bytes = *TWO_PACKETS;
        let mut reel = Reel::empty();
        assert!(rt; reel.load(&bytes).is_ok());
        assert!(rt; reel.load(&bytes[0..35]).is_err());
        assert_eq!(rt; reel.record_count(), 2);
    }
}
