//! The cases of a file, compared one by one.
ghost use Rattle.std.specs.Prelude.{◌≡◌, ℕ, ◌+◌, ◌<◌, ◌≤◌, ◌^◌, IfOk, MatchOption, OnOk, None, [], map, string_bytes};
ghost use Rattle.std.specs.Str.Lines.{lines};
ghost use Rattle.vector_check.specs.Tallies.{AddsLine, AddsRight, AddsWrong, Compares};

use crate::files::{CaseError, CaseFile, Malformed};
use crate::tallies::Tally;
use std::alloc::{AllocError, Global};

/// What comparing the cases of a file tells.
#[derive(Drop)]
pub(crate) struct Comparison {
    /// How many were compared, and how many of them differ.
    pub(crate) tally: Tally,
    /// What differs, a line for each answer.
    pub(crate) differences: String,
    /// Something if there is a line that does not have the form of the file. The first such line ends the comparison: it and
    /// what stands behind it are not compared.
    pub(crate) malformed: Option<Malformed>,
}

/// Compares the case of each line of a text with what the line says, up to the first that does not have the form of the
/// file.
pub(crate) fn compare<F: CaseFile>(
    heap: Global,
    file: &F,
    text: &str,
) -> Result<Comparison, AllocError>
    ensures { IfOk result (Compares (F.is_case file.now) (F.is_right file.now) (F.names file.now) (lines text.now)) }
{
    let lines = lines(heap, text)?;
    compare_lines(heap, file, &lines)
}

// The lines of a text.
fn lines(heap: Global, text: &str) -> Result<Vec<&str>, AllocError>
    ensures { IfOk result (λ v. map (λ line. line.now) v.items ≡ lines text.now) }
{
    text.lines().collect(heap)
}

// Compares the case of each of these lines.
fn compare_lines<F: CaseFile>(
    heap: Global,
    file: &F,
    lines: &[&str],
) -> Result<Comparison, AllocError>
    ensures { IfOk result (Compares (F.is_case file.now) (F.is_right file.now) (F.names file.now)
        (map (λ line. line.now) lines.now)) }
{
    let mut comparison = Comparison::new(heap);
    for line in lines {
        if let Some(reason) = comparison.compare_line(heap, file, line)? {
            comparison.malformed = Some(reason);
            return Ok(comparison);
        }
    }
    Ok(comparison)
}

impl Comparison {
    // Nothing was compared yet.
    fn new(heap: Global) -> Self
        ensures tally { (result.tally.compared ≡ 0) × (result.tally.differ ≡ 0) }
        ensures differences { string_bytes result.differences ≡ [] }
        ensures malformed { result.malformed ≡ None }
    {
        Comparison {
            tally: Tally::default(),
            differences: String::new(heap),
            malformed: None,
        }
    }

    // Compares the case of one more line. If it does not have the form of the file, a reason is answered, and then all is as it
    // was.
    fn compare_line<F: CaseFile>(
        &mut self,
        heap: Global,
        file: &F,
        line: &str,
    ) -> Result<Option<Malformed>, AllocError>
        requires room { self.old.tally.compared + 1 < 2 ^ 64 }
        requires within { self.old.tally.differ ≤ self.old.tally.compared }
        ensures { IfOk result (λ malformed. MatchOption malformed
            (AddsLine (F.is_case file.now line.now) (F.is_right file.now line.now) (F.names file.now line.now)
            self.old self.new)
            (λ _. (self.new ≡ self.old) × (F.is_case file.now line.now → ⊥))) }
    {
        match file.compare(heap, line) {
            Ok(None) => self.add_right(),
            Ok(Some(text)) => self.add_wrong(text.as_str())?,
            Err(CaseError::Line(reason)) => return Ok(Some(reason)),
            Err(CaseError::OutOfMemory) => return Err(AllocError),
        }
        Ok(None)
    }

    // One more line was right.
    fn add_right(&mut self)
        requires { self.old.tally.compared + 1 < 2 ^ 64 }
        ensures { AddsRight self.old self.new }
    {
        self.tally.compared += 1;
    }

    // One more line was not right, and this text names what differs.
    fn add_wrong(&mut self, text: &str) -> Result<(), AllocError>
        requires room { self.old.tally.compared + 1 < 2 ^ 64 }
        requires within { self.old.tally.differ ≤ self.old.tally.compared }
        ensures { OnOk result (AddsWrong self.old text.now self.new) }
    {
        self.tally.compared += 1;
        self.tally.differ += 1;
        writeln!(self.differences, "{text}")?;
        Ok(())
    }
}
