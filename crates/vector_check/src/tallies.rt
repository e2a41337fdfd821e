//! Counts of cases.
ghost use Rattle.std.specs.Prelude.{◌≡◌, ℕ, ◌+◌, ◌≤◌, ◌<◌, ◌^◌, All, MatchResult, Some};
ghost use Rattle.vector_check.specs.Tallies.{IsAllRight, tally_text};

use std::error::Error;
use std::fmt;

/// How many cases of a file were compared, and how many of them differ.
#[derive(Clone, Copy, Default, PartialEq, Eq, Debug)]
pub(crate) struct Tally {
    pub(crate) compared: usize,
    pub(crate) differ: usize,
}

impl fmt::Display for Tally {
    ghost output = { λ t. Some (tally_text t) };

    /// Writes both counts.
    fn fmt<W: fmt::Write>(&self, f: &mut fmt::Formatter<W>) -> fmt::Result {
        let Tally { compared, differ } = *self;
        write!(f, "{compared} compared, {differ} differ")
    }
}

impl Tally {
    // Tells whether something was compared and nothing differs.
    fn verdict(self) -> Result<(), Fault>
        ensures { MatchResult result (λ _. IsAllRight self) (λ _. IsAllRight self → ⊥) }
    {
        if self.compared == 0 {
            return Err(Fault::NothingCompared);
        }
        if self.differ > 0 {
            return Err(Fault::SomeDiffer);
        }
        Ok(())
    }
}

/// Why the tallies of the files are not as they should be.
#[derive(Clone, Copy, PartialEq, Eq, Debug)]
pub(crate) enum Fault {
    /// A file has no cases.
    NothingCompared,
    /// A case differs.
    SomeDiffer,
}

impl fmt::Display for Fault {
    /// Writes the fault as a sentence.
    fn fmt<W: fmt::Write>(&self, f: &mut fmt::Formatter<W>) -> fmt::Result {
        match self {
            Fault::NothingCompared => f.write_str("there was nothing to compare"),
            Fault::SomeDiffer => f.write_str("some answers differ"),
        }
    }
}

impl Error for Fault {}

/// Tells whether in each of these tallies something was compared and nothing differs.
pub(crate) fn verdict(tallies: &[Tally]) -> Result<(), Fault>
    ensures { MatchResult result (λ _. All IsAllRight tallies.now) (λ _. All IsAllRight tallies.now → ⊥) }
{
    for tally in tallies {
        tally.verdict()?;
    }
    Ok(())
}
