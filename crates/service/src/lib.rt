//! The types that every crate shares: the rates, the categories, the letters of a page, and the refusals by number.
#![tactic(auto)]

ghost use Rattle.service.specs.Distinct.{DistinctNumbers};

mod categories;
mod rates;
mod readings;
mod refusals;

pub use categories::Category;
pub use rates::Rate;
pub use readings::{Letter, RunEnd};
pub use refusals::{Fault, Refusal};

/// Carries a theorem: no two rates, no two categories and no two ends of a run share a number, no two letters a byte, no
/// two refusals a number and a place, and the numbers of the refusals are exactly those from 1 to 18.
#[tactic(auto, using(crate::proofs::Numbers::distinct_numbers))]
pub fn distinct_numbers()
    ensures { DistinctNumbers }
{}
