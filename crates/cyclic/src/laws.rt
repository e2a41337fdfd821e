//! The laws of the code, each a theorem that the contract of a function carries.
ghost use Rattle.cyclic.specs.Polynomials.{UniqueRemainder};
ghost use Rattle.cyclic.specs.Laws.{AtMostOnePlace, FourChanges, OneReadingByEachRule, RightWords, WeightAtLeastFive};

/// Carries a theorem: what `remainder` gives is a remainder over GF(2), p = q × g + r with the degree of r below 10, and
/// no polynomial has two.
pub fn unique_remainder()
    ensures { UniqueRemainder }
{}

/// Carries a theorem: no pattern of one to four of the 28 places has remainder 0, so that a codeword of the cyclic code, if it
/// is not 0, has at least five ones.
#[tactic(auto, using(crate::proofs::Distance::distance))]
pub fn weight_at_least_five()
    ensures { WeightAtLeastFive }
{}

/// Carries a theorem: the words that are sent are exactly those whose check bits are right, with syndrome 0 and an even
/// number of ones, and such a word is the one that is sent for its message.
#[tactic(auto, using(crate::proofs::Sent::right_words))]
pub fn right_words()
    ensures { RightWords }
{}

/// Carries a theorem: a syndrome points at one place at most, and the syndrome 0 at none.
#[tactic(auto, using(crate::proofs::Readings::at_most_one_place))]
pub fn at_most_one_place()
    ensures { AtMostOnePlace }
{}

/// Carries a theorem: each of the two rules of reading gives one answer for every word. The plain rule reads a word whose
/// syndrome is 0. The suspect rule reads such a word too, and one with odd parity whose syndrome points at a place, with that
/// place changed. Otherwise nothing is read.
#[tactic(auto, using(crate::proofs::Readings::one_reading_by_each_rule))]
pub fn one_reading_by_each_rule()
    ensures { OneReadingByEachRule }
{}

/// Carries a theorem: with at most four of the 29 bits changed, the plain rule reads exactly if none of the 28 changed,
/// the suspect rule exactly if at most one of the 29 changed, and the guarded code bits that are read are those sent. The
/// rules are those of `one_reading_by_each_rule`; this crate has no call that reads by them.
#[tactic(auto, using(crate::proofs::Changes::four_changes))]
pub fn four_changes()
    ensures { FourChanges }
{}
