//! What each call does, as definitions in `specs/` that the calls' contracts cite: how an arrival is made and read, what a supply
//! hands over, what the two ends of a link do with it, the rows and the text of a page. It has no running code, and rests on the
//! crates whose codes, packets, memories and reels it speaks of. What is proved of runs of calls is in the crate `law`.
#![tactic(auto)]

ghost use Rattle.rules.specs.Reels.{ArrivalsOfReels};

/// Carries a theorem: the arrivals of a lawful reel are lawful, and at most 2,048.
pub fn arrivals_of_reels()
    ensures { ArrivalsOfReels }
{}
