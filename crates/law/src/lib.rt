//! What is proved of the rules of the calls, which the crate `rules` has: runs of calls and the law over them, that each call has
//! one answer, sessions of commands, and worked examples. Each function here carries a theorem.
#![tactic(auto)]

ghost use Rattle.law.specs.Answers.{ChainOfTakesIsARun, ChainsOfTakesJoin, EachTakeFillsThePlace, EachTakeIsACall, HandOversAreCounted, OneAnswerToEachCall, OneAnswerToEachRunOfTakes, OneArrivalOrFault, OneHandOver, OnePacketOrFault, OnePage, OnePrint, OneReadingOfEachArrival, OneSendAnswer, PrintsStandAtTheStart, SentIsReadAsSent};
ghost use Rattle.law.specs.Changes.{ChangesOfWords};
ghost use Rattle.law.specs.Example.{ExampleRun};
ghost use Rattle.law.specs.Keeping.{EmptyLinesAreWithinPlaces, EveryRunKeeps, MadeLinksAreNew, OwnLineDelivers};
ghost use Rattle.law.specs.Law.{EveryRun, EveryRunCarries, EveryRunThroughout, EveryStepCarries, RunsJoin};
ghost use Rattle.law.specs.Listing.{WorkedListing};
ghost use Rattle.law.specs.Marks.{WorkedExamples};
ghost use Rattle.law.specs.Sessions.{OneOutcomeOfASession, OneSessionOfCommands, EverySendCarries, SessionsGrow};
ghost use Rattle.rules.specs.Arrivals.{Arrival};

/// Carries a theorem: every run of calls from a new link keeps the law: of the guarded bits, of the rounding, and of the
/// agreement of the two ends.
#[tactic(auto, using(crate::proofs::Every::every_run))]
pub fn every_run()
    ensures { EveryRun }
{}

/// Carries a theorem: and it keeps the law after each of its calls.
#[tactic(auto, using(crate::proofs::Every::every_run_throughout))]
pub fn every_run_throughout()
    ensures { EveryRunThroughout }
{}

/// Carries a theorem: a call that is a step carries on any run from a new link that led to it, and the law with it.
#[tactic(auto, using(crate::proofs::Every::carried))]
pub fn every_step_carries()
    ensures { EveryStepCarries }
{}

/// Carries a theorem: and so does a run of calls.
#[tactic(auto, using(crate::proofs::Every::carried_over))]
pub fn every_run_carries()
    ensures { EveryRunCarries }
{}

/// Carries a theorem: two runs, one after the other, are a run.
#[tactic(auto, using(crate::proofs::Every::join))]
pub fn runs_join()
    ensures { RunsJoin }
{}

/// Carries a theorem: every run from a new link leads to a link with ten memories at each end, none of which reaches 2^33 in size,
/// with SD below 65,536, and with lawful arrivals waiting and to come; and every run keeps a line within its places: at most 256,
/// and no more arrivals waiting than places.
#[tactic(auto, using(crate::proofs::Every::every_run_keeps))]
pub fn every_run_keeps()
    ensures { EveryRunKeeps }
{}

/// Carries theorems: a link that is made of a line and a source with lawful arrivals is new; and a line on which nothing waits, in a
/// memory of any length, is within its places.
#[tactic(auto, using(crate::proofs::Every::made_links_are_new, crate::proofs::Keeping::empty_lines))]
pub fn made_links_are_new()
    ensures links { MadeLinksAreNew }
    ensures empty_lines { EmptyLinesAreWithinPlaces }
{}

/// Carries a theorem: on a link that takes from its own line, on which nothing waited at first, as many frames were sent as
/// arrivals were taken and wait; and if nothing is disturbed, these are the arrivals that were sent, in their order.
#[tactic(auto, using(crate::proofs::Delivers::own_line_delivers))]
pub fn own_line_delivers()
    ensures { OwnLineDelivers }
{}

/// Carries a theorem: a place, the number of a category and bytes make exactly one arrival, or have exactly one fault.
#[tactic(auto, using(crate::proofs::OneAnswer::one_arrival))]
pub fn one_arrival()
    ensures { OneArrivalOrFault }
{}

/// Carries a theorem: a place, a category and bytes make exactly one arrival, or have exactly one fault.
#[tactic(auto, using(crate::proofs::OneAnswer::one_packet))]
pub fn one_packet()
    ensures { OnePacketOrFault }
{}

/// Carries a theorem: every arrival is read in exactly one way, whatever its bytes, and something is read exactly if its letter says
/// so.
#[tactic(auto, using(crate::proofs::OneReading::one_reading))]
pub fn one_reading()
    ensures { OneReadingOfEachArrival }
{}

/// Carries a theorem: every call has exactly one answer on every link and every complete input, and leaves exactly one link.
#[tactic(auto, using(crate::proofs::OneAnswer::one_answer))]
pub fn one_answer()
    ensures { OneAnswerToEachCall }
{}

/// Carries a theorem: what a send answers its caller is exactly one thing, whatever its complete input, and leaves exactly one
/// sender and line.
#[tactic(auto, using(crate::proofs::OneSend::one_send_answer))]
pub fn one_send_answer()
    ensures { OneSendAnswer }
{}

/// Carries a theorem: every frame that a sender codes is read, if nothing disturbs it, with letter C and with the rate, the codes,
/// the pitch pairs and the codebook figures that were sent.
pub fn sent_is_read_as_sent()
    ensures { SentIsReadAsSent }
{}

/// Carries a theorem: from every link each list of complete commands has exactly one run.
#[tactic(auto, using(crate::proofs::Sessions::one_session))]
pub fn one_session()
    ensures { OneSessionOfCommands }
{}

/// Carries a theorem: equal links and equal commands give equal outcomes, and lead to equal links.
#[tactic(auto, using(crate::proofs::Sessions::one_outcome))]
pub fn one_outcome_of_a_session()
    ensures { OneOutcomeOfASession }
{}

/// Carries a theorem: no command is a session, and a session and one command more are a session.
#[tactic(auto, using(crate::proofs::Sessions::sessions_grow))]
pub fn sessions_grow()
    ensures { SessionsGrow }
{}

/// Carries a theorem: what a send answers its caller, and that nothing else of the link is altered, is enough for any run from a new
/// link to go on by it, and the law with it.
#[tactic(auto, using(crate::proofs::Sessions::every_send_carries))]
pub fn every_send_carries()
    ensures { EverySendCarries }
{}

/// Carries a theorem: a supply, of whatever it is, hands over in exactly one way, hands over into a place that is lent in exactly
/// one way, and has exactly one count.
#[tactic(auto, using(crate::proofs::HandOvers::one_hand_over))]
pub fn one_hand_over<T>()
    ensures of_anything { OneHandOver T }
    ensures of_arrivals { OneHandOver Arrival }
{}

/// Carries a theorem: a supply, of whatever it is, counts one more than it does once one was handed over, and 0 where there is none
/// to hand over.
#[tactic(auto, using(crate::proofs::HandOvers::hand_overs_are_counted))]
pub fn hand_overs_are_counted<T>()
    ensures of_anything { HandOversAreCounted T }
    ensures of_arrivals { HandOversAreCounted Arrival }
{}

/// Carries a theorem: what a take takes, or that it takes none, is handed over into the place that its caller lends; and an
/// arrival that was handed over into a place, and that the receiver reads, is taken.
#[tactic(auto, using(crate::proofs::HandOvers::each_take_fills_the_place))]
pub fn each_take_fills_the_place()
    ensures { EachTakeFillsThePlace }
{}

/// Carries a theorem: a take of the receiver from what is to come to its link is a take call on the link.
#[tactic(auto, using(crate::proofs::OneRun::each_take_is_a_call))]
pub fn each_take_is_a_call()
    ensures { EachTakeIsACall }
{}

/// Carries a theorem: takes one after another on a link are a run of take calls.
#[tactic(auto, using(crate::proofs::OneRun::takes_are_calls))]
pub fn takes_are_calls()
    ensures { ChainOfTakesIsARun }
{}

/// Carries a theorem: takes and then further takes are takes of both.
#[tactic(auto, using(crate::proofs::OneRun::takes_join))]
pub fn takes_join()
    ensures { ChainsOfTakesJoin }
{}

/// Carries a theorem: a run of takes has exactly one answer, whatever its queue of rows holds, and leaves exactly one receiver,
/// supply and queue.
#[tactic(auto, using(crate::proofs::OneRun::one_run))]
pub fn one_run_of_takes()
    ensures { OneAnswerToEachRunOfTakes }
{}

/// Carries a theorem: the page call has exactly one answer, an accepted one restarts the receiver, each supply has the rows of
/// exactly one page, and each reel, lawful or not, the text of exactly one.
#[tactic(auto, using(crate::proofs::OneRun::one_page))]
pub fn one_page()
    ensures { OnePage }
{}

/// Carries a theorem: a print of a text into a buffer has exactly one answer, and leaves exactly one buffer, which is as long as it
/// was.
#[tactic(auto, using(crate::proofs::OnePrint::one_print))]
pub fn one_print()
    ensures { OnePrint }
{}

/// Carries a theorem: after a print its text stands at the buffer's start, and what was behind it is kept; after one that is
/// refused the buffer is as it was.
#[tactic(auto, using(crate::proofs::OnePrint::prints_stand_at_the_start))]
pub fn prints_stand_at_the_start()
    ensures { PrintsStandAtTheStart }
{}

/// Carries a theorem: as many guarded bits differ between two packets as between their words, with PCB[0] and without it.
#[tactic(auto, using(crate::proofs::Changes::changes_of_words))]
pub fn changes_of_words()
    ensures { ChangesOfWords }
{}

/// Carries a theorem: eight worked examples of the rules.
#[tactic(auto, using(crate::proofs::Marks::worked_examples))]
pub fn worked_examples()
    ensures { WorkedExamples }
{}

/// Carries a theorem: the page of a reel of two packets, byte by byte.
#[tactic(auto, using(crate::proofs::Listing::worked_listing))]
pub fn worked_listing()
    ensures { WorkedListing }
{}

/// Carries a theorem: there is a run in which the premises of the law hold. The ends' memories are more than ten grains apart right
/// after frame 2; 256 packets in a row are read at their rates and with their LSP codes, with a blank, a corrected packet and one with a
/// wrong PCB[0] among them; and a packet with two wrong guarded bits is erased.
#[tactic(auto, using(crate::proofs::Example::example_run))]
pub fn example_run()
    ensures { ExampleRun }
{}
