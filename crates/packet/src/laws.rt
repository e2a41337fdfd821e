//! The laws of packing and unpacking, each a theorem that the contract of a function carries.
ghost use Rattle.packet.specs.Changes.{BitsChange};
ghost use Rattle.packet.specs.OneAnswer.{OneAnswer};
ghost use Rattle.packet.specs.Laws.{EachBitOfAPacket, GuardedWord, OneRecordInEachPacket, PackingReturnsThePacket, UnpackingReturnsTheCodes};

/// Carries a theorem: each bit of each byte of the packet of some codes is the code bit that its place carries, or 0 at a spare
/// place.
pub fn each_bit_of_a_packet()
    ensures { EachBitOfAPacket }
{}

/// Carries a theorem: unpacking a packed record returns the record. The packet of codes of a rate is lawful, its check bits are
/// right, it holds these codes and no others, and unpacking it answers these codes.
pub fn unpacking_returns_the_codes()
    ensures { UnpackingReturnsTheCodes }
{}

/// Carries a theorem: any bytes, read at a rate, hold exactly one record of codes.
pub fn one_record()
    ensures { OneRecordInEachPacket }
{}

/// Carries a theorem: packing an unpacked packet returns the packet, if its check bits are right.
pub fn packing_returns_the_packet()
    ensures { PackingReturnsThePacket }
{}

/// Carries a theorem: the guarded bits of a Rate 1 packet are a word of 29 bits whose message is a(x) of the codes that the packet
/// holds, and the word of the packet of some codes is the one that is sent for their a(x).
#[tactic(auto, using(crate::proofs::Trips::guarded_word))]
pub fn guarded_word()
    ensures { GuardedWord }
{}

/// Carries a theorem: a Rate 1 packet with one bit changed has that bit changed and no other, and a second change takes it back;
/// and to correct a place of the cyclic code in a packet is to correct it in the packet's word.
#[tactic(auto, using(crate::proofs::Changed::bits_change))]
pub fn bits_change()
    ensures { BitsChange }
{}

/// Carries a theorem: two answers of packing to the same input are the same length or the same refusal, and leave the same buffer;
/// two answers of unpacking are the same codes or the same refusal.
#[tactic(auto, using(crate::proofs::Answers::one_answer))]
pub fn one_answer()
    ensures { OneAnswer }
{}
