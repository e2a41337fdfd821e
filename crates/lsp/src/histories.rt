//! What happens to the memories of an end, event by event.
ghost use Rattle.std.specs.Prelude.{◌≡◌};
ghost use Rattle.lsp.specs.Events.{history, one_event};
ghost use Rattle.lsp.specs.Histories.{Lawful, after};
ghost use Rattle.lsp.specs.States.{fresh};

use crate::codes::LspCodes;
use crate::states::Memories;

/// What can happen to the memories of an end.
#[derive(Clone, Copy, PartialEq, Eq, Debug)]
pub enum Event {
    /// A packet was sent, or read, with these codes.
    Packet(LspCodes),
    /// An erasure arrived, or a packet of which nothing is read.
    Erasure,
    /// A blank was sent, or taken.
    Blank,
    /// The end was restarted.
    Restart,
}

impl Memories {
    /// Applies one event.
    pub fn apply(&mut self, event: Event)
        ensures { self.new.grains ≡ after self.old.grains (one_event event) }
    {
        match event {
            Event::Packet(codes) => self.update(codes),
            Event::Erasure => self.decay(),
            Event::Blank => {}
            Event::Restart => *self = Memories::new(),
        }
    }
}

/// The memories of a new end after these events, the oldest first. Their codes are within their rates, so that the laws on
/// lawful histories hold of them.
#[tactic(auto, using(crate::proofs::Replays::after_more, crate::proofs::Replays::lawful_more))]
pub fn replay(events: &[Event]) -> Memories
    ensures value { result.grains ≡ after fresh (history events.now) }
    ensures lawful { Lawful (history events.now) }
{
    let mut memories = Memories::new();
    for event in events {
        memories.apply(*event);
    }
    memories
}
