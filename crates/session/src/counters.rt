// How far one plane of a session has come. Written once, for both planes.
ghost use Rattle.std.specs.Prelude.{◌≡◌};
ghost use Rattle.session.specs.Counting.{new_counters, admitted, counted, next_counter, sealed_up_to, missed_of};

use refusal::{Fault, Refusal};

// The highest counter. Nothing is sealed after it.
pub const LAST_COUNTER: u32 = 4_294_967_295;

// Where the counter stands in a message.
const COUNTER_PLACE: usize = 1;

#[derive(Clone, Copy)]
pub struct Counters {
    // The last counter sealed.
    pub last_sealed: u32,
    // The last counter accepted.
    pub last_accepted: u32,
    // How many messages were accepted.
    pub accepted: u32,
}

impl Counters {
    // Nothing was sealed or accepted.
    pub const NONE: Counters = Counters {
        last_sealed: 0,
        last_accepted: 0,
        accepted: 0,
    };

    // The constant again, with a contract; the constant alone can stand in other constants.
    pub fn new() -> Counters
        ensures { result ≡ new_counters }
    {
        Counters::NONE
    }

    // Whether a counter may be accepted: it is above the last accepted, by at most the leap.
    pub fn admit(self, counter: u32, leap: u32) -> Result<(), Fault>
        ensures { result ≡ admitted self counter leap }
    {
        if counter <= self.last_accepted {
            return Err(Fault::new(Refusal::CounterNotAbove, COUNTER_PLACE));
        }
        if counter - self.last_accepted > leap {
            return Err(Fault::new(Refusal::CounterBeyondLeap, COUNTER_PLACE));
        }
        Ok(())
    }

    // After a message with this counter was accepted.
    pub fn after_accepting(self, counter: u32) -> Counters
        ensures { result ≡ counted self counter }
    {
        Counters {
            last_accepted: counter,
            accepted: self.accepted.saturating_add(1),
            ..self
        }
    }

    // The counter of the next message to be sealed.
    pub fn next(self) -> Result<u32, Fault>
        ensures { result ≡ next_counter self }
    {
        if self.last_sealed == LAST_COUNTER {
            return Err(Fault::new(Refusal::CountersUsedUp, 0));
        }
        Ok(self.last_sealed + 1)
    }

    // After a message with this counter was sealed.
    pub fn after_sealing(self, counter: u32) -> Counters
        ensures { result ≡ sealed_up_to self counter }
    {
        Counters {
            last_sealed: counter,
            ..self
        }
    }

    // How many messages did not come, up to the last accepted.
    pub fn missed(self) -> u32
        ensures { result ≡ missed_of self }
    {
        self.last_accepted.saturating_sub(self.accepted)
    }
}
