// Refusals by number, the layer of each, and the fault that carries one up to the caller.
#![tactic(auto)]

ghost use Rattle.std.specs.Prelude.{◌≡◌, ◌≤◌, ◌++◌, Some, codes, decimal};
ghost use Rattle.refusal.specs.declared.Refusal.TheVariants.{OutOfRange};
ghost use Rattle.refusal.specs.Refusals.{number_of, layer_of, layer_name, fault_at};

use std::fmt;

// Why an end says no.
#[derive(Clone, Copy, PartialEq, Eq, Debug)]
pub enum Refusal {
    MessageTooLong = 1,
    EndsInHeader = 2,
    ReservedBitSet = 3,
    CounterLength = 4,
    NotASessionId = 5,
    NoSession = 6,
    KeyNotHeld = 7,
    CounterNotAbove = 8,
    CounterBeyondLeap = 9,
    EndsInBody = 10,
    TagDiffers = 11,
    DataLengthDiffers = 12,
    OutOfRange = 13,
    SessionPresent = 14,
    NoSendingKey = 15,
    TooMuchData = 16,
    OutputTooSmall = 17,
    KeyInUse = 18,
    CountersUsedUp = 19,
    StoreFull = 20,
    SenselessOrder = 21,
}

// The part of an end that says no.
#[derive(Clone, Copy, PartialEq, Eq, Debug)]
pub enum Layer {
    Wire,
    Table,
    Keys,
    Counters,
    Suite,
    Call,
}

// The layer of refusal n stands at n - 1. A rule of this project wants a constant table here.
const LAYERS: [Layer; 21] = [
    Layer::Wire,
    Layer::Wire,
    Layer::Wire,
    Layer::Wire,
    Layer::Wire,
    Layer::Table,
    Layer::Keys,
    Layer::Counters,
    Layer::Counters,
    Layer::Wire,
    Layer::Suite,
    Layer::Wire,
    Layer::Call,
    Layer::Table,
    Layer::Keys,
    Layer::Call,
    Layer::Call,
    Layer::Keys,
    Layer::Counters,
    Layer::Table,
    Layer::Wire,
];

impl Refusal {
    // By `as` and a name of its own: a `From` could not promise the bound.
    pub fn number(self) -> u8
        ensures value { result ≡ number_of self }
        ensures bound { (1 ≤ result) × (result ≤ 21) }
    {
        self as u8
    }

    pub fn layer(self) -> Layer
        ensures { result ≡ layer_of (number_of self) }
    {
        LAYERS[self.number() as usize - 1]
    }
}

impl Layer {
    // The name as text, which `Display` does not lend.
    pub fn name(self) -> &'static str
        ensures { result.now ≡ layer_name self }
    {
        match self {
            Layer::Wire => "wire",
            Layer::Table => "table",
            Layer::Keys => "keys",
            Layer::Counters => "counters",
            Layer::Suite => "suite",
            Layer::Call => "call",
        }
    }
}

impl fmt::Display for Layer {
    ghost output = { λ l. Some (layer_name l) };

    fn fmt<W: fmt::Write>(&self, f: &mut fmt::Formatter<W>) -> fmt::Result {
        let name = self.name();
        write!(f, "{name}")
    }
}

// A refusal with its layer and the place in the message of the field that failed.
#[derive(Clone, Copy, PartialEq, Eq, Debug)]
pub struct Fault {
    pub refusal: Refusal,
    pub layer: Layer,
    pub place: usize,
}

impl Fault {
    pub fn new(refusal: Refusal, place: usize) -> Fault
        ensures { result ≡ fault_at refusal place }
    {
        Fault {
            refusal,
            layer: refusal.layer(),
            place,
        }
    }
}

impl fmt::Display for Fault {
    ghost output = { λ e. Some (decimal (number_of e.refusal) ++ (codes " " ++ (layer_name e.layer ++ (codes " at " ++ decimal e.place)))) };

    fn fmt<W: fmt::Write>(&self, f: &mut fmt::Formatter<W>) -> fmt::Result {
        let number = self.refusal.number();
        let layer = self.layer;
        let place = self.place;
        write!(f, "{number} {layer} at {place}")
    }
}

// What was given stands for no value of the type that was asked for.
#[derive(Clone, Copy, PartialEq, Eq, Debug)]
pub struct RangeError;

impl From<RangeError> for Fault {
    ghost from_gives = { λ _ f. f ≡ fault_at OutOfRange 0 };

    fn from(_error: RangeError) -> Fault {
        Fault::new(Refusal::OutOfRange, 0)
    }
}
