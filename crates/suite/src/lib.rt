// A cipher suite: what enciphers a part of a message in place, and what the tag of a message is.
#![tactic(auto)]

ghost use Rattle.std.specs.Prelude.{◌≡◌, ℕ, ◌<◌, ◌≤◌, List, length};
ghost use Rattle.suite.specs.declared.Keyset.{Keyset};
ghost use Rattle.suite.specs.declared.Inputs.{Inputs};
ghost use Rattle.suite.specs.Keysets.{keyset_of};
ghost use Rattle.suite.specs.Ciphers.{enciphered, padded, longest_tag};

// The octets of the longest tag.
pub const LONGEST_TAG: usize = 16;

// Two 128-bit keys, each in two halves, the first octets in the first half.
// A keyset is these four numbers, and has no array.
#[derive(Clone, Copy)]
pub struct Keyset {
    pub integrity0: u64,
    pub integrity1: u64,
    pub encryption0: u64,
    pub encryption1: u64,
}

impl Keyset {
    // The keyset whose integrity key is one octet sixteen times, and whose encryption key another.
    pub fn of_octets(integrity: u8, encryption: u8) -> Keyset
        ensures { result ≡ keyset_of integrity encryption }
    {
        let integrity = u64::from_be_bytes([integrity; 8]);
        let encryption = u64::from_be_bytes([encryption; 8]);
        Keyset {
            integrity0: integrity,
            integrity1: integrity,
            encryption0: encryption,
            encryption1: encryption,
        }
    }
}

// What a suite is told of a message besides its keys and octets.
#[derive(Clone, Copy)]
pub struct Inputs {
    pub count: u32,
    // Numbers, as the suites' standards take them: published vectors give bearers that belong to no plane, and planes and roles are of a
    // crate above this one.
    pub bearer: u8,
    pub direction: u8,
}

// What a suite means is given by two functions, which no call changes; and no call can fail.
pub trait Suite {
    // The octet of the keystream at a place.
    ghost keystream: { Self → Keyset → Inputs → ℕ → ℕ };

    // The tag of a message.
    ghost tag_of: { Self → Keyset → Inputs → List ℕ → List ℕ };

    // How many octets a tag has.
    ghost size: { Self → ℕ };

    // Keys and inputs stay two parameters: one is of a session and one of a message, and each suite would take a struct of both apart.
    fn tag_length(&self) -> usize
        ensures { result ≡ size self.now };

    // Enciphers a part in place, or deciphers it: the first octet is at place 0 of the keystream.
    fn encipher(&self, keys: Keyset, inputs: Inputs, part: &mut [u8])
        ensures { part.new ≡ enciphered (keystream self.now keys inputs) 0 part.old };

    // The tag, and zeros behind it: no heap, and how many octets a tag has is known only when the program runs.
    fn tag(&self, keys: Keyset, inputs: Inputs, message: &[u8]) -> [u8; LONGEST_TAG]
        ensures { result ≡ padded (tag_of self.now keys inputs message.now) };

    ghost octet: { (s : Self) (k : Keyset) (i : Inputs) (place : ℕ) → keystream s k i place < 256 };

    ghost sized: { (s : Self) (k : Keyset) (i : Inputs) (m : List ℕ) → length (tag_of s k i m) ≡ size s };

    ghost short: { (s : Self) → size s ≤ longest_tag };
}
