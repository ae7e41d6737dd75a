// What two ends agree on for a message: its keys, its sender, and the size of its tag and of its Data Length.
ghost use Rattle.std.specs.Prelude.{◌≡◌, ◌≤◌};
ghost use Rattle.framing.specs.Formats.{tag_octets, length_octets, tag_length_of, data_length_of, lead_of, inputs_of, longest_lead};
ghost use Rattle.std.specs.Option.{ok_or};
ghost use Rattle.refusal.specs.Refusals.{range_error};
ghost use Rattle.suite.specs.Ciphers.{longest_tag};

use refusal::RangeError;
use suite::{Inputs, Keyset};
use wire::front::Header;
use wire::parties::{Plane, Role};

// M, the octets of a tag.
#[derive(Clone, Copy, PartialEq, Eq, Debug)]
pub enum TagLength {
    Four = 4,
    Eight = 8,
    Twelve = 12,
    Sixteen = 16,
}

// D, the octets of a Data Length.
#[derive(Clone, Copy, PartialEq, Eq, Debug)]
pub enum DataLength {
    One = 1,
    Two = 2,
}

#[derive(Clone, Copy, PartialEq, Eq, Debug)]
pub struct Format {
    pub tag: TagLength,
    pub length: DataLength,
}

#[derive(Clone, Copy)]
pub struct Protection {
    pub keys: Keyset,
    pub sender: Role,
    pub format: Format,
}

// A list of its own and no generic search: a trait with all values and their numbers would say each list again.
impl TryFrom<u64> for TagLength {
    type Error = RangeError;

    ghost try_from_gives = { λ n r. r ≡ ok_or (tag_length_of n) range_error };

    fn try_from(number: u64) -> Result<TagLength, RangeError> {
        match number {
            4 => Ok(TagLength::Four),
            8 => Ok(TagLength::Eight),
            12 => Ok(TagLength::Twelve),
            16 => Ok(TagLength::Sixteen),
            _ => Err(RangeError),
        }
    }
}

impl TagLength {
    // By `as` and a name of its own: a `From` could not promise the bound.
    pub fn octets(self) -> usize
        ensures value { result ≡ tag_octets self }
        ensures bound { result ≤ longest_tag }
    {
        self as usize
    }
}

// A list of its own and no generic search: a trait with all values and their numbers would say each list again.
impl TryFrom<u64> for DataLength {
    type Error = RangeError;

    ghost try_from_gives = { λ n r. r ≡ ok_or (data_length_of n) range_error };

    fn try_from(number: u64) -> Result<DataLength, RangeError> {
        match number {
            1 => Ok(DataLength::One),
            2 => Ok(DataLength::Two),
            _ => Err(RangeError),
        }
    }
}

impl DataLength {
    // By `as` and a name of its own: a `From` could not promise the bound.
    pub fn octets(self) -> usize
        ensures value { result ≡ length_octets self }
        ensures bound { (1 ≤ result) × (result ≤ longest_lead) }
    {
        self as usize
    }
}

impl Format {
    // How many octets of Data Length stand before the content. What `least` answers differs in one number alone; one function for both
    // would take that number and be no plainer.
    pub fn lead(self, plane: Plane) -> usize
        ensures value { result ≡ lead_of self plane }
        ensures bound { result ≤ longest_lead }
    {
        match plane {
            Plane::Control => 0,
            Plane::User => self.length.octets(),
        }
    }
}

impl Protection {
    // What the suite is told of a message with this header.
    pub fn inputs(self, header: Header) -> Inputs
        ensures { result ≡ inputs_of self header }
    {
        Inputs {
            count: header.counter,
            bearer: header.plane.bearer(),
            direction: self.sender.direction(),
        }
    }
}
