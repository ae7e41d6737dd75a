// Key IDs: 1 to 7.
ghost use Rattle.std.specs.Prelude.{◌≡◌, ◌≤◌};
ghost use Rattle.std.specs.Option.{ok_or};
ghost use Rattle.refusal.specs.Refusals.{range_error};
ghost use Rattle.keys.specs.Ids.{key_number, key_of};

use refusal::RangeError;

#[derive(Clone, Copy, PartialEq, Eq, Debug)]
pub enum KeyId {
    One = 1,
    Two = 2,
    Three = 3,
    Four = 4,
    Five = 5,
    Six = 6,
    Seven = 7,
}

impl KeyId {
    pub const ALL: [KeyId; 7] = [
        KeyId::One,
        KeyId::Two,
        KeyId::Three,
        KeyId::Four,
        KeyId::Five,
        KeyId::Six,
        KeyId::Seven,
    ];

    // By `as` and a name of its own: a `From` could not promise the bound.
    pub fn number(self) -> u8
        ensures value { result ≡ key_number self }
        ensures bound { (1 ≤ result) × (result ≤ 7) }
    {
        self as u8
    }
}

// A list of its own and no generic search: a trait with all values and their numbers would say each list again.
impl TryFrom<u64> for KeyId {
    type Error = RangeError;

    ghost try_from_gives = { λ n r. r ≡ ok_or (key_of n) range_error };

    fn try_from(number: u64) -> Result<KeyId, RangeError> {
        match number {
            1 => Ok(KeyId::One),
            2 => Ok(KeyId::Two),
            3 => Ok(KeyId::Three),
            4 => Ok(KeyId::Four),
            5 => Ok(KeyId::Five),
            6 => Ok(KeyId::Six),
            7 => Ok(KeyId::Seven),
            _ => Err(RangeError),
        }
    }
}
