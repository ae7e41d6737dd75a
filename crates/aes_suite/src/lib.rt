// The AES suite, 128-EIA2 and 128-EEA2, and the clear suite, which has the same tag and enciphers nothing.
#![tactic(auto)]

ghost use Rattle.std.specs.Prelude.{◌≡◌};
ghost use Rattle.suite.specs.Ciphers.{padded};
ghost use Rattle.aes_suite.specs.Suites.{tag_size, start_of, eea2, eia2, eea0};
ghost use Rattle.aes_suite.specs.Sizes.{eea2_octet, eia2_size};
ghost use Rattle.std.proofs.Common.{rules};

use aes::Schedule;
use modes::cmac::cmac;
use modes::counter;
use octets::write_number;
use suite::{Inputs, Keyset, LONGEST_TAG, Suite};

// The octets of a tag.
pub const TAG_SIZE: usize = 4;

#[derive(Clone, Copy)]
pub struct Aes;

#[derive(Clone, Copy)]
pub struct Clear;

// Count, bearer and direction in 64 bits.
fn start_of(inputs: Inputs) -> u64
    ensures { result ≡ start_of inputs }
{
    (u64::from(inputs.count) << 32)
        + (u64::from(inputs.bearer % 32) << 27)
        + (u64::from(inputs.direction % 2) << 26)
}

// The tag, and zeros behind it.
fn tag_of(keys: Keyset, inputs: Inputs, message: &[u8]) -> [u8; LONGEST_TAG]
    ensures { result ≡ padded (eia2 keys inputs message.now) }
{
    let schedule = Schedule::new(keys.integrity0, keys.integrity1);
    let head = start_of(inputs).to_be_bytes();
    let block = cmac(&schedule, &head, message);
    let mut tag = [0u8; LONGEST_TAG];
    write_number(block.a, &mut tag[0..TAG_SIZE]);
    tag
}

impl Suite for Aes {
    ghost keystream = { λ _. eea2 };

    ghost tag_of = { λ _. eia2 };

    ghost size = { λ _. tag_size };

    ghost octet = { λ s. eea2_octet };

    ghost sized = { λ s. eia2_size };

    ghost short = { Prim.search rules };

    fn tag_length(&self) -> usize {
        TAG_SIZE
    }

    fn encipher(&self, keys: Keyset, inputs: Inputs, part: &mut [u8]) {
        // No key is expanded for nothing.
        if part.is_empty() {
            return;
        }
        let schedule = Schedule::new(keys.encryption0, keys.encryption1);
        counter::encipher(&schedule, start_of(inputs), part);
    }

    fn tag(&self, keys: Keyset, inputs: Inputs, message: &[u8]) -> [u8; LONGEST_TAG] {
        tag_of(keys, inputs, message)
    }
}

impl Suite for Clear {
    ghost keystream = { λ _. eea0 };

    ghost tag_of = { λ _. eia2 };

    ghost size = { λ _. tag_size };

    ghost octet = { Prim.search rules };

    ghost sized = { λ s. eia2_size };

    ghost short = { Prim.search rules };

    fn tag_length(&self) -> usize {
        Aes.tag_length()
    }

    fn encipher(&self, _keys: Keyset, _inputs: Inputs, _part: &mut [u8]) {}

    fn tag(&self, keys: Keyset, inputs: Inputs, message: &[u8]) -> [u8; LONGEST_TAG] {
        Aes.tag(keys, inputs, message)
    }
}
