// The bench suite: sums modulo 256 in the place of a cipher. For tests alone; it keeps no secret.
#![tactic(auto)]

ghost use Rattle.std.specs.Prelude.{◌≡◌, ℕ, ◌<◌, slice_index};
ghost use Rattle.bench_suite.specs.Sums.{key_octet, summed, bench_keystream, bench_tag, bench_size};
ghost use Rattle.std.proofs.Common.{rules};

use suite::{Inputs, Keyset, LONGEST_TAG, Suite};

#[derive(Clone, Copy)]
pub struct Bench;

// The octet of a key at a place, where the key is given in two halves.
fn key_octet(first: u64, second: u64, place: usize) -> u8
    requires { place < 16 }
    ensures { result ≡ key_octet first second place }
{
    let half = if place < 8 { first } else { second };
    half.to_be_bytes()[place % 8]
}

// A key's octet, the inputs and one number more, added up modulo 256.
fn sum(key: u8, inputs: Inputs, more: usize) -> u8
    ensures { result ≡ summed key inputs more }
{
    let known = u64::from(key)
        + u64::from(inputs.count)
        + u64::from(inputs.bearer)
        + u64::from(inputs.direction);
    ((known + (more % 256) as u64) % 256) as u8
}

fn keystream_octet(keys: Keyset, inputs: Inputs, place: usize) -> u8
    ensures { result ≡ bench_keystream keys inputs place }
{
    let key = key_octet(keys.encryption0, keys.encryption1, place % 16);
    sum(key, inputs, place)
}

// The tag before the octets of the message are added.
fn tag_without_octets(keys: Keyset, inputs: Inputs, len: usize) -> [u8; LONGEST_TAG]
    ensures { (j : ℕ) → j < 16 → slice_index result j ≡ summed (key_octet keys.integrity0 keys.integrity1 j) inputs len }
{
    std::array::from_fn(|j| {
        let key = key_octet(keys.integrity0, keys.integrity1, j);
        sum(key, inputs, len)
    })
}

impl Suite for Bench {
    ghost keystream = { λ _. bench_keystream };

    ghost tag_of = { λ _. bench_tag };

    ghost size = { λ _. bench_size };

    ghost octet = { Prim.search rules };

    ghost sized = { Prim.search rules };

    ghost short = { Prim.search rules };

    fn tag_length(&self) -> usize {
        LONGEST_TAG
    }

    fn encipher(&self, keys: Keyset, inputs: Inputs, part: &mut [u8]) {
        for (i, x) in part.iter_mut().enumerate() {
            *x ^= keystream_octet(keys, inputs, i);
        }
    }

    fn tag(&self, keys: Keyset, inputs: Inputs, message: &[u8]) -> [u8; LONGEST_TAG] {
        let mut tag = tag_without_octets(keys, inputs, message.len());
        // By places, since every sixteenth octet adds to one of the tag.
        for (i, x) in message.iter().enumerate() {
            let j = i % 16;
            tag[j] = tag[j].wrapping_add(*x);
        }
        tag
    }
}
