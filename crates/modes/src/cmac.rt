// CMAC: the tag of a text, which is given in two parts.
ghost use Rattle.std.specs.Prelude.{◌≡◌, ◌+◌, ◌^◌, ◌≤◌, ◌++◌, length, if◌then◌else◌};
ghost use Rattle.octets.specs.Octets.{octets};
ghost use Rattle.aes.specs.Words.{block_octets};
ghost use Rattle.modes.specs.Cmac.{cmac_of, doubled, subkey1, subkey2};
ghost use Rattle.modes.specs.Texts.{text_of, octet_at, octets_from};

use crate::block::{BlockCipher, number_of, zero_block};
use aes::Block;

// Twice a block in the field of 2^128 elements, without a branch.
fn doubled(block: Block) -> Block
    ensures { block_octets result ≡ doubled (block_octets block) }
{
    let x = number_of(block);
    let y = (x << 1) ^ ((x >> 127) * 0x87);
    Block::of_halves((y >> 64) as u64, (y % (1 << 64)) as u64)
}

// The subkey for a last block that is whole, or for one that is not.
fn subkey<C: BlockCipher>(cipher: &C, whole: bool) -> Block
    ensures { block_octets result ≡ (if whole then subkey1 (C.ciph cipher.now) else subkey2 (C.ciph cipher.now)) }
{
    let first = doubled(cipher.encrypt(zero_block()));
    if whole { first } else { doubled(first) }
}

// A text in two parts.
#[derive(Clone, Copy)]
struct Text<'a> {
    head: &'a [u8],
    message: &'a [u8],
}

impl Text<'_> {
    // How many octets the text has.
    fn len(&self) -> usize
        ensures { result ≡ length (text_of self.now) }
    {
        self.head.len() + self.message.len()
    }

    // The octet at a place, with 80 and zeros behind the text.
    fn octet(&self, place: usize) -> u8
        ensures { result ≡ octet_at (text_of self.now) place }
    {
        if place < self.head.len() {
            return self.head[place];
        }
        let place = place - self.head.len();
        if place < self.message.len() {
            self.message[place]
        } else if place == self.message.len() {
            0x80
        } else {
            0
        }
    }

    // Eight octets from a place on, as a number.
    fn eight_from(&self, place: usize) -> u64
        requires { place + 8 ≤ 2 ^ 64 }
        ensures { octets 8 result ≡ octets_from (text_of self.now) place 8 }
    {
        u64::from_be_bytes(std::array::from_fn(|i| self.octet(place + i)))
    }

    // The block that begins at a place, filled up with 80 and zeros where the text ends in it.
    fn block_from(&self, place: usize) -> Block
        requires { place + 16 ≤ 2 ^ 64 }
        ensures { block_octets result ≡ octets_from (text_of self.now) place 16 }
    {
        Block::of_halves(self.eight_from(place), self.eight_from(place + 8))
    }
}

// The tag of the text that is `head` and then `message`.
pub fn cmac<C: BlockCipher>(cipher: &C, head: &[u8], message: &[u8]) -> Block
    ensures { block_octets result ≡ cmac_of (C.ciph cipher.now) (head.now ++ message.now) }
{
    let text = Text { head, message };
    let len = text.len();
    let before = len.saturating_sub(1) / 16;
    let mut state = zero_block();
    // By places, since a text in two parts is no slice that has chunks.
    for i in 0..before {
        state = cipher.encrypt(state.plus(text.block_from(16 * i)));
    }
    let start = 16 * before;
    let last = text
        .block_from(start)
        .plus(subkey(cipher, len - start == 16));
    cipher.encrypt(state.plus(last))
}
