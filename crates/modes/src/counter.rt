// Counter mode: a keystream combined with the caller's octets in place.
ghost use Rattle.std.specs.Prelude.{◌≡◌, ◌*◌, ◌≤◌, length};
ghost use Rattle.suite.specs.Ciphers.{enciphered};
ghost use Rattle.modes.specs.Counter.{counter_stream};

use crate::block::{BlockCipher, number_of};
use aes::Block;

// The octets of a block.
const BLOCK: usize = 16;

// Enciphers block `i` of a part, of which the last may be shorter.
fn encipher_block<C: BlockCipher>(cipher: &C, start: u64, i: u64, block: &mut [u8])
    requires { length block.old ≤ 16 }
    ensures { block.new ≡ enciphered (counter_stream (C.ciph cipher.now) start) (16 * i) block.old }
{
    let keystream = number_of(cipher.encrypt(Block::of_halves(start, i))).to_be_bytes();
    // No `zip` with the keystream: tried, and nothing is then known of what is written.
    for (place, x) in block.iter_mut().enumerate() {
        *x ^= keystream[place];
    }
}

// Enciphers a part in place, or deciphers it; `start` is the first half of every counter block.
pub fn encipher<C: BlockCipher>(cipher: &C, start: u64, part: &mut [u8])
    ensures { part.new ≡ enciphered (counter_stream (C.ciph cipher.now) start) 0 part.old }
{
    // No `chunks_mut`: tried, and nothing is then known of what is written.
    for i in 0..part.len().div_ceil(BLOCK) {
        let from = BLOCK * i;
        let to = part.len().min(from + BLOCK);
        encipher_block(cipher, start, i as u64, &mut part[from..to]);
    }
}
