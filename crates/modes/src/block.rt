// A cipher of 16-octet blocks, and blocks as numbers and octets.
ghost use Rattle.std.specs.Prelude.{◌≡◌, ℕ, List};
ghost use Rattle.std.specs.Int.Digits.{number_from_digits};
ghost use Rattle.aes.specs.Cipher.{cipher};
ghost use Rattle.aes.specs.Words.{block_octets, words_of};
ghost use Rattle.modes.specs.Cmac.{zeros};

use aes::{Block, Schedule};

pub trait BlockCipher {
    // What a block of 16 octets is enciphered to.
    ghost ciph: { Self → List ℕ → List ℕ };

    fn encrypt(&self, block: Block) -> Block
        ensures { block_octets result ≡ ciph self.now (block_octets block) };
}

impl BlockCipher for Schedule {
    ghost ciph = { λ s. cipher (words_of s) };

    fn encrypt(&self, block: Block) -> Block {
        self.encrypt(block)
    }
}

// The block of sixteen octets 00.
#[tactic(auto, unfolding(aes::specs::Words::block_octets))]
pub fn zero_block() -> Block
    ensures { block_octets result ≡ zeros }
{
    Block {
        a: 0,
        b: 0,
        c: 0,
        d: 0,
    }
}

// The number that the octets of a block write. No `From`: it would stand in `aes`, which knows blocks by their columns alone.
#[tactic(auto, unfolding(aes::specs::Words::block_octets))]
pub fn number_of(block: Block) -> u128
    ensures { result ≡ number_from_digits 256 (block_octets block) }
{
    let high = (u64::from(block.a) << 32) + u64::from(block.b);
    let low = (u64::from(block.c) << 32) + u64::from(block.d);
    (u128::from(high) << 64) + u128::from(low)
}
