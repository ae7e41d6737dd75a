// AES-128, one block at a time: enciphering alone.
#![tactic(auto)]

ghost use Rattle.std.specs.Prelude.{◌≡◌, [], ◌∷◌, ◌++◌, map};
ghost use Rattle.aes.specs.Field.{sbox};
ghost use Rattle.aes.specs.Cipher.{sub_bytes, shift_rows, mix_column, mix_columns, xors, cipher, rot_word, sub_word, key_expansion};
ghost use Rattle.aes.specs.Words.{block_octets, diagonal, key_octets, words_of};
ghost use Rattle.octets.specs.Octets.{octets};

pub mod laws;
mod tables;

use crate::tables::{round_constant, row_addends, substitute};

// The keys of the rounds, and the one before them.
const KEYS: usize = 11;

// The four columns of a block, each with its first octet in the most significant place.
#[derive(Clone, Copy, PartialEq, Eq, Debug)]
pub struct Block {
    pub a: u32,
    pub b: u32,
    pub c: u32,
    pub d: u32,
}

// An expanded key: the keys of the rounds, one after the other.
#[derive(Clone, Copy)]
pub struct Schedule {
    keys: [Block; KEYS],
}

// Row 0 of the first word, row 1 of the second, and so on.
fn diagonal(a: u32, b: u32, c: u32, d: u32) -> [u8; 4]
    ensures { result ≡ diagonal a b c d }
{
    [
        a.to_be_bytes()[0],
        b.to_be_bytes()[1],
        c.to_be_bytes()[2],
        d.to_be_bytes()[3],
    ]
}

// SubBytes of a column, or SubWord.
fn substituted(column: [u8; 4]) -> u32
    ensures { octets 4 result ≡ map sbox column }
{
    let [x, y, z, w] = column;
    u32::from_be_bytes([substitute(x), substitute(y), substitute(z), substitute(w)])
}

// The same after MixColumns too.
fn mixed_column(column: [u8; 4]) -> u32
    ensures { octets 4 result ≡ mix_column (map sbox column) }
{
    let [x, y, z, w] = column;
    row_addends(0, x) ^ row_addends(1, y) ^ row_addends(2, z) ^ row_addends(3, w)
}

// SubWord after RotWord.
#[tactic(auto, unfolding(crate::specs::Cipher::rot_word, crate::specs::Cipher::sub_word))]
fn rotated(word: u32) -> u32
    ensures { octets 4 result ≡ sub_word (rot_word (octets 4 word)) }
{
    let [x, y, z, w] = word.to_be_bytes();
    substituted([y, z, w, x])
}

impl Block {
    // The block of eight octets of one number and eight of another.
    #[tactic(auto, unfolding(crate::specs::Words::block_octets))]
    pub fn of_halves(high: u64, low: u64) -> Block
        ensures { block_octets result ≡ octets 8 high ++ octets 8 low }
    {
        Block {
            a: (high >> 32) as u32,
            b: (high % (1 << 32)) as u32,
            c: (low >> 32) as u32,
            d: (low % (1 << 32)) as u32,
        }
    }

    // The block whose columns `column` makes of the columns after ShiftRows.
    fn columns<F: Fn([u8; 4]) -> u32>(self, column: F) -> Block
        requires { F.IsAlwaysCallable column }
        ensures a { F.post column (diagonal self.a self.b self.c self.d) result.a }
        ensures b { F.post column (diagonal self.b self.c self.d self.a) result.b }
        ensures c { F.post column (diagonal self.c self.d self.a self.b) result.c }
        ensures d { F.post column (diagonal self.d self.a self.b self.c) result.d }
    {
        Block {
            a: column(diagonal(self.a, self.b, self.c, self.d)),
            b: column(diagonal(self.b, self.c, self.d, self.a)),
            c: column(diagonal(self.c, self.d, self.a, self.b)),
            d: column(diagonal(self.d, self.a, self.b, self.c)),
        }
    }

    // SubBytes and ShiftRows.
    fn shifted(self) -> Block
        ensures { block_octets result ≡ shift_rows (sub_bytes (block_octets self)) }
    {
        self.columns(substituted)
    }

    // SubBytes, ShiftRows and MixColumns.
    fn mixed(self) -> Block
        ensures { block_octets result ≡ mix_columns (shift_rows (sub_bytes (block_octets self))) }
    {
        self.columns(mixed_column)
    }

    // Exclusive or of two blocks.
    pub fn plus(self, other: Block) -> Block
        ensures { block_octets result ≡ xors (block_octets self) (block_octets other) }
    {
        Block {
            a: self.a ^ other.a,
            b: self.b ^ other.b,
            c: self.c ^ other.c,
            d: self.d ^ other.d,
        }
    }

    // The key of the next round, whose constant is given.
    fn next(self, constant: u8) -> Block
        ensures a { octets 4 result.a ≡ xors (octets 4 self.a) (xors (sub_word (rot_word (octets 4 self.d))) (constant ∷ 0 ∷ 0 ∷ 0 ∷ [])) }
        ensures b { octets 4 result.b ≡ xors (octets 4 self.b) (octets 4 result.a) }
        ensures c { octets 4 result.c ≡ xors (octets 4 self.c) (octets 4 result.b) }
        ensures d { octets 4 result.d ≡ xors (octets 4 self.d) (octets 4 result.c) }
    {
        let a = self.a ^ (rotated(self.d) ^ u32::from_be_bytes([constant, 0, 0, 0]));
        let b = self.b ^ a;
        let c = self.c ^ b;
        let d = self.d ^ c;
        Block { a, b, c, d }
    }
}

impl Schedule {
    // Expands a key, given in two halves, the first octets in the first half.
    pub fn new(first: u64, second: u64) -> Schedule
        ensures { words_of result ≡ key_expansion (key_octets first second) }
    {
        let mut keys = [Block::of_halves(first, second); KEYS];
        // By places, since each key is made from the one before it.
        for r in 0..KEYS - 1 {
            keys[r + 1] = keys[r].next(round_constant(r));
        }
        Schedule { keys }
    }

    // Enciphers a block.
    pub fn encrypt(&self, block: Block) -> Block
        ensures { block_octets result ≡ cipher (words_of self.now) (block_octets block) }
    {
        let mut state = block.plus(self.keys[0]);
        for key in &self.keys[1..10] {
            state = state.mixed().plus(*key);
        }
        state.shifted().plus(self.keys[10])
    }
}
