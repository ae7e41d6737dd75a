// What the AES suite makes of random messages, for another implementation to compare.
// A line has the two keys, count, bearer, direction, tag, the message and the message enciphered, in hexadecimal; - is no octets.
ghost use Rattle.std.specs.Prelude.{◌<◌};

use aes_suite::Aes;
use std::alloc::Global;
use std::fmt::Write;
use std::io;
use suite::{Inputs, Keyset, Suite};

// The longest message.
const LONGEST: usize = 2048;

// Numbers that look random, from any seed but 0.
#[derive(Drop)]
struct Random {
    state: u64,
}

impl Random {
    fn next(&mut self) -> u64 {
        let mut x = self.state;
        x ^= x << 13;
        x ^= x >> 7;
        x ^= x << 17;
        self.state = x;
        x.wrapping_mul(0x2545_F491_4F6C_DD1D)
    }

    fn below(&mut self, limit: u64) -> u64
        requires { 0 < limit }
        ensures { result < limit }
    {
        self.next() % limit
    }
}

fn octets(heap: Global, octets: &[u8]) -> io::Result<String> {
    let mut text = String::new(heap);
    if octets.is_empty() {
        text.push_str("-")?;
    }
    for x in octets {
        write!(text, "{x:02x}")?;
    }
    Ok(text)
}

fn one(rt: &HostRuntime, random: &mut Random, message: &mut [u8]) -> io::Result<()> {
    let keys = Keyset {
        integrity0: random.next(),
        integrity1: random.next(),
        encryption0: random.next(),
        encryption1: random.next(),
    };
    let inputs = Inputs {
        count: random.below(0x1_0000_0000) as u32,
        bearer: random.below(32) as u8,
        direction: random.below(2) as u8,
    };
    for x in message.iter_mut() {
        *x = random.below(256) as u8;
    }
    let tag = Aes.tag(keys, inputs, message);
    let tag = octets(rt.alloc(), &tag[0..4])?;
    let plain = octets(rt.alloc(), message)?;
    Aes.encipher(keys, inputs, message);
    let hidden = octets(rt.alloc(), message)?;
    let (i0, i1) = (keys.integrity0, keys.integrity1);
    let (e0, e1) = (keys.encryption0, keys.encryption1);
    let (count, bearer, direction) = (inputs.count, inputs.bearer, inputs.direction);
    println!(rt;
        "{i0:016x}{i1:016x} {e0:016x}{e1:016x} {count:08x} {bearer:02x} {direction:02x} {tag} {plain} {hidden}"
    )
}

fn traces(rt: &HostRuntime, times: u32, buffer: &mut [u8]) -> io::Result<()> {
    let mut random = Random { state: 20261117 };
    for _ in 0..times {
        let len = random.below(buffer.len() as u64 + 1) as usize;
        one(rt, &mut random, &mut buffer[0..len])?;
    }
    Ok(())
}

pub fn run(rt: &HostRuntime, times: u32) -> io::Result<()> {
    let mut buffer = [0u8; LONGEST];
    traces(rt, times, &mut buffer)
}
