// One message tagged and enciphered again and again, so that instructions can be counted.
use aes_suite::Aes;
use std::io;
use suite::{Inputs, Keyset, Suite};

// The tag is over 34 octets, so 42 with the eight before them; 37 octets are enciphered.
const TAGGED: usize = 34;

const ENCIPHERED: usize = 37;

// Both keys are given with each message, so both are expanded each time.
fn once(keys: Keyset, count: u32, message: &mut [u8; ENCIPHERED]) -> u8 {
    let inputs = Inputs {
        count,
        bearer: 21,
        direction: 0,
    };
    let tag = Aes.tag(keys, inputs, &message[0..TAGGED]);
    Aes.encipher(keys, inputs, message);
    tag[0]
}

// Prints what depends on every message, so that none is left out.
pub fn run(rt: &HostRuntime, times: u32) -> io::Result<()> {
    let keys = Keyset {
        integrity0: 0x2B7E151628AED2A6,
        integrity1: 0xABF7158809CF4F3C,
        encryption0: 0x0001020304050607,
        encryption1: 0x08090A0B0C0D0E0F,
    };
    let mut message = [0x5Au8; ENCIPHERED];
    let mut tags = 0u8;
    for count in 0..times {
        tags ^= once(keys, count, &mut message);
    }
    let last = message[0];
    println!(rt; "{tags} {last}")
}
