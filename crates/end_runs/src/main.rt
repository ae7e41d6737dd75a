// Seals readings of 32 octets with the AES suite, and hears them, for tools/measure_ends.sh. The first argument is `seal` or `hear`,
// the second how many messages.
#![tactic(auto)]

use aes_suite::Aes;
use arguments::RawSettings;
use endpoint::end::Endpoint;
use refusal::Fault;
use std::{env, io};
use store::store::SessionStore;
use stores::one_place::OnePlace;
use suite::{Keyset, Suite};
use wire::parties::{Plane, Role};

const READING: [u8; 32] = [0x5A; 32];

const ID: [u8; 1] = [0x01];

// A logger, and the service that it sends to.
#[derive(Drop)]
struct Ends<S: SessionStore, R: SessionStore, C: Suite> {
    logger: Endpoint<S, C>,
    service: Endpoint<R, C>,
}

fn begin<S: SessionStore, C: Suite>(end: &mut Endpoint<S, C>) {
    let raw = RawSettings {
        tag: 4,
        length: 1,
        leap: 16,
    };
    let keyset = Keyset {
        integrity0: 0x2B7E151628AED2A6,
        integrity1: 0xABF7158809CF4F3C,
        encryption0: 0x0001020304050607,
        encryption1: 0x08090A0B0C0D0E0F,
    };
    let _ = end.begin(&ID, raw, 1, keyset);
}

impl<S: SessionStore, R: SessionStore, C: Suite> Ends<S, R, C> {
    // Seals a reading, and hears it if asked to: a flag, since a closure over both ends would be no plainer. The answer depends on the
    // message.
    fn carry(&mut self, heard: bool) -> Result<u32, Fault> {
        let mut buffer = [0u8; 64];
        let n = self.logger.seal(Plane::User, &ID, &READING, &mut buffer)?;
        if !heard {
            return Ok(buffer[20] as u32);
        }
        let message = self.service.hear(&mut buffer[0..n])?;
        Ok(message.header.counter)
    }

    // So many readings.
    fn carry_all(&mut self, times: u32, heard: bool) -> u32 {
        let mut sum = 0u32;
        for _ in 0..times {
            sum = sum.wrapping_add(self.carry(heard).unwrap_or(0));
        }
        sum
    }
}

fn main(rt: HostRuntime) -> io::Result<()> {
    // Each of the programs that are measured reads its own two arguments; a number that is none is 0.
    let mut words = env::args(&rt)?.skip(1);
    let run = words.next();
    let times = words
        .next()
        .and_then(|word| word.as_str().parse::<u32>().ok())
        .unwrap_or(0);
    let mut ends = Ends {
        logger: Endpoint::new(Role::Logger, OnePlace::new(), Aes),
        service: Endpoint::new(Role::Service, OnePlace::new(), Aes),
    };
    begin(&mut ends.logger);
    begin(&mut ends.service);
    let sum = match run.as_ref().map(|word| word.as_str()) {
        Some("seal") => ends.carry_all(times, false),
        Some("hear") => ends.carry_all(times, true),
        _ => 0,
    };
    println!(rt; "{sum}")
}
