// A key changed in one of two sessions that the service keeps in a table.
#![tactic(auto)]

use arguments::RawSettings;
use bench_suite::Bench;
use endpoint::end::Endpoint;
use std::io;
use store::store::SessionStore;
use stores::one_place::OnePlace;
use stores::place::Place;
use stores::size::TableSize;
use stores::table::Table;
use suite::{Keyset, Suite};
use wire::parties::{Plane, Role};

// The places of the service's table.
const PLACES: usize = 4;

// The IDs of two wells.
const FIRST: [u8; 1] = [0x01];

const SECOND: [u8; 2] = [0xF4, 0x69];

// A session with key 1.
fn begin<S: SessionStore, C: Suite>(
    rt: &HostRuntime,
    end: &mut Endpoint<S, C>,
    id: &[u8],
) -> io::Result<()> {
    let raw = RawSettings {
        tag: 4,
        length: 1,
        leap: 16,
    };
    if let Err(fault) = end.begin(id, raw, 1, Keyset::of_octets(0x10, 0x20)) {
        println!(rt; "refused: {fault}")?;
    }
    Ok(())
}

// The logger of the first well, and the service.
#[derive(Drop)]
struct Ends<S: SessionStore, R: SessionStore, C: Suite> {
    logger: Endpoint<S, C>,
    service: Endpoint<R, C>,
}

impl<S: SessionStore, R: SessionStore, C: Suite> Ends<S, R, C> {
    // Sends a level of the first well under a key, and tells what the service says to it.
    fn send(&mut self, rt: &HostRuntime, key: u64) -> io::Result<()> {
        let _ = self.logger.choose(&FIRST, key);
        let mut buffer = [0u8; 32];
        match self
            .logger
            .seal(Plane::User, &FIRST, &[0x41, 0x42], &mut buffer)
        {
            Ok(n) => match self.service.hear(&mut buffer[0..n]) {
                Ok(heard) => {
                    let (key, counter) = (heard.header.key, heard.header.counter);
                    println!(rt; "service accepts counter {counter} under key {key}")
                }
                Err(fault) => println!(rt; "service refuses: {fault}"),
            },
            Err(fault) => println!(rt; "logger refuses: {fault}"),
        }
    }

    // Key 2 is swapped in for key 1 at the service, and the logger changes over when it likes: the old key is held until a message
    // comes under the new one.
    fn change_keys(&mut self, rt: &HostRuntime) -> io::Result<()> {
        let _ = self
            .service
            .swap(&FIRST, 2, 1, Keyset::of_octets(0x30, 0x40));
        println!(rt; "key 2 swapped in for key 1 at the service")?;
        self.send(rt, 1)?;
        let _ = self.logger.give(&FIRST, 2, Keyset::of_octets(0x30, 0x40));
        self.send(rt, 2)?;
        self.send(rt, 1)
    }
}

fn report<S: SessionStore, C: Suite>(
    rt: &HostRuntime,
    end: &Endpoint<S, C>,
    name: &str,
    id: &[u8],
) -> io::Result<()> {
    match end.report(id) {
        Ok(report) => {
            let (accepted, missed) = (report.user.accepted, report.user.missed);
            println!(rt; "session {name}: {accepted} accepted, {missed} missed")
        }
        Err(fault) => println!(rt; "refused: {fault}"),
    }
}

fn main(rt: HostRuntime) -> io::Result<()> {
    println!(rt; "two sessions in the service's table")?;
    let mut places = [Place::FREE; PLACES];
    match TableSize::check(places.len()) {
        Ok(size) => {
            let mut ends = Ends {
                logger: Endpoint::new(Role::Logger, OnePlace::new(), Bench),
                service: Endpoint::new(Role::Service, Table::new(size, &mut places), Bench),
            };
            begin(&rt, &mut ends.logger, &FIRST)?;
            begin(&rt, &mut ends.service, &FIRST)?;
            begin(&rt, &mut ends.service, &SECOND)?;
            ends.change_keys(&rt)?;
            report(&rt, &ends.service, "01", &FIRST)?;
            report(&rt, &ends.service, "F469", &SECOND)
        }
        Err(fault) => println!(rt; "no table: {fault}"),
    }
}
