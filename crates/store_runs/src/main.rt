// Looks up sessions in a table of 1,024 places for tools/measure_store.sh. The first argument is how many sessions there are, the
// second how often the last of them is looked up.
#![tactic(auto)]

use framing::format::{DataLength, Format, TagLength};
use keys::id::KeyId;
use session::session::{Session, Settings};
use std::{env, io};
use store::store::SessionStore;
use stores::place::Place;
use stores::size::{MOST_PLACES, TableSize};
use stores::table::Table;
use suite::Keyset;
use wire::id::SessionId;
use wire::parties::Role;

// The number of an argument; 0 if it is none.
fn number_of(word: Option<String>) -> u32 {
    word.and_then(|word| word.as_str().parse::<u32>().ok())
        .unwrap_or(0)
}

fn session() -> Session {
    let settings = Settings {
        role: Role::Service,
        format: Format {
            tag: TagLength::Four,
            length: DataLength::One,
        },
        leap: 16,
    };
    let keyset = Keyset {
        integrity0: 1,
        integrity1: 2,
        encryption0: 3,
        encryption1: 4,
    };
    Session::new(settings, KeyId::One, keyset)
}

// Adds the sessions 1 to `count`, and looks the last one up `times` times. The answer depends on every look.
fn look_up<S: SessionStore>(store: &mut S, count: u32, times: u32) -> u32 {
    for number in 1..=count {
        let _ = store.add(SessionId { number }, session());
    }
    let mut leaps = 0u32;
    for _ in 0..times {
        if let Some(session) = store.look(SessionId { number: count }) {
            leaps = leaps.wrapping_add(session.settings.leap);
        }
    }
    leaps
}

fn main(rt: HostRuntime) -> io::Result<()> {
    let mut words = env::args(&rt)?.skip(1);
    let count = number_of(words.next());
    let times = number_of(words.next());
    let mut places = [Place::FREE; MOST_PLACES];
    match TableSize::check(places.len()) {
        Ok(size) => {
            let mut table = Table::new(size, &mut places);
            let leaps = look_up(&mut table, count, times);
            println!(rt; "{leaps}")
        }
        Err(_) => println!(rt; "no table"),
    }
}
