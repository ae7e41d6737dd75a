// Begin, Report and End.
ghost use Rattle.std.specs.Prelude.{◌≡◌};
ghost use Rattle.endpoint.specs.Ends.{meaning, viewed, with_pairs};
ghost use Rattle.endpoint.specs.SessionCalls.{beginning, begin_answer, Begun, plane_report, report_answer, end_answer, end_end};

use crate::end::Endpoint;
use arguments::{RawSettings, key_id, session_id, settings};
use refusal::Fault;
use session::counters::Counters;
use session::session::Session;
use store::store::SessionStore;
use suite::{Keyset, Suite};

// What went on a plane of a session.
#[derive(Clone, Copy)]
pub struct PlaneReport {
    // How many messages were sealed.
    pub sealed: u32,
    // How many were accepted.
    pub accepted: u32,
    // How many did not come, up to the last accepted.
    pub missed: u32,
}

#[derive(Clone, Copy)]
pub struct Report {
    pub control: PlaneReport,
    pub user: PlaneReport,
}

impl From<Counters> for PlaneReport {
    ghost from_gives = { λ c r. r ≡ plane_report c };

    fn from(counters: Counters) -> PlaneReport {
        PlaneReport {
            sealed: counters.last_sealed,
            accepted: counters.accepted,
            missed: counters.missed(),
        }
    }
}

impl<S: SessionStore, C: Suite> Endpoint<S, C> {
    // Adds a session with one key, which it sends with.
    pub fn begin(
        &mut self,
        id: &[u8],
        raw: RawSettings,
        key: u64,
        keyset: Keyset,
    ) -> Result<(), Fault>
        ensures value { result ≡ begin_answer (viewed (meaning C.Suite self.old)) id.now raw key keyset }
        ensures pairs { Begun self.old.pairs self.new.pairs (beginning (viewed (meaning C.Suite self.old)) id.now raw key keyset) result }
        ensures end { meaning C.Suite self.new ≡ with_pairs (meaning C.Suite self.old) self.new.pairs }
    {
        let id = session_id(id)?;
        let settings = settings(self.role, self.suite.tag_length(), raw)?;
        let key = key_id(key)?;
        self.store.add(id, Session::new(settings, key, keyset))
    }

    // How many messages of a session were sealed, accepted and missed.
    pub fn report(&self, id: &[u8]) -> Result<Report, Fault>
        ensures { result ≡ report_answer (viewed (meaning C.Suite self.now)) id.now }
    {
        let id = session_id(id)?;
        let session = self.find(id, 0)?;
        Ok(Report {
            control: PlaneReport::from(session.control),
            user: PlaneReport::from(session.user),
        })
    }

    // Removes a session.
    pub fn end(&mut self, id: &[u8]) -> Result<(), Fault>
        ensures value { result ≡ end_answer (viewed (meaning C.Suite self.old)) id.now }
        ensures end { meaning C.Suite self.new ≡ end_end (meaning C.Suite self.old) id.now }
    {
        let id = session_id(id)?;
        self.store.take(id)
    }
}
