// Seal and Hear.
ghost use Rattle.std.specs.Prelude.{◌≡◌, ◌+◌, ◌≤◌, length, IfOk};
ghost use Rattle.endpoint.specs.Ends.{meaning, viewed};
ghost use Rattle.endpoint.specs.Hearing.{judged, received_under, accepted_in, hear_answer, hear_buffer, hear_end, Stands};
ghost use Rattle.endpoint.specs.Sealing.{sealing, sent_under, seal_answer, seal_buffer, seal_end, Writable};

use crate::end::Endpoint;
use crate::order::Heard;
use arguments::{content as check_content, session_id};
use framing::format::Protection;
use framing::layout::Layout;
use keys::keys::HeldKey;
use message::open::open_body;
use message::seal::write_message;
use refusal::Fault;
use session::session::Session;
use store::store::SessionStore;
use suite::{Keyset, Suite};
use wire::front::{Front, Header, read_front};
use wire::parties::Plane;

// A message whose front was judged, with its session and the key that it names.
#[derive(Clone, Copy)]
pub(crate) struct Judged {
    front: Front,
    session: Session,
    key: HeldKey,
}

// A message that is to be sealed, with its session and where its parts will stand.
#[derive(Clone, Copy)]
pub(crate) struct Plan {
    session: Session,
    header: Header,
    keyset: Keyset,
    layout: Layout,
}

impl Judged {
    // The other end sealed it.
    fn protection(self) -> Protection
        ensures { result ≡ received_under self }
    {
        let settings = self.session.settings;
        settings.protection(settings.role.other(), self.key.keyset)
    }

    // The session once the message is accepted.
    fn accepted(self) -> Session
        ensures { result ≡ accepted_in self }
    {
        let header = self.front.header;
        self.session
            .after_accepting(header.plane, self.key.id, header.counter)
    }
}

impl Plan {
    fn protection(self) -> Protection
        ensures { result ≡ sent_under self }
    {
        let settings = self.session.settings;
        settings.protection(settings.role, self.keyset)
    }
}

impl<S: SessionStore, C: Suite> Endpoint<S, C> {
    fn judge(&self, message: &[u8]) -> Result<Judged, Fault>
        ensures value { result ≡ judged (viewed (meaning C.Suite self.now)) message.now }
        ensures stands { IfOk result (Stands self.now.pairs (length message.now)) }
    {
        let front = read_front(message)?;
        let header = front.header;
        let session = self.find(header.id, front.from)?;
        let key = session.admit(header.plane, header.key, header.counter)?;
        Ok(Judged {
            front,
            session,
            key,
        })
    }

    // Reads a message in place. An accepted one is then in clear, and its session has counted it; a refused one is as it arrived.
    pub fn hear(&mut self, message: &mut [u8]) -> Result<Heard, Fault>
        ensures value { result ≡ hear_answer (viewed (meaning C.Suite self.old)) message.old }
        ensures buffer { message.new ≡ hear_buffer (viewed (meaning C.Suite self.old)) message.old }
        ensures end { meaning C.Suite self.new ≡ hear_end (meaning C.Suite self.old) message.old }
        ensures inside { IfOk result (λ h. h.place + h.length ≤ length message.old) }
    {
        let judged = self.judge(message)?;
        let opened = open_body(&self.suite, judged.protection(), judged.front, message)?;
        self.store.put(judged.front.header.id, judged.accepted())?;
        Ok(Heard::new(opened, message))
    }

    fn plan(&self, plane: Plane, id: &[u8], content: &[u8], room: usize) -> Result<Plan, Fault>
        ensures value { result ≡ sealing (viewed (meaning C.Suite self.now)) plane id.now content.now room }
        ensures writable { IfOk result (Writable self.now.pairs (length content.now) room) }
    {
        let id = session_id(id)?;
        check_content(plane, content)?;
        let session = self.find(id, 0)?;
        let outgoing = session.prepare(plane)?;
        let header = Header {
            plane,
            key: outgoing.key.id.number(),
            counter: outgoing.counter,
            id,
        };
        let layout = session.settings.format.plan(header, content.len(), room)?;
        Ok(Plan {
            session,
            header,
            keyset: outgoing.key.keyset,
            layout,
        })
    }

    // Seals content as the next message of a session at the start of `out`, and answers its length. What stands behind it stays.
    pub fn seal(
        &mut self,
        plane: Plane,
        id: &[u8],
        content: &[u8],
        out: &mut [u8],
    ) -> Result<usize, Fault>
        ensures value { result ≡ seal_answer (viewed (meaning C.Suite self.old)) plane id.now content.now (length out.old) }
        ensures buffer { out.new ≡ seal_buffer (viewed (meaning C.Suite self.old)) plane id.now content.now out.old }
        ensures end { meaning C.Suite self.new ≡ seal_end (meaning C.Suite self.old) plane id.now content.now (length out.old) }
        ensures within { IfOk result (λ n. n ≤ length out.old) }
    {
        let plan = self.plan(plane, id, content, out.len())?;
        write_message(
            &self.suite,
            plan.protection(),
            plan.header,
            plan.layout,
            content,
            out,
        );
        let sealed = plan.session.after_sealing(plane, plan.header.counter);
        self.store.put(plan.header.id, sealed)?;
        Ok(plan.layout.end)
    }
}
