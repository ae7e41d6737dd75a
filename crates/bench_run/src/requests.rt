// One request carried out at an end, and the line that tells its outcome.
ghost use Rattle.std.specs.Prelude.{◌≡◌, ◌+◌, ◌≤◌, length, is_ok, Ok};
ghost use Rattle.endpoint.specs.Ends.{meaning, viewed};
ghost use Rattle.script.specs.Asked.{asked, to_begin, to_give, to_choose, to_drop, to_end, to_hear};
ghost use Rattle.transcript.specs.Outcomes.{outcome_of};
ghost use Rattle.transcript.specs.Lines.{Appended};
ghost use Rattle.bench_run.specs.Requests.{keyset_of, plain, effected, counts_of, reported, outcome_on, seal_outcome, told, Performed, GoesOn, SealGoesOn};

use arguments::RawSettings;
use endpoint::end::Endpoint;
use endpoint::key_calls::Effect;
use endpoint::order::Heard;
use endpoint::session_calls::{PlaneReport, Report};
use refusal::Fault;
use script::request::{BeginFields, KeyFields, Request};
use std::alloc::AllocError;
use store::store::SessionStore;
use suite::{Keyset, Suite};
use transcript::answer::{Answer, Counts, Message};
use transcript::lines::Transcript;
use wire::front::LONGEST_MESSAGE;
use wire::id::LONGEST_ID;
use wire::parties::Plane;

// A key is one octet, sixteen times. No `From`: both types are of other crates.
fn keyset(fields: KeyFields) -> Keyset
    ensures { result ≡ keyset_of fields }
{
    Keyset::of_octets(fields.integrity, fields.encryption)
}

// Functions and no `From` make answers of what calls return, since ends and transcripts know nothing of one another.
fn plain(r: Result<(), Fault>) -> Answer<'static>
    ensures { outcome_of result ≡ plain r }
{
    match r {
        Ok(()) => Answer::Done,
        Err(fault) => Answer::Refused(fault),
    }
}

fn effected(r: Result<Effect, Fault>) -> Answer<'static>
    ensures { outcome_of result ≡ effected r }
{
    match r {
        Ok(Effect::Done) => Answer::Done,
        Ok(Effect::Ignored) => Answer::Ignored,
        Err(fault) => Answer::Refused(fault),
    }
}

fn counts(report: PlaneReport) -> Counts
    ensures { result ≡ counts_of report }
{
    Counts {
        sealed: report.sealed,
        accepted: report.accepted,
        missed: report.missed,
    }
}

fn reported(r: Result<Report, Fault>) -> Answer<'static>
    ensures { outcome_of result ≡ reported r }
{
    match r {
        Ok(report) => Answer::Counted(counts(report.control), counts(report.user)),
        Err(fault) => Answer::Refused(fault),
    }
}

// Begin, with the settings and the key of a line. Each call has a function of its own, so that it is proved apart; one `match` with all of them would be
// no plainer.
fn begin<S: SessionStore, C: Suite>(
    end: &mut Endpoint<S, C>,
    id: &[u8],
    fields: BeginFields,
) -> Answer<'static>
    ensures { Performed (meaning C.Suite end.old) (meaning C.Suite end.new) (to_begin id.now fields) (outcome_of result) }
{
    let raw = RawSettings {
        tag: fields.tag,
        length: fields.length,
        leap: fields.leap,
    };
    plain(end.begin(id, raw, fields.key.key, keyset(fields.key)))
}

// Give.
fn give<S: SessionStore, C: Suite>(
    end: &mut Endpoint<S, C>,
    id: &[u8],
    key: KeyFields,
) -> Answer<'static>
    ensures { Performed (meaning C.Suite end.old) (meaning C.Suite end.new) (to_give id.now key) (outcome_of result) }
{
    plain(end.give(id, key.key, keyset(key)))
}

// Choose.
fn choose<S: SessionStore, C: Suite>(
    end: &mut Endpoint<S, C>,
    id: &[u8],
    key: u64,
) -> Answer<'static>
    ensures { Performed (meaning C.Suite end.old) (meaning C.Suite end.new) (to_choose id.now key) (outcome_of result) }
{
    plain(end.choose(id, key))
}

// Drop.
fn drop_key<S: SessionStore, C: Suite>(
    end: &mut Endpoint<S, C>,
    id: &[u8],
    key: u64,
) -> Answer<'static>
    ensures { Performed (meaning C.Suite end.old) (meaning C.Suite end.new) (to_drop id.now key) (outcome_of result) }
{
    effected(end.drop_key(id, key))
}

// End.
fn end_session<S: SessionStore, C: Suite>(end: &mut Endpoint<S, C>, id: &[u8]) -> Answer<'static>
    ensures { Performed (meaning C.Suite end.old) (meaning C.Suite end.new) (to_end id.now) (outcome_of result) }
{
    plain(end.end(id))
}

// Seals into a buffer that has room for the longest message.
fn seal<S: SessionStore, C: Suite>(
    end: &mut Endpoint<S, C>,
    plane: Plane,
    id: &[u8],
    content: &[u8],
    transcript: &mut Transcript,
) -> Result<(), AllocError>
    ensures text { Appended transcript.old transcript.new (seal_outcome (viewed (meaning C.Suite end.old)) plane id.now content.now) (is_ok result) }
    ensures goes { SealGoesOn (meaning C.Suite end.old) (meaning C.Suite end.new) plane id.now content.now }
{
    let mut buffer = [0u8; LONGEST_MESSAGE];
    match end.seal(plane, id, content, &mut buffer) {
        Ok(n) => transcript.append(Answer::Sealed(&buffer[0..n])),
        Err(fault) => transcript.append(Answer::Refused(fault)),
    }
}

// The line of a message that was accepted, given its clear octets.
fn tell(heard: Heard, clear: &[u8], transcript: &mut Transcript) -> Result<(), AllocError>
    requires inside { heard.place + heard.length ≤ length clear.now }
    ensures { Appended transcript.old transcript.new (told (Ok heard) clear.now) (is_ok result) }
{
    let header = heard.header;
    let octets = header.id.number.to_be_bytes();
    let message = Message {
        id: &octets[LONGEST_ID - header.id.width()..],
        plane: header.plane,
        key: header.key,
        counter: header.counter,
        content: &clear[heard.place..heard.place + heard.length],
    };
    transcript.append(Answer::Heard(message))
}

// Hears a message in place. An order that it brings is let go.
fn hear<S: SessionStore, C: Suite>(
    end: &mut Endpoint<S, C>,
    message: &mut [u8],
    transcript: &mut Transcript,
) -> Result<(), AllocError>
    ensures text { Appended transcript.old transcript.new (outcome_on (viewed (meaning C.Suite end.old)) (to_hear message.old)) (is_ok result) }
    ensures goes { GoesOn (meaning C.Suite end.old) (meaning C.Suite end.new) (to_hear message.old) }
{
    match end.hear(message) {
        Ok(heard) => tell(heard, message, transcript),
        Err(fault) => transcript.append(Answer::Refused(fault)),
    }
}

// Carries out a request, and appends the line that tells its outcome.
pub(crate) fn perform<S: SessionStore, C: Suite>(
    end: &mut Endpoint<S, C>,
    request: Request,
    transcript: &mut Transcript,
) -> Result<(), AllocError>
    ensures text { Appended transcript.old transcript.new (outcome_on (viewed (meaning C.Suite end.old)) (asked request)) (is_ok result) }
    ensures goes { GoesOn (meaning C.Suite end.old) (meaning C.Suite end.new) (asked request) }
{
    match request {
        Request::Begin(id, fields) => transcript.append(begin(end, &id, fields)),
        Request::Give(id, key) => transcript.append(give(end, &id, key)),
        Request::Choose(id, key) => transcript.append(choose(end, &id, key)),
        Request::Drop(id, key) => transcript.append(drop_key(end, &id, key)),
        Request::Data(id, content) => seal(end, Plane::User, &id, &content, transcript),
        Request::Command(id, content) => seal(end, Plane::Control, &id, &content, transcript),
        Request::Report(id) => transcript.append(reported(end.report(&id))),
        Request::End(id) => transcript.append(end_session(end, &id)),
        Request::Hear(mut message) => hear(end, &mut message, transcript),
    }
}
