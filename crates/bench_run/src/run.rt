// A whole script, line by line, at a logger and a service.
ghost use Rattle.std.specs.Prelude.{◌≡◌, is_ok, IfOk, string_bytes};
ghost use Rattle.std.specs.Option.{option_map};
ghost use Rattle.store.specs.StoreLaws.{Kept};
ghost use Rattle.endpoint.specs.Ends.{meaning};
ghost use Rattle.script.specs.Asked.{asked_line};
ghost use Rattle.script.specs.Pieces.{lines_of};
ghost use Rattle.transcript.specs.Lines.{Appended};
ghost use Rattle.bench_run.specs.Runs.{both, outcome_for, BothGoOn, answers_to, transcript_of};

use crate::requests::perform;
use bench_suite::Bench;
use endpoint::end::Endpoint;
use script::lines::Lines;
use script::request::{Line, read_line};
use script::words::Side;
use std::alloc::{AllocError, Global};
use store::store::SessionStore;
use stores::one_place::OnePlace;
use stores::place::Place;
use stores::size::TableSize;
use stores::table::Table;
use suite::Suite;
use transcript::answer::Answer;
use transcript::lines::Transcript;
use wire::parties::Role;

// The places of the service's table.
const PLACES: usize = 4;

// A logger and a service. Two programs have its like, with methods of their own.
#[derive(Drop)]
struct Ends<S: SessionStore, R: SessionStore, C: Suite> {
    logger: Endpoint<S, C>,
    service: Endpoint<R, C>,
}

impl<S: SessionStore, R: SessionStore, C: Suite> Ends<S, R, C> {
    // Answers one line at the end that it names; a line that is none is bad.
    fn answer(&mut self, line: Option<Line>, transcript: &mut Transcript) -> Result<(), AllocError>
        ensures text { Appended transcript.old transcript.new (outcome_for (both (meaning C.Suite self.old.logger) (meaning C.Suite self.old.service)) (option_map asked_line line)) (is_ok result) }
        ensures go { BothGoOn (meaning C.Suite self.old.logger) (meaning C.Suite self.old.service) (meaning C.Suite self.new.logger) (meaning C.Suite self.new.service) (option_map asked_line line) }
    {
        match line {
            None => transcript.append(Answer::Bad),
            Some(Line { side, request }) => match side {
                Side::Logger => perform(&mut self.logger, request, transcript),
                Side::Service => perform(&mut self.service, request, transcript),
            },
        }
    }

    // Answers every line, one after the other.
    fn play(&mut self, heap: Global, input: &[u8]) -> Result<String, AllocError>
        requires logger_kept { Kept self.old.logger.pairs }
        requires service_kept { Kept self.old.service.pairs }
        ensures { IfOk result (λ out. string_bytes out ≡ answers_to (both (meaning C.Suite self.old.logger) (meaning C.Suite self.old.service)) 0 (lines_of input.now)) }
    {
        let mut transcript = Transcript::new(heap);
        for line in Lines::new(input) {
            let line = read_line(heap, line)?;
            self.answer(line, &mut transcript)?;
        }
        Ok(transcript.into_text())
    }
}

// The transcript of a script: what a new logger and a new service answer to its lines. It fails only for want of memory.
pub fn run(heap: Global, input: &[u8]) -> Result<String, AllocError>
    ensures { IfOk result (λ out. string_bytes out ≡ transcript_of input.now) }
{
    let mut places = [Place::FREE; PLACES];
    let size = TableSize::check(PLACES).unwrap();
    let mut ends = Ends {
        logger: Endpoint::new(Role::Logger, OnePlace::new(), Bench),
        service: Endpoint::new(Role::Service, Table::new(size, &mut places), Bench),
    };
    ends.play(heap, input)
}
