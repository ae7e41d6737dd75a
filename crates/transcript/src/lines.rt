// The lines of a transcript, one after the other.
ghost use Rattle.std.specs.Prelude.{◌≡◌, ◌≤◌, length, is_ok, string_bytes};
ghost use Rattle.transcript.specs.Outcomes.{outcome_of};
ghost use Rattle.transcript.specs.Lines.{Written, nothing_written, Appended};

use crate::answer::{Answer, append_line};
use std::alloc::{AllocError, Global};
use std::marker::Model;

// A text with a numbered line for each answer.
#[derive(Drop)]
pub struct Transcript {
    text: String,
    lines: usize,
}

impl Model for Transcript {
    ghost Value = { Written };

    ghost view = { λ t. record { text = string_bytes t.text; lines = t.lines } };

    ghost invariant = { λ t. t.lines ≤ length (string_bytes t.text) };
}

impl Transcript {
    pub fn new(heap: Global) -> Transcript
        ensures { result ≡ nothing_written }
    {
        Transcript {
            text: String::new(heap),
            lines: 0,
        }
    }

    // Appends the line that tells an answer. Where there is no memory for it, nothing is appended.
    pub fn append(&mut self, answer: Answer<'_>) -> Result<(), AllocError>
        ensures { Appended self.old self.new (outcome_of answer.entry) (is_ok result) }
    {
        let number = self.lines + 1;
        append_line(&mut self.text, number, answer)?;
        self.lines = number;
        Ok(())
    }

    // The lines so far.
    pub fn into_text(self) -> String
        ensures { string_bytes result ≡ self.text }
    {
        self.text
    }
}
