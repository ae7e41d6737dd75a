// The lines of a script, one after the other.
ghost use Rattle.std.specs.Prelude.{◌≡◌, ◌<◌, [], ◌∷◌, ◌==◌, length, MatchOption};
ghost use Rattle.std.specs.List.{position};
ghost use Rattle.std.specs.Iterator.{YieldsFirstRef, item_count};
ghost use Rattle.script.specs.Pieces.{lines_of};
ghost use Rattle.script.specs.Lines.{lines_left};

// The first line of an input, and what stands behind it.
#[derive(Drop)]
pub struct FirstLine<'a> {
    pub line: &'a [u8],
    pub rest: &'a [u8],
}

// Where the first newline stands.
fn first_newline(text: &[u8]) -> Option<usize>
    ensures { result ≡ position (λ x. x == 10) text.now }
{
    text.iter().position(|x| *x == b'\n')
}

// The first line, if there is one. What is left is shorter, and has the other lines.
#[tactic(auto, using(crate::proofs::Cutting::line_cut, crate::proofs::Cutting::line_last))]
pub fn first_line<'a>(input: &'a [u8]) -> Option<FirstLine<'a>>
    ensures lines { MatchOption result (lines_of input.now ≡ []) (λ f. lines_of input.now ≡ f.line.now ∷ lines_of f.rest.now) }
    ensures shorter { MatchOption result (length input.now ≡ 0) (λ f. length f.rest.now < length input.now) }
{
    if input.is_empty() {
        return None;
    }
    match first_newline(input) {
        Some(n) => Some(FirstLine {
            line: &input[..n],
            rest: &input[n + 1..],
        }),
        None => Some(FirstLine {
            line: input,
            rest: &[],
        }),
    }
}

// The lines of an input that are still to come.
#[derive(Drop)]
pub struct Lines<'a> {
    rest: &'a [u8],
}

impl<'a> Lines<'a> {
    // The lines of an input, without their newlines.
    pub fn new(input: &'a [u8]) -> Lines<'a>
        ensures { lines_left result ≡ lines_of input.now }
    {
        Lines { rest: input }
    }
}

impl<'a> Iterator for Lines<'a> {
    type Item = &'a [u8];

    ghost next_gives = { YieldsFirstRef lines_left };

    ghost remaining = { item_count lines_left };

    fn next(&mut self) -> Option<&'a [u8]> {
        let first = first_line(self.rest)?;
        self.rest = first.rest;
        Some(first.line)
    }
}
