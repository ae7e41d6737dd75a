// The words of a line: which end it speaks to, and what it asks for.
ghost use Rattle.std.specs.Prelude.{◌≡◌};
ghost use Rattle.script.specs.Words.{side_of, verb_of, field_count};

// The end that a line speaks to: the logger is written U, the service H. No `Role`: this crate stands on no other.
#[derive(Clone, Copy, PartialEq, Eq, Debug)]
pub enum Side {
    Logger,
    Service,
}

// What a line asks for.
#[derive(Clone, Copy, PartialEq, Eq, Debug)]
pub enum Verb {
    Begin,
    Give,
    Choose,
    Drop,
    Data,
    Command,
    Report,
    End,
    Hear,
}

// An `Option` and no `TryFrom`, here and below: a word that is none makes a bad line, which is no error.
pub fn side_of(word: &[u8]) -> Option<Side>
    ensures { result ≡ side_of word.now }
{
    match word {
        b"U" => Some(Side::Logger),
        b"H" => Some(Side::Service),
        _ => None,
    }
}

pub fn verb_of(word: &[u8]) -> Option<Verb>
    ensures { result ≡ verb_of word.now }
{
    match word {
        b"begin" => Some(Verb::Begin),
        b"give" => Some(Verb::Give),
        b"choose" => Some(Verb::Choose),
        b"drop" => Some(Verb::Drop),
        b"data" => Some(Verb::Data),
        b"command" => Some(Verb::Command),
        b"report" => Some(Verb::Report),
        b"end" => Some(Verb::End),
        b"hear" => Some(Verb::Hear),
        _ => None,
    }
}

impl Verb {
    // How many fields a line with this verb has: end, verb, and what the verb takes.
    pub fn field_count(self) -> usize
        ensures { result ≡ field_count self }
    {
        match self {
            Verb::Begin => 9,
            Verb::Give => 6,
            Verb::Choose | Verb::Drop | Verb::Data | Verb::Command => 4,
            Verb::Report | Verb::End | Verb::Hear => 3,
        }
    }
}
