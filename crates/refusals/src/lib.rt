// Why there is no answer: the refusals of document 01, and their numbers.
#![tactic(auto)]

ghost use Rattle.std.specs.Prelude.{◌≡◌};
ghost use Rattle.refusals.specs.Numbers.{refusal_number, file_refusal_number};

// Why a question is refused: the error of a `Result`.
#[derive(Clone, Copy, PartialEq, Eq)]
pub enum Refusal {
    // A child is missing that the Rust unwraps.
    MissingChild,
    // The demand is open already: a ring.
    OpenDemand,
    // A demand more than may be open at once.
    Depth,
    // A type more than the table has room for, or its items.
    TableFull,
    // A text over its limit.
    LongText,
}

// Why a file is refused, likewise.
#[derive(Clone, Copy, PartialEq, Eq)]
pub enum FileRefusal {
    // A buffer is too short.
    ShortBuffer,
    // The first line is wrong.
    FirstLine,
    // A limit of the file is passed.
    Limit,
    // A line of wrong form, place or last byte, or a module name again.
    Form,
    // A link to no record, or a question that the file lacks.
    Link,
}

// A file's refusal and its line, from 1; 0 where no line is at fault, as document 01 has it (so it is no `Option`).
#[derive(Clone, Copy, PartialEq, Eq)]
pub struct FileRefused {
    pub refusal: FileRefusal,
    pub line: u32,
}

impl Refusal {
    // The number of document 01, by cases as in the definition.
    pub fn number(self) -> u32
        ensures { result ≡ refusal_number self }
    {
        match self {
            Refusal::MissingChild => 6,
            Refusal::OpenDemand => 7,
            Refusal::Depth => 8,
            Refusal::TableFull => 9,
            Refusal::LongText => 10,
        }
    }
}

impl FileRefusal {
    // The number of document 01, by cases as in the definition.
    pub fn number(self) -> u32
        ensures { result ≡ file_refusal_number self }
    {
        match self {
            FileRefusal::ShortBuffer => 1,
            FileRefusal::FirstLine => 2,
            FileRefusal::Limit => 3,
            FileRefusal::Form => 4,
            FileRefusal::Link => 5,
        }
    }
}
