// The public entries: a file is loaded, its questions are resolved, and their answer lines are written into a lent buffer.
#![tactic(auto)]

ghost use Rattle.std.specs.Prelude.{◌≡◌, ◌≤◌, ◌<◌, Ok, length};
ghost use Rattle.refusals.specs.Numbers.{refusal_number};
ghost use Rattle.records.specs.Layout.{index_of};
ghost use Rattle.resolution.specs.Answer.{type_text, Verdict, text_verdict, asked_lead};
ghost use Rattle.resolution.specs.TableOk.{TableOk};
ghost use Rattle.resolution.specs.TypeResolution.{none_word};
ghost use Rattle.type_table.specs.Layout.{table_of, Sound};
ghost use Rattle.type_table.specs.Promises.{cleared};
ghost use Rattle.demands.specs.Meaning.{cleared_places};
ghost use Rattle.views.specs.Asking.{asked_of};
ghost use Rattle.line_text.specs.Lines.{line_with};
ghost use Rattle.answers.specs.Numbers.{line_numbers, lines_numbers};
ghost use Rattle.answers.specs.Steps.{LongIs, Exact, Loaded as HoldsFile, StepIs};
ghost use Rattle.answers.specs.Steps.{SaidAnswered, AskedAnswered, Stepped, LinesWritten};
ghost use Rattle.answers.specs.Promises.{buffers, LongBuffers, ShortAnswer, Answered, ShortAnswers, AnsweredFrom};
ghost use Rattle.answers.specs.Promises.{ExactAnswered, ExactAnsweredFrom};

use demands::Place;
use line_text::LineError;
use records::Index;
use refusals::{FileRefusal, FileRefused, Refusal};
use type_table::Types;
use views::Asked;

// One line's answer: it stands at the start of the answer buffer, with its length; one of the refusals 6 to 10; or the question has no line of that number.
// (No `Option` or `Result`: three cases that mean different things, as in document 01.)
#[derive(Clone, Copy, PartialEq, Eq)]
pub enum LineAnswer {
    Line(usize),
    Refused(Refusal),
    PastLast,
}

// The lines of many questions: the first line that no longer fits, by the numbers of its question and its own, and how many bytes are written;
// or all lines up to the last question's, and how many bytes.
#[derive(Clone, Copy, PartialEq, Eq)]
pub enum LinesAnswer {
    More {
        question: u32,
        line: u32,
        bytes: usize,
    },
    End(usize),
}

// What became of a line. (Three cases, and so no `Option` or `Result`.)
#[derive(Clone, Copy, PartialEq, Eq)]
pub enum Step {
    Line(usize),
    NoRoom,
    PastLast,
}

// 1 and 5, at no line.
const SHORT_BUFFER: FileRefused = FileRefused {
    refusal: FileRefusal::ShortBuffer,
    line: 0,
};

const NO_QUESTION: FileRefused = FileRefused {
    refusal: FileRefusal::Link,
    line: 0,
};

// The length that the answer buffer must have. (Those of the other buffers are constants of their crates.)
pub const ANSWER_BYTES: usize = 4160;

// ------------------------------------------------------------------ a line

// The type words, the places and the answer bytes are parameters of their own. In a struct of three `&mut` they would be no plainer: each call takes
// others of them, the type words are read through a `&` where a line is written, and of the answer bytes a line gets those behind the last one, so that each call would make
// a struct of its own; and behind a `&mut` of such a struct the read leaves nothing known of the words but their length (see type_resolution).

// Writes the line of a type. Without one the type words are all zero. (It is given the words to change, and makes the `Types`: so it has the two clauses.)
fn answer_typed(
    file: &[u8],
    types: &mut [u32],
    t: u32,
    asked: Asked,
    out: &mut [u8],
) -> Result<usize, LineError>
    requires sound { Sound file.now types.old }
    requires table_ok { TableOk (table_of file.now types.old) }
    requires types_len { length types.old ≡ 8192 }
    ensures { SaidAnswered (asked_lead (asked_of asked)) (text_verdict (type_text (table_of file.now types.old) t)) types.old out.old types.new out.new result }
{
    let written = line_text::write_typed(&Types { file, words: types }, t, asked, out);
    if written.is_err() {
        type_table::clear(types);
    }
    written
}

// Writes the line `none`. Without room for it the type words are all zero. (It returns early, and not as `answer_typed`: with `ok_or` behind the clearing, tried, the
// two ways meet before the answer is made, and the proof would have to part them again.)
fn answer_none(types: &mut [u32], asked: Asked, out: &mut [u8]) -> Result<usize, LineError>
    requires { length types.old ≡ 8192 }
    ensures { SaidAnswered (asked_lead (asked_of asked)) (Verdict.worded none_word) types.old out.old types.new out.new result }
{
    let Some(n) = line_text::write_none(asked, out) else {
        type_table::clear(types);
        return Err(LineError::NoRoom);
    };
    Ok(n)
}

// Resolves what is asked of the loaded file and writes its line if it is no refusal. No demand is open behind it.
fn answer_asked(
    index: &Index,
    types: &mut [u32],
    demands: &mut [Place],
    asked: Asked,
    out: &mut [u8],
) -> Result<usize, LineError>
    requires { HoldsFile index.now.file.now index.now.words.now types.old demands.old }
    ensures { AskedAnswered index.now.file.now (index_of index.now.file.now index.now.words.now) (asked_of asked) out.old types.new demands.new out.new result }
{
    type_table::start(types);
    let said = type_resolution::resolve_asked(index, types, demands, asked);
    demands::clear(demands);
    // Two matches, here and below, and no pattern within a pattern: tried, and what the inner value is stands in its goal behind a projection of the outer
    // one, from which the proof didn't get back to it.
    match said {
        Ok(said) => match said {
            Some(t) => answer_typed(index.file, types, t, asked, out),
            None => answer_none(types, asked, out),
        },
        Err(refusal) => {
            type_table::clear(types);
            Err(LineError::Refused(refusal))
        }
    }
}

// Writes the line of a refusal.
fn answer_refused(asked: Asked, refusal: Refusal, out: &mut [u8]) -> Step
    ensures { StepIs (line_with (asked_lead (asked_of asked)) (Verdict.refused (refusal_number refusal))) out.old out.new result }
{
    line_text::write_refused(asked, refusal.number(), out).map_or(Step::NoRoom, Step::Line)
}

// The line of a number, of a question that the file has; a refused one's line is written too.
fn answer_line(
    index: &Index,
    types: &mut [u32],
    demands: &mut [Place],
    number: u32,
    line: u32,
    out: &mut [u8],
) -> Step
    requires holds_file { HoldsFile index.now.file.now index.now.words.now types.old demands.old }
    requires number_in_bounds { number < length (index_of index.now.file.now index.now.words.now).questions }
    ensures { Stepped index.now.file.now (index_of index.now.file.now index.now.words.now) number line types.old demands.old out.old types.new demands.new out.new result }
{
    let question = records::question_row(index.words, number);
    let Some(asked) = views::asked_at(question, line) else {
        return Step::PastLast;
    };
    match answer_asked(index, types, demands, asked, out) {
        Ok(n) => Step::Line(n),
        Err(error) => match error {
            LineError::NoRoom => Step::NoRoom,
            LineError::Refused(refusal) => answer_refused(asked, refusal, out),
        },
    }
}

// The lines from a question's line on, while they fit. The number of the line and that of the question go on by what became of the line: no `for` counts
// either.
fn answer_lines(
    index: &Index,
    types: &mut [u32],
    demands: &mut [Place],
    from: u32,
    start: u32,
    out: &mut [u8],
) -> LinesAnswer
    requires holds_file { HoldsFile index.now.file.now index.now.words.now types.old demands.old }
    requires from_in_bounds { from ≤ length (index_of index.now.file.now index.now.words.now).questions }
    requires out_len { length out.old ≡ 4160 }
    ensures { LinesWritten index.now.file.now (index_of index.now.file.now index.now.words.now) from start types.old out.old demands.old types.new demands.new out.new (lines_numbers (Ok result)) }
{
    let count = records::question_count(index.words);
    let mut next = from;
    let mut line = start;
    let mut at: usize = 0;
    while next < count {
        match answer_line(index, types, demands, next, line, &mut out[at..]) {
            Step::NoRoom => {
                return LinesAnswer::More {
                    question: next,
                    line,
                    bytes: at,
                };
            }
            Step::Line(n) => {
                at += n;
                line += 1;
            }
            Step::PastLast => {
                next += 1;
                line = 0;
            }
        }
    }
    LinesAnswer::End(at)
}

// ------------------------------------------------------------------ the public entries

// `answer` and `answer_from`, and below them `answer_exact` and `lines_exact`, have the list of the lent buffers in common and nothing else: each promises
// something else of them, and does something else behind `load`.

// Whether the buffers are as long as they have to be.
fn are_long(records: usize, types: usize, places: usize, bytes: usize) -> bool
    ensures { LongIs records types places bytes result }
{
    records >= loader::RECORD_WORDS
        && types >= type_table::WORDS
        && places >= demands::PLACES
        && bytes >= ANSWER_BYTES
}

// Makes all type words and places that document 01 counts zero.
fn clear_both(types: &mut [u32], demands: &mut [Place])
    ensures types { types.new ≡ cleared types.old }
    ensures demands { demands.new ≡ cleared_places demands.old }
{
    type_table::clear(types);
    demands::clear(demands);
}

// The line of a question, both by their numbers, of a loaded file. A file that lacks the question is refused with 5, and its words are zero. Past the
// last line the type words are zero.
fn answer_loaded(
    file: &[u8],
    number: u32,
    line: u32,
    words: &mut [u32],
    types: &mut [u32],
    demands: &mut [Place],
    out: &mut [u8],
) -> Result<LineAnswer, FileRefused>
    requires holds_file { HoldsFile file.now words.old types.old demands.old }
    requires in_bounds { 4160 ≤ length out.old }
    ensures { ExactAnswered file.now number line types.old demands.old out.old words.new types.new demands.new out.new (line_numbers result) }
{
    let Some(question) = records::question_at(words, number) else {
        loader::clear(words);
        return Err(NO_QUESTION);
    };
    let Some(asked) = views::asked_at(question, line) else {
        clear_both(types, demands);
        return Ok(LineAnswer::PastLast);
    };
    let index = Index { file, words };
    match answer_asked(&index, types, demands, asked, out) {
        Ok(n) => Ok(LineAnswer::Line(n)),
        Err(error) => match error {
            LineError::Refused(refusal) => Ok(LineAnswer::Refused(refusal)),
            // No line is longer than the answer buffer.
            LineError::NoRoom => Ok(LineAnswer::Refused(Refusal::LongText)),
        },
    }
}

// The same of a file that is still to be loaded.
fn answer_exact(
    file: &[u8],
    number: u32,
    line: u32,
    words: &mut [u32],
    types: &mut [u32],
    demands: &mut [Place],
    out: &mut [u8],
) -> Result<LineAnswer, FileRefused>
    requires exact { Exact words.old types.old demands.old }
    requires in_bounds { 4160 ≤ length out.old }
    ensures { ExactAnswered file.now number line types.old demands.old out.old words.new types.new demands.new out.new (line_numbers result) }
{
    loader::load(file, words)?;
    answer_loaded(file, number, line, words, types, demands, out)
}

// Loads a file and answers the question of a number by its line of a number, from 0. What each buffer holds behind it: `Answered` and `ShortAnswer` of specs/Promises.antt.
pub fn answer(
    file: &[u8],
    number: u32,
    line: u32,
    records: &mut [u32],
    types: &mut [u32],
    demands: &mut [Place],
    out: &mut [u8],
) -> Result<LineAnswer, FileRefused>
    ensures short { (LongBuffers (buffers records.old types.old demands.old out.old) → ⊥)
        → ShortAnswer (buffers records.old types.old demands.old out.old) (buffers records.new types.new demands.new out.new) (line_numbers result) }
    ensures full { LongBuffers (buffers records.old types.old demands.old out.old)
        → Answered file.now number line (buffers records.old types.old demands.old out.old) (buffers records.new types.new demands.new out.new) (line_numbers result) }
{
    if !are_long(records.len(), types.len(), demands.len(), out.len()) {
        return Err(SHORT_BUFFER);
    }
    answer_exact(
        file,
        number,
        line,
        &mut records[..loader::RECORD_WORDS],
        &mut types[..type_table::WORDS],
        &mut demands[..demands::PLACES],
        out,
    )
}

// The lines of a file that is still to be loaded.
fn lines_exact(
    file: &[u8],
    from: u32,
    line: u32,
    words: &mut [u32],
    types: &mut [u32],
    demands: &mut [Place],
    out: &mut [u8],
) -> Result<LinesAnswer, FileRefused>
    requires exact { Exact words.old types.old demands.old }
    requires out_len { length out.old ≡ 4160 }
    ensures { ExactAnsweredFrom file.now from line types.old demands.old out.old words.new types.new demands.new out.new (lines_numbers result) }
{
    loader::load(file, words)?;
    if records::question_count(words) < from {
        loader::clear(words);
        return Err(NO_QUESTION);
    }
    let index = Index { file, words };
    Ok(answer_lines(&index, types, demands, from, line, out))
}

// Loads a file and answers its questions from a question's line on: as many lines as fit into 4,160 bytes, and at least one if there is one. Where the
// question has no such line it goes on with the next. `More` leaves the type words zero, since the next line was resolved before it was seen to have no room: see `AnsweredFrom`.
pub fn answer_from(
    file: &[u8],
    from: u32,
    line: u32,
    records: &mut [u32],
    types: &mut [u32],
    demands: &mut [Place],
    out: &mut [u8],
) -> Result<LinesAnswer, FileRefused>
    ensures short { (LongBuffers (buffers records.old types.old demands.old out.old) → ⊥)
        → ShortAnswers (buffers records.old types.old demands.old out.old) (buffers records.new types.new demands.new out.new) (lines_numbers result) }
    ensures full { LongBuffers (buffers records.old types.old demands.old out.old)
        → AnsweredFrom file.now from line (buffers records.old types.old demands.old out.old) (buffers records.new types.new demands.new out.new) (lines_numbers result) }
{
    if !are_long(records.len(), types.len(), demands.len(), out.len()) {
        return Err(SHORT_BUFFER);
    }
    lines_exact(
        file,
        from,
        line,
        &mut records[..loader::RECORD_WORDS],
        &mut types[..type_table::WORDS],
        &mut demands[..demands::PLACES],
        &mut out[..ANSWER_BYTES],
    )
}
