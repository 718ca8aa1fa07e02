// Answering and the check of a file for programs in other languages: `rt lib` here makes out/libexport.a. A slice is a pointer and a length
// there, a result one number of 64 bits: its kind, a number of 16 bits and one of 32 bits.
#![tactic(auto)]

ghost use Rattle.std.specs.Prelude.{◌≡◌, Ok};
ghost use Rattle.refusals.specs.Numbers.{file_refusal_number};
ghost use Rattle.answers.specs.Numbers.{line_numbers, lines_numbers};
ghost use Rattle.answers.specs.Promises.{buffers};
ghost use Rattle.export.specs.Numbers.{packed_number, loaded_numbers, LoadedPacked, LinePacked, LinesPacked};
ghost use Rattle.export.specs.Numbers.{Exported, ExportedAnswer, ExportedAnswers};

use answers::{LineAnswer, LinesAnswer};
use demands::Place;
use refusals::FileRefused;

// ------------------------------------------------------------------ results as numbers

// Where the parts of a number begin: the kind at bit 48, the number of 16 bits at bit 32.
const KIND: u64 = 1 << 48;

const HIGH: u64 = 1 << 32;

// A part of 16 bits.
const SMALL: u64 = 1 << 16;

fn packed(kind: u64, high: u64, low: u64) -> u64
    ensures { result ≡ packed_number kind high low }
{
    (kind % SMALL) * KIND + (high % SMALL) * HIGH + low % HIGH
}

// A file's refusal: kind 3, its number and its line.
fn file_refused(refused: FileRefused) -> u64
    ensures { result ≡ packed_number 3 (file_refusal_number refused.refusal) refused.line }
{
    packed(3, refused.refusal.number() as u64, refused.line as u64)
}

fn loaded_result(loaded: Result<(), FileRefused>) -> u64
    ensures { LoadedPacked (loaded_numbers loaded) result }
{
    loaded.map_or_else(file_refused, |()| packed(0, 0, 0))
}

// This one and `lines_number`, and the C functions below, are alike in the lent buffers and the packing alone: each says another promise.
fn line_number(answer: LineAnswer) -> u64
    ensures { LinePacked (line_numbers (Ok answer)) result }
{
    match answer {
        LineAnswer::Line(bytes) => packed(0, 0, bytes as u64),
        LineAnswer::Refused(refusal) => packed(1, refusal.number() as u64, 0),
        LineAnswer::PastLast => packed(2, 0, 0),
    }
}

fn line_result(answer: Result<LineAnswer, FileRefused>) -> u64
    ensures { LinePacked (line_numbers answer) result }
{
    answer.map_or_else(file_refused, line_number)
}

// The line to go on with and the bytes share the last 32 bits.
fn lines_number(answer: LinesAnswer) -> u64
    ensures { LinesPacked (lines_numbers (Ok answer)) result }
{
    match answer {
        LinesAnswer::More {
            question,
            line,
            bytes,
        } => {
            let low = (line as u64) * SMALL + (bytes as u64) % SMALL;
            packed(1, question as u64, low)
        }
        LinesAnswer::End(bytes) => packed(0, 0, bytes as u64),
    }
}

fn lines_result(answer: Result<LinesAnswer, FileRefused>) -> u64
    ensures { LinesPacked (lines_numbers answer) result }
{
    answer.map_or_else(file_refused, lines_number)
}

// ------------------------------------------------------------------ the exported functions

// Whether a file is accepted: 0, or kind 3 with refusal 1 to 5 and its line. The words of the index are the first 16,384 of the buffer, for
// looking at: no function here takes anything from them.
#[unsafe(no_mangle)]
pub extern "C" fn roognaps_load(file: &[u8], records: &mut [u32]) -> u64
    ensures { Exported file.now records.old records.new result }
{
    loaded_result(loader::load(file, records))
}

// The question's line of that number: kind 0 with its length, which stands at the start of the answer buffer; kind 1 with refusal 6 to 10 and how many
// bytes the answer buffer holds for it, none; kind 2 past the question's last line; kind 3 with refusal 1 to 5 of the file and its line. A place of the
// list of open demands is five words.
#[unsafe(no_mangle)]
pub extern "C" fn roognaps_answer(
    file: &[u8],
    number: u32,
    line: u32,
    records: &mut [u32],
    types: &mut [u32],
    demands: &mut [Place],
    out: &mut [u8],
) -> u64
    ensures { ExportedAnswer file.now number line (buffers records.old types.old demands.old out.old) (buffers records.new types.new demands.new out.new) result }
{
    line_result(answers::answer(file, number, line, records, types, demands, out))
}

// The lines from a question's line on, as many as fit into the first 4,160 bytes: kind 0 with their bytes where all are there; kind 1 with the question to go
// on with, its line and the bytes; kind 3 with refusal 1 to 5 of the file and its line.
#[unsafe(no_mangle)]
pub extern "C" fn roognaps_answer_from(
    file: &[u8],
    from: u32,
    line: u32,
    records: &mut [u32],
    types: &mut [u32],
    demands: &mut [Place],
    out: &mut [u8],
) -> u64
    ensures { ExportedAnswers file.now from line (buffers records.old types.old demands.old out.old) (buffers records.new types.new demands.new out.new) result }
{
    lines_result(answers::answer_from(file, from, line, records, types, demands, out))
}
