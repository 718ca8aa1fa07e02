// Loads the index file on standard input and writes one line: `accepted` and how many modules, scopes, type expressions, definitions,
// expressions, questions and items it has, or `refused`, the refusal's number and its line; parted by tabs.
#![tactic(auto)]

ghost use Rattle.std.specs.Prelude.{◌≡◌, ◌+◌, ◌*◌, ◌≤◌, [], ◌∷◌, ◌++◌, IfOk, List, ℕ, length, take};
ghost use Rattle.check_index.specs.Line.{counted, counts, row_total, accepted_line, refused_line, line_of, loading_line};
ghost use Rattle.format.specs.Load.{load};
ghost use Rattle.records.specs.Meaning.{row_kind_number};
ghost use Rattle.refusals.specs.Numbers.{file_refusal_number};

use records::RowKind;
use refusals::FileRefused;
use std::io::{Print, Read};
use std::marker::Model;

// The word of the header that says how many items there are.
const ITEM_COUNT: usize = 2;

// The line as far as it is written: the first `length` of the bytes. (type_text's `Writer` stays beside it: that one borrows its buffer and promises where in it the
// bytes stand, while this one owns its bytes, as many as any line has (no heap), and its model is the text, so that each promise is `self.new ≡ self.old ++ text`.)
#[derive(Drop)]
struct LineBuffer {
    bytes: [u8; 192],
    length: usize,
}

impl Model for LineBuffer {
    ghost Value = { List ℕ };

    ghost view = { λ line. take line.length line.bytes };

    ghost invariant = { λ line. line.length ≤ 192 };
}

impl LineBuffer {
    fn new() -> LineBuffer
        ensures { result ≡ [] }
    {
        LineBuffer {
            bytes: [0; 192],
            length: 0,
        }
    }

    fn written(&self) -> &[u8]
        ensures { result.now ≡ self.now }
    {
        &self.bytes[..self.length]
    }

    // Puts the text behind what is written.
    fn put(&mut self, text: &[u8])
        requires { length self.old + length text.now ≤ 192 }
        ensures { self.new ≡ self.old ++ text.now }
    {
        let end = self.length + text.len();
        self.bytes[self.length..end].copy_from_slice(text);
        self.length = end;
    }

    // The same of a tab and a number.
    fn put_number(&mut self, n: u64)
        requires { length self.old + 21 ≤ 192 }
        ensures ends { length self.new ≤ length self.old + 21 }
        ensures puts { self.new ≡ counted self.old (n ∷ []) }
    {
        let mut digits = [0u8; 20];
        let k = io::decimal(n, &mut digits);
        self.put(b"\t");
        self.put(&digits[..k]);
    }

    // The same of each of the numbers, behind a tab.
    fn put_numbers(&mut self, numbers: &[u64])
        requires { length self.old + 21 * length numbers.now ≤ 192 }
        ensures ends { length self.new ≤ length self.old + 21 * length numbers.now }
        ensures puts { self.new ≡ counted self.old numbers.now }
    {
        for n in numbers {
            self.put_number(*n);
        }
    }
}

// The line of an accepted file, by its record words.
fn accepted(words: &[u32]) -> LineBuffer
    ensures { result ≡ accepted_line words.now }
{
    let mut line = LineBuffer::new();
    line.put(b"accepted");
    put_records(words, &mut line);
    line.put(b"\n");
    line
}

// How many records of each kind there are, and items.
fn put_records(words: &[u32], line: &mut LineBuffer)
    requires { length line.old + 147 ≤ 192 }
    ensures ends { length line.new ≤ length line.old + 147 }
    ensures puts { line.new ≡ counted line.old (counts words.now) }
{
    let modules = records::word_at(words, records::MODULE_COUNT) as u64;
    let scopes = row_total(words, RowKind::Scope);
    let types = row_total(words, RowKind::TypeExpr);
    let definitions = row_total(words, RowKind::Definition);
    let expressions = row_total(words, RowKind::Expression);
    let questions = records::word_at(words, records::QUESTION_COUNT) as u64;
    let items = records::word_at(words, ITEM_COUNT) as u64;
    line.put_numbers(&[
        modules,
        scopes,
        types,
        definitions,
        expressions,
        questions,
        items,
    ]);
}

// How many records of a kind the modules have.
fn row_total(words: &[u32], kind: RowKind) -> u64
    ensures { result ≡ row_total words.now (row_kind_number kind) }
{
    let count = records::word_at(words, records::MODULE_COUNT);
    (0..count)
        .map(|m| records::rows_of(words, m, kind).count as u64)
        .sum()
}

// The line of a refused file. (`put_refused` of `resolve` writes the same bytes into a lent buffer, with a `Writer`: that program would need this one's `LineBuffer`, or this
// one a buffer and its length.)
fn refused(refused: FileRefused) -> LineBuffer
    ensures { result ≡ refused_line (file_refusal_number refused.refusal) refused.line }
{
    let mut line = LineBuffer::new();
    line.put(b"refused");
    let number = refused.refusal.number();
    line.put_numbers(&[number as u64, refused.line as u64]);
    line.put(b"\n");
    line
}

// The line of a loaded file.
fn line_of(loaded: Result<(), FileRefused>, words: &[u32]) -> LineBuffer
    ensures { result ≡ line_of loaded words.now }
{
    match loaded {
        Ok(()) => accepted(words),
        Err(refusal) => refused(refusal),
    }
}

// The line that the definition of loading sets out for a file.
fn check_file(file: &[u8], words: &mut [u32]) -> LineBuffer
    requires { 16384 ≡ length words.old }
    ensures { result ≡ loading_line (load file.now) }
{
    let loaded = loader::load(file, words);
    line_of(loaded, words)
}

// What stands on standard input, as far as the space takes it. How many reads that takes is known only when the last is done, so no `for` goes over them.
// The space is fixed memory: std's reading to the end would take a Vec. (`resolve` has the same function: a library for two programs would be as long.)
fn read_input(rt: HostRuntime, space: &mut [u8]) -> std::io::Result<&[u8]>
    ensures { IfOk result (λ file. length file.now ≤ length space.old) }
{
    let mut input = rt.stdin();
    let mut n = 0;
    while n < space.len() {
        let more = input.read(&mut space[n..])?;
        if more == 0 {
            break;
        }
        n += more;
    }
    Ok(&space[..n])
}

// A file of one byte more than the limit fits in the space, so that it is seen to be too long. A read or a write that fails ends the program with its error.
fn main(rt: HostRuntime) -> std::io::Result<()> {
    let mut space = [0; 65537];
    let file = read_input(rt, &mut space)?;
    let mut words = [0; loader::RECORD_WORDS];
    let line = check_file(file, &mut words);
    rt.write_all(line.written())
}
