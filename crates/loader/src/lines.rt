// One line: the limits, its form, its place and its end.
ghost use Rattle.std.specs.Prelude.{◌≡◌, ◌+◌, ◌≤◌, ◌<◌, length, drop};
ghost use Rattle.format.specs.FirstPass.{stage_of, in_place};
ghost use Rattle.loader.specs.State.{Fine, HasRoom, has_room, counts_after};
ghost use Rattle.loader.specs.Lines.{LinePut};
ghost use Rattle.loader.specs.Steps.{is_module, again, repeated, may_stand, Good, Stepped};

use crate::items::ItemsRead;
use crate::rows::Counts;
use crate::{items, rows};
use format::LineWord;
use records::Index;
use refusals::FileRefusal;

// There is room for one more line of the kind.
fn has_line_room(word: LineWord, n: Counts) -> bool
    ensures { result ≡ has_room word n }
{
    match word {
        LineWord::M => n.modules < 8,
        LineWord::S => n.scopes < 128,
        LineWord::T => n.types < 512,
        LineWord::D => n.definitions < 256,
        LineWord::E => n.expressions < 512,
        LineWord::Q => n.questions < 256,
    }
}

// A number, as in the definition, since `in_place` asks which stages come before.
fn stage_of(word: LineWord) -> u32
    ensures { result ≡ stage_of word }
{
    match word {
        LineWord::M => 1,
        LineWord::S => 2,
        LineWord::T => 3,
        LineWord::D => 4,
        LineWord::E => 5,
        LineWord::Q => 6,
    }
}

// A line of this kind may follow one of that stage.
fn in_place(word: LineWord, stage: u32) -> bool
    ensures { result ≡ in_place word stage }
{
    match word {
        LineWord::M => stage < 6,
        LineWord::S => (1 <= stage) && (stage <= 2),
        LineWord::T => (1 <= stage) && (stage <= 3),
        LineWord::D => (1 <= stage) && (stage <= 4),
        LineWord::E => (1 <= stage) && (stage <= 5),
        LineWord::Q => true,
    }
}

// Whether one of the modules before row n has its name.
fn is_again(index: &Index, n: u32) -> bool
    ensures { result ≡ again index.now.file.now index.now.words.now n }
{
    let name = records::module_name(index.words, n);
    (0..n).any(|m| {
        semantic_index::names::same_name(index.file, records::module_name(index.words, m), name)
    })
}

fn is_module(word: LineWord) -> bool
    ensures { result ≡ is_module word }
{
    matches!(word, LineWord::M)
}

// "A module name again": the name of a module's line stands in row n.
fn is_repeated(index: &Index, word: LineWord, n: u32) -> bool
    ensures { result ≡ repeated index.now.file.now index.now.words.now word n }
{
    is_module(word) && is_again(index, n)
}

// Whether a line of the kind may stand here.
fn may_stand(index: &Index, word: LineWord, stage: u32, n: u32) -> bool
    ensures { result ≡ may_stand index.now.file.now index.now.words.now word stage n }
{
    in_place(word, stage) && !is_repeated(index, word, n)
}

// The counts with one more record of the kind and its items.
fn counted(word: LineWord, n: Counts, count: usize) -> Counts
    requires { (n.modules ≤ 8) × (n.scopes ≤ 128) × (n.types ≤ 512) × (n.definitions ≤ 256) × (n.expressions ≤ 512) × (n.questions ≤ 256) × (n.items + count ≤ 2048) }
    ensures { result ≡ counts_after word n count }
{
    let mut r = n;
    r.stage = stage_of(word);
    r.items = n.items + count;
    match word {
        LineWord::M => r.modules = n.modules + 1,
        LineWord::S => r.scopes = n.scopes + 1,
        LineWord::T => r.types = n.types + 1,
        LineWord::D => r.definitions = n.definitions + 1,
        LineWord::E => r.expressions = n.expressions + 1,
        LineWord::Q => r.questions = n.questions + 1,
    }
    r
}

// The line of a kind, behind its first field.
fn read_line(
    file: &[u8],
    word: LineWord,
    at: usize,
    words: &mut [u32],
    n: Counts,
) -> Option<ItemsRead>
    requires { Fine file.now words.old n × HasRoom word n }
    ensures { LinePut word file.now words.old n (drop at file.now) words.new result }
{
    match word {
        LineWord::M => rows::read_module(file, at, words, n),
        LineWord::S => rows::read_scope(file, at, words, n),
        LineWord::T => rows::read_type(file, at, words, n),
        LineWord::D => rows::read_definition(file, at, words, n),
        LineWord::E => rows::read_expression(file, at, words, n),
        LineWord::Q => rows::read_question(file, at, words, n),
    }
}

// What is counted then, and where the next line begins.
#[derive(Clone, Copy)]
pub struct Next {
    pub counts: Counts,
    pub at: usize,
}

// The line that begins at `at`.
pub fn step_on(file: &[u8], at: usize, words: &mut [u32], n: Counts) -> Result<Next, FileRefusal>
    requires { Good file.now words.old n × (at ≤ length file.now) }
    ensures { Stepped file.now words.old n (drop at file.now) words.new result }
{
    let p = words::field_end(file, at);
    let Some(word) = words::word(&file[at..p]) else {
        return Err(FileRefusal::Form);
    };
    if !has_line_room(word, n) {
        return Err(FileRefusal::Limit);
    }
    let Some(read) = read_line(file, word, p, words, n) else {
        return Err(FileRefusal::Form);
    };
    if items::MAX_ITEMS - n.items < read.count {
        return Err(FileRefusal::Limit);
    }
    if !may_stand(&Index { file, words }, word, n.stage, n.modules as u32) {
        return Err(FileRefusal::Form);
    }
    if !words::is_byte(file, read.end, b'\n') {
        return Err(FileRefusal::Form);
    }
    Ok(Next {
        counts: counted(word, n, read.count),
        at: read.end + 1,
    })
}
