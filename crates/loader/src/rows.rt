// A line is read, and its record written as the next row of its kind.
ghost use Rattle.std.specs.Prelude.{◌≡◌, ◌+◌, ◌*◌, ◌≤◌, ◌<◌, [], ◌∷◌, length, drop};
ghost use Rattle.model.specs.Limits.{max_items};
ghost use Rattle.format.specs.declared.LineWord.{LineWord};
ghost use Rattle.records.specs.Promises.{Put};
ghost use Rattle.loader.specs.State.{Fine, HasRoom};
ghost use Rattle.loader.specs.Lines.{TailPut, is_size, last_word, scope_fits, path_fits, OriginIs, LinePut};

use crate::items::ItemsRead;
use crate::{items, shapes, values};
use fields::WordRead;
use format::{
    DefinitionWord, Kind, NodeWord, OriginWord, QuestionWord, ScopeWord, Shape, TypeWord,
};

// What was read: the stage of the last line, and how many records of each kind and items there are.
#[derive(Clone, Copy, Default)]
pub struct Counts {
    pub stage: u32,
    pub modules: usize,
    pub scopes: usize,
    pub types: usize,
    pub definitions: usize,
    pub expressions: usize,
    pub questions: usize,
    pub items: usize,
}

// What stands behind a word: three fields' words, the list's word, and its items, whose end is where all that ends.
#[derive(Clone, Copy)]
pub struct Tail {
    pub a: u64,
    pub b: u64,
    pub c: u64,
    pub list: u32,
    pub items: ItemsRead,
}

// An expression's origin: its number in the row (a number, as in the lent words), its link and its value, and where they end.
#[derive(Clone, Copy)]
pub struct OriginWords {
    pub kind: u32,
    pub link: u32,
    pub value: u32,
    pub end: usize,
}

// ------------------------------------------------------------------ what stands behind a word

// The word of a list. Of more items than there may be in all it has no meaning.
fn list_word(first: usize, count: usize) -> u32
    requires { first ≤ 2048 }
    ensures { count ≤ max_items → result ≡ first + 65536 * count }
{
    if items::MAX_ITEMS < count {
        return 0;
    }
    (first + 65536 * count) as u32
}

fn read_tail(file: &[u8], shape: Shape, at: usize, words: &mut [u32], first: usize) -> Option<Tail>
    requires { (length file.now ≤ 65536) × (length words.old ≡ 16384) × (first ≤ 2048) }
    ensures { TailPut file.now words.old shape (drop at file.now) first words.new result }
{
    let three = values::three_words(file, shape.a, shape.b, shape.c, at)?;
    let items = items::read_items(file, shape.list, three.end, words, first)?;
    Some(Tail {
        a: three.a,
        b: three.b,
        c: three.c,
        list: list_word(first, items.count),
        items,
    })
}

fn is_size(kind: Kind) -> bool
    ensures { result ≡ is_size kind }
{
    matches!(kind, Kind::Size)
}

// The last word of a row of T or E: a list's, a size's high word, or the third field's.
fn last_word(shape: Shape, tail: Tail) -> u32
    ensures { result ≡ last_word shape tail }
{
    if !items::is_empty_list(shape.list) {
        return tail.list;
    }
    if is_size(shape.b) {
        return values::high(tail.b);
    }
    values::low(tail.c)
}

// ------------------------------------------------------------------ rows

// Puts the words of a row from `at` on. (The body is `copy_from_slice`; the promise is of this layout.)
pub fn put(words: &mut [u32], at: usize, row: &[u32])
    requires { at + length row.now ≤ length words.old }
    ensures { Put words.old at row.now words.new }
{
    words[at..at + row.len()].copy_from_slice(row);
}

// Each of the six gives how many items the line's list has, and where its fields end. They are alike in their order where they have these parts, fields, word, what stands
// behind it, row, and in nothing else: which fields there are, and which words of the row hold them, is document 01's table.

// M: the name, and where the module's rows of each kind begin.
pub fn read_module(file: &[u8], at: usize, words: &mut [u32], n: Counts) -> Option<ItemsRead>
    requires { Fine file.now words.old n × HasRoom LineWord.M n }
    ensures { LinePut LineWord.M file.now words.old n (drop at file.now) words.new result }
{
    let tail = read_tail(file, shapes::module_shape(), at, words, n.items)?;
    let row = records::MODULES + 8 * n.modules;
    put(
        words,
        row,
        &[
            values::low(tail.a),
            n.scopes as u32,
            n.types as u32,
            n.definitions as u32,
            n.expressions as u32,
            0,
        ],
    );
    Some(tail.items)
}

fn scope_fits(parent: u32, word: ScopeWord) -> bool
    ensures { result ≡ scope_fits parent word }
{
    match word {
        ScopeWord::Module => parent == 0,
        ScopeWord::Function | ScopeWord::Block | ScopeWord::Loop => parent != 0,
    }
}

// S
pub fn read_scope(file: &[u8], at: usize, words: &mut [u32], n: Counts) -> Option<ItemsRead>
    requires { Fine file.now words.old n × HasRoom LineWord.S n }
    ensures { LinePut LineWord.S file.now words.old n (drop at file.now) words.new result }
{
    let up = values::slot_words(file, Kind::MaybeNumber, at)?;
    let parent = values::low(up.words);
    let kind: WordRead<ScopeWord> = fields::word_here(file, up.end)?;
    let tail = read_tail(file, shapes::bare(), kind.end, words, n.items)?;
    if !scope_fits(parent, kind.word) {
        return None;
    }
    put(
        words,
        records::SCOPES + 2 * n.scopes,
        &[parent, shapes::scope_number(kind.word)],
    );
    Some(tail.items)
}

// T
pub fn read_type(file: &[u8], at: usize, words: &mut [u32], n: Counts) -> Option<ItemsRead>
    requires { Fine file.now words.old n × HasRoom LineWord.T n }
    ensures { LinePut LineWord.T file.now words.old n (drop at file.now) words.new result }
{
    let kind: WordRead<TypeWord> = fields::word_here(file, at)?;
    let shape = shapes::type_shape(kind.word);
    let tail = read_tail(file, shape, kind.end, words, n.items)?;
    put(
        words,
        records::TYPE_EXPRS + 4 * n.types,
        &[
            shapes::type_number(kind.word),
            values::low(tail.a),
            values::low(tail.b),
            last_word(shape, tail),
        ],
    );
    Some(tail.items)
}

// A let: "v is the destructured value; with `-` there is no path".
fn path_fits(word: DefinitionWord, value: u32, count: usize) -> bool
    ensures { result ≡ path_fits word value count }
{
    !matches!(word, DefinitionWord::Let) || value != 0 || count == 0
}

// D
pub fn read_definition(file: &[u8], at: usize, words: &mut [u32], n: Counts) -> Option<ItemsRead>
    requires { Fine file.now words.old n × HasRoom LineWord.D n }
    ensures { LinePut LineWord.D file.now words.old n (drop at file.now) words.new result }
{
    let head = values::three_words(file, Kind::Number, Kind::Name, Kind::Position, at)?;
    let spans = values::three_words(
        file,
        Kind::Position,
        Kind::Position,
        Kind::Position,
        head.end,
    )?;
    let kind: WordRead<DefinitionWord> = fields::word_here(file, spans.end)?;
    let shape = shapes::definition_shape(kind.word);
    let tail = read_tail(file, shape, kind.end, words, n.items)?;
    if !path_fits(kind.word, values::low(tail.c), tail.items.count) {
        return None;
    }
    let row = records::DEFINITIONS + 12 * n.definitions;
    put(
        words,
        row,
        &[
            shapes::definition_number(kind.word),
            values::low(head.a),
            values::low(head.b),
            values::low(head.c),
            values::low(spans.a),
            values::low(spans.b),
            values::low(spans.c),
            values::low(tail.a),
            values::low(tail.b),
            values::low(tail.c),
            tail.list,
            0,
        ],
    );
    Some(tail.items)
}

// Q
pub fn read_question(file: &[u8], at: usize, words: &mut [u32], n: Counts) -> Option<ItemsRead>
    requires { Fine file.now words.old n × HasRoom LineWord.Q n }
    ensures { LinePut LineWord.Q file.now words.old n (drop at file.now) words.new result }
{
    let kind: WordRead<QuestionWord> = fields::word_here(file, at)?;
    let shape = shapes::question_shape(kind.word);
    let tail = read_tail(file, shape, kind.end, words, n.items)?;
    put(
        words,
        records::QUESTIONS + 4 * n.questions,
        &[
            shapes::question_number(kind.word),
            values::low(tail.a),
            values::low(tail.b),
            values::low(tail.c),
        ],
    );
    Some(tail.items)
}

// E, behind its head.
fn read_origin(file: &[u8], at: usize) -> Option<OriginWords>
    requires { length file.now ≤ 65536 }
    ensures { OriginIs file.now (drop at file.now) result }
{
    let kind: WordRead<OriginWord> = fields::word_here(file, at)?;
    let shape = shapes::origin_shape(kind.word);
    let three = values::three_words(file, shape.a, shape.b, Kind::Nothing, kind.end)?;
    Some(OriginWords {
        kind: shapes::origin_number(kind.word),
        link: values::low(three.a),
        value: values::low(three.b),
        end: three.end,
    })
}

// E
pub fn read_expression(file: &[u8], at: usize, words: &mut [u32], n: Counts) -> Option<ItemsRead>
    requires { Fine file.now words.old n × HasRoom LineWord.E n }
    ensures { LinePut LineWord.E file.now words.old n (drop at file.now) words.new result }
{
    let head = values::three_words(file, Kind::Number, Kind::Position, Kind::Position, at)?;
    let links = values::three_words(
        file,
        Kind::MaybeNumber,
        Kind::MaybeNumber,
        Kind::Nothing,
        head.end,
    )?;
    let origin = read_origin(file, links.end)?;
    let kind: WordRead<NodeWord> = fields::word_here(file, origin.end)?;
    let shape = shapes::node_shape(kind.word);
    let tail = read_tail(file, shape, kind.end, words, n.items)?;
    let row = records::EXPRESSIONS + 11 * n.expressions;
    put(
        words,
        row,
        &[
            shapes::node_number(kind.word) + 256 * origin.kind,
            values::low(head.a),
            values::low(head.b),
            values::low(head.c),
            values::low(links.a),
            values::low(links.b),
            origin.link,
            origin.value,
            values::low(tail.a),
            values::low(tail.b),
            last_word(shape, tail),
        ],
    );
    Some(tail.items)
}
