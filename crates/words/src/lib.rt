// Where a field ends, and which word of a table it is.
//
// A table is a fixed byte string with nine bytes for each word: the word's length, the word, and zeros. Beside it stands a map: for each hash
// the place of the one word of the table that has it (any place, where none has). So a field is compared with one word only. (DECISIONS 34 has
// why a table is packed, and no array of byte strings.)
#![tactic(auto)]

ghost use Rattle.std.specs.Prelude.{◌≡◌, ℕ, ◌+◌, List, Option, option_map, slice_get, length, drop};
ghost use Rattle.model.specs.Common.{eq_numbers};
ghost use Rattle.format.specs.Fields.{field_of};
ghost use Rattle.format.specs.Words.{Keyword, place_in, word_at, word_in, line_words, scope_words, type_words, definition_words, origin_words, node_words, question_words, line_word_of, scope_word_of, type_word_of, definition_word_of, origin_word_of, node_word_of, question_word_of};
ghost use Rattle.format.specs.declared.LineWord.{LineWord};
ghost use Rattle.format.specs.declared.ScopeWord.{ScopeWord};
ghost use Rattle.format.specs.declared.TypeWord.{TypeWord};
ghost use Rattle.format.specs.declared.DefinitionWord.{DefinitionWord};
ghost use Rattle.format.specs.declared.OriginWord.{OriginWord};
ghost use Rattle.format.specs.declared.NodeWord.{NodeWord};
ghost use Rattle.format.specs.declared.QuestionWord.{QuestionWord};
ghost use Rattle.format.specs.Load.{version_of};
ghost use Rattle.words.specs.Ends.{EndsAt, begins};
ghost use Rattle.words.specs.Packed.{hash_of, candidate_place};
ghost use Rattle.words.specs.Meanings.{line_by_words, scope_by_words, type_by_words, definition_by_words, origin_by_words, node_by_words, question_by_words};

use format::{DefinitionWord, LineWord, NodeWord, OriginWord, QuestionWord, ScopeWord, TypeWord};

// The first place from `from` on whose byte passes the test, or the file's end. (A `for`: the result is a place either way, so a `find` would need the end as its
// default, and its closure a clause for the bound of `file[e]`.)
pub fn end_before<F: Fn(u8) -> bool>(file: &[u8], from: usize, stop: F) -> usize
    requires { F.IsAlwaysCallable stop }
    ensures { EndsAt (F.post stop) file.now from result }
{
    for e in from..file.len() {
        if stop(file[e]) {
            return e;
        }
    }
    from.max(file.len())
}

// The end of the field that begins at `from`: the first tab or LF from there on, or the file's end.
pub fn field_end(file: &[u8], from: usize) -> usize
    ensures { result ≡ from + length (field_of (drop from file.now)) }
{
    end_before(file, from, |b| b == b'\t' || b == b'\n')
}

// Whether the byte at a place is the given one; past the end there is none.
pub fn is_byte(file: &[u8], at: usize, b: u8) -> bool
    ensures { result ≡ begins b (drop at file.now) }
{
    at < file.len() && file[at] == b
}

// A number below 32 from the field's first byte, last byte and length. The factors are such that no two words of a table have the same one:
// else no map would be right for that table.
fn hash(field: &[u8]) -> usize
    ensures { result ≡ hash_of field.now }
{
    let n = field.len();
    if n < 1 {
        return 0;
    }
    let first = field[0] as usize;
    let last = field[n - 1] as usize;
    (23 * first + 23 * last + 57 * (n % 4)) / 8 % 32
}

// The place of the word of the table that the field is: of the one that the map gives for the field's hash, if that is the field.
pub fn find_word(field: &[u8], table: &[u8], map: &[u8; 32]) -> Option<usize>
    ensures { result ≡ candidate_place table.now map.now field.now }
{
    let h = hash(field);
    let k = map[h] as usize;
    let at = k * 9;
    let n = *table.get(at)? as usize;
    let from = at + 1;
    let word = table.get(from..from + n)?;
    (field == word).then_some(k)
}

// ---- the words of each place, in the order of document 01, those of change requests behind them

// The words that may stand at one place of a line. The impls are the table of the instances: each has its own words, packed table and map.
pub trait PlaceWord: Copy {
    // The table of the definition, and the word that a field is by it, if it is one.
    ghost words: { List (Keyword Self) };

    ghost meaning: { List ℕ → Option Self };

    // The place of the word that the field is. Each table stands in a method of its own: a byte string is copied where its function begins.
    fn find(field: &[u8]) -> Option<usize>
        ensures { result ≡ place_in words field.now };

    // The word at a place of the table.
    fn at(k: usize) -> Option<Self>
        ensures { result ≡ option_map (λ w. w.word) (slice_get words k) };

    ghost by_words: { (field : List ℕ) → word_in words field ≡ meaning field };
}

// The word of its place that a field is.
pub fn word<W: PlaceWord>(field: &[u8]) -> Option<W>
    ensures { result ≡ W.meaning field.now }
{
    let k = W::find(field)?;
    W::at(k)
}

const LINE_WORDS: [LineWord; 6] = [
    LineWord::M,
    LineWord::S,
    LineWord::T,
    LineWord::D,
    LineWord::E,
    LineWord::Q,
];

impl PlaceWord for LineWord {
    ghost words = { line_words };

    ghost meaning = { line_word_of };

    ghost by_words = { line_by_words };

    fn find(field: &[u8]) -> Option<usize> {
        find_word(
            field,
            b"\x01M\0\0\0\0\0\0\0\x01S\0\0\0\0\0\0\0\x01T\0\0\0\0\0\0\0\x01D\0\0\0\0\0\0\0\x01E\0\0\0\0\0\0\0\x01Q\0\0\0\0\0\0\0",
            b"\0\0\0\0\x01\0\0\0\0\0\x02\0\0\0\x03\0\0\0\0\x04\0\0\0\0\x05\0\0\0\0\0\0\0",
        )
    }

    fn at(k: usize) -> Option<LineWord> {
        LINE_WORDS.get(k).copied()
    }
}

const SCOPE_WORDS: [ScopeWord; 4] = [
    ScopeWord::Module,
    ScopeWord::Function,
    ScopeWord::Block,
    ScopeWord::Loop,
];

impl PlaceWord for ScopeWord {
    ghost words = { scope_words };

    ghost meaning = { scope_word_of };

    ghost by_words = { scope_by_words };

    fn find(field: &[u8]) -> Option<usize> {
        find_word(
            field,
            b"\x06module\0\0\x08function\x05block\0\0\0\x04loop\0\0\0\0",
            b"\0\x01\0\0\0\0\0\0\0\0\0\0\0\0\0\0\0\0\0\0\x02\0\0\0\x03\0\0\0\0\0\0\0",
        )
    }

    fn at(k: usize) -> Option<ScopeWord> {
        SCOPE_WORDS.get(k).copied()
    }
}

const TYPE_WORDS: [TypeWord; 7] = [
    TypeWord::Felt,
    TypeWord::Bool,
    TypeWord::U32,
    TypeWord::Custom,
    TypeWord::Ptr,
    TypeWord::Tuple,
    TypeWord::Array,
];

impl PlaceWord for TypeWord {
    ghost words = { type_words };

    ghost meaning = { type_word_of };

    ghost by_words = { type_by_words };

    fn find(field: &[u8]) -> Option<usize> {
        find_word(
            field,
            b"\x04felt\0\0\0\0\x04bool\0\0\0\0\x03u32\0\0\0\0\0\x06custom\0\0\x03ptr\0\0\0\0\0\x05tuple\0\0\0\x05array\0\0\0",
            b"\0\0\0\0\x03\0\0\0\0\0\0\0\0\0\0\0\x01\0\0\0\0\x02\0\x05\0\x06\0\0\0\0\0\x04",
        )
    }

    fn at(k: usize) -> Option<TypeWord> {
        TYPE_WORDS.get(k).copied()
    }
}

const DEFINITION_WORDS: [DefinitionWord; 7] = [
    DefinitionWord::Fn,
    DefinitionWord::Struct,
    DefinitionWord::Const,
    DefinitionWord::Let,
    DefinitionWord::Param,
    DefinitionWord::Use,
    DefinitionWord::Loop,
];

impl PlaceWord for DefinitionWord {
    ghost words = { definition_words };

    ghost meaning = { definition_word_of };

    ghost by_words = { definition_by_words };

    fn find(field: &[u8]) -> Option<usize> {
        find_word(
            field,
            b"\x02fn\0\0\0\0\0\0\x06struct\0\0\x05const\0\0\0\x03let\0\0\0\0\0\x05param\0\0\0\x03use\0\0\0\0\0\x04loop\0\0\0\0",
            b"\0\0\x04\0\0\0\x01\0\x05\0\0\0\0\0\0\0\0\x02\0\0\0\0\0\0\x06\x03\0\0\0\0\0\0",
        )
    }

    fn at(k: usize) -> Option<DefinitionWord> {
        DEFINITION_WORDS.get(k).copied()
    }
}

const ORIGIN_WORDS: [OriginWord; 6] = [
    OriginWord::Plain,
    OriginWord::Field,
    OriginWord::Arg,
    OriginWord::Assign,
    OriginWord::Return,
    OriginWord::Cond,
];

impl PlaceWord for OriginWord {
    ghost words = { origin_words };

    ghost meaning = { origin_word_of };

    ghost by_words = { origin_by_words };

    fn find(field: &[u8]) -> Option<usize> {
        find_word(
            field,
            b"\x05plain\0\0\0\x05field\0\0\0\x03arg\0\0\0\0\0\x06assign\0\0\x06return\0\0\x04cond\0\0\0\0",
            b"\0\x03\0\0\0\0\0\0\0\0\0\x01\0\0\0\0\0\0\x04\0\x02\0\0\0\0\0\0\0\x05\0\0\0",
        )
    }

    fn at(k: usize) -> Option<OriginWord> {
        ORIGIN_WORDS.get(k).copied()
    }
}

const NODE_WORDS: [NodeWord; 16] = [
    NodeWord::Lit,
    NodeWord::Bool,
    NodeWord::Ident,
    NodeWord::Un,
    NodeWord::Bin,
    NodeWord::Call,
    NodeWord::Member,
    NodeWord::Index,
    NodeWord::Slit,
    NodeWord::Tuple,
    NodeWord::Tidx,
    NodeWord::Arr,
    NodeWord::Rep,
    NodeWord::Cast,
    NodeWord::New,
    NodeWord::Paren,
];

impl PlaceWord for NodeWord {
    ghost words = { node_words };

    ghost meaning = { node_word_of };

    ghost by_words = { node_by_words };

    fn find(field: &[u8]) -> Option<usize> {
        find_word(
            field,
            b"\x03lit\0\0\0\0\0\x04bool\0\0\0\0\x05ident\0\0\0\x02un\0\0\0\0\0\0\x03bin\0\0\0\0\0\x04call\0\0\0\0\x06member\0\0\x05index\0\0\0\x04slit\0\0\0\0\x05tuple\0\0\0\x04tidx\0\0\0\0\x03arr\0\0\0\0\0\x03rep\0\0\0\0\0\x04cast\0\0\0\0\x03new\0\0\0\0\0\x05paren\0\0\0",
            b"\0\0\x02\0\0\x0f\x0a\x0e\0\0\x0d\x04\0\0\x07\x06\x01\0\0\x05\x0b\0\0\x09\x08\0\x03\0\0\0\0\x0c",
        )
    }

    fn at(k: usize) -> Option<NodeWord> {
        NODE_WORDS.get(k).copied()
    }
}

const QUESTION_WORDS: [QuestionWord; 4] = [
    QuestionWord::Expr,
    QuestionWord::Def,
    QuestionWord::OfType,
    QuestionWord::At,
];

impl PlaceWord for QuestionWord {
    ghost words = { question_words };

    ghost meaning = { question_word_of };

    ghost by_words = { question_by_words };

    fn find(field: &[u8]) -> Option<usize> {
        find_word(
            field,
            b"\x04expr\0\0\0\0\x03def\0\0\0\0\0\x04type\0\0\0\0\x02at\0\0\0\0\0\0",
            b"\0\0\0\0\0\0\0\0\0\0\0\0\0\0\0\x02\0\0\x03\0\0\0\0\0\0\0\x01\0\0\0\0\0",
        )
    }

    fn at(k: usize) -> Option<QuestionWord> {
        QUESTION_WORDS.get(k).copied()
    }
}

// ---- the first line, LF included

pub fn version_of(file: &[u8]) -> Option<u32>
    ensures { result ≡ version_of file.now }
{
    file.starts_with(b"index\t1\n").then_some(1)
}
