// The fields of a line: each is read once, by its kind, and gives its value and where it ends. A place is a number beside the file, and not the rest of the file
// alone: a name's word holds its place in the whole file.
#![tactic(auto)]

ghost use Rattle.std.specs.Prelude.{◌≡◌, ◌+◌, ◌≤◌, ◌&&◌, length, drop, Some};
ghost use Rattle.model.specs.Common.{is_empty};
ghost use Rattle.format.specs.Fields.{field_of, is_dash, number_of, numbered, name_value, value_of, is_nothing, slot};
ghost use Rattle.format.specs.declared.Kind.{Kind};
ghost use Rattle.words.specs.Packed.{candidate_place};
ghost use Rattle.format.specs.Lines.{word_here};
ghost use Rattle.fields.specs.Held.{slot_is, field_is, Lendable, word_is, Inside, may_be_absent, field_as, scanned, visible_run};

use format::Kind;
use words::{PlaceWord, end_before, field_end, find_word, is_byte};

// What a field holds: a text is where it begins and how long it is. (The three cases are the definition's: of an `Option` the last two would be an enum within it.)
#[derive(Clone, Copy)]
pub enum Value {
    Absent,
    Number(u64),
    Text(usize, usize),
}

// A field that was read, and where it ends. (`Slot`, and `WordRead` below, are named as what the definition reads.)
#[derive(Clone, Copy)]
pub struct Slot {
    pub value: Value,
    pub end: usize,
}

// "links, counts and indexes are below 65,536, positions below 2^32, array sizes below 2^64"
const NUMBER: u64 = 65535;

const POSITION: u64 = 4294967295;

const SIZE: u64 = 18446744073709551615;

// The digits from `from` on, as a number that is at most `most`. (Std's `parse` takes a str, a sign and leading zeros, and has no bound but the type's.)
fn digits_at(file: &[u8], from: usize, most: u64) -> Option<Slot>
    ensures { slot_is file.now result ≡ scanned most 0 file.now from }
{
    let mut n: u64 = 0;
    for e in from..file.len() {
        let b = file[e];
        if b == b'\t' || b == b'\n' {
            return Some(Slot {
                value: Value::Number(n),
                end: e,
            });
        }
        if b < b'0' || b'9' < b {
            return None;
        }
        let d = (b - b'0') as u64;
        if most < d || (most - d) / 10 < n {
            return None;
        }
        n = n * 10 + d;
    }
    Some(Slot {
        value: Value::Number(n),
        end: from.max(file.len()),
    })
}

// Whether the field that begins at `from` is empty.
fn is_end(file: &[u8], from: usize) -> bool
    ensures { result ≡ is_empty (field_of (drop from file.now)) }
{
    file.len() <= from || file[from] == b'\t' || file[from] == b'\n'
}

// A number without leading zeros, at most `most`.
fn number_at(file: &[u8], from: usize, most: u64) -> Option<Slot>
    ensures { slot_is file.now result ≡ field_as (λ u. numbered (number_of most u)) (drop from file.now) }
{
    if is_end(file, from) {
        return None;
    }
    if file[from] == b'0' {
        let end = from + 1;
        return is_end(file, end).then_some(Slot {
            value: Value::Number(0),
            end,
        });
    }
    digits_at(file, from, most)
}

// Whether the field that begins at `from` is `-`.
fn is_dash_at(file: &[u8], from: usize) -> bool
    ensures { result ≡ is_dash (field_of (drop from file.now)) }
{
    is_byte(file, from, b'-') && is_end(file, from + 1)
}

// The end of the bytes from 21 to 7E that stand from `from` on.
fn visible_end(file: &[u8], from: usize) -> usize
    ensures { result ≡ from + length (visible_run (drop from file.now)) }
{
    end_before(file, from, |b| b < b'!' || b'~' < b)
}

// A name: 1 to 64 bytes from 21 to 7E, and not `-`.
fn name_at(file: &[u8], from: usize) -> Option<Slot>
    ensures { slot_is file.now result ≡ field_as name_value (drop from file.now) }
{
    if is_dash_at(file, from) {
        return None;
    }
    let e = visible_end(file, from);
    if !is_end(file, e) {
        return None;
    }
    let n = e - from;
    if n < 1 || 64 < n {
        return None;
    }
    Some(Slot {
        value: Value::Text(from, n),
        end: e,
    })
}

// ---- fields by their kind

// The word of a table that the field is, by its place. (A table and its map are byte strings as in the crate `words`. An operator is no enum here: the field's
// value is its place, in the definition too.)
fn operator_at(file: &[u8], from: usize, table: &[u8], map: &[u8; 32]) -> Option<Slot>
    requires { from ≤ length file.now }
    ensures { slot_is file.now result ≡ field_as (λ t. numbered (candidate_place table.now map.now t)) (drop from file.now) }
{
    let end = field_end(file, from);
    let k = find_word(&file[from..end], table, map)?;
    Some(Slot {
        value: Value::Number(k as u64),
        end,
    })
}

// Each table stands in a function of its own: a byte string is copied where its function begins, and so only for an operator.
fn unary_op_at(file: &[u8], from: usize) -> Option<Slot>
    requires { from ≤ length file.now }
    ensures { slot_is file.now result ≡ field_as (value_of Kind.UnaryOp) (drop from file.now) }
{
    operator_at(
        file,
        from,
        b"\x01!\0\0\0\0\0\0\0\x01-\0\0\0\0\0\0\0",
        b"\0\0\0\0\0\0\0\0\0\x01\0\0\0\0\0\0\0\0\0\0\0\0\0\0\0\0\0\0\0\0\0\0",
    )
}

fn binary_op_at(file: &[u8], from: usize) -> Option<Slot>
    requires { from ≤ length file.now }
    ensures { slot_is file.now result ≡ field_as (value_of Kind.BinaryOp) (drop from file.now) }
{
    operator_at(
        file,
        from,
        b"\x01+\0\0\0\0\0\0\0\x01-\0\0\0\0\0\0\0\x01*\0\0\0\0\0\0\0\x01/\0\0\0\0\0\0\0\x01%\0\0\0\0\0\0\0\x02==\0\0\0\0\0\0\x02!=\0\0\0\0\0\0\x01<\0\0\0\0\0\0\0\x01>\0\0\0\0\0\0\0\x02<=\0\0\0\0\0\0\x02>=\0\0\0\0\0\0\x02&&\0\0\0\0\0\0\x02||\0\0\0\0\0\0\x01&\0\0\0\0\0\0\0\x01|\0\0\0\0\0\0\0\x01^\0\0\0\0\0\0\0",
        b"\x07\x0d\0\x0f\0\0\0\0\x0b\x01\x09\x08\0\x05\0\x0a\x0e\0\0\0\0\x03\0\x0c\x02\0\0\x04\x06\0\0\0",
    )
}

// Whether the field that begins at `from` is a `-` that its kind allows.
fn is_absent_at(file: &[u8], kind: Kind, from: usize) -> bool
    ensures { result ≡ (may_be_absent kind && is_dash (field_of (drop from file.now))) }
{
    matches!(kind, Kind::MaybeNumber | Kind::MaybeName | Kind::Unused) && is_dash_at(file, from)
}

// The field of a kind that begins at `from`. No kind has an empty field.
pub fn value_at(file: &[u8], kind: Kind, from: usize) -> Option<Slot>
    ensures { slot_is file.now result ≡ field_as (value_of kind) (drop from file.now) }
{
    if is_end(file, from) {
        return None;
    }
    if is_absent_at(file, kind, from) {
        return Some(Slot {
            value: Value::Absent,
            end: from + 1,
        });
    }
    match kind {
        Kind::Nothing | Kind::Unused => None,
        Kind::Number | Kind::MaybeNumber => number_at(file, from, NUMBER),
        Kind::Position => number_at(file, from, POSITION),
        Kind::Size => number_at(file, from, SIZE),
        Kind::Name | Kind::MaybeName => name_at(file, from),
        Kind::UnaryOp => unary_op_at(file, from),
        Kind::BinaryOp => binary_op_at(file, from),
    }
}

// `Nothing` reads no field. (`matches!` is the definition's own test, case by case; a derived `==` would be another, and need a lemma.)
fn is_nothing(kind: Kind) -> bool
    ensures { result ≡ is_nothing kind }
{
    matches!(kind, Kind::Nothing)
}

// The field of a kind behind the tab that stands at `at`.
pub fn read_slot(file: &[u8], kind: Kind, at: usize) -> Option<Slot>
    ensures { slot_is file.now result ≡ slot kind (drop at file.now) }
{
    if is_nothing(kind) {
        return Some(Slot {
            value: Value::Absent,
            end: at,
        });
    }
    if !is_byte(file, at, b'\t') {
        return None;
    }
    value_at(file, kind, at + 1)
}

// ---- a word

// Where the field behind a tab begins and ends.
#[derive(Clone, Copy)]
pub struct FieldHere {
    pub from: usize,
    pub end: usize,
}

// The field behind the tab that stands at `at`, whatever it holds.
pub fn field_here(file: &[u8], at: usize) -> Option<FieldHere>
    ensures is { field_is file.now result ≡ word_here Some (drop at file.now) }
    ensures lent { Lendable file.now at result }
{
    if !is_byte(file, at, b'\t') {
        return None;
    }
    let from = at + 1;
    let end = field_end(file, from);
    Some(FieldHere { from, end })
}

// A word of its place, and where its field ends.
#[derive(Clone, Copy)]
pub struct WordRead<W> {
    pub word: W,
    pub end: usize,
}

// The word behind the tab that stands at `at`, if it is one of its place.
pub fn word_here<W: PlaceWord>(file: &[u8], at: usize) -> Option<WordRead<W>>
    ensures is { word_is file.now result ≡ word_here W.meaning (drop at file.now) }
    ensures inside { Inside file.now at result }
{
    let field = field_here(file, at)?;
    let word = words::word(&file[field.from..field.end])?;
    Some(WordRead {
        word,
        end: field.end,
    })
}
