// The words that a field's value takes in a row (docs/LAYOUT.md, 'Forms of a word').
ghost use Rattle.std.specs.Prelude.{◌≡◌, ◌+◌, ◌*◌, ◌≤◌, ◌<◌, length, drop};
ghost use Rattle.format.specs.Fields.{slot};
ghost use Rattle.format.specs.Tails.{three};
ghost use Rattle.loader.specs.Values.{parts, is_link, slot_words_is, three_words_is};

use fields::Value;
use format::Kind;

// A number from here on has a high word.
const HIGH: u64 = 4294967296;

// The low word of a field's words: a remainder by HIGH fits in a word.
pub fn low(field: u64) -> u32
    ensures { result ≡ (parts field).low }
{
    (field % HIGH) as u32
}

// The high word: a quotient by HIGH does too, since HIGH * HIGH is where u64 ends.
pub fn high(field: u64) -> u32
    ensures { result ≡ (parts field).high }
{
    (field / HIGH) as u32
}

fn is_link(kind: Kind) -> bool
    ensures { result ≡ is_link kind }
{
    matches!(kind, Kind::MaybeNumber)
}

// The words of a name: where it begins, and how long it is.
fn name_words(start: usize, count: usize) -> u64
    requires { (start < 65536) × (count < 65536) }
    ensures { result ≡ start + 65536 * count }
{
    (start + 65536 * count) as u64
}

// A field's words as one number, the low word first, and where the field ends.
#[derive(Clone, Copy)]
pub struct FieldWords {
    pub words: u64,
    pub end: usize,
}

// The same of three fields, and where the last ends.
#[derive(Clone, Copy)]
pub struct ThreeFields {
    pub a: u64,
    pub b: u64,
    pub c: u64,
    pub end: usize,
}

// The words of the field behind the tab at `at`. Only an array's size has a high word.
pub fn slot_words(file: &[u8], kind: Kind, at: usize) -> Option<FieldWords>
    requires { length file.now ≤ 65536 }
    ensures { slot_words_is kind file.now result ≡ slot kind (drop at file.now) }
{
    let slot = fields::read_slot(file, kind, at)?;
    let words = match slot.value {
        Value::Absent => 0,
        Value::Number(n) if is_link(kind) => n + 1,
        Value::Number(n) => n,
        Value::Text(p, n) => name_words(p, n),
    };
    Some(FieldWords {
        words,
        end: slot.end,
    })
}

pub fn three_words(file: &[u8], ka: Kind, kb: Kind, kc: Kind, at: usize) -> Option<ThreeFields>
    requires { length file.now ≤ 65536 }
    ensures { three_words_is ka kb kc file.now result ≡ three ka kb kc (drop at file.now) }
{
    let a = slot_words(file, ka, at)?;
    let b = slot_words(file, kb, a.end)?;
    let c = slot_words(file, kc, b.end)?;
    Some(ThreeFields {
        a: a.words,
        b: b.words,
        c: c.words,
        end: c.end,
    })
}
