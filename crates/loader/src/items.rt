// The list at a line's end: its items are read and written behind the items so far.
ghost use Rattle.std.specs.Prelude.{◌≡◌, ◌+◌, ◌*◌, ◌≤◌, ◌<◌, length, drop, false};
ghost use Rattle.format.specs.Tails.{first_kind, second_kind, is_empty_list, at_end};
ghost use Rattle.loader.specs.Items.{is_named, item_here, item_words_is, ItemPut, ItemsPut};

use crate::values;
use format::{Kind, Listed};

pub const MAX_ITEMS: usize = 2048;

// An item's two words, and where it ends.
#[derive(Clone, Copy)]
struct ItemWords {
    value: u32,
    name: u32,
    end: usize,
}

// How many items a line's list has, and where they end. (Named as what the definition reads, as `FieldWords` is.)
#[derive(Clone, Copy)]
pub struct ItemsRead {
    pub count: usize,
    pub end: usize,
}

fn first_kind(listed: Listed) -> Kind
    ensures { result ≡ first_kind listed }
{
    match listed {
        Listed::Empty => Kind::Unused,
        Listed::Numbers => Kind::Number,
        Listed::MaybeNumbers => Kind::MaybeNumber,
        Listed::Fields => Kind::Name,
    }
}

fn second_kind(listed: Listed) -> Kind
    ensures { result ≡ second_kind listed }
{
    match listed {
        Listed::Empty | Listed::Numbers | Listed::MaybeNumbers => Kind::Nothing,
        Listed::Fields => Kind::Number,
    }
}

pub fn is_empty_list(listed: Listed) -> bool
    ensures { result ≡ is_empty_list listed }
{
    matches!(listed, Listed::Empty)
}

fn is_named(listed: Listed) -> bool
    ensures { result ≡ is_named listed }
{
    matches!(listed, Listed::Fields)
}

// Whether no further field stands at `at`.
fn at_end(file: &[u8], at: usize) -> bool
    ensures { result ≡ at_end (drop at file.now) }
{
    !words::is_byte(file, at, b'\t')
}

fn item_words(file: &[u8], listed: Listed, at: usize) -> Option<ItemWords>
    requires { length file.now ≤ 65536 }
    ensures { item_words_is listed file.now result ≡ item_here listed (drop at file.now) }
{
    let a = values::slot_words(file, first_kind(listed), at)?;
    let b = values::slot_words(file, second_kind(listed), a.end)?;
    let end = b.end;
    if is_named(listed) {
        return Some(ItemWords {
            value: values::low(b.words),
            name: values::low(a.words),
            end,
        });
    }
    Some(ItemWords {
        value: values::low(a.words),
        name: 0,
        end,
    })
}

// An item past the last is read but not written: the form of a line is judged before the limit. (`rows::put` of the two words would be no shorter, and its `Put` would
// have to be turned into `ItemPut`.)
fn put_item(words: &mut [u32], i: usize, value: u32, name: u32)
    requires { length words.old ≡ 16384 }
    ensures { ItemPut words.old i value name words.new }
{
    if i < MAX_ITEMS {
        words[records::ITEMS + 2 * i] = value;
        words[records::ITEMS + 2 * i + 1] = name;
    }
}

// Where an item ends is known only when it is read, so no `for` goes over the bytes.
fn read_list(
    file: &[u8],
    listed: Listed,
    at: usize,
    words: &mut [u32],
    first: usize,
) -> Option<ItemsRead>
    requires { (length file.now ≤ 65536) × (length words.old ≡ 16384) × (first ≤ 2048) × (is_empty_list listed ≡ false) }
    ensures { ItemsPut file.now words.old listed (drop at file.now) first words.new result }
{
    let mut end = at;
    let mut count: usize = 0;
    while !at_end(file, end) {
        let item = item_words(file, listed, end)?;
        put_item(words, first + count, item.value, item.name);
        count += 1;
        end = item.end;
    }
    Some(ItemsRead { count, end })
}

// The same where there may be no list: no items, and none may stand there.
pub fn read_items(
    file: &[u8],
    listed: Listed,
    at: usize,
    words: &mut [u32],
    first: usize,
) -> Option<ItemsRead>
    requires { (length file.now ≤ 65536) × (length words.old ≡ 16384) × (first ≤ 2048) }
    ensures { ItemsPut file.now words.old listed (drop at file.now) first words.new result }
{
    if !is_empty_list(listed) {
        return read_list(file, listed, at, words, first);
    }
    at_end(file, at).then_some(ItemsRead { count: 0, end: at })
}
