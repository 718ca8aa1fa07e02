// The text of a type: measured first, then written straight into a lent buffer.
#![tactic(auto)]

ghost use Rattle.std.specs.Prelude.{◌≡◌, ◌+◌, ◌≤◌, min, length};
ghost use Rattle.resolution.specs.Answer.{decimal, comma_texts, type_text};
ghost use Rattle.type_table.specs.Layout.{table_of, AllBelow};
ghost use Rattle.type_text.specs.Text.{Digits, Writes, WritesText};
ghost use Rattle.type_text.specs.Text.{comma_rest, tuple_text, pointer_text, array_text, definition_text};

use type_table::{TypeData, Types};

// The most bytes that a type's text may have.
const MAX_TEXT: usize = 4096;

// The length that stands for every one over the limit: 4,097, as in the promise `min 4097 ..`, which is one equation; an Option of a length would make it two.
const OVER: usize = 4097;

// Why a type's text is not written: the error of a `Result`.
#[derive(Clone, Copy, PartialEq, Eq)]
pub enum TextError {
    // It has over 4,096 bytes.
    TooLong,
    // It is longer than the buffer.
    NoRoom,
}

// ------------------------------------------------------------------ bytes and numbers

// Copies a text over bytes of its length. (A loop, and not `copy_from_slice`, for the reason that type_table's `copy_to` gives.)
fn copy(to: &mut [u8], text: &[u8])
    requires { length to.old ≡ length text.now }
    ensures { to.new ≡ text.now }
{
    for i in 0..text.len() {
        to[i] = text[i];
    }
}

// A lent buffer, and how far it is written. There is no heap: its functions ask for room, which their callers have measured.
#[derive(Drop)]
pub struct Writer<'a> {
    pub out: &'a mut [u8],
    pub at: usize,
}

impl<'a> Writer<'a> {
    // At the start of a buffer.
    pub fn new(out: &'a mut [u8]) -> Writer<'a>
        ensures same_buffer { result.out.ghost_name ≡ out.entry.ghost_name }
        ensures bytes { result.out.now ≡ out.old }
        ensures at { result.at ≡ 0 }
    {
        Writer { out, at: 0 }
    }

    // Writes all of a text.
    pub fn put(&mut self, text: &[u8])
        requires { self.old.at + length text.now ≤ length self.old.out.now }
        ensures { Writes text.now self.old self.new }
    {
        let end = self.at + text.len();
        copy(&mut self.out[self.at..end], text);
        self.at = end;
    }

    // Writes a number in decimal. The recursion is the definition's: the digits before the last, then the last.
    pub fn put_decimal(&mut self, n: u64)
        requires { self.old.at + length (decimal n) ≤ length self.old.out.now }
        ensures { Writes (decimal n) self.old self.new }
    {
        if n < 10 {
            self.put(&[b'0' + (n as u8)]);
            return;
        }
        self.put_decimal(n / 10);
        self.put(&[b'0' + ((n % 10) as u8)]);
    }
}

// Writes a definition: a lead, the number of its module, a point and its own number.
fn put_definition(out: &mut Writer, lead: &[u8], home: u32, definition: u32)
    requires { out.old.at + length (definition_text lead.now home definition) ≤ length out.old.out.now }
    ensures { Writes (definition_text lead.now home definition) out.old out.new }
{
    out.put(lead);
    out.put_decimal(home as u64);
    out.put(b".");
    out.put_decimal(definition as u64)
}

// How many decimal digits a number has.
fn decimal_length(n: u64) -> usize
    ensures { Digits n result }
{
    if n < 10 {
        return 1;
    }
    decimal_length(n / 10) + 1
}

// ------------------------------------------------------------------ measuring

// A `Types` is a table as interning leaves it: measuring and writing go down by type numbers, an element's below its holder's. Below, `holder` is a parameter that only
// the clauses use: it says below which number a list's types are, which ends the calls, and a list alone doesn't say it.
// Measuring stands beside writing, since it asks for no room and stops at 4,097; a writer that only counts would ask for the room that is still to be measured.

// The length of the two numbers of a definition.
fn definition_length(home: u32, definition: u32) -> usize
    ensures count { result ≡ length (decimal home) + length (decimal definition) }
    ensures few { result ≤ 40 }
{
    decimal_length(home as u64) + decimal_length(definition as u64)
}

// A length, where all over 4,096 count as 4,097.
fn capped(n: usize) -> usize
    ensures { result ≡ min 4097 n }
{
    n.min(OVER)
}

// The length of a type's text added to what is used, up to 4,097: past 4,096 nothing more is looked at. Each arm counts the bytes of its own lead.
#[cycle(measure_list_measure_type)]
fn measure_type(types: &Types, t: u32, used: usize) -> usize
    requires used_bound { used ≤ 4097 }
    ensures { result ≡ min 4097 (used + length (type_text (table_of types.now.file.now types.now.words.now) t)) }
{
    if MAX_TEXT < used {
        return OVER;
    }
    match type_table::data(types.words, t) {
        TypeData::Felt => capped(used + 4),
        TypeData::Bool => capped(used + 4),
        TypeData::U32 => capped(used + 3),
        TypeData::Unknown => capped(used + 7),
        TypeData::Error => capped(used + 5),
        TypeData::Tuple(elements) => {
            let list = type_table::types_in(types.words, elements);
            measure_list(types, t, list, capped(used + 2))
        }
        TypeData::Pointer(element) => measure_type(types, element, capped(used + 5)),
        TypeData::FixedArray { element, size } => {
            let digits = decimal_length(size);
            measure_type(types, element, capped(used + 3 + digits))
        }
        TypeData::Struct {
            home,
            definition,
            ..
        } => {
            let numbers = definition_length(home, definition);
            capped(used + 8 + numbers)
        }
        TypeData::Function {
            home,
            definition,
            ..
        } => {
            let numbers = definition_length(home, definition);
            capped(used + 4 + numbers)
        }
    }
}

// The length of the texts of types below a type, with commas between them, added to what is used, up to 4,097.
#[cycle(measure_list_measure_type)]
fn measure_list(types: &Types, holder: u32, list: &[u32], used: usize) -> usize
    requires used_bound { used ≤ 4097 }
    requires all_below { AllBelow holder list.now }
    ensures { result ≡ min 4097 (used + length (comma_texts (type_text (table_of types.now.file.now types.now.words.now)) list.now)) }
{
    let Some((first, rest)) = list.split_first() else {
        return used;
    };
    let mut next = measure_type(types, *first, used);
    for t in rest {
        next = measure_type(types, *t, capped(next + 1));
    }
    next
}

// The length of a type's text, where all over 4,096 count as 4,097.
fn text_length(types: &Types, t: u32) -> usize
    ensures { result ≡ min 4097 (length (type_text (table_of types.now.file.now types.now.words.now) t)) }
{
    measure_type(types, t, 0)
}

// ------------------------------------------------------------------ writing

// Writes the text of a type.
#[cycle(write_array_write_list_write_pointer_write_rest_write_tuple_write_type)]
fn write_type(types: &Types, t: u32, out: &mut Writer)
    requires t_in_bounds { out.old.at + length (type_text (table_of types.now.file.now types.now.words.now) t) ≤ length out.old.out.now }
    ensures { Writes (type_text (table_of types.now.file.now types.now.words.now) t) out.old out.new }
{
    match type_table::data(types.words, t) {
        TypeData::Felt => out.put(b"felt"),
        TypeData::Bool => out.put(b"bool"),
        TypeData::U32 => out.put(b"u32"),
        TypeData::Unknown => out.put(b"unknown"),
        TypeData::Error => out.put(b"error"),
        TypeData::Tuple(elements) => {
            let list = type_table::types_in(types.words, elements);
            write_tuple(types, t, list, out)
        }
        TypeData::Pointer(element) => write_pointer(types, element, out),
        TypeData::FixedArray { element, size } => write_array(types, element, size, out),
        TypeData::Struct {
            home,
            definition,
            ..
        } => put_definition(out, b"struct:", home, definition),
        TypeData::Function {
            home,
            definition,
            ..
        } => put_definition(out, b"fn:", home, definition),
    }
}

#[cycle(write_array_write_list_write_pointer_write_rest_write_tuple_write_type)]
fn write_tuple(types: &Types, holder: u32, list: &[u32], out: &mut Writer)
    requires all_below { AllBelow holder list.now }
    requires list_in_bounds { out.old.at + length (tuple_text (type_text (table_of types.now.file.now types.now.words.now)) list.now) ≤ length out.old.out.now }
    ensures { Writes (tuple_text (type_text (table_of types.now.file.now types.now.words.now)) list.now) out.old out.new }
{
    out.put(b"(");
    write_list(types, holder, list, out);
    out.put(b")")
}

#[cycle(write_array_write_list_write_pointer_write_rest_write_tuple_write_type)]
fn write_pointer(types: &Types, element: u32, out: &mut Writer)
    requires element_in_bounds { out.old.at + length (pointer_text (type_text (table_of types.now.file.now types.now.words.now)) element) ≤ length out.old.out.now }
    ensures { Writes (pointer_text (type_text (table_of types.now.file.now types.now.words.now)) element) out.old out.new }
{
    out.put(b"ptr(");
    write_type(types, element, out);
    out.put(b")")
}

#[cycle(write_array_write_list_write_pointer_write_rest_write_tuple_write_type)]
fn write_array(types: &Types, element: u32, size: u64, out: &mut Writer)
    requires size_in_bounds { out.old.at + length (array_text (type_text (table_of types.now.file.now types.now.words.now)) element size) ≤ length out.old.out.now }
    ensures { Writes (array_text (type_text (table_of types.now.file.now types.now.words.now)) element size) out.old out.new }
{
    out.put(b"[");
    write_type(types, element, out);
    out.put(b";");
    out.put_decimal(size);
    out.put(b"]")
}

// Writes the texts of types below a type, with commas between them.
#[cycle(write_array_write_list_write_pointer_write_rest_write_tuple_write_type)]
fn write_list(types: &Types, holder: u32, list: &[u32], out: &mut Writer)
    requires all_below { AllBelow holder list.now }
    requires list_in_bounds { out.old.at + length (comma_texts (type_text (table_of types.now.file.now types.now.words.now)) list.now) ≤ length out.old.out.now }
    ensures { Writes (comma_texts (type_text (table_of types.now.file.now types.now.words.now)) list.now) out.old out.new }
{
    let Some((first, rest)) = list.split_first() else {
        return;
    };
    write_type(types, *first, out);
    write_rest(types, holder, rest, out)
}

// Writes the texts of types below a type, with a comma before each.
#[cycle(write_array_write_list_write_pointer_write_rest_write_tuple_write_type)]
fn write_rest(types: &Types, holder: u32, list: &[u32], out: &mut Writer)
    requires all_below { AllBelow holder list.now }
    requires list_in_bounds { out.old.at + length (comma_rest (type_text (table_of types.now.file.now types.now.words.now)) list.now) ≤ length out.old.out.now }
    ensures { Writes (comma_rest (type_text (table_of types.now.file.now types.now.words.now)) list.now) out.old out.new }
{
    for t in list {
        out.put(b",");
        write_type(types, *t, out);
    }
}

// Writes the text of a type at the start of a buffer, where it is at most 4,096 bytes and the buffer has room.
pub fn write_text(types: &Types, t: u32, out: &mut [u8]) -> Result<usize, TextError>
    ensures { WritesText (type_text (table_of types.now.file.now types.now.words.now) t) out.old out.new result }
{
    let n = text_length(types, t);
    if MAX_TEXT < n {
        return Err(TextError::TooLong);
    }
    if out.len() < n {
        return Err(TextError::NoRoom);
    }
    let mut writer = Writer::new(out);
    write_type(types, t, &mut writer);
    Ok(writer.at)
}
