// The table of types in a lent buffer of words: equal types have one number.
#![tactic(auto)]

ghost use Rattle.std.specs.Prelude.{◌≡◌, ℕ, ◌+◌, ◌≤◌, ◌<◌, List, map, length};
ghost use Rattle.std.specs.Prelude.{slice_get};
ghost use Rattle.records.specs.Layout.{name_by};
ghost use Rattle.records.specs.Meaning.{name_of, numbers_of, names_with_types_of, suffix_of};
ghost use Rattle.resolution.specs.TypeData.{TypeData as Data};
ghost use Rattle.resolution.specs.Types.{eq_names, data_of, field_type, find_type, as_struct};
ghost use Rattle.resolution.specs.TableOk.{row_types, TableOk};
ghost use Rattle.resolution.specs.Views.{typed_fields, suffix_type};
ghost use Rattle.type_table.specs.Layout.{part, head_at, start_at, count_at, items_at, names_from, names_at, type_count, item_count};
ghost use Rattle.type_table.specs.Layout.{types_of, data_from, AllBelow, table_of, Sound, Canonical};
ghost use Rattle.type_table.specs.Meaning.{fields_in, found_fields_of, found_array_of};
ghost use Rattle.type_table.specs.Reads.{struct_or_error, member_read, element_read, tuple_element_read};
ghost use Rattle.type_table.specs.Reads.{param_read, return_read, array_read, numeric_read, numeric_context_read};
ghost use Rattle.type_table.specs.Reads.{element_hint_read, navigate_read};
ghost use Rattle.type_table.specs.Promises.{Copied, NamesCopied, cleared, Starts, same_rows, Added};
ghost use Rattle.type_table.specs.Promises.{Interns, Reads, DataRead, TupleRead, SignatureRead, ContextsRead};

use records::{Index, Items, Name};
use refusals::Refusal;
use semantic_index::names;

// The layout of the type buffer: its words, where the items' types and names begin, and its limits.
pub const WORDS: usize = 8192;

const ITEMS: usize = 2050;

const NAMES: usize = 4098;

const MAX_TYPES: u32 = 256;

const MAX_ITEMS: usize = 2048;

// The types that every question starts with.
pub const FELT: u32 = 0;

pub const BOOL: u32 = 1;

pub const U32: u32 = 2;

pub const UNKNOWN: u32 = 3;

pub const ERROR: u32 = 4;

pub const UNIT: u32 = 5;

// The kinds of rows, numbers since they lie in the lent words; `data` reads a row as a `TypeData`. A type without parts has its number as its kind; `()` is a
// tuple.
const KIND_TUPLE: u32 = 5;

const KIND_POINTER: u32 = 6;

const KIND_ARRAY: u32 = 7;

const KIND_STRUCT: u32 = 8;

const KIND_FUNCTION: u32 = 9;

// The fixed words of a row. What its kind has no use for is zero.
#[derive(Clone, Copy, PartialEq, Eq)]
struct Head {
    kind: u32,
    // The module of a struct or a function.
    home: u32,
    definition: u32,
    // The element of a pointer or an array, or a function's return type.
    element: u32,
    // The size of an array.
    size: u64,
}

// A list of types: a range of the items here. (`records::Items` is a range of the file's items: two types, so that neither is read in the other's words.)
#[derive(Clone, Copy, PartialEq, Eq)]
pub struct TypeList {
    pub first: u32,
    pub count: u32,
}

// The element and the size of an array.
#[derive(Clone, Copy, PartialEq, Eq)]
pub struct Array {
    pub element: u32,
    pub size: u64,
}

// The parameters and the return type of a function.
#[derive(Clone, Copy, PartialEq, Eq)]
pub struct Signature {
    pub params: TypeList,
    pub return_type: u32,
}

// The list of no types.
const NO_TYPES: TypeList = TypeList { first: 0, count: 0 };

// A type by its row.
#[derive(Clone, Copy, PartialEq, Eq)]
pub enum TypeData {
    Felt,
    Bool,
    U32,
    Unknown,
    Error,
    Tuple(TypeList),
    Pointer(u32),
    FixedArray {
        element: u32,
        size: u64,
    },
    // A definition of the module `home`.
    Struct {
        home: u32,
        definition: u32,
        fields: TypeList,
    },
    Function {
        home: u32,
        definition: u32,
        params: TypeList,
        return_type: u32,
    },
}

// A type that may be new to a table: the words of its row, and those of its list. The names are parts of the file.
#[derive(Clone, Copy)]
struct NewType<'a> {
    file: &'a [u8],
    head: Head,
    names: &'a [u32],
    items: &'a [u32],
    ghost canonical: { Canonical file.now head names.now items.now },
}

// A table as interning leaves it, with the file that its names are of: read together where one goes down by the types' numbers, an element's below its holder's.
#[derive(Clone, Copy)]
pub struct Types<'a> {
    pub file: &'a [u8],
    pub words: &'a [u32],
    pub ghost sound: { Sound file.now words.now },
    // Truncated, since nothing shows that the fact has one proof only.
    pub ghost table_ok: { ∥ TableOk (table_of file.now words.now) ∥₁ },
}

// ------------------------------------------------------------------ the words of a row

// So many words from a place on, as far as there are any.
fn words_from(words: &[u32], from: usize, count: usize) -> &[u32]
    ensures { result.now ≡ part words.now from count }
{
    let start = from.min(words.len());
    let end = start + count.min(words.len() - start);
    &words[start..end]
}

// The fixed words of the row of a type. Each by its place, and not by a pattern over a slice: the words may be any, and one past their end counts as 0.
fn head_at(types: &[u32], t: u32) -> Head
    ensures { result ≡ head_at types.now t }
{
    let at = 8 * (t as usize);
    let kind = records::word_at(types, at + 2);
    let home = records::word_at(types, at + 3);
    let definition = records::word_at(types, at + 4);
    let element = records::word_at(types, at + 5);
    let low = records::word_at(types, at + 6);
    let high = records::word_at(types, at + 7);
    let size = records::size_of(low, high);
    Head {
        kind,
        home,
        definition,
        element,
        size,
    }
}

// Where the list of the row of a type lies.
fn list_at(types: &[u32], t: u32) -> TypeList
    ensures first { result.first ≡ start_at types.now t }
    ensures count { result.count ≡ count_at types.now t }
{
    let at = 8 * (t as usize);
    let first = records::word_at(types, at + 8);
    let count = records::word_at(types, at + 9);
    TypeList { first, count }
}

// The list of the row of a type.
fn items_at(types: &[u32], t: u32) -> &[u32]
    ensures { result.now ≡ items_at types.now t }
{
    types_in(types, list_at(types, t))
}

// The names beside the types of a list.
fn names_in(types: &[u32], list: TypeList) -> &[u32]
    ensures { result.now ≡ names_from types.now list.first list.count }
{
    words_from(types, NAMES + (list.first as usize), list.count as usize)
}

// The names of the row of a type, where it is a struct.
fn names_at(types: &[u32], t: u32) -> &[u32]
    ensures { result.now ≡ names_at types.now t }
{
    let at = 8 * (t as usize);
    if records::word_at(types, at + 2) == KIND_STRUCT {
        names_in(types, list_at(types, t))
    } else {
        &[]
    }
}

fn same_names(file: &[u8], a: &[u32], b: &[u32]) -> bool
    ensures { result ≡ eq_names (map (name_by file.now) a.now) (map (name_by file.now) b.now) }
{
    a.len() == b.len()
        && a.iter().zip(b).all(|(x, y)| names::same_name(
            file,
            records::name_of(*x),
            records::name_of(*y),
        ))
}

// Copies all of src to a place. (loader's `put`, that of type_text's `Writer` and that of check_index's `LineBuffer` write at a place too; each promises what its
// own layout is read by. A loop, and not `copy_from_slice`: compiled, that calls memmove where nothing says that the slices lie apart, as here, and the library for C
// would need it.)
fn copy_to(words: &mut [u32], at: usize, src: &[u32])
    requires { at + length src.now ≤ length words.old }
    ensures { Copied at src.now words.old words.new }
{
    for i in 0..src.len() {
        words[at + i] = src[i];
    }
}

// Sets the first 8,192 words to zero. (`demands` and `loader` have a `clear` of their own: each knows how many words its buffer counts, and promises that much.)
pub fn clear(types: &mut [u32])
    ensures { types.new ≡ cleared types.old }
{
    let end = types.len().min(WORDS);
    types[..end].fill(0);
}

// The six first types, and zeros.
pub fn start(types: &mut [u32])
    ensures { Starts types.old types.new }
{
    if types.len() < WORDS {
        return;
    }
    clear(types);
    types[0] = 6;
    types[10] = BOOL;
    types[18] = U32;
    types[26] = UNKNOWN;
    types[34] = ERROR;
    types[42] = KIND_TUPLE;
}

// ------------------------------------------------------------------ reading rows

// The kind of a type's row.
fn kind_at(types: &[u32], t: u32) -> u32
    ensures { result ≡ (head_at types.now t).kind }
{
    records::word_at(types, 8 * (t as usize) + 2)
}

// A type by its number; error where there is none. Of the row the words of its kind alone are read: most types that are looked at are numbers. Inlined, so that a
// caller that needs the kind alone, as `numeric`, reads no more.
#[inline(always)]
pub fn data(types: &[u32], t: u32) -> TypeData
    ensures { DataRead types.now t result }
{
    if records::word_at(types, 0) <= t {
        return TypeData::Error;
    }
    match kind_at(types, t) {
        FELT => TypeData::Felt,
        BOOL => TypeData::Bool,
        U32 => TypeData::U32,
        UNKNOWN => TypeData::Unknown,
        KIND_TUPLE => TypeData::Tuple(list_at(types, t)),
        KIND_POINTER => {
            let head = head_at(types, t);
            TypeData::Pointer(head.element)
        }
        KIND_ARRAY => {
            let head = head_at(types, t);
            TypeData::FixedArray {
                element: head.element,
                size: head.size,
            }
        }
        KIND_STRUCT => {
            let head = head_at(types, t);
            TypeData::Struct {
                home: head.home,
                definition: head.definition,
                fields: list_at(types, t),
            }
        }
        KIND_FUNCTION => {
            let head = head_at(types, t);
            TypeData::Function {
                home: head.home,
                definition: head.definition,
                params: list_at(types, t),
                return_type: head.element,
            }
        }
        _ => TypeData::Error,
    }
}

// What a type of one kind holds. Functions of the words and a number, and not methods of `TypeData`: what they promise is of the table's type of that number. The
// four are alike, and each is one match: they give other parts of another kind, and promise another thing.

// The elements of a tuple.
fn tuple_of(types: &[u32], t: u32) -> Option<TypeList>
    ensures { TupleRead types.now t result }
{
    match data(types, t) {
        TypeData::Tuple(list) => Some(list),
        _ => None,
    }
}

// The element and the size of an array.
pub fn array_of(types: &[u32], t: u32) -> Option<Array>
    ensures { (file : List ℕ) → Reads file types.now (array_read t) (found_array_of result) }
{
    match data(types, t) {
        TypeData::FixedArray { element, size } => Some(Array { element, size }),
        _ => None,
    }
}

// The fields of a struct.
fn struct_of(types: &[u32], t: u32) -> Option<TypeList>
    ensures { (file : List ℕ) → found_fields_of file types.now result ≡ as_struct (data_of (table_of file types.now) t) }
{
    match data(types, t) {
        TypeData::Struct { fields, .. } => Some(fields),
        _ => None,
    }
}

// The signature of a function.
pub fn signature_of(types: &[u32], t: u32) -> Option<Signature>
    ensures { SignatureRead types.now t result }
{
    match data(types, t) {
        TypeData::Function {
            params,
            return_type,
            ..
        } => Some(Signature {
            params,
            return_type,
        }),
        _ => None,
    }
}

// The type itself, if it is u32 or felt.
pub fn numeric(types: &[u32], t: u32) -> Option<u32>
    ensures { (file : List ℕ) → Reads file types.now (numeric_read t) result }
{
    match data(types, t) {
        TypeData::Felt | TypeData::U32 => Some(t),
        _ => None,
    }
}

// ------------------------------------------------------------------ reading lists

// The types of a list.
pub fn types_in(types: &[u32], list: TypeList) -> &[u32]
    ensures { result.now ≡ types_of types.now list }
{
    words_from(types, ITEMS + (list.first as usize), list.count as usize)
}

// An element of a tuple, or a parameter of a function, by its place in the list.
pub fn item(types: &[u32], list: TypeList, i: u32) -> Option<u32>
    ensures { result ≡ slice_get (types_of types.now list) i }
{
    types_in(types, list).get(i as usize).copied()
}

// The type of the first field of the name.
fn field_type(file: &[u8], types: &[u32], list: TypeList, name: Name) -> Option<u32>
    ensures { result ≡ field_type (fields_in file.now types.now list) (name_of file.now name) }
{
    names_in(types, list)
        .iter()
        .zip(types_in(types, list))
        .find(|(x, _)| names::same_name(file, records::name_of(**x), name))
        .map(|(_, t)| *t)
}

// ------------------------------------------------------------------ what the resolution functions read

// The type itself, if it is a struct, else error.
pub fn struct_or_error(types: &[u32], t: u32) -> u32
    ensures { (file : List ℕ) → Reads file types.now (struct_or_error t) result }
{
    struct_of(types, t).map_or(ERROR, |_| t)
}

// The type of a struct's field, else error.
pub fn member_type(file: &[u8], types: &[u32], t: u32, name: Name) -> u32
    ensures { Reads file.now types.now (member_read t (name_of file.now name)) result }
{
    struct_of(types, t)
        .and_then(|fields| field_type(file, types, fields, name))
        .unwrap_or(ERROR)
}

// The element of an array or a pointer, else error.
pub fn element_type(types: &[u32], t: u32) -> u32
    ensures { (file : List ℕ) → Reads file types.now (element_read t) result }
{
    match data(types, t) {
        TypeData::FixedArray { element, .. } => element,
        TypeData::Pointer(element) => element,
        _ => ERROR,
    }
}

// An element of a tuple, else error.
pub fn tuple_element(types: &[u32], t: u32, i: u32) -> u32
    ensures { (file : List ℕ) → Reads file types.now (tuple_element_read t i) result }
{
    tuple_of(types, t)
        .and_then(|elements| item(types, elements, i))
        .unwrap_or(ERROR)
}

// A parameter of a function.
pub fn param_type(types: &[u32], t: u32, i: u32) -> Option<u32>
    ensures { (file : List ℕ) → Reads file types.now (param_read t i) result }
{
    let signature = signature_of(types, t)?;
    item(types, signature.params, i)
}

// The return type of a function.
pub fn return_type(types: &[u32], t: u32) -> Option<u32>
    ensures { (file : List ℕ) → Reads file types.now (return_read t) result }
{
    let signature = signature_of(types, t)?;
    Some(signature.return_type)
}

// The context itself if it is u32 or felt, else felt.
pub fn numeric_context(types: &[u32], context: Option<u32>) -> u32
    ensures { (file : List ℕ) → Reads file types.now (numeric_context_read context) result }
{
    context.and_then(|t| numeric(types, t)).unwrap_or(FELT)
}

// The element of a context that is an array.
pub fn element_hint(types: &[u32], context: Option<u32>) -> Option<u32>
    ensures { (file : List ℕ) → Reads file types.now (element_hint_read context) result }
{
    let array = array_of(types, context?)?;
    Some(array.element)
}

// The elements of a context that is a tuple of that length, else none.
pub fn element_contexts(types: &[u32], context: Option<u32>, count: u32) -> TypeList
    ensures { ContextsRead types.now context count result }
{
    context
        .and_then(|t| tuple_of(types, t))
        .filter(|elements| types_in(types, *elements).len() == (count as usize))
        .unwrap_or(NO_TYPES)
}

// Along the path of a destructured value. (A step that leads nowhere ends it with error. With `try_fold` the step would be a closure with a promise of its own, and
// the loop's invariant would be said of the fold: as much to read, and no index less, since a path's numbers are read by their place in the list.)
pub fn navigate(words: &[u32], types: &[u32], current: u32, path: Items) -> u32
    ensures { (file : List ℕ) → Reads file types.now (navigate_read current (numbers_of words.now path)) result }
{
    let first = path.first;
    let count = path.count;
    let mut at = current;
    for i in 0..count {
        let Some(elements) = tuple_of(types, at) else {
            return ERROR;
        };
        let index = records::item_value(words, first, i);
        let Some(t) = item(types, elements, index) else {
            return ERROR;
        };
        at = t;
    }
    at
}

// u32 and felt, the suffixes that decide.
pub fn suffix_type(file: &[u8], suffix: Option<Name>) -> Option<u32>
    ensures { result ≡ suffix_type (suffix_of file.now suffix) }
{
    let name = suffix?;
    if names::is_text(file, name, b"u32") {
        return Some(U32);
    }
    if names::is_text(file, name, b"felt") {
        return Some(FELT);
    }
    None
}

// ------------------------------------------------------------------ interning

// The functions that intern ask that the words hold a table and that the types named are of it, so that an element's number is below its holder's. To test
// it would be to read the whole table at each type; a table has it from `start` on, and each of these keeps it.
// The file stands beside the words here, and not in a `Types` with them: these change the words, which a `Types` lends to be read. Each of the five makes the head of
// its kind, and has in common with the others the call of `intern`.

// Whether a type is that of a row. (No library compares a row; its three parts are compared by `==` and `all`.)
fn same_row(types: &[u32], t: u32, new: &NewType) -> bool
    ensures { result ≡ same_rows new.now.file.now new.now.head new.now.names.now new.now.items.now types.now t }
{
    new.head == head_at(types, t)
        && new.items == items_at(types, t)
        && same_names(new.file, new.names, names_at(types, t))
}

// The number of the type, where the table has it.
fn find_type(types: &[u32], new: &NewType) -> Option<u32>
    requires { Sound new.now.file.now types.now }
    ensures { result ≡ find_type (table_of new.now.file.now types.now) (data_from new.now.file.now new.now.head new.now.names.now new.now.items.now) }
{
    (0..records::word_at(types, 0)).find(|t| same_row(types, *t, new))
}

// Writes one row more.
fn add_row(types: &mut [u32], new: &NewType)
    requires in_bounds { 8192 ≤ length types.old }
    requires types_bound { type_count types.old < 256 }
    requires bound { item_count types.old + length new.now.items.now ≤ 2048 }
    ensures { Added new.now.head new.now.names.now new.now.items.now types.old types.new }
{
    let t = types[0];
    let held = types[1];
    let head = new.head;
    let count = new.items.len() as u32;
    // The two words that `records::size_of` reads back as the size, split here alone.
    let low = (head.size % 4294967296) as u32;
    let high = (head.size / 4294967296) as u32;
    let row = [
        head.kind,
        head.home,
        head.definition,
        head.element,
        low,
        high,
        held,
        count,
    ];
    copy_to(types, 8 * (t as usize) + 2, &row);
    copy_to(types, ITEMS + (held as usize), new.items);
    copy_to(types, NAMES + (held as usize), new.names);
    types[0] = t + 1;
    types[1] = held + count;
}

// The number of the type, which enters the table if it is new; refused where there is no room.
fn intern(types: &mut [u32], new: &NewType) -> Result<u32, Refusal>
    requires sound { Sound new.now.file.now types.old }
    requires all_below { AllBelow (type_count types.old) (row_types (data_from new.now.file.now new.now.head new.now.names.now new.now.items.now)) }
    ensures { Interns new.now.file.now (data_from new.now.file.now new.now.head new.now.names.now new.now.items.now) types.old types.new result }
{
    if let Some(t) = find_type(types, new) {
        return Ok(t);
    }
    let t = types[0];
    let held = types[1];
    if MAX_TYPES <= t || MAX_ITEMS - (held as usize) < new.items.len() {
        return Err(Refusal::TableFull);
    }
    add_row(types, new);
    Ok(t)
}

// What a head holds beside its kind where its kind has no use for it.
const NO_PARTS: Head = Head {
    kind: 0,
    home: 0,
    definition: 0,
    element: 0,
    size: 0,
};

// Interns a pointer to a type.
pub fn intern_pointer(file: &[u8], types: &mut [u32], element: u32) -> Result<u32, Refusal>
    requires sound { Sound file.now types.old }
    requires element_bound { element < type_count types.old }
    ensures { Interns file.now (Data.Pointer element) types.old types.new result }
{
    let head = Head {
        kind: KIND_POINTER,
        element,
        ..NO_PARTS
    };
    intern(
        types,
        &NewType {
            file,
            head,
            names: &[],
            items: &[],
        },
    )
}

// Interns an array of a type.
pub fn intern_array(file: &[u8], types: &mut [u32], element: u32, size: u64) -> Result<u32, Refusal>
    requires sound { Sound file.now types.old }
    requires element_bound { element < type_count types.old }
    ensures { Interns file.now (Data.FixedArray element size) types.old types.new result }
{
    let head = Head {
        kind: KIND_ARRAY,
        element,
        size,
        ..NO_PARTS
    };
    intern(
        types,
        &NewType {
            file,
            head,
            names: &[],
            items: &[],
        },
    )
}

// Interns a tuple of types.
pub fn intern_tuple(file: &[u8], types: &mut [u32], elements: &[u32]) -> Result<u32, Refusal>
    requires sound { Sound file.now types.old }
    requires all_below { AllBelow (type_count types.old) elements.now }
    ensures { Interns file.now (Data.Tuple elements.now) types.old types.new result }
{
    let head = Head {
        kind: KIND_TUPLE,
        ..NO_PARTS
    };
    intern(
        types,
        &NewType {
            file,
            head,
            names: &[],
            items: elements,
        },
    )
}

// The name words of the fields. One number counts the names and the places of their words, which lie two words apart.
fn copy_names(words: &[u32], fields: Items, names: &mut [u32])
    requires { fields.count ≤ length names.old }
    ensures { NamesCopied words.now fields.first fields.count names.old names.new }
{
    let first = fields.first as usize;
    for i in 0..fields.count as usize {
        names[i] = records::word_at(words, records::ITEMS + 2 * (first + i) + 1);
    }
}

// Interns a struct: its module and definition, its fields for their names, and the types of the fields.
pub fn intern_struct(
    index: &Index,
    types: &mut [u32],
    m: u32,
    d: u32,
    fields: Items,
    elements: &[u32],
) -> Result<u32, Refusal>
    requires sound { Sound index.now.file.now types.old }
    requires elements_len { (length elements.now ≡ fields.count) × (fields.count ≤ 2048) }
    requires all_below { AllBelow (type_count types.old) elements.now }
    ensures { Interns index.now.file.now (Data.Struct m d (typed_fields (names_with_types_of index.now.file.now index.now.words.now fields) elements.now)) types.old types.new result }
{
    // Fixed memory: there is no heap.
    let mut names = [0u32; 2048];
    copy_names(index.words, fields, &mut names);
    let count = fields.count as usize;
    let head = Head {
        kind: KIND_STRUCT,
        home: m,
        definition: d,
        ..NO_PARTS
    };
    intern(
        types,
        &NewType {
            file: index.file,
            head,
            names: &names[..count],
            items: elements,
        },
    )
}

// Interns a function: its module and definition, the types of its parameters, and its return type.
pub fn intern_function(
    file: &[u8],
    types: &mut [u32],
    m: u32,
    d: u32,
    params: &[u32],
    return_type: u32,
) -> Result<u32, Refusal>
    requires sound { Sound file.now types.old }
    requires all_below { AllBelow (type_count types.old) params.now }
    requires return_type_bound { return_type < type_count types.old }
    ensures { Interns file.now (Data.Function m d params.now return_type) types.old types.new result }
{
    let head = Head {
        kind: KIND_FUNCTION,
        home: m,
        definition: d,
        element: return_type,
        ..NO_PARTS
    };
    intern(
        types,
        &NewType {
            file,
            head,
            names: &[],
            items: params,
        },
    )
}
