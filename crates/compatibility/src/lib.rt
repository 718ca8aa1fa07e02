// Whether a type may stand where another is expected, and the types of operators.
#![tactic(auto)]

ghost use Rattle.std.specs.Prelude.{◌≡◌, ℕ, ◌*◌, ◌<◌, List, eqb, length};
ghost use Rattle.records.specs.Meaning.{unary_op_of, binary_op_of};
ghost use Rattle.resolution.specs.TableOk.{TableOk};
ghost use Rattle.resolution.specs.Types.{is_error_or_unknown};
ghost use Rattle.resolution.specs.Compatible.{are_types_compatible, unary_result};
ghost use Rattle.resolution.specs.Compatible.{binary_result, unary_op_signatures, binary_op_signatures};
ghost use Rattle.type_table.specs.Layout.{type_count, table_of, AllBelow, Sound};
ghost use Rattle.type_table.specs.Meaning.{data_is};
ghost use Rattle.compatibility.specs.Pairs.{mark_at, Marks, Remembers, rows_compatible, lists_compatible};
ghost use Rattle.compatibility.specs.Operators.{unary_row_fits, binary_row_fits, unary_signature_of};
ghost use Rattle.compatibility.specs.Operators.{binary_signature_of};

use records::{BinaryOp, UnaryOp};
use type_table::{BOOL, ERROR, FELT, TypeData, Types, U32};

// ------------------------------------------------------------------ compatibility

// A `Types` is a table as interning leaves it: comparing goes down by type numbers, an element's below its holder's, and with other words it might not end.
// To test that would be to read the whole table at each call; `type_resolution` has it from the first type on.

fn is_error_or_unknown(row: TypeData) -> bool
    ensures { (file words : List ℕ) → result ≡ is_error_or_unknown (data_is file words row) }
{
    matches!(row, TypeData::Error | TypeData::Unknown)
}

// The store is a slice of words, and no struct: what it remembers is of the table beside it, so a struct of the store alone would leave that clause in each of
// the three functions; and a struct of both would have to promise that the table stays.

// Whether a place of the store is marked. A word holds the marks of 32 places, a bit for each.
fn is_marked(seen: &[u32], at: usize) -> bool
    requires { at < 32 * length seen.now }
    ensures { result ≡ eqb (mark_at seen.now at) 1 }
{
    let marks = seen[at / 32];
    (marks >> (at % 32)) % 2 == 1
}

// Marks a place of the store.
fn mark(seen: &mut [u32], at: usize)
    requires { at < 32 * length seen.old }
    ensures { Marks seen.old at seen.new }
{
    let marks = seen[at / 32];
    seen[at / 32] = marks | (1 << (at % 32));
}

// Whether two types are compatible. seen marks pairs that are known to be. (It returns early: behind the tests the store is changed.)
#[cycle(compatible_compatible_lists_compatible_rows)]
fn compatible(types: &Types, seen: &mut [u32], actual: u32, expected: u32) -> bool
    requires actual_bound { (actual < type_count types.now.words.now) × (expected < type_count types.now.words.now) }
    requires remembers { Remembers types.now.file.now types.now.words.now seen.old }
    ensures value { result ≡ are_types_compatible (table_of types.now.file.now types.now.words.now) actual expected }
    ensures remembers_2 { Remembers types.now.file.now types.now.words.now seen.new }
{
    let at = 256 * (actual as usize) + (expected as usize);
    if actual == expected || is_marked(seen, at) {
        return true;
    }
    if compatible_rows(types, seen, actual, expected) {
        mark(seen, at);
        return true;
    }
    false
}

// Whether the rows of two types are compatible.
#[cycle(compatible_compatible_lists_compatible_rows)]
fn compatible_rows(types: &Types, seen: &mut [u32], actual: u32, expected: u32) -> bool
    requires actual_bound { (actual < type_count types.now.words.now) × (expected < type_count types.now.words.now) }
    requires remembers { Remembers types.now.file.now types.now.words.now seen.old }
    ensures value { result ≡ rows_compatible (table_of types.now.file.now types.now.words.now) actual expected }
    ensures remembers_2 { Remembers types.now.file.now types.now.words.now seen.new }
{
    let words = types.words;
    let a = type_table::data(words, actual);
    let e = type_table::data(words, expected);
    match (a, e) {
        (TypeData::Pointer(x), TypeData::Pointer(y)) => compatible(types, seen, x, y),
        (
            TypeData::FixedArray {
                element: x,
                size: m,
            },
            TypeData::FixedArray {
                element: y,
                size: n,
            },
        ) => m == n && compatible(types, seen, x, y),
        (TypeData::Tuple(xs), TypeData::Tuple(ys)) => {
            let left = type_table::types_in(words, xs);
            let right = type_table::types_in(words, ys);
            compatible_lists(types, seen, actual, left, right)
        }
        _ => is_error_or_unknown(a) || is_error_or_unknown(e),
    }
}

// Whether the types of two lists are compatible, place by place. The left ones are those of a type, and below it. (`actual`, that type, is a parameter that only
// the clauses use: the calls end because the left types are below it.) The loop is a `for` that returns: the closure of `all` would change the store, and of that
// the proof would know nothing behind it. The lengths are tested before the loop, and not by `&&`: that would take the loop in a function of its own.
#[cycle(compatible_compatible_lists_compatible_rows)]
fn compatible_lists(
    types: &Types,
    seen: &mut [u32],
    actual: u32,
    left: &[u32],
    right: &[u32],
) -> bool
    requires actual_bound { (actual < type_count types.now.words.now) × AllBelow actual left.now × AllBelow (type_count types.now.words.now) right.now }
    requires remembers { Remembers types.now.file.now types.now.words.now seen.old }
    ensures value { result ≡ lists_compatible (table_of types.now.file.now types.now.words.now) left.now right.now }
    ensures remembers_2 { Remembers types.now.file.now types.now.words.now seen.new }
{
    if left.len() != right.len() {
        return false;
    }
    for (x, y) in left.iter().zip(right) {
        if !compatible(types, seen, *x, *y) {
            return false;
        }
    }
    true
}

// Whether two types are compatible, with a store of its own for the pairs that are known to be.
// A bit for each pair, 8 KB, on the stack, since there is no heap. Never inlined, so that only a comparison that needs the store lays it out.
#[inline(never)]
fn compare_with_store(types: &Types, actual: u32, expected: u32) -> bool
    requires actual_bound { (actual < type_count types.now.words.now) × (expected < type_count types.now.words.now) }
    ensures { result ≡ are_types_compatible (table_of types.now.file.now types.now.words.now) actual expected }
{
    let mut seen = [0u32; 2048];
    compatible(types, &mut seen, actual, expected)
}

// Whether a type may stand where another is expected. Only two tuples, two arrays or two pointers are compared with a store. Error and unknown are tested
// before, and not in the last arm as in `compatible_rows`: of an arm with more patterns than one the proof doesn't know which holds, so not that the
// numbers are of the table. The two tests return each by itself, since the rows are read between them, and only where the numbers differ. Inlined: most types that
// are compared have the same number, and then nothing is called.
#[inline(always)]
pub fn are_types_compatible(types: &Types, actual: u32, expected: u32) -> bool
    ensures { result ≡ are_types_compatible (table_of types.now.file.now types.now.words.now) actual expected }
{
    if actual == expected {
        return true;
    }
    let a = type_table::data(types.words, actual);
    let e = type_table::data(types.words, expected);
    if is_error_or_unknown(a) || is_error_or_unknown(e) {
        return true;
    }
    match (a, e) {
        (TypeData::Tuple(_), TypeData::Tuple(_))
        | (TypeData::FixedArray { .. }, TypeData::FixedArray { .. })
        | (TypeData::Pointer(_), TypeData::Pointer(_)) => {
            compare_with_store(types, actual, expected)
        }
        _ => false,
    }
}

// ------------------------------------------------------------------ operators

// An operator of one operand with types that it takes and gives.
#[derive(Clone, Copy)]
pub struct UnaryRow {
    pub op: UnaryOp,
    pub operand: u32,
    pub result: u32,
}

// The same of two operands.
#[derive(Clone, Copy)]
pub struct BinaryRow {
    pub op: BinaryOp,
    pub left: u32,
    pub right: u32,
    pub result: u32,
}

// A row of the tables below in one line.
macro_rules! unary {
    ($op:ident, $operand:expr, $result:expr) => {
        UnaryRow {
            op: UnaryOp::$op,
            operand: $operand,
            result: $result,
        }
    };
}

macro_rules! binary {
    ($op:ident, $left:expr, $right:expr, $result:expr) => {
        BinaryRow {
            op: BinaryOp::$op,
            left: $left,
            right: $right,
            result: $result,
        }
    };
}

const UNARY_ROWS: [UnaryRow; 3] = [
    unary!(Neg, FELT, FELT),
    unary!(Neg, U32, U32),
    unary!(Not, BOOL, BOOL),
];

const BINARY_ROWS: [BinaryRow; 24] = [
    binary!(Add, FELT, FELT, FELT),
    binary!(Add, U32, U32, U32),
    binary!(Sub, FELT, FELT, FELT),
    binary!(Sub, U32, U32, U32),
    binary!(Mul, FELT, FELT, FELT),
    binary!(Mul, U32, U32, U32),
    binary!(Div, FELT, FELT, FELT),
    binary!(Div, U32, U32, U32),
    binary!(Mod, U32, U32, U32),
    binary!(Eq, FELT, FELT, BOOL),
    binary!(Eq, U32, U32, BOOL),
    binary!(Eq, BOOL, BOOL, BOOL),
    binary!(Neq, FELT, FELT, BOOL),
    binary!(Neq, U32, U32, BOOL),
    binary!(Neq, BOOL, BOOL, BOOL),
    binary!(Less, U32, U32, BOOL),
    binary!(Greater, U32, U32, BOOL),
    binary!(LessEqual, U32, U32, BOOL),
    binary!(GreaterEqual, U32, U32, BOOL),
    binary!(And, BOOL, BOOL, BOOL),
    binary!(Or, BOOL, BOOL, BOOL),
    binary!(BitwiseAnd, U32, U32, U32),
    binary!(BitwiseOr, U32, U32, U32),
    binary!(BitwiseXor, U32, U32, U32),
];

// The functions of one operand and of two are written twice: a row type that held either would need a number of operands beside them. What the two searches have
// in common is std's `find` and `map_or`.

// Whether a row is of the operator and takes the operand.
fn unary_fits(types: &Types, row: &UnaryRow, op: UnaryOp, operand: u32) -> bool
    ensures { result ≡ unary_row_fits (table_of types.now.file.now types.now.words.now) (unary_op_of op) operand (unary_signature_of row.now) }
{
    row.op == op && are_types_compatible(types, operand, row.operand)
}

fn binary_fits(types: &Types, row: &BinaryRow, op: BinaryOp, left: u32, right: u32) -> bool
    ensures { result ≡ binary_row_fits (table_of types.now.file.now types.now.words.now) (binary_op_of op) left right (binary_signature_of row.now) }
{
    row.op == op
        && are_types_compatible(types, left, row.left)
        && are_types_compatible(types, right, row.right)
}

// The result of the first row that fits, from the top; else error.
pub fn unary_result(types: &Types, op: UnaryOp, operand: u32) -> u32
    ensures { result ≡ unary_result (table_of types.now.file.now types.now.words.now) unary_op_signatures (unary_op_of op) operand }
{
    UNARY_ROWS
        .iter()
        .find(|row| unary_fits(types, row, op, operand))
        .map_or(ERROR, |row| row.result)
}

// The type that the first row of the operator gives whose operands fit; error where none does.
pub fn binary_result(types: &Types, op: BinaryOp, left: u32, right: u32) -> u32
    ensures { result ≡ binary_result (table_of types.now.file.now types.now.words.now) binary_op_signatures (binary_op_of op) left right }
{
    BINARY_ROWS
        .iter()
        .find(|row| binary_fits(types, row, op, left, right))
        .map_or(ERROR, |row| row.result)
}
