// The records of a loaded index, read from the record words. Any words hold some index: see specs/Layout.antt.
#![tactic(auto)]

ghost use Rattle.std.specs.Prelude.{◌≡◌, ℕ, ◌+◌, ◌<◌, ◌&&◌, leb, List, None, Some, if◌then◌else◌, length};
ghost use Rattle.std.specs.Prelude.{option_map, slice_get};
ghost use Rattle.model.specs.Lookups.{module_at, scope_at, type_expr_at, definition_at, expression_at};
ghost use Rattle.records.specs.Layout.{word, link_by, name_by, suffix_by, size_by, item_value, item_name};
ghost use Rattle.records.specs.Layout.{scope_kind_by, type_expr_by, definition_kind_by, origin_by, unary_op_by};
ghost use Rattle.records.specs.Layout.{binary_op_by, expression_by, question_by};
ghost use Rattle.records.specs.Layout.{scope_row, type_expr_row, definition_row, expression_row, question_row};
ghost use Rattle.records.specs.Layout.{module_row, index_of, expression_place};
ghost use Rattle.records.specs.Promises.{ListBy, RowsOf};
ghost use Rattle.records.specs.Meaning.{name_of, numbers_of, links_of, names_with_types_of, scope_link_of};
ghost use Rattle.records.specs.Meaning.{type_link_of, definition_link_of, expression_link_of, suffix_of};
ghost use Rattle.records.specs.Meaning.{scope_kind_of, scope_of, type_expr_of, definition_kind_of, definition_of};
ghost use Rattle.records.specs.Meaning.{origin_of, unary_op_of, binary_op_of, expression_of, info_of};
ghost use Rattle.records.specs.Meaning.{question_of, row_kind_number};
ghost use Rattle.records.specs.Meaning.{found_scope_of, found_type_expr_of, found_definition_of};
ghost use Rattle.records.specs.Meaning.{found_expression_of, found_question_of, link_item_of};
ghost use Rattle.records.specs.Meaning.{name_with_type_item_of};

// The three index types of the Rust. Each is the record's number within its module.
#[derive(Clone, Copy, PartialEq, Eq)]
pub struct FileScopeId(pub u32);

#[derive(Clone, Copy, PartialEq, Eq)]
pub struct DefinitionIndex(pub u32);

#[derive(Clone, Copy, PartialEq, Eq)]
pub struct ExpressionId(pub u32);

// A record's number within its module: one of the three, or a bare number, as a T has. (The trait is no `From` and `Into`: the ghost field gives the number of
// which the promise of `link` speaks. The impls are the table of the instances.)
pub trait RecordNumber: Copy {
    ghost number: { Self → ℕ };

    fn of(n: u32) -> Self
        ensures { number result ≡ n };

    fn get(self) -> u32
        ensures { result ≡ number self };
}

impl RecordNumber for u32 {
    ghost number = { λ n. n };

    fn of(n: u32) -> u32 {
        n
    }

    fn get(self) -> u32 {
        self
    }
}

impl RecordNumber for FileScopeId {
    ghost number = { λ s. s.0 };

    fn of(n: u32) -> FileScopeId {
        FileScopeId(n)
    }

    fn get(self) -> u32 {
        self.0
    }
}

impl RecordNumber for DefinitionIndex {
    ghost number = { λ d. d.0 };

    fn of(n: u32) -> DefinitionIndex {
        DefinitionIndex(n)
    }

    fn get(self) -> u32 {
        self.0
    }
}

impl RecordNumber for ExpressionId {
    ghost number = { λ e. e.0 };

    fn of(n: u32) -> ExpressionId {
        ExpressionId(n)
    }

    fn get(self) -> u32 {
        self.0
    }
}

// A loaded index: the bytes of the file and its record words, which are read together. A module of it is a number beside it, `m`, as `s`, `d` and `e` say
// which record: a demand, a question and a type name their module by its number too, so a struct of the words and `m` would be made anew at each of these.
#[derive(Clone, Copy)]
pub struct Index<'a> {
    pub file: &'a [u8],
    pub words: &'a [u32],
}

// A name is a part of the file.
#[derive(Clone, Copy)]
pub struct Name {
    pub start: u32,
    pub length: u32,
}

// The bytes from `start` up to `end`.
#[derive(Clone, Copy)]
pub struct Span {
    pub start: u32,
    pub end: u32,
}

impl Span {
    // Whether the other span lies within this one.
    pub fn contains(self, inner: Span) -> bool
        ensures { result ≡ (leb self.start inner.start && leb inner.end self.end) }
    {
        self.start <= inner.start && inner.end <= self.end
    }
}

// A field of a struct, or a parameter of a function: its name and the number of its T.
#[derive(Clone, Copy)]
pub struct NameWithType {
    pub name: Name,
    pub type_expr: u32,
}

// A list is a range of item rows. `Rows` below and type_table's `TypeList` are ranges too, but of other rows: each is a type of its own, so that none stands
// for another.
#[derive(Clone, Copy)]
pub struct Items {
    pub first: u32,
    pub count: u32,
}

// A scope, with the names of place.rs.
#[derive(Clone, Copy)]
pub enum ScopeKind {
    Module,
    Function,
    Block,
    Loop,
}

#[derive(Clone, Copy)]
pub struct Scope {
    pub parent: Option<FileScopeId>,
    pub kind: ScopeKind,
}

// A type expression; t is a number. (The fields of the cases here and below have no names: they stand in the order of those of the model's constructors.)
#[derive(Clone, Copy)]
pub enum TypeExpr {
    Felt,
    Bool,
    U32,
    Custom(Name),
    Pointer(u32),
    Tuple(Items),
    FixedArray(u32, u64),
}

// A definition, with the names of definition.rs. The lists are fields, parameters and the path of a destructured value.
#[derive(Clone, Copy)]
pub enum DefinitionKind {
    Function(u32, Items),
    Struct(Items),
    Const(Option<u32>, Option<ExpressionId>),
    Let(Option<u32>, Option<ExpressionId>, Option<ExpressionId>, Items),
    Parameter(u32),
    Use(Name, Name),
    LoopVariable,
}

#[derive(Clone, Copy)]
pub struct Definition {
    pub scope: FileScopeId,
    pub name: Name,
    pub name_span: Span,
    pub full_span: Span,
    pub kind: DefinitionKind,
}

// An expression, with the names of semantic_index.rs: its origin and its node, whose lists are ranges of item rows.
#[derive(Clone, Copy)]
pub enum Origin {
    Plain,
    StructField(ExpressionId, Name),
    Arg(ExpressionId, u32),
    AssignmentRhs(ExpressionId),
    ReturnExpr,
    Condition,
}

#[derive(Clone, Copy, PartialEq, Eq)]
pub enum UnaryOp {
    Not,
    Neg,
}

#[derive(Clone, Copy, PartialEq, Eq)]
pub enum BinaryOp {
    Add,
    Sub,
    Mul,
    Div,
    Mod,
    Eq,
    Neq,
    Less,
    Greater,
    LessEqual,
    GreaterEqual,
    And,
    Or,
    BitwiseAnd,
    BitwiseOr,
    BitwiseXor,
}

#[derive(Clone, Copy)]
pub enum Expression {
    Literal(Option<Name>),
    BooleanLiteral,
    Identifier(Name),
    Unary(UnaryOp, Option<ExpressionId>),
    Binary(BinaryOp, Option<ExpressionId>, Option<ExpressionId>),
    FunctionCall(Option<ExpressionId>, Items),
    MemberAccess(Option<ExpressionId>, Name),
    IndexAccess(Option<ExpressionId>, Option<ExpressionId>),
    StructLiteral(Name, Span),
    Tuple(Items),
    TupleIndex(Option<ExpressionId>, u32),
    ArrayLiteral(Items),
    ArrayRepeat(Option<ExpressionId>, u64),
    Cast(u32),
    New(u32, Option<ExpressionId>),
    Parenthesized(Option<ExpressionId>),
}

#[derive(Clone, Copy)]
pub struct ExpressionInfo {
    pub scope: FileScopeId,
    pub span: Span,
    pub expected: Option<u32>,
    pub definition: Option<DefinitionIndex>,
    pub origin: Origin,
    pub node: Expression,
}

// A question names its module, and then its record and its context or scope, or a position.
#[derive(Clone, Copy)]
pub enum Question {
    Expr(u32, ExpressionId, Option<u32>),
    Def(u32, DefinitionIndex),
    Type(u32, u32, FileScopeId),
    At(u32, u32),
}

// A kind of record that a module has, by the word of the module's row that says where its rows begin.
#[derive(Clone, Copy, PartialEq, Eq)]
pub enum RowKind {
    Scope = 1,
    TypeExpr = 2,
    Definition = 3,
    Expression = 4,
}

// Which of a module's rows are meant: those of a kind, or those of any word of the module's row by its number.
pub trait WhichRows: Copy {
    ghost number: { Self → ℕ };

    fn get(self) -> u32
        ensures { result ≡ number self };
}

impl WhichRows for RowKind {
    ghost number = { row_kind_number };

    fn get(self) -> u32 {
        self as u32
    }
}

impl WhichRows for u32 {
    ghost number = { λ n. n };

    fn get(self) -> u32 {
        self
    }
}

// A module's rows of one kind: where they begin, and how many there are.
#[derive(Clone, Copy)]
pub struct Rows {
    pub first: u32,
    pub count: u32,
}

// Where each region of the words begins. The header stands at 0.
pub const MODULES: usize = 16;

pub const SCOPES: usize = 256;

pub const TYPE_EXPRS: usize = 512;

pub const DEFINITIONS: usize = 2560;

pub const EXPRESSIONS: usize = 5632;

pub const QUESTIONS: usize = 11264;

pub const ITEMS: usize = 12288;

// Two of the four words of the header.
pub const MODULE_COUNT: usize = 0;

pub const QUESTION_COUNT: usize = 1;

// What a word of these kinds means, by its number. A number past a table's last means the last. Kinds whose rows hold more than the number are read by a
// `match` of it (`type_expr_of`, `definition_kind`, `origin_of`, `expression_of`, `question_of`): the rows are lent words, and these functions are the one
// place that gives the numbers a meaning (docs/LAYOUT.md). `scope_kind`, `unary_op`, `binary_op`, `name_of`, `items_of` and `suffix_of` are the forms of one word: no conversion by
// std, since their promise is of any word.
const SCOPE_KINDS: [ScopeKind; 4] = [
    ScopeKind::Module,
    ScopeKind::Function,
    ScopeKind::Block,
    ScopeKind::Loop,
];

const UNARY_OPS: [UnaryOp; 2] = [UnaryOp::Not, UnaryOp::Neg];

const BINARY_OPS: [BinaryOp; 16] = [
    BinaryOp::Add,
    BinaryOp::Sub,
    BinaryOp::Mul,
    BinaryOp::Div,
    BinaryOp::Mod,
    BinaryOp::Eq,
    BinaryOp::Neq,
    BinaryOp::Less,
    BinaryOp::Greater,
    BinaryOp::LessEqual,
    BinaryOp::GreaterEqual,
    BinaryOp::And,
    BinaryOp::Or,
    BinaryOp::BitwiseAnd,
    BinaryOp::BitwiseOr,
    BinaryOp::BitwiseXor,
];

// The word at a place, 0 past the end.
pub fn word_at(words: &[u32], i: usize) -> u32
    ensures { result ≡ word words.now i }
{
    words.get(i).copied().unwrap_or(0)
}

// The name that a word holds. (Beside `items_of`, as the two give two types, whose promises speak of two definitions.)
pub fn name_of(v: u32) -> Name
    ensures { (file : List ℕ) → name_of file result ≡ name_by file v }
{
    Name {
        start: v % 65536,
        length: v / 65536,
    }
}

// The list that a word holds.
pub fn items_of(v: u32) -> Items
    ensures { ListBy v result }
{
    Items {
        first: v % 65536,
        count: v / 65536,
    }
}

// A link that may be absent: its word is 0, or the number and 1.
pub fn link<R: RecordNumber>(v: u32) -> Option<R>
    ensures { option_map R.number result ≡ link_by v }
{
    if v == 0 { None } else { Some(R::of(v - 1)) }
}

// The suffix that a word holds, or none.
pub fn suffix_of(v: u32) -> Option<Name>
    ensures { (file : List ℕ) → suffix_of file result ≡ suffix_by file v }
{
    if v == 0 { None } else { Some(name_of(v)) }
}

// ------------------------------------------------------------------ rows

// The rows of a kind that a module has. They end where those of the next module begin.
// A function for each kind counts them, and another reads one by its number: each promise speaks of another list of the module, so that one
// function for all kinds would have to promise by cases. What they share is here, in `rows_of` and in `then`.
pub fn rows_of<K: WhichRows>(words: &[u32], m: u32, kind: K) -> Rows
    ensures { RowsOf words.now m (K.number kind) result }
{
    rows_at(words, m, kind.get())
}

// The rows that a module has by any word of its row, those of the four kinds among them.
pub fn rows_at(words: &[u32], m: u32, kind: u32) -> Rows
    ensures { RowsOf words.now m kind result }
{
    let at = MODULES + 8 * (m as usize);
    let first = word_at(words, at + (kind as usize));
    let end = word_at(words, at + 8 + (kind as usize));
    Rows {
        first,
        count: end.saturating_sub(first),
    }
}

// ------------------------------------------------------------------ scopes

fn scope_kind(kind: u32) -> ScopeKind
    ensures { scope_kind_of result ≡ scope_kind_by kind }
{
    SCOPE_KINDS
        .get(kind as usize)
        .copied()
        .unwrap_or(ScopeKind::Loop)
}

// The scope at row `first + i`, where the rows of its module begin at `first`. (They are two numbers, here and below: any words hold an index, so that the sum may
// pass 2^32.)
pub fn scope_row(words: &[u32], first: u32, i: u32) -> Scope
    ensures { scope_of result ≡ scope_row words.now (first + i) }
{
    let at = SCOPES + 2 * ((first as usize) + (i as usize));
    let parent = link(word_at(words, at));
    let kind = scope_kind(word_at(words, at + 1));
    Scope { parent, kind }
}

// A scope of a module, by its number there.
pub fn scope_at(words: &[u32], m: u32, s: FileScopeId) -> Option<Scope>
    ensures { (file : List ℕ) → found_scope_of result ≡ scope_at (module_row file words.now m) s.0 }
{
    let rows = rows_of(words, m, RowKind::Scope);
    let i = s.0;
    (i < rows.count).then(|| scope_row(words, rows.first, i))
}

// How many scopes a module has.
pub fn scope_count(words: &[u32], m: u32) -> u32
    ensures { (file : List ℕ) → result ≡ length (module_row file words.now m).scopes }
{
    let rows = rows_of(words, m, RowKind::Scope);
    rows.count
}

// ------------------------------------------------------------------ type expressions

// A size below 2^64, the low word first.
pub fn size_of(low: u32, high: u32) -> u64
    ensures { result ≡ size_by low high }
{
    (low as u64) + 4294967296 * (high as u64)
}

// A type expression by the four words of its row.
fn type_expr_of(kind: u32, a: u32, b: u32, c: u32) -> TypeExpr
    ensures { (file words : List ℕ) → type_expr_of file words result ≡ type_expr_by file words kind a b c }
{
    match kind {
        0 => TypeExpr::Felt,
        1 => TypeExpr::Bool,
        2 => TypeExpr::U32,
        3 => TypeExpr::Custom(name_of(a)),
        4 => TypeExpr::Pointer(a),
        5 => TypeExpr::Tuple(items_of(c)),
        _ => TypeExpr::FixedArray(a, size_of(b, c)),
    }
}

pub fn type_expr_row(words: &[u32], first: u32, i: u32) -> TypeExpr
    ensures { (file : List ℕ) → type_expr_of file words.now result
        ≡ type_expr_row file words.now (first + i) }
{
    let at = TYPE_EXPRS + 4 * ((first as usize) + (i as usize));
    let kind = word_at(words, at);
    let a = word_at(words, at + 1);
    let b = word_at(words, at + 2);
    let c = word_at(words, at + 3);
    type_expr_of(kind, a, b, c)
}

// A type expression of a module, by its number there.
pub fn type_expr_at(words: &[u32], m: u32, t: u32) -> Option<TypeExpr>
    ensures { (file : List ℕ) → found_type_expr_of file words.now result
        ≡ type_expr_at (module_row file words.now m) t }
{
    let rows = rows_of(words, m, RowKind::TypeExpr);
    (t < rows.count).then(|| type_expr_row(words, rows.first, t))
}

// How many type expressions a module has.
pub fn type_expr_count(words: &[u32], m: u32) -> u32
    ensures { (file : List ℕ) → result ≡ length (module_row file words.now m).types }
{
    let rows = rows_of(words, m, RowKind::TypeExpr);
    rows.count
}

// ------------------------------------------------------------------ definitions

// The kind of a definition, by the first word of its row and those behind the spans.
fn definition_kind(kind: u32, a: u32, b: u32, c: u32, d: u32) -> DefinitionKind
    ensures { (file words : List ℕ) → definition_kind_of file words result
        ≡ definition_kind_by file words kind a b c d }
{
    match kind {
        0 => DefinitionKind::Function(a, items_of(d)),
        1 => DefinitionKind::Struct(items_of(d)),
        2 => DefinitionKind::Const(link(a), link(b)),
        3 => DefinitionKind::Let(link(a), link(b), link(c), items_of(d)),
        4 => DefinitionKind::Parameter(a),
        5 => DefinitionKind::Use(name_of(a), name_of(b)),
        _ => DefinitionKind::LoopVariable,
    }
}

// The definition at row `first + i`, where the rows of its module begin at `first`.
pub fn definition_row(words: &[u32], first: u32, i: u32) -> Definition
    ensures { (file : List ℕ) → definition_of file words.now result
        ≡ definition_row file words.now (first + i) }
{
    let at = DEFINITIONS + 12 * ((first as usize) + (i as usize));
    let kind = word_at(words, at);
    let scope = word_at(words, at + 1);
    let name = name_of(word_at(words, at + 2));
    let name_start = word_at(words, at + 3);
    let name_end = word_at(words, at + 4);
    let full_start = word_at(words, at + 5);
    let full_end = word_at(words, at + 6);
    let a = word_at(words, at + 7);
    let b = word_at(words, at + 8);
    let c = word_at(words, at + 9);
    let d = word_at(words, at + 10);
    let kind = definition_kind(kind, a, b, c, d);
    Definition {
        scope: FileScopeId(scope),
        name,
        name_span: Span {
            start: name_start,
            end: name_end,
        },
        full_span: Span {
            start: full_start,
            end: full_end,
        },
        kind,
    }
}

// The scope of a definition alone, and its name alone: for searches through the definitions of a module.
pub fn definition_scope(words: &[u32], first: u32, i: u32) -> FileScopeId
    ensures { (file : List ℕ) → result.0 ≡ (definition_row file words.now (first + i)).scope }
{
    FileScopeId(word_at(
        words,
        DEFINITIONS + 12 * ((first as usize) + (i as usize)) + 1,
    ))
}

pub fn definition_name(words: &[u32], first: u32, i: u32) -> Name
    ensures { (file : List ℕ) → name_of file result ≡ (definition_row file words.now (first + i)).name }
{
    name_of(word_at(
        words,
        DEFINITIONS + 12 * ((first as usize) + (i as usize)) + 2,
    ))
}

// A definition of a module, by its number there.
pub fn definition_at(words: &[u32], m: u32, d: DefinitionIndex) -> Option<Definition>
    ensures { (file : List ℕ) → found_definition_of file words.now result
        ≡ definition_at (module_row file words.now m) d.0 }
{
    let rows = rows_of(words, m, RowKind::Definition);
    let i = d.0;
    (i < rows.count).then(|| definition_row(words, rows.first, i))
}

// How many definitions a module has.
pub fn definition_count(words: &[u32], m: u32) -> u32
    ensures { (file : List ℕ) → result ≡ length (module_row file words.now m).definitions }
{
    let rows = rows_of(words, m, RowKind::Definition);
    rows.count
}

// ------------------------------------------------------------------ expressions

// An origin by its number, its link and its value.
fn origin_of(kind: u32, link: u32, value: u32) -> Origin
    ensures { (file : List ℕ) → origin_of file result ≡ origin_by file kind link value }
{
    match kind {
        0 => Origin::Plain,
        1 => Origin::StructField(ExpressionId(link), name_of(value)),
        2 => Origin::Arg(ExpressionId(link), value),
        3 => Origin::AssignmentRhs(ExpressionId(link)),
        4 => Origin::ReturnExpr,
        _ => Origin::Condition,
    }
}

fn unary_op(op: u32) -> UnaryOp
    ensures { unary_op_of result ≡ unary_op_by op }
{
    UNARY_OPS.get(op as usize).copied().unwrap_or(UnaryOp::Neg)
}

fn binary_op(op: u32) -> BinaryOp
    ensures { binary_op_of result ≡ binary_op_by op }
{
    BINARY_OPS
        .get(op as usize)
        .copied()
        .unwrap_or(BinaryOp::BitwiseXor)
}

// A node by its number and the last three words of its row.
fn expression_of(kind: u32, a: u32, b: u32, c: u32) -> Expression
    ensures { (file words : List ℕ) → expression_of file words result ≡ expression_by file words kind a b c }
{
    match kind {
        0 => Expression::Literal(suffix_of(a)),
        1 => Expression::BooleanLiteral,
        2 => Expression::Identifier(name_of(a)),
        3 => Expression::Unary(unary_op(a), link(b)),
        4 => Expression::Binary(binary_op(a), link(b), link(c)),
        5 => Expression::FunctionCall(link(a), items_of(c)),
        6 => Expression::MemberAccess(link(a), name_of(b)),
        7 => Expression::IndexAccess(link(a), link(b)),
        8 => Expression::StructLiteral(name_of(a), Span { start: b, end: c }),
        9 => Expression::Tuple(items_of(c)),
        10 => Expression::TupleIndex(link(a), b),
        11 => Expression::ArrayLiteral(items_of(c)),
        12 => Expression::ArrayRepeat(link(a), size_of(b, c)),
        13 => Expression::Cast(a),
        14 => Expression::New(a, link(b)),
        _ => Expression::Parenthesized(link(a)),
    }
}

// The eleven words of an expression's row, 0 past the end. A row within the buffer is read at once: one test of the buffer's length in place of eleven.
fn expression_words(words: &[u32], first: u32, i: u32) -> [u32; 11]
    ensures { (k : ℕ) → k < 11 → word result k ≡ word words.now (expression_place (first + i) + k) }
{
    let at = EXPRESSIONS + 11 * ((first as usize) + (i as usize));
    if at + 11 <= words.len() {
        return [
            words[at],
            words[at + 1],
            words[at + 2],
            words[at + 3],
            words[at + 4],
            words[at + 5],
            words[at + 6],
            words[at + 7],
            words[at + 8],
            words[at + 9],
            words[at + 10],
        ];
    }
    [
        word_at(words, at),
        word_at(words, at + 1),
        word_at(words, at + 2),
        word_at(words, at + 3),
        word_at(words, at + 4),
        word_at(words, at + 5),
        word_at(words, at + 6),
        word_at(words, at + 7),
        word_at(words, at + 8),
        word_at(words, at + 9),
        word_at(words, at + 10),
    ]
}

pub fn expression_row(words: &[u32], first: u32, i: u32) -> ExpressionInfo
    ensures { (file : List ℕ) → info_of file words.now result
        ≡ expression_row file words.now (first + i) }
{
    let row = expression_words(words, first, i);
    let kinds = row[0];
    let scope = row[1];
    let start = row[2];
    let end = row[3];
    let expected = link(row[4]);
    let definition = link(row[5]);
    let link = row[6];
    let value = row[7];
    let a = row[8];
    let b = row[9];
    let c = row[10];
    let origin = origin_of(kinds / 256, link, value);
    let node = expression_of(kinds % 256, a, b, c);
    ExpressionInfo {
        scope: FileScopeId(scope),
        span: Span { start, end },
        expected,
        definition,
        origin,
        node,
    }
}

// The start of an expression alone, and its end alone: for searches through the expressions of a module.
pub fn expression_start(words: &[u32], first: u32, i: u32) -> u32
    ensures { (file : List ℕ) → result ≡ (expression_row file words.now (first + i)).start }
{
    word_at(
        words,
        EXPRESSIONS + 11 * ((first as usize) + (i as usize)) + 2,
    )
}

pub fn expression_end(words: &[u32], first: u32, i: u32) -> u32
    ensures { (file : List ℕ) → result ≡ (expression_row file words.now (first + i)).end }
{
    word_at(
        words,
        EXPRESSIONS + 11 * ((first as usize) + (i as usize)) + 3,
    )
}

// An expression of a module, by its number there: its node and its origin by value, lists beside as ranges.
pub fn expression_at(words: &[u32], m: u32, e: ExpressionId) -> Option<ExpressionInfo>
    ensures { (file : List ℕ) → found_expression_of file words.now result
        ≡ expression_at (module_row file words.now m) e.0 }
{
    let rows = rows_of(words, m, RowKind::Expression);
    let i = e.0;
    (i < rows.count).then(|| expression_row(words, rows.first, i))
}

// How many expressions a module has.
pub fn expression_count(words: &[u32], m: u32) -> u32
    ensures { (file : List ℕ) → result ≡ length (module_row file words.now m).expressions }
{
    let rows = rows_of(words, m, RowKind::Expression);
    rows.count
}

// ------------------------------------------------------------------ questions

// A question by the four words of its row.
fn question_of(kind: u32, m: u32, a: u32, b: u32) -> Question
    ensures { question_of result ≡ question_by kind m a b }
{
    match kind {
        0 => Question::Expr(m, ExpressionId(a), link(b)),
        1 => Question::Def(m, DefinitionIndex(a)),
        2 => Question::Type(m, a, FileScopeId(b)),
        _ => Question::At(m, a),
    }
}

pub fn question_row(words: &[u32], q: u32) -> Question
    ensures { question_of result ≡ question_row words.now q }
{
    let at = QUESTIONS + 4 * (q as usize);
    let kind = word_at(words, at);
    let m = word_at(words, at + 1);
    let a = word_at(words, at + 2);
    let b = word_at(words, at + 3);
    question_of(kind, m, a, b)
}

// A question of the file, by its number.
pub fn question_at(words: &[u32], q: u32) -> Option<Question>
    ensures { (file : List ℕ) → found_question_of result ≡ slice_get (index_of file words.now).questions q }
{
    (q < word_at(words, QUESTION_COUNT)).then(|| question_row(words, q))
}

// How many questions the file has.
pub fn question_count(words: &[u32]) -> u32
    ensures { (file : List ℕ) → result ≡ length (index_of file words.now).questions }
{
    word_at(words, QUESTION_COUNT)
}

// ------------------------------------------------------------------ modules

// How many modules the file has.
pub fn module_count(words: &[u32]) -> u32
    ensures { (file : List ℕ) → result ≡ length (index_of file words.now).modules }
{
    word_at(words, MODULE_COUNT)
}

// Whether there is a module of that number.
pub fn has_module(words: &[u32], m: u32) -> bool
    ensures { (file : List ℕ) → module_at (index_of file words.now) m
        ≡ (if result then Some (module_row file words.now m) else None) }
{
    m < word_at(words, MODULE_COUNT)
}

// The name of a module.
pub fn module_name(words: &[u32], m: u32) -> Name
    ensures { (file : List ℕ) → name_of file result ≡ (module_row file words.now m).name }
{
    name_of(word_at(words, MODULES + 8 * (m as usize)))
}

// ------------------------------------------------------------------ items of a list, by place

// The three below serve loops over a list that begins at row `first`: they don't look at its end.
pub fn item_value(words: &[u32], first: u32, i: u32) -> u32
    ensures { result ≡ item_value words.now (first + i) }
{
    word_at(words, ITEMS + 2 * ((first as usize) + (i as usize)))
}

// (No library reads an item.)
pub fn item_link(words: &[u32], first: u32, i: u32) -> Option<ExpressionId>
    ensures { expression_link_of result ≡ link_by (item_value words.now (first + i)) }
{
    link(item_value(words, first, i))
}

pub fn item_name(words: &[u32], first: u32, i: u32) -> Name
    ensures { (file : List ℕ) → name_of file result ≡ name_by file (item_name words.now (first + i)) }
{
    name_of(word_at(words, ITEMS + 2 * ((first as usize) + (i as usize)) + 1))
}

// A t of a tuple type, or an index of a path.
pub fn number_item(words: &[u32], items: Items, i: u32) -> Option<u32>
    ensures { result ≡ slice_get (numbers_of words.now items) i }
{
    (i < items.count).then(|| item_value(words, items.first, i))
}

// An argument or an element, which may itself be absent.
pub fn link_item(words: &[u32], items: Items, i: u32) -> Option<Option<ExpressionId>>
    ensures { link_item_of result ≡ slice_get (links_of words.now items) i }
{
    (i < items.count).then(|| item_link(words, items.first, i))
}

// A field of a struct, or a parameter of a function.
pub fn name_with_type_item(words: &[u32], items: Items, i: u32) -> Option<NameWithType>
    ensures { (file : List ℕ) → name_with_type_item_of file result
        ≡ slice_get (names_with_types_of file words.now items) i }
{
    (i < items.count).then(|| NameWithType {
        name: item_name(words, items.first, i),
        type_expr: item_value(words, items.first, i),
    })
}
