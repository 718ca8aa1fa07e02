// What a question asks, and what the resolution functions of type_resolution.rs read from the record words without asking. Any words hold some index, so
// every function is total. A module is given by its number, a name as a part of the file.
#![tactic(auto)]

ghost use Rattle.std.specs.Prelude.{◌≡◌, ℕ, List, [], ◌∷◌};
ghost use Rattle.std.specs.Prelude.{slice_get};
ghost use Rattle.model.specs.Records as model;
ghost use Rattle.resolution.specs.Asked.{question_asked};
ghost use Rattle.resolution.specs.Types.{field_type};
ghost use Rattle.resolution.specs.Compatible.{is_commutative};
ghost use Rattle.resolution.specs.Views.{is_array_expr, operand_is_unsuffixed_literal, struct_field};
ghost use Rattle.records.specs.Layout.{module_row};
ghost use Rattle.records.specs.Meaning.{name_of, names_with_types_of, type_link_of, type_expr_of};
ghost use Rattle.records.specs.Meaning.{definition_kind_of, binary_op_of, question_of};
ghost use Rattle.views.specs.Asking.{asked_of, found_asked_of};
ghost use Rattle.views.specs.Promises.{IsUnsuffixedLiteral, NamesArrayExpr, RightFirst, CalleeIsBuiltin};
ghost use Rattle.views.specs.Promises.{ArgumentDefinition, FieldTypeExpr, ImportedDefinition, IdentifierDefinition};
ghost use Rattle.views.specs.Promises.{PositionExpression};

use records::{
    BinaryOp, DefinitionIndex, DefinitionKind, Expression, ExpressionId, FileScopeId, Index, Items,
    Name, Question, Span, TypeExpr,
};

// What an answer line is about, which isn't what a question of the file is (`Question`): a question asks a list of these (of one today). Module, expression, context; module, definition; module, T, scope; module, position.
#[derive(Clone, Copy)]
pub enum Asked {
    Expr(u32, ExpressionId, Option<u32>),
    Def(u32, DefinitionIndex),
    Type(u32, u32, FileScopeId),
    At(u32, u32),
}

// ------------------------------------------------------------------ what a question asks

impl From<Question> for Asked {
    ghost from_gives = { λ question asked. (index : model.Index) → question_asked index (question_of question) ≡ asked_of asked ∷ [] };

    fn from(question: Question) -> Asked {
        match question {
            Question::Expr(m, e, context) => Asked::Expr(m, e, context),
            Question::Def(m, d) => Asked::Def(m, d),
            Question::Type(m, t, s) => Asked::Type(m, t, s),
            Question::At(m, position) => Asked::At(m, position),
        }
    }
}

// What a question asks at a number: each asks one thing, and has one line.
pub fn asked_at(question: Question, line: u32) -> Option<Asked>
    ensures { (index : model.Index) → found_asked_of result ≡ slice_get (question_asked index (question_of question)) line }
{
    (line == 0).then(|| Asked::from(question))
}

// The expression at a byte of a module, by its number; none too where there is no such module. (A test before an Option: `then` would give an Option within one.)
pub fn position_expression(words: &[u32], m: u32, position: u32) -> Option<ExpressionId>
    ensures { PositionExpression words.now m position result }
{
    if !records::has_module(words, m) {
        return None;
    }
    semantic_index::expression_at_position(words, m, position)
}

// ------------------------------------------------------------------ what a record is

// (`matches!` is the definition's test.)
fn is_array_expr(t: TypeExpr) -> bool
    ensures { (file words : List ℕ) → result ≡ is_array_expr (type_expr_of file words t) }
{
    matches!(t, TypeExpr::FixedArray(_, _))
}

// `matches!(element_type.value(), AstTypeExpr::FixedArray { .. })`, by the T's number.
pub fn names_array_expr(words: &[u32], m: u32, t: u32) -> bool
    ensures { NamesArrayExpr words.now m t result }
{
    records::type_expr_at(words, m, t).is_some_and(|type_expr| is_array_expr(type_expr))
}

// `Expression::Literal(_, None)`. (Tried: `matches!` with the pattern within the pattern. In `returns-in-Literal-None` and `returns-in_default` what the suffix is
// stands behind a projection of the node.)
pub fn is_unsuffixed_literal(node: Expression) -> bool
    ensures { IsUnsuffixedLiteral node result }
{
    let Expression::Literal(suffix) = node else {
        return false;
    };
    suffix.is_none()
}

// ------------------------------------------------------------------ operators

fn is_commutative(op: BinaryOp) -> bool
    ensures { result ≡ is_commutative (binary_op_of op) }
{
    matches!(
        op,
        BinaryOp::Add | BinaryOp::Mul | BinaryOp::Eq | BinaryOp::Neq
    )
}

fn operand_is_unsuffixed_literal(words: &[u32], m: u32, e: ExpressionId) -> bool
    ensures { (file : List ℕ) → result ≡ operand_is_unsuffixed_literal (module_row file words.now m) e.0 }
{
    records::expression_at(words, m, e).is_some_and(|operand| is_unsuffixed_literal(operand.node))
}

// Whether the right operand is typed first: the operator commutes, and only the left operand is an unsuffixed literal.
pub fn right_first(
    words: &[u32],
    m: u32,
    op: BinaryOp,
    left: ExpressionId,
    right: ExpressionId,
) -> bool
    ensures { RightFirst words.now m op left right result }
{
    is_commutative(op)
        && operand_is_unsuffixed_literal(words, m, left)
        && !operand_is_unsuffixed_literal(words, m, right)
}

// ------------------------------------------------------------------ calls

// Whether the callee is the built-in `assert`; a missing callee is no identifier. (Each of the three reads is named and may end it, as in the Rust: no chain of closures.)
pub fn callee_is_builtin(index: &Index, m: u32, callee: Option<ExpressionId>) -> bool
    ensures { CalleeIsBuiltin index.now.file.now index.now.words.now m callee result }
{
    let Some(callee_id) = callee else {
        return false;
    };
    let Some(callee_info) = records::expression_at(index.words, m, callee_id) else {
        return false;
    };
    let Expression::Identifier(name) = callee_info.node else {
        return false;
    };
    semantic_index::builtins::is_builtin_function_name(index.file, name)
}

// The definition that the callee of an argument records, if the callee is an identifier.
pub fn argument_definition(words: &[u32], m: u32, callee: ExpressionId) -> Option<DefinitionIndex>
    ensures { ArgumentDefinition words.now m callee result }
{
    let callee_info = records::expression_at(words, m, callee)?;
    let Expression::Identifier(_) = callee_info.node else {
        return None;
    };
    semantic_index::definition_for_identifier_expr(words, m, callee)
}

// ------------------------------------------------------------------ fields

// The t of the first field of that name.
fn field_type(index: &Index, fields: Items, name: Name) -> Option<u32>
    ensures { type_link_of result
        ≡ field_type (names_with_types_of index.now.file.now index.now.words.now fields)
        (name_of index.now.file.now name) }
{
    (0..fields.count)
        .find(|i| {
            semantic_index::names::same_name(
                index.file,
                records::item_name(index.words, fields.first, *i),
                name,
            )
        })
        .map(|i| records::item_value(index.words, fields.first, i))
}

// The t of a struct definition's field. (A match of a kind, and not of an Option.)
fn struct_field(index: &Index, kind: DefinitionKind, name: Name) -> Option<u32>
    ensures { type_link_of result
        ≡ struct_field (definition_kind_of index.now.file.now index.now.words.now kind)
        (name_of index.now.file.now name) }
{
    match kind {
        DefinitionKind::Struct(fields) => field_type(index, fields, name),
        _ => None,
    }
}

// A T of a module, and the scope that it is resolved in.
#[derive(Clone, Copy)]
pub struct ScopedType {
    pub type_expr: u32,
    pub scope: FileScopeId,
}

// The T of a struct literal's field, in the literal's scope.
pub fn field_type_expr(
    index: &Index,
    m: u32,
    parent: ExpressionId,
    field: Name,
) -> Option<ScopedType>
    ensures { FieldTypeExpr index.now.file.now index.now.words.now m parent field result }
{
    let parent_info = records::expression_at(index.words, m, parent)?;
    let scope = parent_info.scope;
    let Expression::StructLiteral(name, span) = parent_info.node else {
        return None;
    };
    let d = semantic_index::resolve_name_at_position(index, m, name, scope, span)?;
    let definition = records::definition_at(index.words, m, d)?;
    let t = struct_field(index, definition.kind, field)?;
    Some(ScopedType {
        type_expr: t,
        scope,
    })
}

// ------------------------------------------------------------------ definitions behind a name

// A definition of another module: the module's number, and the definition's there.
#[derive(Clone, Copy)]
pub struct Imported {
    pub source: u32,
    pub definition: DefinitionIndex,
}

// The item of a `use`: it stands in the other module's root scope.
pub fn imported_definition(index: &Index, imported_module: Name, item: Name) -> Option<Imported>
    ensures { ImportedDefinition index.now.file.now index.now.words.now imported_module item result }
{
    let imported = semantic_index::module_by_name(index, imported_module)?;
    if !records::has_module(index.words, imported) {
        return None;
    }
    let imported_root = semantic_index::root_scope(index.words, imported)?;
    let d = semantic_index::latest_definition_index_by_name(index, imported, imported_root, item)?;
    Some(Imported {
        source: imported,
        definition: d,
    })
}

// The definition that an identifier records; else the name at its position.
// Tried: `or_else`. `returns` stays open where nothing is recorded: there the clause of `or_else` says of the closure's result nothing at all (`Unit`), so that
// the closure would have to say the promise of the search again.
pub fn identifier_definition(
    index: &Index,
    m: u32,
    definition: Option<DefinitionIndex>,
    scope: FileScopeId,
    span: Span,
    name: Name,
) -> Option<DefinitionIndex>
    ensures { IdentifierDefinition index.now.file.now index.now.words.now m definition scope span name result }
{
    match definition {
        Some(d) => Some(d),
        None => semantic_index::resolve_name_at_position(index, m, name, scope, span),
    }
}
