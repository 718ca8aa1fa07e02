// Whether the links of the rows of a loaded index lead to records. What each kind of row must keep is in format's specs/LinkCheck.antt.
#![tactic(auto)]

ghost use Rattle.std.specs.Prelude.{◌≡◌, ℕ, ◌+◌, not, List, ◌++◌, map, option_map};
ghost use Rattle.model.specs.Common.{first};
ghost use Rattle.model.specs.Records as model;
ghost use Rattle.model.specs.Links.{link, links, definition_types, definition_expressions};
ghost use Rattle.model.specs.Links.{origin_expressions, node_expressions, node_types};
ghost use Rattle.format.specs.LinkCheck.{all_below, scope_linked, type_linked, definition_linked};
ghost use Rattle.format.specs.LinkCheck.{expression_linked, question_linked, map_from, module_lines};
ghost use Rattle.records.specs.Layout.{scope_row, type_expr_row, definition_row, expression_row, question_row};
ghost use Rattle.records.specs.Layout.{module_row, index_of};
ghost use Rattle.records.specs.Meaning.{numbers_of, links_of, type_link_of, definition_link_of, expression_link_of};
ghost use Rattle.records.specs.Meaning.{definition_kind_of, origin_of, expression_of};
ghost use Rattle.links.specs.Promises.{LineCount};

use records::{
    DefinitionKind, Expression, ExpressionId, FileScopeId, Items, Origin, Question, RecordNumber,
    RowKind, TypeExpr,
};

// ------------------------------------------------------------------ links below a number of records

// Each number of the list is below `n`.
fn numbers_below(words: &[u32], items: Items, n: u32) -> bool
    ensures { result ≡ all_below n (numbers_of words.now items) }
{
    (0..items.count).all(|i| records::item_value(words, items.first, i) < n)
}

// A link that is there is below `n`.
fn link_below<R: RecordNumber>(to: Option<R>, n: u32) -> bool
    ensures { result ≡ all_below n (link (option_map R.number to)) }
{
    to.is_none_or(|k| k.get() < n)
}

// Each of two links that is there is below `n`.
fn both_below(a: Option<ExpressionId>, b: Option<ExpressionId>, n: u32) -> bool
    ensures { result ≡ all_below n (link (expression_link_of a) ++ link (expression_link_of b)) }
{
    link_below(a, n) && link_below(b, n)
}

// Each link of the list that is there is below `n`.
fn links_below(words: &[u32], items: Items, n: u32) -> bool
    ensures { result ≡ all_below n (links (links_of words.now items)) }
{
    (0..items.count).all(|i| link_below(records::item_link(words, items.first, i), n))
}

// ------------------------------------------------------------------ scopes and type expressions

// Scope 0 has no parent, and the parent of another has a lower number. The module's scopes begin at row `begin`.
fn scope_linked(words: &[u32], begin: u32, s: u32) -> bool
    ensures { result ≡ scope_linked s (scope_row words.now (begin + s)) }
{
    let scope = records::scope_row(words, begin, s);
    scope.parent.map_or(s == 0, |p| p.0 < s)
}

// Each T that a T names is an earlier one: its number is below the own number `t`. (Cases without a link are each named here and below, so that a new one isn't let
// through.)
fn type_linked(words: &[u32], begin: u32, t: u32) -> bool
    ensures { (file : List ℕ) → result
        ≡ type_linked t (type_expr_row file words.now (begin + t)) }
{
    match records::type_expr_row(words, begin, t) {
        TypeExpr::Felt => true,
        TypeExpr::Bool => true,
        TypeExpr::U32 => true,
        TypeExpr::Custom(_) => true,
        TypeExpr::Pointer(to) => to < t,
        TypeExpr::Tuple(members) => numbers_below(words, members, t),
        TypeExpr::FixedArray(of, _) => of < t,
    }
}

// ------------------------------------------------------------------ definitions

// Each T that a definition of this kind names is below `n`.
fn definition_types_below(words: &[u32], kind: DefinitionKind, n: u32) -> bool
    ensures { (file : List ℕ) → result
        ≡ all_below n (definition_types (definition_kind_of file words.now kind)) }
{
    match kind {
        DefinitionKind::Function(t, params) => t < n && numbers_below(words, params, n),
        DefinitionKind::Struct(fields) => numbers_below(words, fields, n),
        DefinitionKind::Const(t, _) => link_below(t, n),
        DefinitionKind::Let(t, _, _, _) => link_below(t, n),
        DefinitionKind::Parameter(t) => t < n,
        DefinitionKind::Use(_, _) => true,
        DefinitionKind::LoopVariable => true,
    }
}

// Each E that a definition of this kind names is below `n`.
fn definition_expressions_below(kind: DefinitionKind, n: u32) -> bool
    ensures { (file words : List ℕ) → result
        ≡ all_below n (definition_expressions (definition_kind_of file words kind)) }
{
    match kind {
        DefinitionKind::Function(_, _) => true,
        DefinitionKind::Struct(_) => true,
        DefinitionKind::Const(_, e) => link_below(e, n),
        DefinitionKind::Let(_, e, v, _) => both_below(e, v, n),
        DefinitionKind::Parameter(_) => true,
        DefinitionKind::Use(_, _) => true,
        DefinitionKind::LoopVariable => true,
    }
}

// The links of definition `d` of a module, whose definitions begin at row `begin`, are below the module's counts.
fn definition_linked(words: &[u32], m: u32, begin: u32, d: u32) -> bool
    ensures { (file : List ℕ) → result
        ≡ definition_linked (module_row file words.now m)
        (definition_row file words.now (begin + d)) }
{
    let scopes = records::scope_count(words, m);
    let types = records::type_expr_count(words, m);
    let expressions = records::expression_count(words, m);
    let definition = records::definition_row(words, begin, d);
    definition.scope.0 < scopes
        && definition_types_below(words, definition.kind, types)
        && definition_expressions_below(definition.kind, expressions)
}

// ------------------------------------------------------------------ expressions

// The E that an origin names, if any, is below `n`.
fn origin_below(origin: Origin, n: u32) -> bool
    ensures { (file : List ℕ) → result ≡ all_below n (origin_expressions (origin_of file origin)) }
{
    match origin {
        Origin::Plain => true,
        Origin::StructField(parent, _) => parent.0 < n,
        Origin::Arg(callee, _) => callee.0 < n,
        Origin::AssignmentRhs(lhs) => lhs.0 < n,
        Origin::ReturnExpr => true,
        Origin::Condition => true,
    }
}

// Each E that a node names is below `n`.
fn node_expressions_below(words: &[u32], node: Expression, n: u32) -> bool
    ensures { (file : List ℕ) → result
        ≡ all_below n (node_expressions (expression_of file words.now node)) }
{
    match node {
        Expression::Literal(_) => true,
        Expression::BooleanLiteral => true,
        Expression::Identifier(_) => true,
        Expression::Unary(_, e) => link_below(e, n),
        Expression::Binary(_, left, right) => both_below(left, right, n),
        Expression::FunctionCall(callee, args) => link_below(callee, n)
            && links_below(words, args, n),
        Expression::MemberAccess(object, _) => link_below(object, n),
        Expression::IndexAccess(array, index) => both_below(array, index, n),
        Expression::StructLiteral(_, _) => true,
        Expression::Tuple(elements) => links_below(words, elements, n),
        Expression::TupleIndex(tuple, _) => link_below(tuple, n),
        Expression::ArrayLiteral(elements) => links_below(words, elements, n),
        Expression::ArrayRepeat(element, _) => link_below(element, n),
        Expression::Cast(_) => true,
        Expression::New(_, count) => link_below(count, n),
        Expression::Parenthesized(inner) => link_below(inner, n),
    }
}

// The T that a node names, if any, is below `n`.
fn node_types_below(node: Expression, n: u32) -> bool
    ensures { (file words : List ℕ) → result ≡ all_below n (node_types (expression_of file words node)) }
{
    match node {
        Expression::Cast(t) => t < n,
        Expression::New(t, _) => t < n,
        _ => true,
    }
}

// Each T that an expression names is below `n`: the expected one and its node's.
fn expression_types_below(expected: Option<u32>, node: Expression, n: u32) -> bool
    ensures { (file words : List ℕ) → result
        ≡ all_below n (link (type_link_of expected) ++ node_types (expression_of file words node)) }
{
    link_below(expected, n) && node_types_below(node, n)
}

// Each E that an expression names is below `n`: its origin's and its node's.
fn expression_expressions_below(words: &[u32], origin: Origin, node: Expression, n: u32) -> bool
    ensures { (file : List ℕ) → result
        ≡ all_below n (origin_expressions (origin_of file origin)
        ++ node_expressions (expression_of file words.now node)) }
{
    origin_below(origin, n) && node_expressions_below(words, node, n)
}

// The links of expression `e` of a module, whose expressions begin at row `begin`, are below the module's counts. (With `definition_linked` it shares the counts; the
// links are each record's own.)
fn expression_linked(words: &[u32], m: u32, begin: u32, e: u32) -> bool
    ensures { (file : List ℕ) → result
        ≡ expression_linked (module_row file words.now m)
        (expression_row file words.now (begin + e)) }
{
    let scopes = records::scope_count(words, m);
    let types = records::type_expr_count(words, m);
    let definitions = records::definition_count(words, m);
    let expressions = records::expression_count(words, m);
    let expression = records::expression_row(words, begin, e);
    expression.scope.0 < scopes
        && expression_types_below(expression.expected, expression.node, types)
        && link_below(expression.definition, definitions)
        && expression_expressions_below(words, expression.origin, expression.node, expressions)
}

// ------------------------------------------------------------------ questions

// The context of an `expr` question is a T of the module, if the module and the expression exist.
fn context_linked(words: &[u32], m: u32, e: ExpressionId, t: Option<u32>) -> bool
    ensures { (file : List ℕ) → result
        ≡ question_linked (index_of file words.now) (model.Question.expr m e.0 (type_link_of t)) }
{
    !records::has_module(words, m)
        || records::expression_count(words, m) <= e.0
        || link_below(t, records::type_expr_count(words, m))
}

// The T and the scope of a `type` question are the module's, if the module exists.
fn type_question_linked(words: &[u32], m: u32, t: u32, s: FileScopeId) -> bool
    ensures { (file : List ℕ) → result
        ≡ question_linked (index_of file words.now) (model.Question.type m t s.0) }
{
    !records::has_module(words, m)
        || (t < records::type_expr_count(words, m) && s.0 < records::scope_count(words, m))
}

// The links of question `q` lead.
fn question_linked(words: &[u32], q: u32) -> bool
    ensures { (file : List ℕ) → result
        ≡ question_linked (index_of file words.now) (question_row words.now q) }
{
    match records::question_row(words, q) {
        Question::Expr(m, e, t) => context_linked(words, m, e, t),
        Question::Def(_, _) => true,
        Question::Type(m, t, s) => type_question_linked(words, m, t, s),
        Question::At(_, _) => true,
    }
}

// ------------------------------------------------------------------ the first row of a kind whose links don't lead

// One function for each kind: each promise speaks of another list of the module, as that of records' `*_count` does.

// The module's first scope whose parent is not as it must be.
fn scope_fault(words: &[u32], m: u32) -> Option<u32>
    ensures { (file : List ℕ) → result
        ≡ first not (map_from scope_linked 0 (module_row file words.now m).scopes) }
{
    let rows = records::rows_of(words, m, RowKind::Scope);
    (0..rows.count).find(|s| !scope_linked(words, rows.first, *s))
}

// The module's first T that names one which is not earlier.
fn type_fault(words: &[u32], m: u32) -> Option<u32>
    ensures { (file : List ℕ) → result
        ≡ first not (map_from type_linked 0 (module_row file words.now m).types) }
{
    let rows = records::rows_of(words, m, RowKind::TypeExpr);
    (0..rows.count).find(|t| !type_linked(words, rows.first, *t))
}

// The module's first D with a link to no record of the module.
fn definition_fault(words: &[u32], m: u32) -> Option<u32>
    ensures { (file : List ℕ) → result
        ≡ first not (map (definition_linked (module_row file words.now m))
        (module_row file words.now m).definitions) }
{
    let rows = records::rows_of(words, m, RowKind::Definition);
    (0..rows.count).find(|d| !definition_linked(words, m, rows.first, *d))
}

// The module's first E with a link to no record of the module.
fn expression_fault(words: &[u32], m: u32) -> Option<u32>
    ensures { (file : List ℕ) → result
        ≡ first not (map (expression_linked (module_row file words.now m))
        (module_row file words.now m).expressions) }
{
    let rows = records::rows_of(words, m, RowKind::Expression);
    (0..rows.count).find(|e| !expression_linked(words, m, rows.first, *e))
}

// The number of the first question whose links don't lead.
pub fn question_fault(words: &[u32]) -> Option<usize>
    ensures { (file : List ℕ) → result
        ≡ first not (map (question_linked (index_of file words.now))
        (index_of file words.now).questions) }
{
    let count = records::question_count(words);
    (0..count)
        .find(|q| !question_linked(words, *q))
        .map(|q| q as usize)
}

// ------------------------------------------------------------------ the lines of a module

// How many lines a module has: its own, and one for each of its rows.
pub fn line_count(words: &[u32], m: u32) -> usize
    ensures { LineCount words.now m result }
{
    let scopes = records::scope_count(words, m);
    let types = records::type_expr_count(words, m);
    let definitions = records::definition_count(words, m);
    let expressions = records::expression_count(words, m);
    1 + (scopes as usize) + (types as usize) + (definitions as usize) + (expressions as usize)
}

// The place of the module's first line whose links don't lead. Line 0 is the module's own: a module has a scope.
// The lines of its S, T, D and E follow in this order. (A kind's count is read only where those before it lead: so no chain over a list of the four.)
pub fn module_fault(words: &[u32], m: u32) -> Option<usize>
    ensures { (file : List ℕ) → result
        ≡ first not (module_lines (module_row file words.now m)) }
{
    let scopes = records::scope_count(words, m);
    if scopes == 0 {
        return Some(0);
    }
    if let Some(s) = scope_fault(words, m) {
        return Some(1 + (s as usize));
    }
    let types_at = 1 + (scopes as usize);
    if let Some(t) = type_fault(words, m) {
        return Some(types_at + (t as usize));
    }
    let types = records::type_expr_count(words, m);
    let definitions_at = types_at + (types as usize);
    if let Some(d) = definition_fault(words, m) {
        return Some(definitions_at + (d as usize));
    }
    let definitions = records::definition_count(words, m);
    let expressions_at = definitions_at + (definitions as usize);
    if let Some(e) = expression_fault(words, m) {
        return Some(expressions_at + (e as usize));
    }
    None
}
