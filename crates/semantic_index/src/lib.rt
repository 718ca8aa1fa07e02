// The name lookups of semantic_index.rs, and the expression at a byte, over the record words. A module is given by its number, a name as a part of the file.
#![tactic(auto)]

pub mod builtins;
pub mod names;

ghost use Rattle.std.specs.Prelude.{◌≡◌, ℕ, ◌+◌, List};
ghost use Rattle.model.specs.Lookups.{parent, without_parent, root_scope, module_by_name, named};
ghost use Rattle.model.specs.Lookups.{latest_definition_index_by_name, latest_definition_index_by_name_in_chain};
ghost use Rattle.model.specs.Lookups.{expression_at, is_top_level_allowed, let_value, covered};
ghost use Rattle.model.specs.Lookups.{in_let_initializer, in_order, visible_at, named_and_visible};
ghost use Rattle.model.specs.Lookups.{latest_visible_by_name, resolve_name_at_position};
ghost use Rattle.model.specs.Lookups.{definition_for_identifier_expr, expression_at_position};
ghost use Rattle.model.specs.Lookups.{is_function, first_function_around};
ghost use Rattle.model.specs.AtPosition.{turn};
ghost use Rattle.records.specs.Layout.{scope_row, definition_row, expression_row, module_row, index_of};
ghost use Rattle.records.specs.Meaning.{name_of, scope_link_of, definition_link_of, expression_link_of};
ghost use Rattle.records.specs.Meaning.{definition_of, definition_kind_of};
ghost use Rattle.semantic_index.specs.Meaning.{best_of, FirstInChain};

use records::{
    Definition, DefinitionIndex, DefinitionKind, ExpressionId, FileScopeId, Index, Name, RowKind,
    Span,
};

// ------------------------------------------------------------------ scopes

// The parent of a scope.
pub fn parent_scope(words: &[u32], m: u32, s: FileScopeId) -> Option<FileScopeId>
    ensures { (file : List ℕ) → scope_link_of result ≡ parent (module_row file words.now m) s.0 }
{
    let scope = records::scope_at(words, m, s)?;
    scope.parent
}

// Whether a scope of the module, whose scopes begin at row `first`, has no parent.
fn is_root(words: &[u32], first: u32, s: u32) -> bool
    ensures { result ≡ without_parent (scope_row words.now (first + s)) }
{
    let scope = records::scope_row(words, first, s);
    scope.parent.is_none()
}

// The first scope without a parent.
pub fn root_scope(words: &[u32], m: u32) -> Option<FileScopeId>
    ensures { (file : List ℕ) → scope_link_of result ≡ root_scope (module_row file words.now m) }
{
    let rows = records::rows_of(words, m, RowKind::Scope);
    (0..rows.count)
        .find(|s| is_root(words, rows.first, *s))
        .map(FileScopeId)
}

// ------------------------------------------------------------------ modules

// The module of that name; names differ.
pub fn module_by_name(index: &Index, name: Name) -> Option<u32>
    ensures { result
        ≡ module_by_name (index_of index.now.file.now index.now.words.now) (name_of index.now.file.now name) }
{
    (0..records::module_count(index.words)).find(|m| {
        names::same_name(index.file, records::module_name(index.words, *m), name)
    })
}

// ------------------------------------------------------------------ definitions by name

// Whether definition `d` of a module, whose definitions begin at row `first`, is one of the name in the scope.
fn is_named(index: &Index, first: u32, d: u32, s: FileScopeId, name: Name) -> bool
    ensures { result
        ≡ named s.0 (name_of index.now.file.now name)
        (definition_row index.now.file.now index.now.words.now (first + d)) }
{
    records::definition_scope(index.words, first, d) == s
        && names::same_name(
            index.file,
            records::definition_name(index.words, first, d),
            name,
        )
}

// The scope's last definition of the name.
pub fn latest_definition_index_by_name(
    index: &Index,
    m: u32,
    s: FileScopeId,
    name: Name,
) -> Option<DefinitionIndex>
    ensures { definition_link_of result
        ≡ latest_definition_index_by_name (module_row index.now.file.now index.now.words.now m) s.0
        (name_of index.now.file.now name) }
{
    let rows = records::rows_of(index.words, m, RowKind::Definition);
    (0..rows.count)
        .rev()
        .find(|d| is_named(index, rows.first, *d, s, name))
        .map(DefinitionIndex)
}

// What `find` finds in the first scope of the chain in which it finds something, going up the parents. A parent has a lower number, so s + 1 scopes are
// enough.
fn first_in_chain<F: Fn(FileScopeId) -> Option<DefinitionIndex>>(
    words: &[u32],
    m: u32,
    s: FileScopeId,
    find: F,
) -> Option<DefinitionIndex>
    requires { F.IsAlwaysCallable find }
    ensures { FirstInChain (F.post find) words.now m s result }
{
    let mut current = s;
    let enough = (s.0 as usize) + 1;
    for _ in 0..enough {
        if let Some(d) = find(current) {
            return Some(d);
        }
        current = parent_scope(words, m, current)?;
    }
    None
}

// The scope's last definition of the name, or that of the first scope of the chain that has one.
pub fn latest_definition_index_by_name_in_chain(
    index: &Index,
    m: u32,
    s: FileScopeId,
    name: Name,
) -> Option<DefinitionIndex>
    ensures { definition_link_of result
        ≡ latest_definition_index_by_name_in_chain (module_row index.now.file.now index.now.words.now m) s.0
        (name_of index.now.file.now name) }
{
    first_in_chain(
        index.words,
        m,
        s,
        |scope| latest_definition_index_by_name(index, m, scope, name),
    )
}

// ------------------------------------------------------------------ definitions by name and position

// A definition of this kind may stand behind its use.
fn is_top_level_allowed(kind: DefinitionKind) -> bool
    ensures { (file words : List ℕ) → result ≡ is_top_level_allowed (definition_kind_of file words kind) }
{
    matches!(
        kind,
        DefinitionKind::Function(_, _) | DefinitionKind::Struct(_) | DefinitionKind::Use(_, _)
    )
}

// The value of a let.
fn let_value(kind: DefinitionKind) -> Option<ExpressionId>
    ensures { (file words : List ℕ) → expression_link_of result ≡ let_value (definition_kind_of file words kind) }
{
    match kind {
        DefinitionKind::Let(_, e, _, _) => e,
        _ => None,
    }
}

// Whether the span lies within the expression's.
fn covers(words: &[u32], m: u32, e: ExpressionId, span: Span) -> bool
    ensures { (file : List ℕ) → result
        ≡ covered (expression_at (module_row file words.now m) e.0) span.start span.end }
{
    records::expression_at(words, m, e).is_some_and(|init| init.span.contains(span))
}

// Whether the span lies within the initializer of this let.
fn in_let_initializer(words: &[u32], m: u32, definition: Definition, span: Span) -> bool
    ensures { (file : List ℕ) → result
        ≡ in_let_initializer (module_row file words.now m)
        (definition_of file words.now definition) span.start span.end }
{
    let_value(definition.kind).is_some_and(|e| covers(words, m, e, span))
}

// Whether the definition may stand behind its use, or stands before it.
fn in_order(definition: Definition, start: u32) -> bool
    ensures { (file words : List ℕ) → result ≡ in_order (definition_of file words definition) start }
{
    is_top_level_allowed(definition.kind) || definition.full_span.start <= start
}

// Whether the definition may be meant by its name at the span.
fn visible_at(words: &[u32], m: u32, definition: Definition, span: Span) -> bool
    ensures { (file : List ℕ) → result
        ≡ visible_at (module_row file words.now m)
        (definition_of file words.now definition) span.start span.end }
{
    in_order(definition, span.start) && !in_let_initializer(words, m, definition, span)
}

// Whether a definition of the module is one of the name in the scope, and visible at the span.
fn is_named_and_visible(
    index: &Index,
    m: u32,
    first: u32,
    d: u32,
    s: FileScopeId,
    name: Name,
    span: Span,
) -> bool
    ensures { result
        ≡ named_and_visible (module_row index.now.file.now index.now.words.now m) s.0
        (name_of index.now.file.now name) span.start span.end
        (definition_row index.now.file.now index.now.words.now (first + d)) }
{
    is_named(index, first, d, s, name)
        && visible_at(
            index.words,
            m,
            records::definition_row(index.words, first, d),
            span,
        )
}

// One turn of `resolve_name_at_position`: the scope's last definition of the name that is visible at the span. What it shares with
// `latest_definition_index_by_name` is std's search.
fn latest_visible_by_name(
    index: &Index,
    m: u32,
    s: FileScopeId,
    name: Name,
    span: Span,
) -> Option<DefinitionIndex>
    ensures { definition_link_of result
        ≡ latest_visible_by_name (module_row index.now.file.now index.now.words.now m) s.0
        (name_of index.now.file.now name) span.start span.end }
{
    let rows = records::rows_of(index.words, m, RowKind::Definition);
    (0..rows.count)
        .rev()
        .find(|d| is_named_and_visible(index, m, rows.first, *d, s, name, span))
        .map(DefinitionIndex)
}

// The definition of the name that is visible at the span: the last one of the first scope of the chain that has one.
pub fn resolve_name_at_position(
    index: &Index,
    m: u32,
    name: Name,
    s: FileScopeId,
    span: Span,
) -> Option<DefinitionIndex>
    ensures { definition_link_of result
        ≡ resolve_name_at_position (module_row index.now.file.now index.now.words.now m)
        (name_of index.now.file.now name) s.0 span.start span.end }
{
    first_in_chain(
        index.words,
        m,
        s,
        |scope| latest_visible_by_name(index, m, scope, name, span),
    )
}

// The recorded link.
pub fn definition_for_identifier_expr(
    words: &[u32],
    m: u32,
    e: ExpressionId,
) -> Option<DefinitionIndex>
    ensures { (file : List ℕ) → definition_link_of result
        ≡ definition_for_identifier_expr (module_row file words.now m) e.0 }
{
    let expression = records::expression_at(words, m, e)?;
    expression.definition
}

// ------------------------------------------------------------------ the expression at a byte

// The best expression so far: its number, and the length of its span.
#[derive(Clone, Copy)]
struct Best {
    number: u32,
    length: u32,
}

// The best with one expression more, of a module whose expressions begin at row `first`: it takes the place of the best if it covers the byte and is not longer.
fn shortest_with(
    words: &[u32],
    first: u32,
    e: u32,
    position: u32,
    best: Option<Best>,
) -> Option<Best>
    ensures { (file : List ℕ) → best_of result
        ≡ turn position e (best_of best) (expression_row file words.now (first + e)) }
{
    let start = records::expression_start(words, first, e);
    if position < start {
        return best;
    }
    let end = records::expression_end(words, first, e);
    if end <= position {
        return best;
    }
    let length = end - start;
    if best.is_some_and(|least| least.length < length) {
        return best;
    }
    Some(Best { number: e, length })
}

// The shortest expression of the module that covers the byte, of equally short ones that with the highest number.
pub fn expression_at_position(words: &[u32], m: u32, position: u32) -> Option<ExpressionId>
    ensures { (file : List ℕ) → expression_link_of result
        ≡ expression_at_position (module_row file words.now m) position }
{
    let rows = records::rows_of(words, m, RowKind::Expression);
    (0..rows.count)
        .fold(
            None,
            |best, e| shortest_with(words, rows.first, e, position, best),
        )
        .map(|found| ExpressionId(found.number))
}

// ------------------------------------------------------------------ the function of a `return`

// (`matches!`, here and in `is_top_level_allowed`, is the definition's test.)
fn is_function(kind: DefinitionKind) -> bool
    ensures { (file words : List ℕ) → result ≡ is_function (definition_kind_of file words kind) }
{
    matches!(kind, DefinitionKind::Function(_, _))
}

// Whether a definition of the module, whose definitions begin at row `first`, is a function.
fn is_function_row(words: &[u32], first: u32, d: u32) -> bool
    ensures { (file : List ℕ) → result ≡ is_function (definition_row file words.now (first + d)).kind }
{
    let definition = records::definition_row(words, first, d);
    let kind = definition.kind;
    is_function(kind)
}

// The first function definition whose scope is the given one or an ancestor. Two loops, of which the inner one goes up the ancestors and the outer one is
// left by its label at the first fit: document 01 names this form (docs/ARCHITECTURE, "The form of each place").
pub fn first_function_around(words: &[u32], m: u32, s: FileScopeId) -> Option<DefinitionIndex>
    ensures { (file : List ℕ) → definition_link_of result
        ≡ first_function_around (module_row file words.now m) s.0 }
{
    let rows = records::rows_of(words, m, RowKind::Definition);
    let first = rows.first;
    let count = rows.count;
    let enough = (s.0 as usize) + 1;
    let mut found = None;
    'definitions: for d in 0..count {
        if is_function_row(words, first, d) {
            let scope = records::definition_scope(words, first, d);
            let mut at = s;
            for _ in 0..enough {
                if scope == at {
                    found = Some(DefinitionIndex(d));
                    break 'definitions;
                }
                let Some(p) = parent_scope(words, m, at) else {
                    break;
                };
                at = p;
            }
        }
    }
    found
}
