// The five tracked functions of type_resolution.rs, over the record words, the table of types and the list of open demands.
// They call each other in a cycle; each of the five opens its demand first, so the number of free places falls.
// They are `resolve_ast_type`, `definition_semantic_type`, `struct_semantic_data`, `function_semantic_signature` and `expression_semantic_type` there. Here
// they are `ast_type`, `def_type`, `struct_data`, `fn_signature` and `expr_type`: short, since every goal of the cycle begins with the name of its
// member. A helper for one kind of node has that node's keyword in the index file (`lit`, `un`, `bin`, `call`, `member`, `index`, `tuple`, `tidx`,
// `arr`, `rep`, `new`), one for a type expression likewise (`tup`, since `tuple` is the node's, and `array`).
// Each member is given the index, the two lent buffers, how many demands are open, and the module. The buffers are two parameters and no struct of two
// `&mut` fields: behind a `&mut` of such a struct a shared reborrow of a field leaves nothing known of what the field holds but its length, so the
// promises of the reads (`type_table`) would say nothing of the words that are changed next. The module stands in no struct with the index either: a
// `use` leads into another module of the same index, and each demand names its module by number.
// All is one file, since the members are one cycle and proved together: in modules each goal's name would begin with its member's module as well, and
// no member would know less of the others.
// `depth` goes by value: a member hands on how many are open with its own demand, so that a return closes that demand by itself. A module and a definition are
// `home` and `definition` where a type holds them (`type_table`), and `m` and `d` where they are asked for, as in the definition's demands. An array of 2,048 words
// with a count beside it stands for a list: there is no heap, and no file has more items.
#![tactic(auto)]

ghost use Rattle.std.specs.Prelude.{◌≡◌, ◌+◌, ◌≤◌, ◌<◌, Some, length};
ghost use Rattle.records.specs.Layout.{index_of, module_row};
ghost use Rattle.records.specs.Meaning.{name_of, numbers_of, links_of, names_with_types_of, type_expr_of, definition_kind_of, type_link_of, expression_link_of, definition_link_of, suffix_of, expression_of, info_of, unary_op_of, binary_op_of};
ghost use Rattle.resolution.specs.Programs.{Demand, ask, done};
ghost use Rattle.resolution.specs.TypeResolution.{resolve_all, infer_only, infer_arguments, infer_elements, all_same_type, array_type, type_expr_type, definition_kind_type, context_expected, node_type, new_type, unary_type, binary_type, member_type, call_type, index_type, tuple_type, tuple_index_type, expression_in_context, asked_program};
ghost use Rattle.type_table.specs.Layout.{item_count, types_of};
ghost use Rattle.type_resolution.specs.State.{ReadyIn, RunsIn, typed, linked, ignored, collected, compared, Exactly, AtMost};
ghost use Rattle.views.specs.Asking.{asked_of};
ghost use Rattle.type_resolution.specs.Asking.{says, said_type};
ghost use Rattle.type_resolution.specs.Shapes.{struct_named, declared_type, tuple_expr_type, struct_type, signature_type, literal_in, array_literal_in, empty_array_in, repeat_in, links_behind, ShortType, ShortNode};
ghost use Rattle.type_resolution.specs.Leaves.{TypeIn, DefinitionIn, ExpressionIn, Passed, Returned, NumericOr, HintBelow};

use demands::{OpenDemand, Place};
use records::{
    BinaryOp, Definition, DefinitionIndex, DefinitionKind, Expression, ExpressionId,
    ExpressionInfo, FileScopeId, Index, Items, Name, Origin, TypeExpr, UnaryOp,
};
use refusals::Refusal;
use type_table::{TypeList, Types};
use views::Asked;

// ------------------------------------------------------------------ reads

// A record of a module, none where there is no such module. A function for each kind: each is one test and one read of `records`, which the check
// proves by itself, and one function that took the read as a closure would be no plainer, with a promise and answers of its own.
fn type_in(words: &[u32], m: u32, t: u32) -> Option<TypeExpr>
    ensures { TypeIn words.now m t result }
{
    if records::has_module(words, m) {
        records::type_expr_at(words, m, t)
    } else {
        None
    }
}

fn definition_in(words: &[u32], m: u32, d: DefinitionIndex) -> Option<Definition>
    ensures { DefinitionIn words.now m d.0 result }
{
    if records::has_module(words, m) {
        records::definition_at(words, m, d)
    } else {
        None
    }
}

fn expression_in(words: &[u32], m: u32, e: ExpressionId) -> Option<ExpressionInfo>
    ensures { ExpressionIn words.now m e.0 result }
{
    if records::has_module(words, m) {
        records::expression_at(words, m, e)
    } else {
        None
    }
}

// ------------------------------------------------------------------ results

// The parameter of a signature.
fn passed(types: &[u32], signature: Option<u32>, i: u32) -> Option<u32>
    ensures { Passed types.now signature i result }
{
    let t = signature?;
    type_table::param_type(types, t, i)
}

// The return type of a signature.
fn returned(types: &[u32], signature: Option<u32>) -> Option<u32>
    ensures { Returned types.now signature result }
{
    let t = signature?;
    type_table::return_type(types, t)
}

// The type itself if it is u32 or felt, else what the context gives.
fn numeric_or(types: &[u32], t: u32, context: Option<u32>) -> u32
    ensures { NumericOr types.now t context result }
{
    type_table::numeric(types, t).unwrap_or_else(|| type_table::numeric_context(types, context))
}

// ------------------------------------------------------------------ resolve_ast_type

// `resolve_ast_type`.
#[cycle(resolution)]
fn ast_type(
    index: &Index,
    types: &mut [u32],
    demands: &mut [Place],
    depth: usize,
    m: u32,
    t: u32,
    s: FileScopeId,
) -> Result<u32, Refusal>
    requires { ReadyIn index.now depth types.old demands.old }
    ensures { RunsIn typed index.now (ask (Demand.type m t s.0) done) depth types.old demands.old types.new demands.new result }
{
    let next = demands::enter(demands, depth, OpenDemand::Type(m, t, s))?;
    let Some(x) = type_in(index.words, m, t) else {
        return Ok(type_table::ERROR);
    };
    ty(index, types, demands, next, m, s, x)
}

// A type expression by its kind.
#[cycle(resolution)]
fn ty(
    index: &Index,
    types: &mut [u32],
    demands: &mut [Place],
    depth: usize,
    m: u32,
    s: FileScopeId,
    x: TypeExpr,
) -> Result<u32, Refusal>
    requires ready { ReadyIn index.now depth types.old demands.old }
    requires short_type { ShortType x }
    ensures { RunsIn typed index.now (type_expr_type m (module_row index.now.file.now index.now.words.now m) s.0 (type_expr_of index.now.file.now index.now.words.now x)) depth types.old demands.old types.new demands.new result }
{
    match x {
        TypeExpr::Felt => Ok(type_table::FELT),
        TypeExpr::Bool => Ok(type_table::BOOL),
        TypeExpr::U32 => Ok(type_table::U32),
        TypeExpr::Custom(name) => {
            let found = semantic_index::latest_definition_index_by_name_in_chain(index, m, s, name);
            named(index, types, demands, depth, m, found)
        }
        TypeExpr::Pointer(t) => {
            let element = ast_type(index, types, demands, depth, m, t, s)?;
            type_table::intern_pointer(index.file, types, element)
        }
        TypeExpr::Tuple(list) => tup(index, types, demands, depth, m, s, list),
        TypeExpr::FixedArray(t, size) => array(index, types, demands, depth, m, s, t, size),
    }
}

// The type of a definition that a name led to, where it is a struct; else error.
#[cycle(resolution)]
fn named(
    index: &Index,
    types: &mut [u32],
    demands: &mut [Place],
    depth: usize,
    m: u32,
    found: Option<DefinitionIndex>,
) -> Result<u32, Refusal>
    requires { ReadyIn index.now depth types.old demands.old }
    ensures { RunsIn typed index.now (struct_named m (definition_link_of found)) depth types.old demands.old types.new demands.new result }
{
    let Some(d) = found else {
        return Ok(type_table::ERROR);
    };
    let t = def_type(index, types, demands, depth, m, d)?;
    Ok(type_table::struct_or_error(types, t))
}

// A tuple type.
#[cycle(resolution)]
fn tup(
    index: &Index,
    types: &mut [u32],
    demands: &mut [Place],
    depth: usize,
    m: u32,
    s: FileScopeId,
    list: Items,
) -> Result<u32, Refusal>
    requires ready { ReadyIn index.now depth types.old demands.old }
    requires count_bound { list.count ≤ 2048 }
    ensures { RunsIn typed index.now (tuple_expr_type m s.0 (numbers_of index.now.words.now list)) depth types.old demands.old types.new demands.new result }
{
    let mut elements = [0u32; 2048];
    let n = all(index, types, demands, depth, m, s, list, &mut elements)?;
    type_table::intern_tuple(index.file, types, &elements[..n])
}

// An array type; directly of arrays it is error.
#[cycle(resolution)]
fn array(
    index: &Index,
    types: &mut [u32],
    demands: &mut [Place],
    depth: usize,
    m: u32,
    s: FileScopeId,
    t: u32,
    size: u64,
) -> Result<u32, Refusal>
    requires { ReadyIn index.now depth types.old demands.old }
    ensures { RunsIn typed index.now (array_type m (module_row index.now.file.now index.now.words.now m) s.0 t size) depth types.old demands.old types.new demands.new result }
{
    if views::names_array_expr(index.words, m, t) {
        return Ok(type_table::ERROR);
    }
    let element = ast_type(index, types, demands, depth, m, t, s)?;
    if type_table::array_of(types, element).is_some() {
        return Ok(type_table::ERROR);
    }
    type_table::intern_array(index.file, types, element, size)
}

// Each T of a list, in the scope. A `for` over the places, here and in `args` and `same`, for the reason that stands at `elems`; and `first` and `count` are named,
// since a loop's facts are said of names.
#[cycle(resolution)]
fn all(
    index: &Index,
    types: &mut [u32],
    demands: &mut [Place],
    depth: usize,
    m: u32,
    s: FileScopeId,
    list: Items,
    out: &mut [u32],
) -> Result<usize, Refusal>
    requires ready { ReadyIn index.now depth types.old demands.old }
    requires count_in_bounds { list.count ≤ length out.old }
    ensures runs { RunsIn (collected out.new) index.now (resolve_all m s.0 (numbers_of index.now.words.now list)) depth types.old demands.old types.new demands.new result }
    ensures exactly { Exactly list.count result }
{
    let first = list.first;
    let count = list.count;
    for i in 0..count {
        let t = records::item_value(index.words, first, i);
        let x = ast_type(index, types, demands, depth, m, t, s)?;
        out[i as usize] = x;
    }
    Ok(count as usize)
}

// ------------------------------------------------------------------ definition_semantic_type

// `definition_semantic_type`.
#[cycle(resolution)]
fn def_type(
    index: &Index,
    types: &mut [u32],
    demands: &mut [Place],
    depth: usize,
    m: u32,
    d: DefinitionIndex,
) -> Result<u32, Refusal>
    requires { ReadyIn index.now depth types.old demands.old }
    ensures { RunsIn typed index.now (ask (Demand.definition m d.0) done) depth types.old demands.old types.new demands.new result }
{
    let next = demands::enter(demands, depth, OpenDemand::Definition(m, d))?;
    let Some(x) = definition_in(index.words, m, d) else {
        return Ok(type_table::ERROR);
    };
    def(index, types, demands, next, m, d, x.scope, x.kind)
}

// A definition by its kind. The arms are the definition's, one for each kind; a member of its own for one of them would be longer than the arm.
#[cycle(resolution)]
fn def(
    index: &Index,
    types: &mut [u32],
    demands: &mut [Place],
    depth: usize,
    m: u32,
    d: DefinitionIndex,
    s: FileScopeId,
    kind: DefinitionKind,
) -> Result<u32, Refusal>
    requires { ReadyIn index.now depth types.old demands.old }
    ensures { RunsIn typed index.now (definition_kind_type (index_of index.now.file.now index.now.words.now) m d.0 s.0 (definition_kind_of index.now.file.now index.now.words.now kind)) depth types.old demands.old types.new demands.new result }
{
    match kind {
        DefinitionKind::Function(_, _) => {
            let signature = fn_signature(index, types, demands, depth, m, d)?;
            Ok(signature.unwrap_or(type_table::ERROR))
        }
        DefinitionKind::Struct(_) => {
            let data = struct_data(index, types, demands, depth, m, d)?;
            Ok(data.unwrap_or(type_table::ERROR))
        }
        DefinitionKind::Const(t, e) => var(
            index,
            types,
            demands,
            depth,
            m,
            s,
            t,
            e,
            type_table::ERROR,
        ),
        DefinitionKind::Let(t, e, v, path) => {
            let Some(x) = v else {
                return var(
                    index,
                    types,
                    demands,
                    depth,
                    m,
                    s,
                    t,
                    e,
                    type_table::UNKNOWN,
                );
            };
            let current = expr_type(index, types, demands, depth, m, x, None)?;
            Ok(type_table::navigate(index.words, types, current, path))
        }
        DefinitionKind::Parameter(t) => ast_type(index, types, demands, depth, m, t, s),
        DefinitionKind::Use(home, item) => {
            let Some(imported) = views::imported_definition(index, home, item) else {
                return Ok(type_table::ERROR);
            };
            def_type(
                index,
                types,
                demands,
                depth,
                imported.source,
                imported.definition,
            )
        }
        DefinitionKind::LoopVariable => Ok(type_table::FELT),
    }
}

// The type of a const or a let: its T, else its value's, else the given one.
#[cycle(resolution)]
fn var(
    index: &Index,
    types: &mut [u32],
    demands: &mut [Place],
    depth: usize,
    m: u32,
    s: FileScopeId,
    t: Option<u32>,
    e: Option<ExpressionId>,
    otherwise: u32,
) -> Result<u32, Refusal>
    requires { ReadyIn index.now depth types.old demands.old }
    ensures { RunsIn typed index.now (declared_type m s.0 (type_link_of t) (expression_link_of e) otherwise) depth types.old demands.old types.new demands.new result }
{
    if let Some(x) = t {
        return ast_type(index, types, demands, depth, m, x, s);
    }
    let Some(y) = e else {
        return Ok(otherwise);
    };
    expr_type(index, types, demands, depth, m, y, None)
}

// ------------------------------------------------------------------ struct_semantic_data, function_semantic_signature

// `struct_semantic_data`.
#[cycle(resolution)]
fn struct_data(
    index: &Index,
    types: &mut [u32],
    demands: &mut [Place],
    depth: usize,
    m: u32,
    d: DefinitionIndex,
) -> Result<Option<u32>, Refusal>
    requires { ReadyIn index.now depth types.old demands.old }
    ensures { RunsIn linked index.now (ask (Demand.struct m d.0) done) depth types.old demands.old types.new demands.new result }
{
    let next = demands::enter(demands, depth, OpenDemand::Struct(m, d))?;
    let Some(x) = definition_in(index.words, m, d) else {
        return Ok(None);
    };
    let DefinitionKind::Struct(list) = x.kind else {
        return Ok(None);
    };
    fields(index, types, demands, next, m, d, x.scope, list)
}

// A struct's fields, and its type.
#[cycle(resolution)]
fn fields(
    index: &Index,
    types: &mut [u32],
    demands: &mut [Place],
    depth: usize,
    m: u32,
    d: DefinitionIndex,
    s: FileScopeId,
    list: Items,
) -> Result<Option<u32>, Refusal>
    requires ready { ReadyIn index.now depth types.old demands.old }
    requires count_bound { list.count ≤ 2048 }
    ensures { RunsIn linked index.now (struct_type m d.0 s.0 (names_with_types_of index.now.file.now index.now.words.now list)) depth types.old demands.old types.new demands.new result }
{
    let mut elements = [0u32; 2048];
    let n = all(index, types, demands, depth, m, s, list, &mut elements)?;
    let t = type_table::intern_struct(index, types, m, d.0, list, &elements[..n])?;
    Ok(Some(t))
}

// `function_semantic_signature`. It is alike with `struct_data` and stays beside it: they are two of the five tracked functions, each with a demand, a kind
// and a member for the parts of its own, so that one function for both would be given all three and promise by cases.
#[cycle(resolution)]
fn fn_signature(
    index: &Index,
    types: &mut [u32],
    demands: &mut [Place],
    depth: usize,
    m: u32,
    d: DefinitionIndex,
) -> Result<Option<u32>, Refusal>
    requires { ReadyIn index.now depth types.old demands.old }
    ensures { RunsIn linked index.now (ask (Demand.signature m d.0) done) depth types.old demands.old types.new demands.new result }
{
    let next = demands::enter(demands, depth, OpenDemand::Signature(m, d))?;
    let Some(x) = definition_in(index.words, m, d) else {
        return Ok(None);
    };
    let DefinitionKind::Function(t, list) = x.kind else {
        return Ok(None);
    };
    sig(index, types, demands, next, m, d, x.scope, t, list)
}

// A function's parameters, then its return type, and its type.
#[cycle(resolution)]
fn sig(
    index: &Index,
    types: &mut [u32],
    demands: &mut [Place],
    depth: usize,
    m: u32,
    d: DefinitionIndex,
    s: FileScopeId,
    t: u32,
    list: Items,
) -> Result<Option<u32>, Refusal>
    requires ready { ReadyIn index.now depth types.old demands.old }
    requires count_bound { list.count ≤ 2048 }
    ensures { RunsIn linked index.now (signature_type m d.0 s.0 t (names_with_types_of index.now.file.now index.now.words.now list)) depth types.old demands.old types.new demands.new result }
{
    let mut params = [0u32; 2048];
    let n = all(index, types, demands, depth, m, s, list, &mut params)?;
    let x = ast_type(index, types, demands, depth, m, t, s)?;
    let f = type_table::intern_function(index.file, types, m, d.0, &params[..n], x)?;
    Ok(Some(f))
}

// ------------------------------------------------------------------ expression_semantic_type

// `expression_semantic_type`.
#[cycle(resolution)]
fn expr_type(
    index: &Index,
    types: &mut [u32],
    demands: &mut [Place],
    depth: usize,
    m: u32,
    e: ExpressionId,
    context: Option<u32>,
) -> Result<u32, Refusal>
    requires { ReadyIn index.now depth types.old demands.old }
    ensures { RunsIn typed index.now (ask (Demand.expression m e.0 context) done) depth types.old demands.old types.new demands.new result }
{
    let next = demands::enter(demands, depth, OpenDemand::Expression(m, e, context))?;
    let Some(info) = expression_in(index.words, m, e) else {
        return Ok(type_table::ERROR);
    };
    let expected = origin(index, types, demands, next, m, info, context)?;
    node(index, types, demands, next, m, info, expected)
}

// The expected type: a given context overrides the origin. The arms are the definition's, one for each origin; a member of its own
// for one of them would be longer than the arm.
#[cycle(resolution)]
fn origin(
    index: &Index,
    types: &mut [u32],
    demands: &mut [Place],
    depth: usize,
    m: u32,
    info: ExpressionInfo,
    context: Option<u32>,
) -> Result<Option<u32>, Refusal>
    requires { ReadyIn index.now depth types.old demands.old }
    ensures { RunsIn linked index.now (context_expected m (module_row index.now.file.now index.now.words.now m) (info_of index.now.file.now index.now.words.now info) context) depth types.old demands.old types.new demands.new result }
{
    if let Some(t) = context {
        return Ok(Some(t));
    }
    match info.origin {
        Origin::Plain => Ok(None),
        Origin::StructField(parent, field) => {
            let Some(typed) = views::field_type_expr(index, m, parent, field) else {
                return Ok(None);
            };
            let found = ast_type(
                index,
                types,
                demands,
                depth,
                m,
                typed.type_expr,
                typed.scope,
            )?;
            Ok(Some(found))
        }
        Origin::Arg(callee, i) => {
            let Some(d) = views::argument_definition(index.words, m, callee) else {
                return Ok(None);
            };
            let signature = fn_signature(index, types, demands, depth, m, d)?;
            Ok(passed(types, signature, i))
        }
        Origin::AssignmentRhs(lhs) => {
            if !views::is_unsuffixed_literal(info.node) {
                return Ok(None);
            }
            let found = expr_type(index, types, demands, depth, m, lhs, None)?;
            Ok(Some(found))
        }
        Origin::ReturnExpr => {
            let Some(d) = semantic_index::first_function_around(index.words, m, info.scope) else {
                return Ok(None);
            };
            let signature = fn_signature(index, types, demands, depth, m, d)?;
            Ok(returned(types, signature))
        }
        Origin::Condition => Ok(Some(type_table::BOOL)),
    }
}

// An expression by its node, in a context. The arms are the definition's, one for each node, and most are one call; a member of its own
// for one of the others would be longer than the arm.
#[cycle(resolution)]
fn node(
    index: &Index,
    types: &mut [u32],
    demands: &mut [Place],
    depth: usize,
    m: u32,
    info: ExpressionInfo,
    context: Option<u32>,
) -> Result<u32, Refusal>
    requires ready { ReadyIn index.now depth types.old demands.old }
    requires short_node { ShortNode info.node }
    ensures { RunsIn typed index.now (node_type m (module_row index.now.file.now index.now.words.now m) (info_of index.now.file.now index.now.words.now info) context (expression_of index.now.file.now index.now.words.now info.node)) depth types.old demands.old types.new demands.new result }
{
    let s = info.scope;
    let expected = info.expected;
    match info.node {
        Expression::Literal(suffix) => lit(
            index, types, demands, depth, m, s, expected, context, suffix,
        ),
        Expression::BooleanLiteral => Ok(type_table::BOOL),
        Expression::Identifier(name) => {
            if semantic_index::builtins::is_builtin_function_name(index.file, name) {
                return Ok(type_table::UNIT);
            }
            let Some(d) = views::identifier_definition(
                index,
                m,
                info.definition,
                s,
                info.span,
                name,
            ) else {
                return Ok(type_table::ERROR);
            };
            def_type(index, types, demands, depth, m, d)
        }
        Expression::Unary(op, e) => un(index, types, demands, depth, m, context, op, e),
        Expression::Binary(op, left, right) => bin(
            index, types, demands, depth, m, context, op, left, right,
        ),
        Expression::FunctionCall(callee, list) => call(
            index, types, demands, depth, m, callee, list,
        ),
        Expression::MemberAccess(object, field) => member(
            index, types, demands, depth, m, object, field,
        ),
        Expression::IndexAccess(a, i) => crate::index(index, types, demands, depth, m, a, i),
        Expression::StructLiteral(name, span) => {
            let found = semantic_index::resolve_name_at_position(index, m, name, s, span);
            named(index, types, demands, depth, m, found)
        }
        Expression::Tuple(list) => tuple(index, types, demands, depth, m, context, list),
        Expression::TupleIndex(e, i) => tidx(index, types, demands, depth, m, e, i),
        Expression::ArrayLiteral(list) => arr(
            index, types, demands, depth, m, s, expected, context, list,
        ),
        Expression::ArrayRepeat(e, size) => rep(index, types, demands, depth, m, context, e, size),
        Expression::Cast(t) => ast_type(index, types, demands, depth, m, t, s),
        Expression::New(t, e) => new(index, types, demands, depth, m, s, t, e),
        Expression::Parenthesized(inner) => {
            let Some(e) = inner else {
                return Ok(type_table::ERROR);
            };
            expr_type(index, types, demands, depth, m, e, context)
        }
    }
}

// A number: suffix, then expected T, then context, then felt.
#[cycle(resolution)]
fn lit(
    index: &Index,
    types: &mut [u32],
    demands: &mut [Place],
    depth: usize,
    m: u32,
    s: FileScopeId,
    expected: Option<u32>,
    context: Option<u32>,
    suffix: Option<Name>,
) -> Result<u32, Refusal>
    requires { ReadyIn index.now depth types.old demands.old }
    ensures { RunsIn typed index.now (literal_in m s.0 (type_link_of expected) context (suffix_of index.now.file.now suffix)) depth types.old demands.old types.new demands.new result }
{
    if let Some(t) = type_table::suffix_type(index.file, suffix) {
        return Ok(t);
    }
    let Some(t) = expected else {
        return Ok(type_table::numeric_context(types, context));
    };
    let x = ast_type(index, types, demands, depth, m, t, s)?;
    Ok(numeric_or(types, x, context))
}

// `new`: the count is asked first, for its demand alone, as a felt; then the element's T.
#[cycle(resolution)]
fn new(
    index: &Index,
    types: &mut [u32],
    demands: &mut [Place],
    depth: usize,
    m: u32,
    s: FileScopeId,
    t: u32,
    count: Option<ExpressionId>,
) -> Result<u32, Refusal>
    requires { ReadyIn index.now depth types.old demands.old }
    ensures { RunsIn typed index.now (new_type m s.0 t (expression_link_of count)) depth types.old demands.old types.new demands.new result }
{
    only(
        index,
        types,
        demands,
        depth,
        m,
        count,
        Some(type_table::FELT),
    )?;
    let element = ast_type(index, types, demands, depth, m, t, s)?;
    type_table::intern_pointer(index.file, types, element)
}

// A child that is there, for its demand alone: of the answer only a refusal counts.
#[cycle(resolution)]
fn only(
    index: &Index,
    types: &mut [u32],
    demands: &mut [Place],
    depth: usize,
    m: u32,
    child: Option<ExpressionId>,
    context: Option<u32>,
) -> Result<(), Refusal>
    requires { ReadyIn index.now depth types.old demands.old }
    ensures { RunsIn ignored index.now (infer_only m (expression_link_of child) context) depth types.old demands.old types.new demands.new result }
{
    let Some(e) = child else {
        return Ok(());
    };
    expr_type(index, types, demands, depth, m, e, context)?;
    Ok(())
}

// An operator of one operand, which is asked in the operator's own context.
#[cycle(resolution)]
fn un(
    index: &Index,
    types: &mut [u32],
    demands: &mut [Place],
    depth: usize,
    m: u32,
    context: Option<u32>,
    op: UnaryOp,
    operand: Option<ExpressionId>,
) -> Result<u32, Refusal>
    requires { ReadyIn index.now depth types.old demands.old }
    ensures { RunsIn typed index.now (unary_type m context (unary_op_of op) (expression_link_of operand)) depth types.old demands.old types.new demands.new result }
{
    let e = operand.ok_or(Refusal::MissingChild)?;
    let t = expr_type(index, types, demands, depth, m, e, context)?;
    Ok(compatibility::unary_result(
        &Types {
            file: index.file,
            words: types,
        },
        op,
        t,
    ))
}

// An operator of two operands: the one that is asked second has the first one's type as its context.
#[cycle(resolution)]
fn bin(
    index: &Index,
    types: &mut [u32],
    demands: &mut [Place],
    depth: usize,
    m: u32,
    context: Option<u32>,
    op: BinaryOp,
    left: Option<ExpressionId>,
    right: Option<ExpressionId>,
) -> Result<u32, Refusal>
    requires { ReadyIn index.now depth types.old demands.old }
    ensures { RunsIn typed index.now (binary_type m (module_row index.now.file.now index.now.words.now m) context (binary_op_of op) (expression_link_of left) (expression_link_of right)) depth types.old demands.old types.new demands.new result }
{
    let a = left.ok_or(Refusal::MissingChild)?;
    let b = right.ok_or(Refusal::MissingChild)?;
    let (x, y) = if views::right_first(index.words, m, op, a, b) {
        let y = expr_type(index, types, demands, depth, m, b, context)?;
        let x = expr_type(index, types, demands, depth, m, a, Some(y))?;
        (x, y)
    } else {
        let x = expr_type(index, types, demands, depth, m, a, context)?;
        let y = expr_type(index, types, demands, depth, m, b, Some(x))?;
        (x, y)
    };
    Ok(compatibility::binary_result(
        &Types {
            file: index.file,
            words: types,
        },
        op,
        x,
        y,
    ))
}

// A field of a struct; error where the object is missing or no struct.
#[cycle(resolution)]
fn member(
    index: &Index,
    types: &mut [u32],
    demands: &mut [Place],
    depth: usize,
    m: u32,
    object: Option<ExpressionId>,
    field: Name,
) -> Result<u32, Refusal>
    requires { ReadyIn index.now depth types.old demands.old }
    ensures { RunsIn typed index.now (member_type m (expression_link_of object) (name_of index.now.file.now field)) depth types.old demands.old types.new demands.new result }
{
    let Some(e) = object else {
        return Ok(type_table::ERROR);
    };
    let t = expr_type(index, types, demands, depth, m, e, None)?;
    Ok(type_table::member_type(index.file, types, t, field))
}

// A call: a built-in gives unit before anything is asked. The arguments are asked only where the callee is a function, and don't bear on the type.
#[cycle(resolution)]
fn call(
    index: &Index,
    types: &mut [u32],
    demands: &mut [Place],
    depth: usize,
    m: u32,
    callee: Option<ExpressionId>,
    list: Items,
) -> Result<u32, Refusal>
    requires { ReadyIn index.now depth types.old demands.old }
    ensures { RunsIn typed index.now (call_type m (module_row index.now.file.now index.now.words.now m) (expression_link_of callee) (links_of index.now.words.now list)) depth types.old demands.old types.new demands.new result }
{
    if views::callee_is_builtin(index, m, callee) {
        return Ok(type_table::UNIT);
    }
    let Some(e) = callee else {
        return Ok(type_table::ERROR);
    };
    let t = expr_type(index, types, demands, depth, m, e, None)?;
    let Some(signature) = type_table::signature_of(types, t) else {
        return Ok(type_table::ERROR);
    };
    args(index, types, demands, depth, m, signature.params, list)?;
    Ok(signature.return_type)
}

// Each argument of a call that is there, with its parameter as context.
#[cycle(resolution)]
fn args(
    index: &Index,
    types: &mut [u32],
    demands: &mut [Place],
    depth: usize,
    m: u32,
    params: TypeList,
    list: Items,
) -> Result<(), Refusal>
    requires ready { ReadyIn index.now depth types.old demands.old }
    requires count_bound { params.first + params.count ≤ item_count types.old }
    ensures { RunsIn ignored index.now (infer_arguments m (types_of types.old params) 0 (links_of index.now.words.now list)) depth types.old demands.old types.new demands.new result }
{
    let first = list.first;
    let count = list.count;
    for i in 0..count {
        let arg = records::item_link(index.words, first, i);
        let context = type_table::item(types, params, i);
        only(index, types, demands, depth, m, arg, context)?;
    }
    Ok(())
}

// An element of an array or behind a pointer; the index is asked for its demand alone, as a felt.
#[cycle(resolution)]
fn index(
    index: &Index,
    types: &mut [u32],
    demands: &mut [Place],
    depth: usize,
    m: u32,
    a: Option<ExpressionId>,
    i: Option<ExpressionId>,
) -> Result<u32, Refusal>
    requires { ReadyIn index.now depth types.old demands.old }
    ensures { RunsIn typed index.now (index_type m (expression_link_of a) (expression_link_of i)) depth types.old demands.old types.new demands.new result }
{
    let Some(e) = a else {
        return Ok(type_table::ERROR);
    };
    let t = expr_type(index, types, demands, depth, m, e, None)?;
    only(index, types, demands, depth, m, i, Some(type_table::FELT))?;
    Ok(type_table::element_type(types, t))
}

// A tuple; error where an element is missing.
#[cycle(resolution)]
fn tuple(
    index: &Index,
    types: &mut [u32],
    demands: &mut [Place],
    depth: usize,
    m: u32,
    context: Option<u32>,
    list: Items,
) -> Result<u32, Refusal>
    requires ready { ReadyIn index.now depth types.old demands.old }
    requires count_bound { list.count ≤ 2048 }
    ensures { RunsIn typed index.now (tuple_type m context (links_of index.now.words.now list)) depth types.old demands.old types.new demands.new result }
{
    let count = list.count;
    let contexts = type_table::element_contexts(types, context, count);
    let mut elements = [0u32; 2048];
    let n = elems(
        index,
        types,
        demands,
        depth,
        m,
        contexts,
        list,
        &mut elements,
    )?;
    if n == (count as usize) {
        type_table::intern_tuple(index.file, types, &elements[..n])
    } else {
        Ok(type_table::ERROR)
    }
}

// Each element of a tuple that is there, with its context. The count beside the loop is of those that are there, which no `for` counts; and a chain of
// iterators would take a closure that changes the lent buffers, of which the proof would know nothing behind it.
#[cycle(resolution)]
fn elems(
    index: &Index,
    types: &mut [u32],
    demands: &mut [Place],
    depth: usize,
    m: u32,
    contexts: TypeList,
    list: Items,
    out: &mut [u32],
) -> Result<usize, Refusal>
    requires ready { ReadyIn index.now depth types.old demands.old }
    requires count_bound { contexts.first + contexts.count ≤ item_count types.old }
    requires count_in_bounds { list.count ≤ length out.old }
    ensures runs { RunsIn (collected out.new) index.now (infer_elements m (types_of types.old contexts) 0 (links_of index.now.words.now list)) depth types.old demands.old types.new demands.new result }
    ensures at_most { AtMost list.count result }
{
    let first = list.first;
    let count = list.count;
    let mut n: usize = 0;
    for i in 0..count {
        let Some(e) = records::item_link(index.words, first, i) else {
            continue;
        };
        let context = type_table::item(types, contexts, i);
        let t = expr_type(index, types, demands, depth, m, e, context)?;
        out[n] = t;
        n += 1;
    }
    Ok(n)
}

// An element of a tuple by its number.
#[cycle(resolution)]
fn tidx(
    index: &Index,
    types: &mut [u32],
    demands: &mut [Place],
    depth: usize,
    m: u32,
    e: Option<ExpressionId>,
    i: u32,
) -> Result<u32, Refusal>
    requires { ReadyIn index.now depth types.old demands.old }
    ensures { RunsIn typed index.now (tuple_index_type m (expression_link_of e) i) depth types.old demands.old types.new demands.new result }
{
    let x = e.ok_or(Refusal::MissingChild)?;
    let t = expr_type(index, types, demands, depth, m, x, None)?;
    Ok(type_table::tuple_element(types, t, i))
}

// An array: its first element says what the others must fit.
#[cycle(resolution)]
fn arr(
    index: &Index,
    types: &mut [u32],
    demands: &mut [Place],
    depth: usize,
    m: u32,
    s: FileScopeId,
    expected: Option<u32>,
    context: Option<u32>,
    list: Items,
) -> Result<u32, Refusal>
    requires { ReadyIn index.now depth types.old demands.old }
    ensures { RunsIn typed index.now (array_literal_in m s.0 (type_link_of expected) context (links_of index.now.words.now list)) depth types.old demands.old types.new demands.new result }
{
    let first = list.first;
    let count = list.count;
    let hint = type_table::element_hint(types, context);
    if count == 0 {
        return empty(index, types, demands, depth, m, s, expected, hint);
    }
    let e = records::item_link(index.words, first, 0).ok_or(Refusal::MissingChild)?;
    let t = expr_type(index, types, demands, depth, m, e, hint)?;
    let fits = same(index, types, demands, depth, m, t, list)?;
    if fits {
        type_table::intern_array(index.file, types, t, count as u64)
    } else {
        Ok(type_table::ERROR)
    }
}

// An empty array: of the context's element, else its expected T, if that is an array of size 0.
#[cycle(resolution)]
fn empty(
    index: &Index,
    types: &mut [u32],
    demands: &mut [Place],
    depth: usize,
    m: u32,
    s: FileScopeId,
    expected: Option<u32>,
    hint: Option<u32>,
) -> Result<u32, Refusal>
    requires ready { ReadyIn index.now depth types.old demands.old }
    requires hint_below { HintBelow types.old hint }
    ensures { RunsIn typed index.now (empty_array_in m s.0 (type_link_of expected) hint) depth types.old demands.old types.new demands.new result }
{
    if let Some(element) = hint {
        return type_table::intern_array(index.file, types, element, 0);
    }
    let Some(t) = expected else {
        return Ok(type_table::ERROR);
    };
    let x = ast_type(index, types, demands, depth, m, t, s)?;
    let Some(array) = type_table::array_of(types, x) else {
        return Ok(type_table::ERROR);
    };
    if array.size == 0 {
        type_table::intern_array(index.file, types, array.element, 0)
    } else {
        Ok(type_table::ERROR)
    }
}

// The elements of an array after the first, up to one that is missing or doesn't fit.
#[cycle(resolution)]
fn same(
    index: &Index,
    types: &mut [u32],
    demands: &mut [Place],
    depth: usize,
    m: u32,
    t: u32,
    list: Items,
) -> Result<bool, Refusal>
    requires ready { ReadyIn index.now depth types.old demands.old }
    requires le_count { 1 ≤ list.count }
    ensures { RunsIn compared index.now (all_same_type m t (links_behind index.now.words.now list)) depth types.old demands.old types.new demands.new result }
{
    let first = list.first;
    let count = list.count;
    for i in 1..count {
        let Some(e) = records::item_link(index.words, first, i) else {
            return Ok(false);
        };
        let x = expr_type(index, types, demands, depth, m, e, Some(t))?;
        if !compatibility::are_types_compatible(
            &Types {
                file: index.file,
                words: types,
            },
            x,
            t,
        ) {
            return Ok(false);
        }
    }
    Ok(true)
}

// An array of one element, many times.
#[cycle(resolution)]
fn rep(
    index: &Index,
    types: &mut [u32],
    demands: &mut [Place],
    depth: usize,
    m: u32,
    context: Option<u32>,
    element: Option<ExpressionId>,
    size: u64,
) -> Result<u32, Refusal>
    requires { ReadyIn index.now depth types.old demands.old }
    ensures { RunsIn typed index.now (repeat_in m context (expression_link_of element) size) depth types.old demands.old types.new demands.new result }
{
    let hint = type_table::element_hint(types, context);
    let e = element.ok_or(Refusal::MissingChild)?;
    let t = expr_type(index, types, demands, depth, m, e, hint)?;
    type_table::intern_array(index.file, types, t, size)
}

// ------------------------------------------------------------------ what is asked

// A type, or why there is none, as what a line says. Not written out at its four calls: the definition `said_type` is its promise, which the four proofs hand on.
fn said_type(resolved: Result<u32, Refusal>) -> Result<Option<u32>, Refusal>
    ensures { result ≡ said_type resolved }
{
    resolved.map(Some)
}

// What the line says: a type, or the word `none`, or a refusal. An absent module, expression or definition gives error, but for a byte: there it gives `none`. A
// context is resolved first, in e's scope. It asks for a started table, the 256 places and records within their limit (`Ready`): `answers`, its only caller, has
// just loaded the file. (A match within a match: with `Expr(m, e, None)` and `Expr(m, e, Some(t))` as patterns, tried, what the context is stands in its goal as a
// projection of `asked`, and the proof didn't get back from it to the context that `Expr` holds.)
pub fn resolve_asked(
    index: &Index,
    types: &mut [u32],
    demands: &mut [Place],
    asked: Asked,
) -> Result<Option<u32>, Refusal>
    requires { ReadyIn index.now 0 types.old demands.old }
    ensures { RunsIn says index.now (asked_program (index_of index.now.file.now index.now.words.now) (asked_of asked)) 0 types.old demands.old types.new demands.new result }
{
    match asked {
        Asked::Expr(m, e, context) => match context {
            None => said_type(expr_type(index, types, demands, 0, m, e, None)),
            Some(t) => said_type(asked_in(index, types, demands, m, e, t)),
        },
        Asked::Def(m, d) => said_type(def_type(index, types, demands, 0, m, d)),
        Asked::Type(m, t, s) => said_type(ast_type(index, types, demands, 0, m, t, s)),
        Asked::At(m, position) => match views::position_expression(index.words, m, position) {
            None => Ok(None),
            Some(e) => said_type(expr_type(index, types, demands, 0, m, e, None)),
        },
    }
}

// An expression's type with a context.
fn asked_in(
    index: &Index,
    types: &mut [u32],
    demands: &mut [Place],
    m: u32,
    e: ExpressionId,
    t: u32,
) -> Result<u32, Refusal>
    requires { ReadyIn index.now 0 types.old demands.old }
    ensures { RunsIn typed index.now (expression_in_context (index_of index.now.file.now index.now.words.now) m e.0 t) 0 types.old demands.old types.new demands.new result }
{
    let Some(info) = expression_in(index.words, m, e) else {
        return Ok(type_table::ERROR);
    };
    let context = ast_type(index, types, demands, 0, m, t, info.scope)?;
    expr_type(index, types, demands, 0, m, e, Some(context))
}
