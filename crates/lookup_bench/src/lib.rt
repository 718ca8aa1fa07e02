// The lookups of semantic_index.rs over record words, and `load`, for the benchmark of rust/bench alone: `rt lib` here makes
// out/liblookup_bench.a, which isn't shipped. (The shipped library is that of the crate `export`; no function there is given record words to look
// things up in.) A slice is a pointer and a length there, a name is its first byte's place in the file and its length, and a link is 0 for none,
// else the number and 1.
#![tactic(auto)]

ghost use Rattle.std.specs.Prelude.{◌≡◌, ℕ, List, option_map};
ghost use Rattle.model.specs.Lookups.{module_at, module_by_name, latest_definition_index_by_name_in_chain};
ghost use Rattle.model.specs.Lookups.{resolve_name_at_position, definition_for_identifier_expr, first_function_around};
ghost use Rattle.records.specs.Layout.{bytes_at, index_of};
ghost use Rattle.lookup_bench.specs.Numbers.{link_number, module_to, in_module, LoadNumber};

use records::{ExpressionId, FileScopeId, Index, Name, RecordNumber, Span};

// 0 for an accepted file, else the refusal's number. The words of the index are the first 16,384 of the buffer.
#[unsafe(no_mangle)]
pub extern "C" fn bench_load(file: &[u8], records: &mut [u32]) -> u32
    ensures { LoadNumber file.now records.old records.new result }
{
    loader::load(file, records).map_or_else(|refused| refused.refusal.number(), |()| 0)
}

// A link as a number.
fn link_number<R: RecordNumber>(link: Option<R>) -> u64
    ensures { result ≡ link_number (option_map R.number link) }
{
    link.map_or(0, |n| (n.get() as u64) + 1)
}

// The module of a number, if the index has one: the words behind those of its modules may be an earlier file's. (Four functions begin with it and end at `None`: each
// is called from C and gives a number, so that there is no `?`, and a `map_or` would only put the rest of the body in a closure.)
fn module_at(words: &[u32], m: u32) -> Option<u32>
    ensures { (file : List ℕ) → module_at (index_of file words.now) m ≡ module_to file words.now result }
{
    records::has_module(words, m).then_some(m)
}

#[unsafe(no_mangle)]
pub extern "C" fn bench_module_by_name(file: &[u8], words: &[u32], start: u32, length: u32) -> u64
    ensures { result
        ≡ link_number (module_by_name (index_of file.now words.now)
        (bytes_at file.now start length)) }
{
    let index = Index { file, words };
    link_number(semantic_index::module_by_name(&index, Name { start, length }))
}

#[unsafe(no_mangle)]
pub extern "C" fn bench_latest_definition_index_by_name_in_chain(
    file: &[u8],
    words: &[u32],
    m: u32,
    s: u32,
    start: u32,
    length: u32,
) -> u64
    ensures { result
        ≡ link_number (in_module (index_of file.now words.now) m
        (λ the_module. latest_definition_index_by_name_in_chain the_module s (bytes_at file.now start length))) }
{
    let Some(n) = module_at(words, m) else {
        return 0;
    };
    let index = Index { file, words };
    link_number(semantic_index::latest_definition_index_by_name_in_chain(
        &index,
        n,
        FileScopeId(s),
        Name { start, length },
    ))
}

// The name at the span from `from` to `to`.
#[unsafe(no_mangle)]
pub extern "C" fn bench_resolve_name_at_position(
    file: &[u8],
    words: &[u32],
    m: u32,
    start: u32,
    length: u32,
    s: u32,
    from: u32,
    to: u32,
) -> u64
    ensures { result
        ≡ link_number (in_module (index_of file.now words.now) m
        (λ the_module. resolve_name_at_position the_module (bytes_at file.now start length) s from to)) }
{
    let Some(n) = module_at(words, m) else {
        return 0;
    };
    let index = Index { file, words };
    link_number(semantic_index::resolve_name_at_position(
        &index,
        n,
        Name { start, length },
        FileScopeId(s),
        Span {
            start: from,
            end: to,
        },
    ))
}

#[unsafe(no_mangle)]
pub extern "C" fn bench_definition_for_identifier_expr(words: &[u32], m: u32, e: u32) -> u64
    ensures { (file : List ℕ) → result
        ≡ link_number (in_module (index_of file words.now) m
        (λ the_module. definition_for_identifier_expr the_module e)) }
{
    let Some(n) = module_at(words, m) else {
        return 0;
    };
    link_number(semantic_index::definition_for_identifier_expr(words, n, ExpressionId(e)))
}

#[unsafe(no_mangle)]
pub extern "C" fn bench_first_function_around(words: &[u32], m: u32, s: u32) -> u64
    ensures { (file : List ℕ) → result
        ≡ link_number (in_module (index_of file words.now) m (λ the_module. first_function_around the_module s)) }
{
    let Some(n) = module_at(words, m) else {
        return 0;
    };
    link_number(semantic_index::first_function_around(words, n, FileScopeId(s)))
}
