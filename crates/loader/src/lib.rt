// Loading an index file: any bytes become the record words of crates/records, or a refusal with its line. The modules are
// private to the crate: what their functions ask for `load` has tested, or the function before them gives it. In common they ask `length file ≤ 65536`,
// `length words ≡ 16384` and `first ≤ 2048`. No struct holds these: `fields` and `words` take the bytes, so that it would be taken apart at each call, and the record
// words are lent and changed: behind a `&mut` of a struct nothing would be known of them after a read (type_resolution has the same). Tests of one case are `matches!`,
// as the definition's are by cases.
#![tactic(auto)]

mod items;
mod lines;
mod pass;
mod rows;
mod shapes;
mod values;

ghost use Rattle.std.specs.Prelude.{◌≡◌, ℕ, ◌≤◌, ◌<◌, List, length, replicate};
ghost use Rattle.model.specs.Limits.{max_modules, record_words};
ghost use Rattle.format.specs.LinkCheck.{link_fault};
ghost use Rattle.records.specs.Layout.{module_count, index_of};
ghost use Rattle.loader.specs.Load.{FilePut, WordsPut, Short, Filled};

use refusals::{FileRefusal, FileRefused};

// "Record buffer 16,384 .. words"
pub const RECORD_WORDS: usize = 16384;

const FILE_BYTES: usize = 65536;

const FIRST_LINE_BYTES: usize = 8;

// Sets all words to zero. (The body is `fill`; the entry and its promise are public.)
pub fn clear(words: &mut [u32])
    ensures { words.new ≡ replicate (length words.old) 0 }
{
    words.fill(0);
}

// The first line whose links don't lead. Rows stand in the order of their lines, and the first of them is line 2: the place at which a module's lines begin is
// carried from module to module. (The last two lines are no `map`: a closure would have to ask of its caller that the sum has room.)
fn fault_line(words: &[u32]) -> Option<usize>
    requires { module_count words.now ≤ max_modules }
    ensures { (file : List ℕ) → result ≡ link_fault (index_of file words.now) }
{
    let modules = records::module_count(words);
    let mut place: usize = 2;
    for m in 0..modules {
        let count = links::line_count(words, m);
        if let Some(k) = links::module_fault(words, m) {
            return Some(place + k);
        }
        place += count;
    }
    let k = links::question_fault(words)?;
    Some(place + k)
}

fn read_file(file: &[u8], words: &mut [u32]) -> Result<(), FileRefused>
    requires { length words.old ≡ record_words }
    ensures { FilePut file.now words.new result }
{
    if FILE_BYTES < file.len() {
        return Err(FileRefused {
            refusal: FileRefusal::Limit,
            line: 0,
        });
    }
    let Some(version) = words::version_of(file) else {
        return Err(FileRefused {
            refusal: FileRefusal::FirstLine,
            line: 1,
        });
    };
    pass::first_pass(file, words, FIRST_LINE_BYTES, version)?;
    match fault_line(words) {
        Some(line) => Err(FileRefused {
            refusal: FileRefusal::Link,
            line: line as u32,
        }),
        None => Ok(()),
    }
}

fn load_words(file: &[u8], words: &mut [u32]) -> Result<(), FileRefused>
    requires { length words.old ≡ record_words }
    ensures { WordsPut file.now words.new result }
{
    let loaded = read_file(file, words);
    if loaded.is_err() {
        clear(words);
    }
    loaded
}

// The words of an index file. A buffer that is too short is refused as such and left as it is; any other refusal leaves its first 16,384 words
// zero; the words behind these are left.
pub fn load(file: &[u8], records: &mut [u32]) -> Result<(), FileRefused>
    ensures short { length records.old < record_words → Short records.old records.new result }
    ensures full { record_words ≤ length records.old → Filled file.now records.old records.new result }
{
    if records.len() < RECORD_WORDS {
        return Err(FileRefused {
            refusal: FileRefusal::ShortBuffer,
            line: 0,
        });
    }
    load_words(file, &mut records[..RECORD_WORDS])
}
