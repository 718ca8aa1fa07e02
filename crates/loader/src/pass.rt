// The first pass over the lines, and the words that end the index.
ghost use Rattle.std.specs.Prelude.{◌≡◌, ◌+◌, ◌≤◌, length, drop};
ghost use Rattle.loader.specs.State.{Fine};
ghost use Rattle.loader.specs.Pass.{Finished, FirstPut};

use crate::rows::Counts;
use crate::{lines, rows};
use refusals::FileRefused;

// The header, and the row behind the last module's.
fn finish(file: &[u8], words: &mut [u32], n: Counts, version: u32)
    requires { Fine file.now words.old n }
    ensures { Finished words.old n version words.new }
{
    rows::put(
        words,
        0,
        &[
            n.modules as u32,
            n.questions as u32,
            n.items as u32,
            version,
        ],
    );
    let row = records::MODULES + 8 * n.modules;
    rows::put(
        words,
        row + 1,
        &[
            n.scopes as u32,
            n.types as u32,
            n.definitions as u32,
            n.expressions as u32,
        ],
    );
}

// The lines from `from` on, the first of which is line 2. Where a line ends is known only when it is read, so no `for` goes over the bytes.
pub fn first_pass(
    file: &[u8],
    words: &mut [u32],
    from: usize,
    version: u32,
) -> Result<(), FileRefused>
    requires { (length file.now ≤ 65536) × (length words.old ≡ 16384) × (from ≤ length file.now) }
    ensures { FirstPut file.now words.old version (drop from file.now) words.new result }
{
    let mut n = Counts::default();
    let mut at = from;
    let mut line: u32 = 2;
    while at < file.len() {
        let next = lines::step_on(file, at, words, n).map_err(|refusal| FileRefused {
            refusal,
            line,
        })?;
        n = next.counts;
        at = next.at;
        line += 1;
    }
    finish(file, words, n, version);
    Ok(())
}
