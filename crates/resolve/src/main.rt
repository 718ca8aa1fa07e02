// Reads an index file from standard input and prints the answer lines of its questions, or the line of its refusal.
#![tactic(auto)]

ghost use Rattle.std.specs.Prelude.{◌≡◌, ◌≤◌, IfOk, length};
ghost use Rattle.resolution.specs.Resolve.{refusal_line};
ghost use Rattle.answers.specs.Steps.{Long};
ghost use Rattle.resolve.specs.Parts.{RefusedPut, PartIs};

use answers::LinesAnswer;
use demands::Place;
use std::io;
use std::io::{Print, Read};
use type_text::Writer;

// Puts the line of a refused file at the start of the bytes, and says how long it is. It takes the two numbers that it writes: of a struct's field or a call's
// result the proof would have to say again that it has ten digits at most.
fn put_refused(number: u32, line: u32, out: &mut [u8]) -> usize
    requires { 4160 ≤ length out.old }
    ensures { RefusedPut (refusal_line number line) out.old out.new result }
{
    let mut writer = Writer::new(out);
    writer.put(b"refused\t");
    writer.put_decimal(number as u64);
    writer.put(b"\t");
    writer.put_decimal(line as u64);
    writer.put(b"\n");
    writer.at
}

// What is printed from a question's line on: the question and its line to go on with and how many bytes, or the last bytes, those of a refused file's line too.
fn next_part(
    file: &[u8],
    from: u32,
    line: u32,
    records: &mut [u32],
    types: &mut [u32],
    demands: &mut [Place],
    out: &mut [u8],
) -> LinesAnswer
    requires { Long (length records.old) (length types.old) (length demands.old) (length out.old) }
    ensures { PartIs file.now from line out.new result }
{
    // A match, and no `unwrap_or_else`: tried, and of a closure that may write into `out` the proof knows only that `out` is as long as it was.
    match answers::answer_from(file, from, line, records, types, demands, out) {
        Ok(lines) => lines,
        Err(refused) => LinesAnswer::End(put_refused(refused.refusal.number(), refused.line, out)),
    }
}

// What stands on standard input, as far as the space takes it. How many reads that takes is known only when the last is done, so no `for` goes over them.
// The space is fixed memory: std's reading to the end would take a Vec. (`check_index` has the same function: a library for two programs would be as long.)
fn read_input(rt: HostRuntime, space: &mut [u8]) -> io::Result<&[u8]>
    ensures { IfOk result (λ file. length file.now ≤ length space.old) }
{
    let mut input = rt.stdin();
    let mut n = 0;
    while n < space.len() {
        let more = input.read(&mut space[n..])?;
        if more == 0 {
            break;
        }
        n += more;
    }
    Ok(&space[..n])
}

// Prints the parts one behind the other. Each is the definition's (`PartIs`), and all together are `resolve` of the file (`CallsResolve`, `CallsEnd`).
// That they are written in this order is to be read here: what is written is no value of the logic, and `write_all` promises nothing of it.
// A read or a write that fails ends the program with its error. Which part is the last is known only when it is there, so no `for` goes over them.
// A file of one byte more than the limit fits in the space, so that it is seen to be too long.
fn main(rt: HostRuntime) -> io::Result<()> {
    let mut space = [0; 65537];
    let file = read_input(rt, &mut space)?;
    let mut records = [0; loader::RECORD_WORDS];
    let mut types = [0; type_table::WORDS];
    let mut demands = [[0; 5]; demands::PLACES];
    let mut out = [0; answers::ANSWER_BYTES];
    let mut from: u32 = 0;
    let mut line: u32 = 0;
    loop {
        match next_part(
            file,
            from,
            line,
            &mut records,
            &mut types,
            &mut demands,
            &mut out,
        ) {
            LinesAnswer::More {
                question,
                line: next_line,
                bytes,
            } => {
                rt.write_all(&out[..bytes])?;
                from = question;
                line = next_line;
            }
            LinesAnswer::End(k) => {
                rt.write_all(&out[..k])?;
                return Ok(());
            }
        }
    }
}
