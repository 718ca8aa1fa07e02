// The bytes of an answer line, written into a lent buffer: the lead fields, and behind them a type, a word or a refusal.
#![tactic(auto)]

ghost use Rattle.std.specs.Prelude.{◌≡◌, ◌+◌, ◌≤◌, ◌++◌, length};
ghost use Rattle.model.specs.Common.{bytes};
ghost use Rattle.resolution.specs.Answer.{decimal, type_text, Verdict, text_verdict, asked_lead};
ghost use Rattle.resolution.specs.TypeResolution.{none_word};
ghost use Rattle.type_table.specs.Layout.{table_of};
ghost use Rattle.views.specs.Asking.{asked_of};
ghost use Rattle.line_text.specs.Lines.{line_error_of, LeadPut, TriedIs, WrittenIs, line_with};

use refusals::Refusal;
use type_table::Types;
use type_text::{TextError, Writer};
use views::Asked;

// Why the line of a type is not written: the error of a `Result`.
#[derive(Clone, Copy, PartialEq, Eq)]
pub enum LineError {
    // What is asked is refused.
    Refused(Refusal),
    // The line has no room.
    NoRoom,
}

impl From<TextError> for LineError {
    ghost from_gives = { λ cause error. error ≡ line_error_of cause };

    fn from(cause: TextError) -> LineError {
        match cause {
            TextError::TooLong => LineError::Refused(Refusal::LongText),
            TextError::NoRoom => LineError::NoRoom,
        }
    }
}

// ------------------------------------------------------------------ lead fields

// Writes a line's kind, module and number, each with its tab.
fn put_fields(kind: &[u8], m: u32, n: u32, out: &mut Writer)
    requires kind_len_bound { length kind.now ≤ 7 }
    requires in_bounds { out.old.at + 29 ≤ length out.old.out.now }
    ensures { LeadPut (kind.now ++ (decimal m ++ (bytes "\t" ++ (decimal n ++ bytes "\t")))) out.old out.new }
{
    out.put(kind);
    out.put_decimal(m as u64);
    out.put(b"\t");
    out.put_decimal(n as u64);
    out.put(b"\t")
}

// The lead fields of a line, by what it is about.
fn put_lead(asked: Asked, out: &mut Writer)
    requires { out.old.at + 29 ≤ length out.old.out.now }
    ensures { LeadPut (asked_lead (asked_of asked)) out.old out.new }
{
    match asked {
        Asked::Expr(m, e, _) => put_fields(b"expr\t", m, e.0, out),
        Asked::Def(m, d) => put_fields(b"def\t", m, d.0, out),
        Asked::Type(m, t, _) => put_fields(b"type\t", m, t, out),
        Asked::At(m, position) => put_fields(b"at\t", m, position, out),
    }
}

// ------------------------------------------------------------------ lines

// Writes the line of a type. The text goes straight behind the four lead fields, into the rest of the buffer lent from its middle; it is
// measured before anything is written, and the lead fields and the LF come once it stands, so that a line without room and a refusal
// leave the buffer as it is. (The lead stands in fixed bytes first, here and below: no heap.)
pub fn write_typed(types: &Types, t: u32, asked: Asked, out: &mut [u8]) -> Result<usize, LineError>
    ensures { TriedIs (asked_lead (asked_of asked)) (text_verdict (type_text (table_of types.now.file.now types.now.words.now) t)) out.old out.new result }
{
    let mut lead = [0u8; 64];
    let mut writer = Writer::new(&mut lead);
    put_lead(asked, &mut writer);
    writer.put(b"type\t");
    let at = writer.at;
    let len = out.len();
    if len <= at {
        return Err(LineError::NoRoom);
    }
    let end = len - 1;
    let n = type_text::write_text(types, t, &mut out[at..end])?;
    let mut line = Writer::new(out);
    line.put(&lead[..at]);
    line.at = at + n;
    line.put(b"\n");
    Ok(line.at)
}

// Writes the line of a few bytes behind the lead fields, and returns its length; none where it has no room.
fn write_fields(asked: Asked, fields: &[u8], out: &mut [u8]) -> Option<usize>
    requires { length fields.now ≤ 20 }
    ensures { WrittenIs (asked_lead (asked_of asked) ++ (fields.now ++ bytes "\n")) out.old out.new result }
{
    let mut line = [0u8; 64];
    let mut writer = Writer::new(&mut line);
    put_lead(asked, &mut writer);
    writer.put(fields);
    writer.put(b"\n");
    let end = writer.at;
    if out.len() < end {
        return None;
    }
    out[..end].copy_from_slice(&line[..end]);
    Some(end)
}

// Writes the line of a refusal by its number. (Any number, as the promise is of any.)
pub fn write_refused(asked: Asked, number: u32, out: &mut [u8]) -> Option<usize>
    ensures { WrittenIs (line_with (asked_lead (asked_of asked)) (Verdict.refused number)) out.old out.new result }
{
    let mut fields = [0u8; 20];
    let mut writer = Writer::new(&mut fields);
    writer.put(b"refused\t");
    writer.put_decimal(number as u64);
    let end = writer.at;
    write_fields(asked, &fields[..end], out)
}

// Writes the line `none`.
pub fn write_none(asked: Asked, out: &mut [u8]) -> Option<usize>
    ensures { WrittenIs (line_with (asked_lead (asked_of asked)) (Verdict.worded none_word)) out.old out.new result }
{
    write_fields(asked, b"none", out)
}
