// Names are parts of the file: comparing two, and comparing one with a fixed byte string.
ghost use Rattle.std.specs.Prelude.{◌≡◌};
ghost use Rattle.model.specs.Common.{eq_numbers};
ghost use Rattle.records.specs.Layout.{word, bytes_at};
ghost use Rattle.records.specs.Meaning.{name_of};

use records::Name;

// The byte at a place, 0 past the end.
pub fn byte_at(bytes: &[u8], i: usize) -> u8
    ensures { result ≡ word bytes.now i }
{
    bytes.get(i).copied().unwrap_or(0)
}

// Whether `count` bytes from `i` in one slice are those from `j` in another. A name may lie past its file's end, where bytes count as 0: there is no slice
// to compare.
fn same_bytes(a: &[u8], i: u32, b: &[u8], j: u32, count: u32) -> bool
    ensures { result ≡ eq_numbers (bytes_at a.now i count) (bytes_at b.now j count) }
{
    (0..count).all(|k| {
        byte_at(a, (i as usize) + (k as usize)) == byte_at(b, (j as usize) + (k as usize))
    })
}

pub fn same_name(file: &[u8], a: Name, b: Name) -> bool
    ensures { result ≡ eq_numbers (name_of file.now a) (name_of file.now b) }
{
    a.length == b.length && same_bytes(file, a.start, file, b.start, a.length)
}

// Whether a name is a fixed byte string.
pub fn is_text(file: &[u8], name: Name, text: &[u8]) -> bool
    ensures { result ≡ eq_numbers (name_of file.now name) text.now }
{
    (name.length as usize) == text.len() && same_bytes(file, name.start, text, 0, name.length)
}
