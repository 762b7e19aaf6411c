// The fields of a line, parted by single tabs, and whether one is a given word.
ghost use Rattle.std.specs.Prelude.{◌≡◌, [], ◌∷◌, length, get_or};
ghost use Rattle.lines.specs.Fields.{fields, FirstTab, fields_behind, same_bytes};

// How many fields the line has: one more than it has tabs.
pub fn field_count(line: &[u8]) -> usize
    ensures { result ≡ length (fields line.now) }
{
    1 + line.iter().filter(|byte| **byte == b'\t').count()
}

// The field at `index`, counted from 0; no bytes where the line has no such field.
pub fn field(line: &[u8], index: usize) -> &[u8]
    ensures { result.now ≡ get_or (fields line.now) index [] }
{
    line.split(|byte| *byte == b'\t').nth(index).unwrap_or(&[])
}

// How many bytes stand before the first tab, or all where there is none.
fn length_of_field(line: &[u8]) -> usize
    ensures { FirstTab line.now result }
{
    line.iter()
        .position(|byte| *byte == b'\t')
        .unwrap_or(line.len())
}

// The first field, and what stands behind its tab, where it has one: so a line is read field by field in one pass.
pub fn first_field(line: &[u8]) -> (&[u8], Option<&[u8]>)
    ensures { fields line.now ≡ result.0.now ∷ fields_behind result.1 }
{
    let length = length_of_field(line);
    (&line[..length], line.get(length + 1..))
}

// Whether the field's bytes are the word's. (`==` takes two slices, and a byte string is an array, so a caller's `field == b"open"` is refused.)
pub fn is_word(field: &[u8], word: &[u8]) -> bool
    ensures { result ≡ same_bytes field.now word.now }
{
    field == word
}
