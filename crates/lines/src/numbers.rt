// Numbers that a field spells, each in its one spelling.
ghost use Rattle.std.specs.Prelude.{◌≡◌};
ghost use Rattle.lines.specs.Reading.{read_natural, read_digits, read_integer, from_above, from_below};

// The number whose spelling the field is; none where it is the spelling of no u32.
pub fn read_natural(field: &[u8]) -> Option<u32>
    ensures { result ≡ read_natural field.now }
{
    match field {
        // A zero before another byte is no number's first digit.
        [] | [b'0', _, ..] => None,
        _ => digits(field),
    }
}

// The number that the digits make, where all the bytes are digits and it is a u32.
fn digits(field: &[u8]) -> Option<u32>
    ensures { result ≡ read_digits 0 field.now }
{
    let mut value = 0u32;
    for byte in field {
        if !byte.is_ascii_digit() {
            return None;
        }
        // A number grows with every digit, so that one past the largest u32 need be read no further.
        value = value.checked_mul(10)?.checked_add(u32::from(*byte - b'0'))?;
    }
    Some(value)
}

// The number whose spelling the field is, with a minus below zero; none where it is the spelling of no i32.
pub fn read_integer(field: &[u8]) -> Option<i32>
    ensures { result ≡ read_integer field.now }
{
    match field {
        [b'-', magnitude @ ..] => below(read_natural(magnitude)?),
        _ => above(read_natural(field)?),
    }
}

// The number itself, where it is an i32.
fn above(magnitude: u32) -> Option<i32>
    ensures { result ≡ from_above magnitude }
{
    i32::try_from(magnitude).ok()
}

// The number with a minus before it, where that is an i32 and not zero, which has no minus.
fn below(magnitude: u32) -> Option<i32>
    ensures { result ≡ from_below magnitude }
{
    if magnitude == 0 {
        return None;
    }
    i32::try_from(-i64::from(magnitude)).ok()
}
