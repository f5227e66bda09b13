//! Appends the pieces of a line.
ghost use Rattle.std.specs.Prelude.{◌≡◌, ◌++◌, OnOk, codes};
ghost use Rattle.std.specs.Fmt.{decimal};

use as4_values::NoMemory;
use itoa::Buffer;

/// Adds a word, a number in decimal, and the end of the line.
pub(crate) fn add_number(out: &mut Vec<u8>, word: &[u8], number: u64) -> Result<(), NoMemory>
    ensures { OnOk result (out.new.items ≡ out.old.items ++ (word.now ++ decimal number ++ codes "\n")) }
{
    add_begin(out, word, number)?;
    out.extend_from_slice(b"\n")?;
    Ok(())
}

/// Adds a word, a number in decimal, a name, and the end of the line.
pub(crate) fn add_named(
    out: &mut Vec<u8>,
    word: &[u8],
    number: u64,
    name: &[u8],
) -> Result<(), NoMemory>
    ensures { OnOk result (out.new.items ≡ out.old.items ++ (word.now ++ decimal number ++ codes " " ++ name.now ++ codes "\n")) }
{
    add_begin(out, word, number)?;
    out.extend_from_slice(b" ")?;
    out.extend_from_slice(name)?;
    out.extend_from_slice(b"\n")?;
    Ok(())
}

// Adds a word and a number in decimal.
fn add_begin(out: &mut Vec<u8>, word: &[u8], number: u64) -> Result<(), NoMemory>
    ensures { OnOk result (out.new.items ≡ out.old.items ++ (word.now ++ decimal number)) }
{
    let mut buffer = Buffer::new();
    out.extend_from_slice(word)?;
    out.extend_from_slice(buffer.format(number).as_bytes())?;
    Ok(())
}
