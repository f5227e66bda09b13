//! Appends the pieces of a line.

ghost use Rattle.std.specs.Prelude.{◌≡◌, ◌++◌, ◌∷◌, [], OnOk, IfOk, codes};
ghost use Rattle.std.specs.Fmt.{decimal};
ghost use Rattle.drill_script.specs.LineText.{end_text};

use as4_values::{NoMemory, Octets};
use drill_script::EndName;
use itoa::Buffer;
use std::alloc::Global;

/// Adds bytes.
pub(crate) fn add(out: &mut Vec<u8>, bytes: &[u8]) -> Result<(), NoMemory>
    ensures { OnOk result (out.new.items ≡ out.old.items ++ bytes.now) }
{
    out.extend_from_slice(bytes)?;
    Ok(())
}

/// Adds a number in decimal.
pub(crate) fn add_number(out: &mut Vec<u8>, number: u64) -> Result<(), NoMemory>
    ensures { OnOk result (out.new.items ≡ out.old.items ++ decimal number) }
{
    let mut buffer = Buffer::new();
    out.extend_from_slice(buffer.format(number).as_bytes())?;
    Ok(())
}

/// Adds a number in decimal that may have more than 64 bits.
pub(crate) fn add_wide(out: &mut Vec<u8>, number: u128) -> Result<(), NoMemory>
    ensures { OnOk result (out.new.items ≡ out.old.items ++ decimal number) }
{
    let mut buffer = Buffer::new();
    out.extend_from_slice(buffer.format(number).as_bytes())?;
    Ok(())
}

/// Adds a word and the name after it.
pub(crate) fn add_named(out: &mut Vec<u8>, word: &[u8], name: &[u8]) -> Result<(), NoMemory>
    ensures { OnOk result (out.new.items ≡ out.old.items ++ (word.now ++ name.now)) }
{
    add(out, word)?;
    add(out, name)?;
    Ok(())
}

/// Adds a word and the number after it.
pub(crate) fn add_counted(out: &mut Vec<u8>, word: &[u8], number: u64) -> Result<(), NoMemory>
    ensures { OnOk result (out.new.items ≡ out.old.items ++ (word.now ++ decimal number)) }
{
    add(out, word)?;
    add_number(out, number)?;
    Ok(())
}

/// A line that begins with the name of an endpoint.
pub(crate) fn begun_line(alloc: Global, end: EndName) -> Result<Vec<u8>, NoMemory>
    ensures { IfOk result (λ line. line.items ≡ end_text end ++ codes " ") }
{
    let mut line = Vec::new(alloc);
    match end {
        EndName::A => line.extend_from_slice(b"a ")?,
        EndName::B => line.extend_from_slice(b"b ")?,
        EndName::First => line.extend_from_slice(b"f ")?,
        EndName::Hub => line.extend_from_slice(b"h ")?,
        EndName::Last => line.extend_from_slice(b"l ")?,
    }
    Ok(line)
}

/// The line with its LF.
pub(crate) fn ended_line(mut line: Vec<u8>) -> Result<Octets, NoMemory>
    ensures { IfOk result (λ text. text ≡ line.items ++ 10 ∷ []) }
{
    line.push(b'\n')?;
    Ok(Octets::of(line))
}
