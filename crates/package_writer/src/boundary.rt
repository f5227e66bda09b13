//! The boundary of a package: the least number whose boundary occurs in no part of it.

ghost use Rattle.std.specs.Prelude.{◌≡◌, ◌+◌, ◌*◌, ◌^◌, ◌≤◌, ◌<◌, ◌++◌, IfOk, IfSome, OnOk, length};
ghost use Rattle.std.specs.Option.{option_map, option_to_list};
ghost use Rattle.std.specs.List.{flat_map};
ghost use Rattle.std.specs.List.Sorted.{IsSorted};
ghost use Rattle.std.specs.Ordering.{nat_cmp};
ghost use Rattle.message_model.specs.Package.{IsBoundary};
ghost use Rattle.package_writer.specs.Numbers.{number_from, number_at, numbers_in, root_number, payload_numbers, taken, IsLeastWithout};

use as4_values::{NoMemory, Payload, Seq};
use byte_forms::{digit_value, strip_prefix};
use memchr::memmem::Finder;
use std::alloc::Global;

/// The bytes before the digits of a boundary's number in a delimiter.
const DASHES: &[u8] = b"--as4-";

/// The number of digits.
const DIGITS: u32 = 16;

/// The least number whose boundary occurs neither in the root nor in a payload's content, and whose root has no
/// payload's Content-ID (RFC 2046, section 5.1.1).
pub fn free_boundary(alloc: Global, root: &[u8], payloads: &Seq<Payload>) -> Result<u64, NoMemory>
    ensures { IfOk result (λ number. IsBoundary number root.now payloads.now) }
{
    let mut numbers = taken(alloc, root, payloads.items())?;
    numbers.sort_unstable();
    Ok(least_without(numbers.as_slice()))
}

/// The excluded numbers.
#[tactic(auto, unfolding(crate::specs::Numbers::taken))]
fn taken(alloc: Global, root: &[u8], payloads: &[Payload]) -> Result<Vec<u64>, NoMemory>
    ensures { IfOk result (λ numbers. numbers.items ≡ taken root.now payloads.now) }
{
    let mut numbers = Vec::new(alloc);
    push_numbers(&mut numbers, root)?;
    for payload in payloads {
        push_payload_numbers(&mut numbers, payload)?;
    }
    Ok(numbers)
}

#[tactic(auto, unfolding(crate::specs::Numbers::payload_numbers))]
fn push_payload_numbers(numbers: &mut Vec<u64>, payload: &Payload) -> Result<(), NoMemory>
    ensures { OnOk result (numbers.new.items ≡ numbers.old.items ++ payload_numbers payload.now) }
{
    push_numbers(numbers, payload.content.bytes())?;
    if let Some(number) = root_number(payload.cid.bytes()) {
        numbers.push(number)?;
    }
    Ok(())
}

/// Adds the numbers of the boundaries that occur in the bytes.
fn push_numbers(numbers: &mut Vec<u64>, bytes: &[u8]) -> Result<(), NoMemory>
    ensures { OnOk result (numbers.new.items ≡ numbers.old.items ++ numbers_in bytes.now) }
{
    let finder = Finder::new(DASHES);
    let mut rest = bytes;
    while let Some(at) = finder.find(rest) {
        let (_, here) = rest.split_at(at);
        push_number(numbers, here)?;
        let (_, after) = here.split_at(1);
        rest = after;
    }
    Ok(())
}

/// Adds the number of the boundary with which the bytes begin, if they do.
fn push_number(numbers: &mut Vec<u64>, bytes: &[u8]) -> Result<(), NoMemory>
    ensures { OnOk result (numbers.new.items ≡ numbers.old.items ++ option_to_list (option_map (λ found. found.0) (number_at bytes.now))) }
{
    if let Some((number, _)) = number_at(bytes) {
        numbers.push(number)?;
    }
    Ok(())
}

/// The number of the root whose Content-ID this is.
#[tactic(auto, unfolding(crate::specs::Numbers::root_number))]
fn root_number(cid: &[u8]) -> Option<u64>
    ensures { result ≡ root_number cid.now }
{
    let rest = strip_prefix(b"root-", cid)?;
    let (number, rest) = number_from(0, DIGITS, rest)?;
    if rest == b"@as4".as_slice() {
        Some(number)
    } else {
        None
    }
}

/// The number of a boundary, and the rest.
#[tactic(auto, unfolding(crate::specs::Numbers::number_at))]
fn number_at(bytes: &[u8]) -> Option<(u64, &[u8])>
    ensures { option_map (λ found. (found.0, found.1.now)) result ≡ number_at bytes.now }
{
    let rest = strip_prefix(DASHES, bytes)?;
    number_from(0, DIGITS, rest)
}

/// A number with these digits so far and `places` more to read, and the rest.
#[tactic(auto, unfolding(crate::specs::Numbers::number_from))]
fn number_from(number: u64, places: u32, bytes: &[u8]) -> Option<(u64, &[u8])>
    requires { (number + 1) * 16 ^ places ≤ 2 ^ 64 }
    ensures { option_map (λ found. (found.0, found.1.now)) result ≡ number_from number places bytes.now }
{
    if places == 0 {
        return Some((number, bytes));
    }
    let [byte, rest @ ..] = bytes else {
        return None;
    };
    let digit = digit_value(*byte)?;
    number_from(number * 16 + u64::from(digit), places - 1, rest)
}

/// The least number other than these, which are sorted.
fn least_without(numbers: &[u64]) -> u64
    requires { IsSorted nat_cmp numbers.now }
    ensures { IsLeastWithout result numbers.now }
{
    let mut least: u64 = 0;
    for number in numbers {
        if *number > least {
            return least;
        }
        if *number == least {
            least += 1;
        }
    }
    least
}
