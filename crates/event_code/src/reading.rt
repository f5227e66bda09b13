//! Reads values from the beginning of bytes in the format of `as4_effects`: numbers, pairs, options and counted lists,
//! and values made of such parts.

ghost use Rattle.std.specs.Prelude.{◌≡◌, ℕ, ◌≤◌, ◌<◌, ◌^◌, ◌++◌, ◌↔◌, List, length, IfOk, IfSome, IsErrOf};
ghost use Rattle.std.specs.List.{flat_map};
ghost use Rattle.byte_forms.specs.Bytes.{number_body, option_body, list_body, pair_body};
ghost use Rattle.byte_forms.specs.Forms.{IsPair, IsList, Each, Once, Refuses};

use crate::refusal::BodyRefusal;
use crate::rest::Rest;
use as4_values::Seq;
use std::alloc::Global;

/// A value that can be read from a body.
pub trait Readable: Drop {
    /// Its bytes.
    ghost body: { Self → List ℕ };

    /// The invariant of each value of the type.
    ghost is_one: { Self → Type 0 };

    /// Reads a value from the beginning of the rest.
    fn read(alloc: Global, rest: &mut Rest) -> Result<Self, BodyRefusal>
        ensures found { IfOk result (λ value. is_one value × (rest.old ≡ body value ++ rest.new)) }
        ensures not_body { IsErrOf result BodyRefusal.NotBody → Refuses is_one body rest.old };

    /// No bytes begin with two different values.
    fn once()
        ensures { Once is_one body };
}

/// A value that is read by its parts and has the same bytes as they have.
pub trait Parted: Drop {
    type Parts: Readable;

    /// Its bytes.
    ghost whole_body: { Self → List ℕ };

    /// The invariant of each value of the type.
    ghost is_whole: { Self → Type 0 };

    ghost parts: { Self → Self.Parts };

    /// The value of these parts.
    fn of_parts(alloc: Global, these: Self::Parts) -> Result<Self, BodyRefusal>
        ensures made { IfOk result (λ value. Self.parts value ≡ these) }
        ensures not_body { IsErrOf result BodyRefusal.NotBody → (value : Self) → is_whole value → Self.parts value ≡ these → ⊥ };

    ghost told: { (a b : Self) → Self.parts a ≡ Self.parts b → a ≡ b };

    ghost kept: { (value : Self) → is_whole value ↔ Self.Parts.is_one (Self.parts value) };

    ghost same: { (value : Self) → whole_body value ≡ Self.Parts.body (Self.parts value) };
}

/// Reads the parts of a value and makes the value of them.
pub fn read_by_parts<T: Parted>(alloc: Global, rest: &mut Rest) -> Result<T, BodyRefusal>
    ensures found { IfOk result (λ value. T.is_whole value × (rest.old ≡ T.whole_body value ++ rest.new)) }
    ensures not_body { IsErrOf result BodyRefusal.NotBody → Refuses T.is_whole T.whole_body rest.old }
{
    // Laws: no bytes begin with two values of the parts.
    T::Parts::once();
    let parts = T::Parts::read(alloc, rest)?;
    T::of_parts(alloc, parts)
}

/// No bytes begin with two different values, because none begin with two values of their parts.
pub fn once_by_parts<T: Parted>()
    ensures { Once T.is_whole T.whole_body }
{
    // Laws: no bytes begin with two values of the parts.
    T::Parts::once();
}

impl Readable for u32 {
    ghost body = { number_body 4 };

    ghost is_one = { λ number. number < 256 ^ 4 };

    fn read(_alloc: Global, rest: &mut Rest) -> Result<u32, BodyRefusal> {
        Ok(rest.take_number(4)? as u32)
    }

    fn once() {}
}

impl Readable for u64 {
    ghost body = { number_body 8 };

    ghost is_one = { λ number. number < 256 ^ 8 };

    fn read(_alloc: Global, rest: &mut Rest) -> Result<u64, BodyRefusal> {
        Ok(rest.take_number(8)?)
    }

    fn once() {}
}

impl<A: Readable, B: Readable> Readable for (A, B) {
    ghost body = { pair_body A.body B.body };

    ghost is_one = { IsPair A.is_one B.is_one };

    fn read(alloc: Global, rest: &mut Rest) -> Result<(A, B), BodyRefusal> {
        let first = A::read(alloc, rest)?;
        // Laws: no bytes begin with two first parts.
        A::once();
        let second = B::read(alloc, rest)?;
        Ok((first, second))
    }

    fn once() {
        // Laws: the same for each of the two.
        A::once();
        B::once();
    }
}

impl<T: Readable> Readable for Option<T> {
    ghost body = { option_body T.body };

    ghost is_one = { λ option. IfSome option T.is_one };

    fn read(alloc: Global, rest: &mut Rest) -> Result<Option<T>, BodyRefusal> {
        match rest.take_byte()? {
            0 => Ok(None),
            1 => Ok(Some(T::read(alloc, rest)?)),
            _ => Err(BodyRefusal::NotBody),
        }
    }

    fn once() {
        // Laws: no bytes begin with two contents.
        T::once();
    }
}

impl<T: Readable> Readable for Seq<T> {
    ghost body = { list_body T.body };

    ghost is_one = { IsList T.is_one };

    fn read(alloc: Global, rest: &mut Rest) -> Result<Seq<T>, BodyRefusal> {
        let count = rest.take_number(4)?;
        Ok(Seq::of(read_items(alloc, rest, count)?))
    }

    fn once() {
        // Laws: no bytes begin with two items.
        T::once();
    }
}

/// Reads this number of values, one after the other.
pub fn read_items<T: Readable>(
    alloc: Global,
    rest: &mut Rest,
    count: u64,
) -> Result<Vec<T>, BodyRefusal>
    ensures found { IfOk result (λ items. (length items.items ≡ count) × Each T.is_one items.items
        × (rest.old ≡ flat_map T.body items.items ++ rest.new)) }
    ensures not_body { IsErrOf result BodyRefusal.NotBody
        → Refuses (λ items. (length items ≡ count) × Each T.is_one items) (flat_map T.body) rest.old }
{
    // Laws: no bytes begin with two items.
    T::once();
    let mut items = Vec::new(alloc);
    for _ in 0..count {
        items.push(T::read(alloc, rest)?)?;
    }
    Ok(items)
}
