//! The two lists that values are made of. Contracts see each as the list of its items: neither capacity nor address is
//! part of the value.

ghost use Rattle.std.specs.Prelude.{◌≡◌, ℕ, List, length};

use crate::memory::NoMemory;
use crate::plain_data::PlainData;
use std::alloc::Global;
use std::marker::Model;

/// Bytes.
#[derive(Drop)]
pub struct Octets {
    items: Vec<u8>,
}

impl Model for Octets {
    ghost Value = { List ℕ };

    ghost view = { λ octets. octets.items.items };
}

impl Octets {
    /// Wraps the bytes, without a copy.
    pub fn of(items: Vec<u8>) -> Octets
        ensures { result ≡ items.items }
    {
        Octets { items }
    }

    /// Returns the bytes, without a copy.
    pub fn into_vec(self) -> Vec<u8>
        ensures { result.items ≡ self }
    {
        let Octets { items } = self;
        items
    }

    pub fn bytes(&self) -> &[u8]
        ensures { result.now ≡ self.now }
    {
        self.items.as_slice()
    }
}

impl PlainData for Octets {
    fn try_clone(&self, alloc: Global) -> Result<Octets, NoMemory> {
        Ok(Octets::of(Vec::from_slice(alloc, self.bytes())?))
    }

    fn same(&self, other: &Octets) -> bool {
        self.bytes() == other.bytes()
    }
}

/// Values of one type, in order.
#[derive(Drop)]
pub struct Seq<T> {
    items: Vec<T>,
}

impl<T> Model for Seq<T> {
    ghost Value = { List T };

    ghost view = { λ list. list.items.items };
}

impl<T> Seq<T> {
    /// Wraps the values, without a copy.
    pub fn of(items: Vec<T>) -> Seq<T>
        ensures { result ≡ items.items }
    {
        Seq { items }
    }

    /// Returns the values, without a copy.
    pub fn into_vec(self) -> Vec<T>
        ensures { result.items ≡ self }
    {
        let Seq { items } = self;
        items
    }

    pub fn items(&self) -> &[T]
        ensures { result.now ≡ self.now }
    {
        self.items.as_slice()
    }
}

impl<T: PlainData + Drop> PlainData for Seq<T> {
    fn try_clone(&self, alloc: Global) -> Result<Seq<T>, NoMemory> {
        let mut copies = Vec::with_capacity(alloc, self.items.len())?;
        for item in self.items() {
            copies.push(item.try_clone(alloc)?)?;
        }
        Ok(Seq::of(copies))
    }

    fn same(&self, other: &Seq<T>) -> bool {
        let (items, others) = (self.items(), other.items());
        if items.len() != others.len() {
            return false;
        }
        for (item, other) in items.iter().zip(others) {
            if !item.same(other) {
                return false;
            }
        }
        true
    }
}
