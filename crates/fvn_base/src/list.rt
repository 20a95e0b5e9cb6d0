//! A list of values.
ghost use Rattle.std.specs.Prelude.{◌≡◌, [], length, nat_eq, IfOk};
ghost use Rattle.fvn_base.specs.Listed.{listed_by, with_new};

use crate::memory::NoMemory;
use std::alloc::Global;
use std::marker::Model;

/// Any number of values in their order; contracts see it as the list of them.
///
/// It is made from a `Vec` and gives it back without taking memory.
#[derive(Debug, Drop)]
pub struct Seq<T> {
    items: Vec<T>,
}

impl<T> Model for Seq<T> {
    ghost use Rattle.std.specs.Prelude.{List};

    ghost Value = { List T };

    ghost view = { λ s. s.items.items };
}

impl<T> Seq<T> {
    /// The list without a value.
    pub fn new(alloc: Global) -> Seq<T>
        ensures { result ≡ [] }
    {
        Seq {
            items: Vec::new(alloc),
        }
    }

    /// The list of these values.
    pub fn from_vec(items: Vec<T>) -> Seq<T>
        ensures { result ≡ items.items }
    {
        Seq { items }
    }

    /// The list of these values, in memory of its own.
    pub fn from_slice(alloc: Global, items: &[T]) -> Result<Seq<T>, NoMemory>
    where
        T: Copy,
        ensures { IfOk result (λ list. list ≡ items.now) }
    {
        match Vec::from_slice(alloc, items) {
            Ok(items) => Ok(Seq { items }),
            Err(_) => Err(NoMemory),
        }
    }

    /// The values as a vector.
    pub fn into_vec(self) -> Vec<T>
        ensures { result.items ≡ self }
    {
        self.items
    }

    /// The values as a slice.
    pub fn as_slice(&self) -> &[T]
        ensures { result.now ≡ self.now }
    {
        self.items.as_slice()
    }

    /// The number of values.
    pub fn len(&self) -> usize
        ensures { result ≡ length self.now }
    {
        self.items.len()
    }

    /// Whether there is no value.
    pub fn is_empty(&self) -> bool
        ensures { result ≡ nat_eq (length self.now) 0 }
    {
        self.items.is_empty()
    }
}

/// Whether the value stands in the list.
pub fn is_listed<T: PartialEq>(items: &[T], value: &T) -> bool
    ensures { result ≡ listed_by T.eq items.now value.now }
{
    items.contains(value)
}

/// The list with the value at its end, if it is not there yet.
pub fn with_new<T: Copy + PartialEq>(items: Vec<T>, value: T) -> Result<Vec<T>, NoMemory>
    ensures { IfOk result (λ all. all.items ≡ with_new T.eq items.items value) }
{
    let mut all = items;
    if is_listed(all.as_slice(), &value) {
        return Ok(all);
    }
    all.push(value)?;
    Ok(all)
}
