//! An owned list.
ghost use Rattle.std.specs.Prelude.{◌≡◌, [], ◌∷◌, ◌++◌, ◌<◌, ◌≤◌, length, slice_get, slice_set, remove, take, drop as drop_first, reverse as reversed, ◌↔◌, IsTrue, IfOk, MatchOption, OnOk, OnErr, OnSome};
ghost use Rattle.std.specs.Option.{option_copied};
ghost use Rattle.std.specs.Borrow.{Lends, sem};
ghost use Rattle.swc_tree_items.specs.contracts.items.Items.{the_row};

use std::alloc::{AllocError, Global};
use std::marker::Model;
use std::mem;

/// An owned list, which contracts see as the list of its elements.
///
/// Reading, replacing and taking out an element costs constant time, `remove` and `reverse` time in
/// step with the length. Only `append`, `insert_all`, `push`, `from_slice` and `with_capacity` take
/// memory.
#[derive(Debug, Drop)]
pub struct Items<T> {
    items: Vec<T>,
}

impl<T> Model for Items<T> {
    ghost use Rattle.std.specs.Prelude.{List};
    ghost use Rattle.std.specs.Coded.{coded_list};

    ghost Value = { List T };

    ghost coded = { coded_list T.code };

    ghost view = { λ it. it.items.items };
}

impl<T> Items<T> {
    /// The empty list.
    pub fn new(alloc: Global) -> Items<T>
        ensures { result ≡ [] }
    {
        Items {
            items: Vec::new(alloc),
        }
    }

    /// The empty list, with memory for `capacity` elements.
    pub fn with_capacity(alloc: Global, capacity: usize) -> Result<Items<T>, AllocError>
        ensures { IfOk result (λ it. it ≡ []) }
    {
        let items = Vec::with_capacity(alloc, capacity)?;
        Ok(Items { items })
    }

    /// The elements of a `Vec`, with its memory.
    pub fn from_vec(items: Vec<T>) -> Items<T>
        ensures { result ≡ items.items }
    {
        Items { items }
    }

    /// The elements as a `Vec`, with the list's memory.
    pub fn into_vec(self) -> Vec<T>
        ensures { result.items ≡ self }
    {
        let Items { items } = self;
        items
    }

    /// The elements as an array, where their number is known.
    pub fn into_array<const N: usize>(self) -> [T; N]
        requires { length self ≡ N }
        ensures { result ≡ self }
    {
        match <[T; N]>::try_from(self.into_vec()) {
            Ok(items) => items,
            Err(_) => unreachable!(),
        }
    }

    /// What the list takes its memory from.
    pub fn allocator(&self) -> Global {
        *self.items.allocator()
    }

    /// The elements in place.
    pub fn as_slice(&self) -> &[T]
        ensures { result.now ≡ self.now }
    {
        self.items.as_slice()
    }

    /// How many elements there are.
    pub fn len(&self) -> usize
        ensures { result ≡ length self.now }
    {
        self.items.len()
    }

    /// Whether there is no element.
    pub fn is_empty(&self) -> bool
        ensures { IsTrue result ↔ (self.now ≡ []) }
    {
        self.items.is_empty()
    }

    /// The element at an index, or `None` past the end.
    pub fn get(&self, index: usize) -> Option<&T>
        ensures value { option_copied result ≡ slice_get self.now index }
        ensures within { OnSome result (index < length self.now) }
    {
        self.items.get(index)
    }

    /// Puts an element in the place of another, which it answers.
    pub fn replace(&mut self, index: usize, item: T) -> T
        requires { index < length self.old }
        ensures taken { slice_get self.old index ≡ Some result }
        ensures list { self.new ≡ slice_set self.old index item }
    {
        mem::replace(&mut self.items[index], item)
    }

    /// The element at an index, to be changed in place.
    pub fn item_mut(&mut self, index: usize) -> &mut T
        requires { index < length self.old }
        ensures value { slice_get self.old index ≡ Some result.now }
        ensures* writes_back { sem 𝓛 (Lends (the_row T.row) T.row self.entry result (slice_set self.old index)) }
    {
        &mut self.items[index]
    }

    /// Moves the elements of `more` to the end. Where memory is refused, the list stays and `more` is dropped.
    pub fn append(&mut self, more: Items<T>) -> Result<(), AllocError>
    where
        T: Drop,
        ensures ok { OnOk result (self.new ≡ self.old ++ more) }
        ensures err { OnErr result (self.new ≡ self.old) }
    {
        let Items { mut items } = more;
        self.items.append(&mut items)
    }

    /// Moves the elements of `more` to before the element at an index, or to the end. Where memory is
    /// refused, the list stays and `more` is dropped.
    pub fn insert_all(&mut self, index: usize, more: Items<T>) -> Result<(), AllocError>
    where
        T: Drop,
        requires { index ≤ length self.old }
        ensures ok { OnOk result (self.new ≡ take index self.old ++ more ++ drop_first index self.old) }
        ensures err { OnErr result (self.new ≡ self.old) }
    {
        let Items { mut items } = more;
        let count = items.len();
        self.items.append(&mut items)?;
        self.items[index..].rotate_right(count);
        Ok(())
    }

    /// Puts the elements into the opposite order.
    pub fn reverse(&mut self)
        ensures { self.new ≡ reversed self.old }
    {
        self.items.reverse();
    }

    /// Takes the last element out.
    pub fn pop(&mut self) -> Option<T>
        ensures { MatchOption result ((self.old ≡ []) × (self.new ≡ [])) (λ last. self.old ≡ self.new ++ last ∷ []) }
    {
        self.items.pop()
    }
}

impl<T: Copy> Items<T> {
    /// A copy of a slice.
    pub fn from_slice(alloc: Global, items: &[T]) -> Result<Items<T>, AllocError>
        ensures { IfOk result (λ it. it ≡ items.now) }
    {
        let items = Vec::from_slice(alloc, items)?;
        Ok(Items { items })
    }
}

impl<T: Drop> Items<T> {
    /// Adds an element at the end. Where memory is refused, the list stays and the element is dropped.
    pub fn push(&mut self, item: T) -> Result<(), AllocError>
        ensures ok { OnOk result (self.new ≡ self.old ++ item ∷ []) }
        ensures err { OnErr result (self.new ≡ self.old) }
    {
        self.items.push(item)?;
        Ok(())
    }

    /// Puts an element in the place of another, which is dropped.
    pub fn set(&mut self, index: usize, item: T)
        requires { index < length self.old }
        ensures { self.new ≡ slice_set self.old index item }
    {
        self.items[index] = item;
    }

    /// Takes an element out and closes the gap.
    pub fn remove(&mut self, index: usize) -> T
        requires { index < length self.old }
        ensures item { slice_get self.old index ≡ Some result }
        ensures rest { self.new ≡ remove self.old index }
    {
        self.items.remove(index)
    }

    /// Drops all elements.
    pub fn clear(&mut self)
        ensures { self.new ≡ [] }
    {
        self.items.clear();
    }
}
