//! Long lists that free their memory while they are consumed.
ghost use Rattle.std.specs.Prelude.{◌≡◌};
ghost use Rattle.std.specs.Iterator.{YieldsFirst, item_count};

use std::marker::Model;

/// A list whose buffer has room for at most this many items keeps its buffer until the list is dropped.
const SMALL_BLOCK: usize = 4096;

/// An iterator over the items of a list. It frees memory on the way.
///
/// A `Vec` keeps its buffer until it is dropped. A `Rest` shrinks a large buffer when more than a quarter of the buffer
/// is unused. Shrinking may move the remaining items, but there are fewer than four moves per item of the list in
/// total.
#[derive(Drop)]
pub struct Rest<T> {
    /// The items in reverse order: the next item is the last of this vector.
    turned: Vec<T>,
}

impl<T> Model for Rest<T> {
    ghost use Rattle.std.specs.Prelude.{List, reverse};

    ghost Value = { List T };

    ghost view = { λ r. reverse r.turned.items };
}

impl<T> Rest<T> {
    /// Returns an iterator over the items of a list, in order.
    pub fn new(mut items: Vec<T>) -> Self
        ensures { result ≡ items.items }
    {
        items.reverse();
        Self { turned: items }
    }
}

impl<T: Drop> Iterator for Rest<T> {
    type Item = T;

    ghost next_gives = { YieldsFirst (λ r. r) };

    ghost remaining = { item_count (λ r. r) };

    fn next(&mut self) -> Option<T> {
        let next = self.turned.pop();
        let capacity = self.turned.capacity();
        if capacity > SMALL_BLOCK && self.turned.len() < capacity / 4 * 3 {
            self.turned.shrink_to_fit();
        }
        next
    }
}
