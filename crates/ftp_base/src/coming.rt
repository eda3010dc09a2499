//! What is still to come of a list.

ghost use Rattle.std.specs.Prelude.{◌≡◌, drop, slice_get};

use std::marker::Model;

/// Gives the values of a list in order, each once.
#[derive(Drop)]
pub struct Coming<T: Copy> {
    items: Vec<T>,
    at: usize,
}

impl<T: Copy> Model for Coming<T> {
    ghost use Rattle.std.specs.Prelude.{List, ◌≤◌, length, drop};
    ghost use Rattle.std.specs.Coded.{coded_list};

    ghost Value = { List T };

    ghost coded = { coded_list T.code };

    ghost view = { λ c. drop c.at c.items.items };

    ghost invariant = { λ c. c.at ≤ length c.items.items };
}

impl<T: Copy> Coming<T> {
    pub fn new(items: Vec<T>) -> Coming<T>
        ensures { result ≡ items.items }
    {
        Coming { items, at: 0 }
    }

    /// The next value, where one is left.
    pub fn next(&mut self) -> Option<T>
        ensures next { result ≡ slice_get self.old 0 }
        ensures rest { self.new ≡ drop 1 self.old }
    {
        if self.at < self.items.len() {
            let item = self.items[self.at];
            self.at += 1;
            Some(item)
        } else {
            None
        }
    }
}
