//! A list in a public field.
ghost use Rattle.std.specs.Prelude.{◌≡◌};

use std::marker::Model;

/// A vector that contracts see as the list of its items.
#[derive(Drop)]
pub struct List<X> {
    items: Vec<X>,
}

impl<X> Model for List<X> {
    ghost use Rattle.std.specs.Prelude.{List as Items};

    ghost Value = { Items X };

    ghost view = { λ a. a.items.items };
}

impl<X> List<X> {
    /// Keeps the items as they are, and takes no memory.
    pub fn of(items: Vec<X>) -> List<X>
        ensures { result ≡ items.items }
    {
        List { items }
    }

    /// The items, in their order. Takes no memory.
    pub fn items(&self) -> &[X]
        ensures { result.now ≡ self.now }
    {
        self.items.as_slice()
    }
}
