//! A list that only proofs read. It takes no memory, and its methods do nothing at run time.
ghost use Rattle.std.specs.Prelude.{◌≡◌, List, [], ◌∷◌, ◌++◌};
ghost use Rattle.std.specs.Borrow.{ftrue};

use std::marker::{Model, PhantomData};

/// Values in the order in which they were noted, each as the proof of whoever noted it names it. A clause reads them as `items`; no program
/// does.
#[derive(Drop)]
pub struct Notes<T> {
    of: PhantomData<T>,
    pub ghost items: { List T },
}

impl<T> Model for Notes<T> {
    ghost also_owns = { λ _. ftrue };
}

impl<T> Notes<T> {
    /// No values.
    pub fn new() -> Notes<T>
        ensures { result.items ≡ [] }
    {
        Notes { of: PhantomData }
    }

    /// The same values, and one more behind them, which the caller's proof names by the item that it lends. So values of a type with a
    /// lifetime are noted in one list, whatever their lifetimes are.
    pub fn and<U>(&self, item: &U) -> Notes<T>
        ghost noted: { T }
        ensures { result.items ≡ self.now.items ++ noted ∷ [] }
    {
        Notes { of: PhantomData }
    }
}
