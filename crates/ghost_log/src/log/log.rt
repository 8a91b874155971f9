//! A list that only proofs read. It takes no memory, and its methods do nothing at run time.
ghost use Rattle.std.specs.Prelude.{◌≡◌, List, [], ◌∷◌, ◌++◌};
ghost use Rattle.std.specs.Borrow.{ftrue};

use std::marker::{Model, PhantomData};

/// Values in the order in which they were noted. A clause reads them as `items`; no program does.
#[derive(Drop)]
pub struct Log<T> {
    of: PhantomData<T>,
    pub ghost items: { List T },
}

impl<T> Model for Log<T> {
    ghost also_owns = { λ _. ftrue };
}

// It owns nothing.
unsafe impl<T: Send> Send for Log<T> {}

impl<T> Log<T> {
    /// No values.
    pub fn new() -> Log<T>
        ensures { result.items ≡ [] }
    {
        Log { of: PhantomData }
    }

    /// The same values, and one more behind them.
    pub fn and(&self, item: &T) -> Log<T>
        ensures { result.items ≡ self.now.items ++ item.now ∷ [] }
    {
        Log { of: PhantomData }
    }
}
