//! The entries of a list.
ghost use Rattle.std.specs.Prelude.{◌≡◌, ◌∷◌, ◌++◌, [], OnOk, OnErr};

use afp_base::OutOfMemory;
use afp_bitmap::Values;
use std::alloc::Global;
use std::marker::Model;

/// A file or a directory in a list (AFP Reference, "FPEnumerate").
#[derive(Drop)]
pub struct ListEntry {
    pub values: Values,
}

/// The entries of a list, in order. Contracts see them as a list.
#[derive(Drop)]
pub struct ListRows(Vec<ListEntry>);

impl Model for ListRows {
    ghost use Rattle.std.specs.Prelude.{List};
    ghost use Rattle.afp_replies.specs.declared.list.ListEntry.{ListEntry};

    ghost Value = { List ListEntry };

    ghost view = { λ a. a.0.items };
}

impl ListRows {
    /// No entries. It takes no memory.
    pub fn new(alloc: Global) -> ListRows
        ensures { result ≡ [] }
    {
        ListRows(Vec::new(alloc))
    }

    /// Appends an entry. An error changes nothing.
    pub fn push(&mut self, entry: ListEntry) -> Result<(), OutOfMemory>
        ensures ok { OnOk result (self.new ≡ self.old ++ (entry ∷ [])) }
        ensures err { OnErr result (self.new ≡ self.old) }
    {
        self.0.push(entry)?;
        Ok(())
    }

    /// The entries, lent.
    pub fn as_slice(&self) -> &[ListEntry]
        ensures { result.now ≡ self.now }
    {
        self.0.as_slice()
    }
}
