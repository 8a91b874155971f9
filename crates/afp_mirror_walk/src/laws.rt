//! Laws. Each function says one, and does nothing.
ghost use Rattle.afp_mirror_walk.specs.Copies as copies;
ghost use Rattle.afp_mirror_walk.specs.Created as created;
ghost use Rattle.afp_mirror_walk.specs.Names as names;
ghost use Rattle.afp_mirror_walk.specs.Settled as settled;

/// A fork that is copied piece by piece has the first bytes of the other behind each piece, and all of them behind a short one.
pub fn pieces_are_copied()
    ensures copied { copies.PieceIsCopied }
    ensures last { copies.ShortIsLast }
    ensures counted { copies.PieceIsCounted }
{}

/// A node that was created is there, and the others are as they were.
pub fn a_new_node_is_there()
    ensures there { created.NewIsThere }
    ensures others { created.OthersAreAsBefore }
{}

/// What a list tells of a node is what is set of the node that is made for it.
pub fn what_is_told_is_set()
    ensures tail { settled.TailIsSettings }
    ensures settles { settled.SettingsSettle }
    ensures told { settled.ToldHasSet }
{}

/// A path of one name goes down once, and a path of no bytes nowhere. What is created under a name in a directory is created there, and was not there.
pub fn names_are_places()
    ensures steps { names.NamesAreSteps }
    ensures none { names.NoneIsNoStep }
    ensures dirs { names.DirsAreCreated }
    ensures files { names.FilesAreCreated }
    ensures found { names.DirsAreFound }
{}
