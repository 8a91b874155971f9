//! What holds of every request and every block. The contract of each function says laws, and its
//! body does nothing.
ghost use Rattle.afp_calls_grammar.specs.grammar.Laws.{IsFunction, SpellsOne, CanonicalIsSpelt, CanonicalIsReadAgain, CanonicalIsOfOne, SpeltCanBeWritten, UnknownIsNotSpelt};

/// A block and what comes with it spell at most one request, and it is the one that `spelt_call`
/// gives. A block whose first byte is no command spells none.
pub fn one_request_for_each()
    ensures one { SpellsOne }
    ensures function { IsFunction }
    ensures unknown { UnknownIsNotSpelt }
{}

/// The canonical spelling of a request is spelt by it alone, and is read as it again.
pub fn what_is_written_is_read_again()
    ensures spelt { CanonicalIsSpelt }
    ensures one { CanonicalIsOfOne }
    ensures again { CanonicalIsReadAgain }
{}

/// Whatever bytes spell a request, it can be written.
pub fn what_is_spelt_can_be_written()
    ensures { SpeltCanBeWritten }
{}
