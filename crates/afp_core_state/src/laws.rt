//! A law of the open forks. The function says it, and does nothing.
ghost use Rattle.afp_core_state.specs.Forks.{ClosingUndoes};

/// Closing the fork that was opened last undoes its opening: the open forks and the locks are what they were.
pub fn closing_undoes_an_open()
    ensures { ClosingUndoes }
{}
