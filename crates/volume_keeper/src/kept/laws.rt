//! Laws of a volume beside its keeper. Each function says one, and does nothing.
ghost use Rattle.volume_keeper.specs.kept.LineLaws as laws;

/// A read up to a character stops at the first byte that is it under the mask.
pub fn lines_stop_at_characters()
    ensures stopped { laws.LinesStop }
    ensures bytes { laws.LinesEnd }
{}
