//! Which line may come where.
ghost use Rattle.std.specs.Prelude.{◌≡◌};
ghost use Rattle.capture_log_server.specs.CaptureState.{part_after};

use capture_log_lines::Line;

/// What may come next in a capture.
#[derive(Clone, Copy, Debug, PartialEq, Eq)]
pub enum Part {
    Title,
    Server,
    Signature,
    /// Users, or the first volume.
    Users,
    /// Volumes, or the key.
    Volumes,
    /// What happened, or the end.
    Events,
    Nothing,
}

/// The part that follows this one, where the line may come in it.
pub fn part_after(part: Part, line: &Line) -> Option<Part>
    ensures { result ≡ part_after part line.now }
{
    match (part, line) {
        (Part::Title, Line::Title) => Some(Part::Server),
        (Part::Server, Line::Server(_)) => Some(Part::Signature),
        (Part::Signature, Line::Signature(_)) => Some(Part::Users),
        (Part::Users, Line::User { .. }) => Some(Part::Users),
        (Part::Users, Line::Volume(_)) => Some(Part::Volumes),
        (Part::Volumes, Line::Volume(_)) => Some(Part::Volumes),
        (Part::Volumes, Line::Key(_)) => Some(Part::Events),
        (Part::Events, Line::At { .. }) => Some(Part::Events),
        (Part::Events, Line::End) => Some(Part::Nothing),
        _ => None,
    }
}
