//! A fork as edits leave it.
ghost use Rattle.std.specs.Prelude.{◌≡◌, [], length, option_map, unwrap_or, if◌then◌else◌};
ghost use Rattle.std.specs.Option.{option_copied};
ghost use Rattle.volume_tree.specs.declared.forks.FileForks.{FileForks as Forks};

use fork_bytes::{Fork, ForkWrite};
use std::marker::Model;
use volume_tree::FileForks;

/// Where the bytes of a fork stand.
#[derive(Drop)]
enum Source<'a> {
    Nowhere,
    Kept { fork: &'a Fork },
    Written { write: &'a ForkWrite },
}

/// A fork as edits leave it, lent from the volume or from the edits.
///
/// Contracts see its bytes.
#[derive(Drop)]
pub struct ForkAfter<'a>(Source<'a>);

impl<'a> Model for ForkAfter<'a> {
    ghost use Rattle.std.specs.Prelude.{ℕ, List, []};
    ghost use Rattle.volume_edits.specs.declared.edits.fork_after.Source.TheVariants as source;

    ghost Value = { List ℕ };

    ghost view = { λ a. elim a.0 [ source.Nowhere ↦ [] | source.Kept fork ↦ fork.now | source.Written write ↦ write.now.after ] };
}

impl<'a> ForkAfter<'a> {
    /// A fork as it is.
    pub(crate) fn kept(fork: &'a Fork) -> ForkAfter<'a>
        ensures { result ≡ fork.now }
    {
        ForkAfter(Source::Kept { fork })
    }

    /// The one fork or the other of a file as it is, of no bytes where there is none.
    pub(crate) fn kept_or_none(forks: Option<&'a FileForks>, resource: bool) -> ForkAfter<'a>
        ensures { result ≡ unwrap_or (option_map (λ (kept : Forks). if resource then kept.resource_fork else kept.data_fork) (option_copied forks.entry)) [] }
    {
        match forks {
            Some(forks) => ForkAfter::kept(forks.fork(resource)),
            None => ForkAfter(Source::Nowhere),
        }
    }

    /// A fork as a write leaves it.
    pub(crate) fn written(write: &'a ForkWrite) -> ForkAfter<'a>
        ensures { result ≡ write.now.after }
    {
        ForkAfter(Source::Written { write })
    }

    /// The same once more.
    pub(crate) fn again(&self) -> ForkAfter<'a>
        ensures { result ≡ self.now }
    {
        match &self.0 {
            Source::Nowhere => ForkAfter(Source::Nowhere),
            Source::Kept { fork } => ForkAfter::kept(fork),
            Source::Written { write } => ForkAfter::written(write),
        }
    }

    /// How many bytes it has.
    pub fn len(&self) -> u64
        ensures { result ≡ length self.now }
    {
        match &self.0 {
            Source::Nowhere => 0,
            Source::Kept { fork } => fork.len(),
            Source::Written { write } => write.plan().len(),
        }
    }
}
