//! What is sent in a run.
use crate::frames::{behind, count, first_of};
use afp_base::{Bytes, OutOfMemory};
use std::alloc::Global;
use std::io;
use test_lines::lines::{TakesLines, bytes_of};

/// The frames of a run, and how many of them are its opening; and those by which a new link takes the session up.
#[derive(Drop)]
pub struct Script {
    frames: Bytes,
    opening: usize,
    joining: Bytes,
}

impl Script {
    /// Nothing is sent.
    pub fn new(alloc: Global) -> Script {
        Script {
            frames: Bytes::new(alloc),
            opening: 0,
            joining: Bytes::new(alloc),
        }
    }

    /// All frames of a run.
    pub fn frames(&self) -> &[u8] {
        self.frames.as_slice()
    }

    /// Sends a frame behind the others of its kind.
    fn put(&mut self, kind: &str, frame: &[u8]) -> Result<(), OutOfMemory> {
        match kind {
            "open" => {
                self.opening = self.opening.saturating_add(1);
                self.frames.extend(frame)
            }
            "call" => self.frames.extend(frame),
            "join" => self.joining.extend(frame),
            _ => Ok(()),
        }
    }

    /// Where the client had so many replies on its first link: all that it sends on its second one. With the reply to its opening's last request it has a token, by
    /// which it takes its session up, and goes on with the first request that has no reply. Before that it begins again.
    pub fn on_new_link(&self, alloc: Global, replies: usize) -> Result<Bytes, OutOfMemory> {
        if replies < self.opening {
            return self.frames.copy();
        }
        let mut sent = Bytes::of(alloc, self.joining.as_slice())?;
        sent.extend(behind(self.frames.as_slice(), replies))?;
        Ok(sent)
    }

    /// Whether the client had these replies on both links, but for those of openings.
    pub fn are_replied(&self, replies: usize, first: &[u8], second: &[u8], want: &[u8]) -> bool {
        if replies < self.opening {
            return behind(second, self.opening) == behind(want, self.opening);
        }
        let joining = count(self.joining.as_slice());
        first_of(first, replies) == first_of(want, replies)
            && behind(second, joining) == behind(want, replies)
    }
}

impl TakesLines for Script {
    fn take(&mut self, rt: &HostRuntime, _number: u64, line: &str) -> io::Result<()> {
        let Some((kind, digits)) = line.split_once(' ') else {
            return Ok(());
        };
        let frame = bytes_of(rt.alloc(), digits);
        match self.put(kind, frame.as_slice()) {
            Ok(()) => Ok(()),
            Err(OutOfMemory) => Err(crate::printed::memory_of()),
        }
    }
}
