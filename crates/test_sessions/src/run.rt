//! What comes of lines.
use crate::answers::{keep, kept};
use crate::client::{event, flush, guest, link, user};
use crate::script::{line, script};
use afp_base::OutOfMemory;
use afp_client::ClientCore;
use replay_cache::Cache;
use std::alloc::Global;
use test_lines::{AnswersLines, LineResult, word_at};

/// The client of the lines so far, and the answers that a session keeps.
#[derive(Drop)]
pub struct Run {
    client: ClientCore,
    cache: Cache,
}

impl Run {
    pub fn new(alloc: Global) -> Result<Run, OutOfMemory> {
        Ok(Run {
            client: guest(alloc)?,
            cache: Cache::new(alloc)?,
        })
    }

    /// Another client.
    fn with_user(
        &mut self,
        alloc: Global,
        words: &[&str],
    ) -> Result<Option<LineResult>, OutOfMemory> {
        match user(alloc, words)? {
            Some(client) => {
                self.client = client;
                Ok(Some(LineResult::Nothing))
            }
            None => Ok(Some(LineResult::Word("no user"))),
        }
    }

    fn client_line(
        &mut self,
        alloc: Global,
        words: &[&str],
    ) -> Result<Option<LineResult>, OutOfMemory> {
        match word_at(words, 0) {
            "guest" => {
                self.client = guest(alloc)?;
                Ok(Some(LineResult::Nothing))
            }
            "user" => self.with_user(alloc, words),
            "link" => link(alloc, &mut self.client, words),
            "event" => event(alloc, &mut self.client),
            "flush" => flush(alloc, &mut self.client, words),
            "broke" => {
                self.client.broke();
                Ok(Some(LineResult::Nothing))
            }
            _ => Ok(None),
        }
    }
}

impl AnswersLines for Run {
    fn answer(&mut self, alloc: Global, words: &[&str]) -> Result<Option<LineResult>, OutOfMemory> {
        match word_at(words, 0) {
            "keep" => keep(alloc, &mut self.cache, words),
            "kept" => kept(alloc, &self.cache, words),
            "script" => script(alloc, words),
            "line" => line(alloc, words),
            _ => self.client_line(alloc, words),
        }
    }
}
