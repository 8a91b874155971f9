//! The server that a capture is replayed on, and its connections.
ghost use Rattle.std.specs.Prelude.{◌≡◌, ◌<◌, ℕ, suc, false, Some, IfOk, OnOk, length, drop, option_map};
ghost use Rattle.capture_log_lines.specs.declared.log.line.What.{What};
ghost use Rattle.capture_log_server.specs.Running.{AreUnused, Happened};
ghost use Rattle.capture_log_server.specs.Running.{HappensBy};
ghost use Rattle.capture_log_server.specs.CaptureState.{CaptureState, is_refused_on};
ghost use Rattle.afp_serial.specs.History.{stand};
ghost use Rattle.afp_serial.specs.World.{fresh_world, volume_at};
ghost use Rattle.capture_log_server.specs.Connections.{output};

use crate::connection::Connection;
use crate::difference::Difference;
use crate::replay_counts::ReplayCounts;
use crate::slots::{
    compare_at, feed_at, idle_at, is_lost_at, is_over_at, is_used_at, lose_at, uncompared_at,
};
use crate::teller::SoleTeller;
use afp_base::{Moment, OutOfMemory, VolumeId};
use afp_serial::House;
use afp_server::Tally;
use capture_log_lines::{LAST_LINK, What};
use std::alloc::Global;
use std::marker::Model;

/// A house, a teller that serves it, its connections, and what was counted.
#[derive(Drop)]
pub struct Running<T: SoleTeller> {
    alloc: Global,
    house: House,
    teller: T,
    connections: Vec<Connection>,
    links: u64,
    replies: u64,
    refused: u64,
}

impl<T: SoleTeller> Model for Running<T> {
    ghost use Rattle.capture_log_server.specs.States.{RunningState};

    ghost Value = { RunningState };

    ghost view = { λ r. record {
      house = r.house;
      teller = T.shown r.teller;
      connections = r.connections.items;
      links = r.links;
      replies = r.replies;
      refused = r.refused;
    } };
}

/// As many connections as there may be, one of each number.
const CONNECTIONS: usize = LAST_LINK as usize;

/// As many connections as there may be, none of which was named.
fn no_connections(alloc: Global) -> Result<Vec<Connection>, OutOfMemory>
    ensures size { IfOk result (λ connections. length connections.items ≡ CONNECTIONS) }
    ensures unused { IfOk result (λ connections. AreUnused connections.items) }
{
    let mut connections = Vec::new(alloc);
    while connections.len() < CONNECTIONS {
        connections.push(Connection::new(alloc))?;
    }
    Ok(connections)
}

impl<T: SoleTeller> Running<T> {
    ghost use Rattle.std.specs.Prelude.{if◌then◌else◌};
    ghost use Rattle.capture_log_server.specs.Running.{IsFreshRunning};
    ghost use Rattle.capture_log_server.specs.Sole.{IsFreshTeller};
    ghost use Rattle.capture_log_server.specs.Counting.{AreCaptureCounts};

    /// A server over a teller that nobody has asked, which serves this house from a moment on.
    pub fn new(alloc: Global, house: House, teller: T) -> Result<Running<T>, OutOfMemory>
        ensures { IfOk result (λ running. (now : ℕ) → IsFreshTeller house now (T.shown teller) → IsFreshRunning house now running) }
    {
        let connections = no_connections(alloc)?;
        Ok(Running {
            alloc,
            house,
            teller,
            connections,
            links: 0,
            replies: 0,
            refused: 0,
        })
    }

    /// Whether the connection at a place was lost.
    pub fn is_lost(&self, index: usize) -> bool
        requires { index < length self.now.connections }
        ensures { (s : CaptureState) (first : ℕ) → IsRunning self.now s first → result ≡ (s.connections (suc index)).lost }
    {
        is_lost_at(self.connections.as_slice(), index)
    }

    /// How many nodes the volume of an id has, its root among them. `None`: there is no such volume.
    pub fn nodes(&self, volume: VolumeId) -> Option<usize>
        ensures { (s : CaptureState) (first : ℕ) → IsRunning self.now s first
            → result ≡ option_map (λ v. length v.rows) (volume_at (stand (fresh_world s.house first) s.history).volumes volume.0) }
    {
        self.teller.nodes(volume)
    }

    /// What of the output of the connection at a place was not compared yet.
    pub fn uncompared(&self, index: usize) -> &[u8]
        requires { index < length self.now.connections }
        ensures { (s : CaptureState) (first : ℕ) → IsRunning self.now s first
            → result.now ≡ drop (s.connections (suc index)).named (output (s.connections (suc index))) }
    {
        uncompared_at(self.connections.as_slice(), index)
    }

    /// What was counted.
    pub fn counts(&self) -> ReplayCounts
        ensures { (s : CaptureState) (first : ℕ) → IsRunning self.now s first → AreCaptureCounts s result.links result.entries result.replies result.refused }
    {
        ReplayCounts {
            links: self.links,
            entries: self.teller.entries(),
            replies: self.replies,
            refused: self.refused,
        }
    }

    ghost use Rattle.afp_base.specs.Counts.{counted};
    ghost use Rattle.capture_log_server.specs.States.{IsRunning};

    /// Counts what was answered on a connection, to which bytes were fed before or not.
    fn count(&mut self, used: bool, tally: Tally)
        ensures { self.new ≡ record self.old {
          links = if used then self.old.links else counted 1 self.old.links;
          replies = counted tally.replies self.old.replies;
          refused = counted tally.refused self.old.refused;
        } }
    {
        if !used {
            self.links = self.links.saturating_add(1);
        }
        self.replies = self.replies.saturating_add(tally.replies);
        self.refused = self.refused.saturating_add(tally.refused);
    }

    /// Feeds bytes to the connection at a place, which was not lost.
    fn feed(&mut self, index: usize, piece: &[u8], now: Moment) -> Result<(), OutOfMemory>
        requires within { index < length self.old.connections }
        requires is { (s : CaptureState) × (first : ℕ) × IsRunning self.old s first × ((s.connections (suc index)).lost ≡ false) }
        ensures { OnOk result ((s : CaptureState) (first : ℕ) → IsRunning self.old s first → s.start ≡ Some first
            → Happened s (suc index) now (What.In piece.now) first self.new) }
    {
        if is_over_at(self.connections.as_slice(), index) {
            return Ok(());
        }
        let used = is_used_at(self.connections.as_slice(), index);
        let tally = feed_at(
            self.connections.as_mut_slice(),
            index,
            self.alloc,
            &self.house,
            piece,
            now,
            &mut self.teller,
        )?;
        self.count(used, tally);
        Ok(())
    }

    /// A quiet of it.
    fn idle(&mut self, index: usize, now: Moment) -> Result<(), OutOfMemory>
        requires { index < length self.old.connections }
        ensures { OnOk result ((s : CaptureState) (first : ℕ) → IsRunning self.old s first → s.start ≡ Some first
            → Happened s (suc index) now What.Quiet first self.new) }
    {
        let slots = self.connections.as_mut_slice();
        idle_at(slots, index, now, &mut self.teller)
    }

    /// Its loss.
    fn lose(&mut self, index: usize, now: Moment) -> Result<(), OutOfMemory>
        requires { index < length self.old.connections }
        ensures { OnOk result ((s : CaptureState) (first : ℕ) → IsRunning self.old s first → s.start ≡ Some first
            → Happened s (suc index) now What.Lost first self.new) }
    {
        let slots = self.connections.as_mut_slice();
        lose_at(slots, index, now, &mut self.teller)
    }

    /// Compares bytes with its output.
    fn compare(&mut self, index: usize, wanted: &[u8]) -> Result<Option<Difference>, OutOfMemory>
        requires { index < length self.old.connections }
        ensures { IfOk result (λ found. (s : CaptureState) (first now : ℕ) → IsRunning self.old s first → s.start ≡ Some first
            → HappensBy s (suc index) now (What.Out wanted.now) first found self.new) }
    {
        compare_at(self.connections.as_mut_slice(), index, wanted)
    }

    /// What happens on the connection at a place, and the first byte that differs, where bytes are compared.
    pub fn happen(
        &mut self,
        index: usize,
        now: Moment,
        what: &What,
    ) -> Result<Option<Difference>, OutOfMemory>
        requires within { index < length self.old.connections }
        requires is { (s : CaptureState) × (first : ℕ) × IsRunning self.old s first × (is_refused_on (s.connections (suc index)) what.now ≡ false) }
        ensures { IfOk result (λ found. (s : CaptureState) (first : ℕ) → IsRunning self.old s first → s.start ≡ Some first
            → HappensBy s (suc index) now what.now first found self.new) }
    {
        match what {
            What::In(piece) => {
                self.feed(index, piece.as_slice(), now)?;
                Ok(None)
            }
            What::Quiet => {
                self.idle(index, now)?;
                Ok(None)
            }
            What::Lost => {
                self.lose(index, now)?;
                Ok(None)
            }
            What::Out(wanted) => self.compare(index, wanted.as_slice()),
        }
    }
}
