//! A client with its links and the teller, from one happening to the next.
ghost use Rattle.std.specs.Prelude.{◌≡◌, ◌&&◌, List, ℕ, Bool, true, IfOk, OnOk};
ghost use Rattle.afp_client.specs.session.Opening.{FitsLogin};
ghost use Rattle.afp_serial.specs.StatusBlock.{status_block};
ghost use Rattle.once_across_breaks_code.specs.run.Things.{Things, begun_things};
ghost use Rattle.once_across_breaks_live.specs.lemma.Running.{BeginsLane, Comes, IsPlace, IsStanding, IsSure, Stands};

use crate::client_end::{ClientEnd, ask_at, bring_at};
use crate::happening::Happening;
use crate::lane::{Lane, feed_at, idle_at, lose_at};
use afp_base::{Bytes, LinkNumber, MAX_PAYLOAD, Moment, OutOfMemory};
use afp_calls_grammar::Call;
use afp_client::{ClientCore, Login};
use afp_serial::{Ask, House, Teller};
use afp_server::Wire;
use std::alloc::Global;

/// The bytes of the longest block that is told.
const MOST_PAYLOAD: usize = MAX_PAYLOAD as usize;

/// A client, its links in the order in which it began them, and the teller behind their server ends.
#[derive(Drop)]
pub(crate) struct Running<T: Teller + Drop> {
    pub(crate) alloc: Global,
    pub(crate) end: ClientEnd,
    pub(crate) lanes: Vec<Lane>,
    pub(crate) teller: T,
    pub(crate) answered: bool,
}

/// The place of the link of this number among so many.
fn place_of(link: u32, links: usize) -> Option<usize>
    ensures { IsPlace link links result }
{
    if link == 0 {
        return None;
    }
    let place = (link - 1) as usize;
    if place < links { Some(place) } else { None }
}

/// Both.
fn both(first: bool, second: bool) -> bool
    ensures { result ≡ (first && second) }
{
    first && second
}

/// A link that the client begins.
fn begin(alloc: Global, house: &House, client: &mut ClientCore) -> Result<Lane, OutOfMemory>
    ensures { IfOk result (λ lane. BeginsLane (status_block house.now) client.old lane client.new) }
{
    let wire = Wire::new(alloc, house, Moment::new(0).unwrap())?;
    let mut up = Bytes::new(alloc);
    client.start(&mut up)?;
    let down = Bytes::new(alloc);
    Ok(Lane {
        wire: Some(wire),
        fed: 0,
        up,
        down,
    })
}

impl<T: Teller + Drop> Running<T> {
    /// A client that has begun its first link.
    pub(crate) fn new(
        alloc: Global,
        login: Login,
        house: &House,
        teller: T,
    ) -> Result<Running<T>, OutOfMemory>
        requires { FitsLogin login }
        ensures { IfOk result (λ r. Stands r.end r.lanes.items (T.shown r.teller) (begun_things (status_block house.now) login (T.shown teller))) }
    {
        let mut client = ClientCore::new(alloc, login)?;
        let lane = begin(alloc, house, &mut client)?;
        let mut lanes = Vec::new(alloc);
        lanes.push(lane)?;
        let results = Vec::new(alloc);
        Ok(Running {
            alloc,
            end: ClientEnd {
                client,
                came: 0,
                results,
            },
            lanes,
            teller,
            answered: true,
        })
    }

    /// The client asks a call.
    fn asks(&mut self, call: &Call) -> Result<(), OutOfMemory>
        requires { IsStanding self.old.end self.old.lanes.items (T.shown self.old.teller) }
        ensures comes { OnOk result ((block : List ℕ) (sure : Bool) (t : Things) → IsSure sure self.new.answered → Stands self.old.end self.old.lanes.items (T.shown self.old.teller) t
            → Comes (record { block = block; answered = sure }) (Happening.Asks call.now) t self.new.end self.new.lanes.items (T.shown self.new.teller)) }
        ensures kept { OnOk result (IsSure self.new.answered self.old.answered) }
    {
        let newest = self.lanes.len() - 1;
        let lanes = self.lanes.as_mut_slice();
        ask_at(&mut self.end, lanes, newest, self.alloc, call)
    }

    /// Bytes reach a server end.
    fn to_server(&mut self, link: u32, most: u32, now: Moment) -> Result<(), OutOfMemory>
        requires { IsStanding self.old.end self.old.lanes.items (T.shown self.old.teller) }
        ensures comes { OnOk result ((block : List ℕ) (sure : Bool) (t : Things) → IsSure sure self.new.answered → Stands self.old.end self.old.lanes.items (T.shown self.old.teller) t
            → Comes (record { block = block; answered = sure }) (Happening.ToServer link most now) t self.new.end self.new.lanes.items (T.shown self.new.teller)) }
        ensures kept { OnOk result (IsSure self.new.answered self.old.answered) }
    {
        match place_of(link, self.lanes.len()) {
            None => Ok(()),
            Some(place) => {
                let lanes = self.lanes.as_mut_slice();
                let told = feed_at(lanes, place, self.alloc, most, now, &mut self.teller)?;
                self.answered = both(self.answered, told);
                Ok(())
            }
        }
    }

    /// Bytes reach the client.
    fn to_client(&mut self, link: u32, most: u32) -> Result<(), OutOfMemory>
        requires { IsStanding self.old.end self.old.lanes.items (T.shown self.old.teller) }
        ensures comes { OnOk result ((block : List ℕ) (sure : Bool) (t : Things) → IsSure sure self.new.answered → Stands self.old.end self.old.lanes.items (T.shown self.old.teller) t
            → Comes (record { block = block; answered = sure }) (Happening.ToClient link most) t self.new.end self.new.lanes.items (T.shown self.new.teller)) }
        ensures kept { OnOk result (IsSure self.new.answered self.old.answered) }
    {
        if link as usize != self.lanes.len() {
            return Ok(());
        }
        let newest = self.lanes.len() - 1;
        let lanes = self.lanes.as_mut_slice();
        bring_at(&mut self.end, lanes, newest, self.alloc, most)
    }

    /// A server end is quiet.
    fn quiet(&mut self, link: u32, now: Moment)
        ensures comes { (block : List ℕ) (sure : Bool) (t : Things) → IsSure sure self.new.answered → Stands self.old.end self.old.lanes.items (T.shown self.old.teller) t
            → Comes (record { block = block; answered = sure }) (Happening.Quiet link now) t self.new.end self.new.lanes.items (T.shown self.new.teller) }
        ensures kept { IsSure self.new.answered self.old.answered }
    {
        match place_of(link, self.lanes.len()) {
            None => {}
            Some(place) => {
                let lanes = self.lanes.as_mut_slice();
                idle_at(lanes, place, now, &mut self.teller)
            }
        }
    }

    /// A server end is lost.
    fn lost(&mut self, link: u32, now: Moment)
        ensures comes { (block : List ℕ) (sure : Bool) (t : Things) → IsSure sure self.new.answered → Stands self.old.end self.old.lanes.items (T.shown self.old.teller) t
            → Comes (record { block = block; answered = sure }) (Happening.Lost link now) t self.new.end self.new.lanes.items (T.shown self.new.teller) }
        ensures kept { IsSure self.new.answered self.old.answered }
    {
        match place_of(link, self.lanes.len()) {
            None => {}
            Some(place) => {
                let lanes = self.lanes.as_mut_slice();
                let told = lose_at(lanes, place, now, &mut self.teller);
                self.answered = both(self.answered, told);
            }
        }
    }

    /// The client's link breaks, and it begins the next one.
    fn breaks(&mut self, house: &House) -> Result<(), OutOfMemory>
        ensures comes { OnOk result ((sure : Bool) (t : Things) → IsSure sure self.new.answered → Stands self.old.end self.old.lanes.items (T.shown self.old.teller) t
            → Comes (record { block = status_block house.now; answered = sure }) Happening.Breaks t self.new.end self.new.lanes.items (T.shown self.new.teller)) }
        ensures kept { OnOk result (IsSure self.new.answered self.old.answered) }
    {
        self.end.client.broke();
        let lane = begin(self.alloc, house, &mut self.end.client)?;
        self.end.came = 0;
        self.lanes.push(lane)?;
        Ok(())
    }

    /// Others ask. What they are told is let go.
    fn others(&mut self, now: Moment, link: LinkNumber, ask: &Ask) -> Result<(), OutOfMemory>
        ensures comes { OnOk result ((block : List ℕ) (sure : Bool) (t : Things) → IsSure sure self.new.answered → Stands self.old.end self.old.lanes.items (T.shown self.old.teller) t
            → Comes (record { block = block; answered = sure }) (Happening.Others now link ask.now) t self.new.end self.new.lanes.items (T.shown self.new.teller)) }
        ensures kept { OnOk result (IsSure self.new.answered self.old.answered) }
    {
        let asked = ask.copy()?;
        let mut room = vec![in self.alloc; 0u8; MOST_PAYLOAD]?;
        self.teller.ask(now, link, asked, room.as_mut_slice());
        Ok(())
    }

    /// What happens.
    pub(crate) fn happen(&mut self, house: &House, event: &Happening) -> Result<(), OutOfMemory>
        requires { IsStanding self.old.end self.old.lanes.items (T.shown self.old.teller) }
        ensures comes { OnOk result ((sure : Bool) (t : Things) → IsSure sure self.new.answered → Stands self.old.end self.old.lanes.items (T.shown self.old.teller) t
            → Comes (record { block = status_block house.now; answered = sure }) event.now t self.new.end self.new.lanes.items (T.shown self.new.teller)) }
        ensures kept { OnOk result (IsSure self.new.answered self.old.answered) }
    {
        match event {
            Happening::Asks(call) => self.asks(call),
            Happening::ToServer { link, bytes, now } => self.to_server(*link, *bytes, *now),
            Happening::ToClient { link, bytes } => self.to_client(*link, *bytes),
            Happening::Quiet { link, now } => {
                self.quiet(*link, *now);
                Ok(())
            }
            Happening::Lost { link, now } => {
                self.lost(*link, *now);
                Ok(())
            }
            Happening::Breaks => self.breaks(house),
            Happening::Others { now, link, ask } => self.others(*now, *link, ask),
        }
    }
}
