//! A door for links over TCP that never wait, and a watch over them.
ghost use Rattle.std.specs.Prelude.{◌≡◌, [], false, IfOk, IfSome};
ghost use Rattle.afp_outside.specs.ends.Link.{IsFresh};
ghost use Rattle.afp_outside.specs.ends.Listener.{TakesBack};
ghost use Rattle.afp_outside.specs.ends.Ready.{Comes};
ghost use Rattle.afp_outside.specs.ends.Tcp.{limit_of};
ghost use Rattle.afp_ready.specs.Limits.{LimitsReady};

use crate::tcp_ready::TcpReady;
use afp_base::{Moment, OutOfMemory};
use afp_outside::{Came, Readiness, SteadyClock};
use ghost_log::Log;
use mio::net::{TcpListener, TcpStream};
use mio::{Events, Interest, Poll, Token};
use std::alloc::Global;
use std::io::ErrorKind;
use std::marker::Model;
use std::net::{Ipv4Addr, Net};
use std::time::{Clock, Duration};
use std::{io, net};

/// How many seconds a wait lasts at most.
const WAIT_SECONDS: u64 = 1;

/// The most events of one wait.
const MOST_EVENTS: usize = 256;

/// The key under which the door itself is told.
const DOOR: usize = usize::MAX;

/// How many sockets in a row that fail alone are passed over in one accept.
const MOST_PASSED: u32 = 64;

/// How many seconds a link that was handed back is read at most before it is closed.
const CLOSING_SECONDS: u32 = 5;

// Numbers of the system's errors (Linux, errno.h).
const EINTR: i32 = 4;

const ENOMEM: i32 = 12;

const ENFILE: i32 = 23;

const EMFILE: i32 = 24;

const EPROTO: i32 = 71;

const ECONNABORTED: i32 = 103;

const ENOBUFS: i32 = 105;

/// What is asked of the system: a listener, what is watched, and a clock.
#[derive(Drop)]
struct Watch<R> {
    poll: Poll,
    listener: TcpListener,
    clock: SteadyClock<R>,
}

/// A link that was handed back, and is read on.
#[derive(Drop)]
struct Closing {
    link: TcpReady,
    since: Moment,
}

/// A door for links over TCP that never wait, and a watch over them. It counts its errors.
///
/// An accept fails where the port could not be opened or watched, and at an error that nothing heals; want of descriptors
/// or of memory is `NotYet`. A link that is handed back is shut for writing, and what its peer still sends in five
/// seconds is read and dropped before it is closed; nobody waits for that.
#[derive(Drop)]
pub struct TcpPoll<R> {
    watch: Option<Watch<R>>,
    events: Events,
    moment: Moment,
    closing: Vec<Closing>,
    left: Option<u64>,
    handed: Log<()>,
    back: Log<TcpReady>,
    closed: bool,
    faults: u64,
}

impl<R> Model for TcpPoll<R> {
    ghost use Rattle.std.specs.Prelude.{length};
    ghost use Rattle.afp_outside.specs.ends.Tcp.{TcpState};

    ghost Value = { TcpState };

    ghost view = { λ a. record {
      door = record { handed = length a.handed.items; back = a.back.items; closed = a.closed; faults = a.faults };
      left = a.left;
    } };
}

impl<R: Net<Listener = net::TcpListener, Stream = net::TcpStream> + Clock + Drop> TcpPoll<R> {
    /// A door at a port of every address of this host, which is closed once it has handed out `limit` links, and never
    /// where that is 0. Where the port can't be opened, each accept fails.
    pub fn bind(rt: R, alloc: Global, port: u16, limit: u64) -> Result<TcpPoll<R>, OutOfMemory>
        ensures { IfOk result (λ door. door ≡ record { door = record { handed = 0; back = []; closed = false; faults = 0 }; left = limit_of limit }) }
    {
        let listener = net::TcpListener::bind(&rt, (Ipv4Addr::UNSPECIFIED, port)).ok();
        TcpPoll::over(rt, alloc, listener, limit)
    }

    /// A door at a port that is open, which is closed once it has handed out `limit` links, and never where that is 0.
    /// Where there is none, each accept fails.
    pub fn over(
        rt: R,
        alloc: Global,
        listener: Option<net::TcpListener>,
        limit: u64,
    ) -> Result<TcpPoll<R>, OutOfMemory>
        ensures { IfOk result (λ door. door ≡ record { door = record { handed = 0; back = []; closed = false; faults = 0 }; left = limit_of limit }) }
    {
        let watch = match listener {
            Some(listener) => watch_over(rt, listener).ok(),
            None => None,
        };
        let Ok(events) = Events::with_capacity(alloc, MOST_EVENTS) else {
            return Err(OutOfMemory);
        };
        Ok(TcpPoll {
            moment: made_at(&watch),
            watch,
            events,
            closing: Vec::new(alloc),
            left: if limit == 0 { None } else { Some(limit) },
            handed: Log::new(),
            back: Log::new(),
            closed: false,
            faults: 0,
        })
    }
}

/// A watch over a listener alone.
fn watch_over<R: Net + Clock + Drop>(rt: R, listener: net::TcpListener) -> io::Result<Watch<R>> {
    listener.set_nonblocking(true)?;
    let mut listener = TcpListener::from_std(listener);
    let poll = Poll::new(&rt)?;
    poll.registry()
        .register(&mut listener, Token(DOOR), Interest::READABLE)?;
    let clock = SteadyClock::new(rt)?;
    Ok(Watch {
        poll,
        listener,
        clock,
    })
}

/// The moment at which a watch was made; the first moment where there is none.
fn made_at<R>(watch: &Option<Watch<R>>) -> Moment {
    match watch {
        Some(watch) => watch.clock.set_at(),
        None => {
            let Some(first) = Moment::new(0) else {
                unreachable!()
            };
            first
        }
    }
}

/// How an accept that failed is healed.
enum Heals {
    /// It was one of a single socket: the next accept is tried at once.
    AtOnce,
    /// None is there, or the system wants descriptors or memory: the next accept is tried later.
    Later,
    /// By nothing.
    Never,
}

/// How an accept that failed so is healed.
fn how_healed(error: &io::Error) -> Heals {
    if error.kind() == ErrorKind::WouldBlock {
        return Heals::Later;
    }
    match error.raw_os_error() {
        Some(EINTR | EPROTO | ECONNABORTED) => Heals::AtOnce,
        Some(ENOMEM | ENFILE | EMFILE | ENOBUFS) => Heals::Later,
        _ => Heals::Never,
    }
}

impl<R> Watch<R> {
    /// The next link, watched under a key; `None` where none is there yet. A socket whose options fail is dropped.
    fn next_link(&self, key: usize, now: Moment) -> io::Result<Option<TcpReady>>
        ensures { IfOk result (λ next. IfSome next IsFresh) }
    {
        for _ in 0..MOST_PASSED {
            match self.listener.accept() {
                Ok((stream, _)) => {
                    if let Ok(link) = self.link_over(stream, key, now) {
                        return Ok(Some(link));
                    }
                }
                Err(error) => match how_healed(&error) {
                    Heals::AtOnce => {}
                    Heals::Later => return Ok(None),
                    Heals::Never => return Err(error),
                },
            }
        }
        Ok(None)
    }

    /// A link over a socket that was accepted, watched under a key.
    fn link_over(&self, stream: TcpStream, key: usize, now: Moment) -> io::Result<TcpReady>
        ensures { IfOk result IsFresh }
    {
        let mut stream = stream;
        let interest = Interest::READABLE | Interest::WRITABLE;
        self.poll
            .registry()
            .register(&mut stream, Token(key), interest)?;
        TcpReady::new(stream, now)
    }
}

impl<R> TcpPoll<R> {
    /// The next link, watched under a key; `None` where none is there yet.
    fn next_link(&self, key: usize) -> io::Result<Option<TcpReady>>
        ensures { IfOk result (λ next. IfSome next IsFresh) }
    {
        match &self.watch {
            Some(watch) => watch.next_link(key, self.moment),
            None => Err(io::Error::from(ErrorKind::NotConnected)),
        }
    }
}

impl Closing {
    /// Drops what has come. `false`: it is to be closed.
    fn goes_on(&mut self, now: Moment) -> bool {
        now.seconds().saturating_sub(self.since.seconds()) < CLOSING_SECONDS
            && self.link.drop_some()
    }
}

/// Drops what has come of those links, and closes those that need no more.
fn drop_what_comes(closing: &mut Vec<Closing>, now: Moment) {
    closing.retain_mut(|one| one.goes_on(now));
}

/// Puts in the keys of the links that may go on. Where there is no memory for one, it is not told.
fn tell_ready(events: &Events, ready: &mut Vec<usize>) {
    for event in events.iter() {
        let Token(key) = event.token();
        if key != DOOR {
            let _told = ready.push(key);
        }
    }
}

impl<R: Clock> Watch<R> {
    /// Waits, so many seconds at most. It gives the moment then.
    fn wait(&mut self, events: &mut Events, seconds: u64) -> Option<Moment> {
        let _waited = self.poll.poll(events, Some(Duration::from_secs(seconds)));
        self.clock.moment()
    }
}

impl<R: Clock> Readiness for TcpPoll<R> {
    type Link = TcpReady;

    ghost door_state = { λ door. door.door };

    fn wait(&mut self, ready: &mut Vec<usize>, at_once: bool)
        ensures { self.new ≡ self.old }
    {
        ready.clear();
        let Some(watch) = &mut self.watch else {
            return;
        };
        let seconds = if at_once { 0 } else { WAIT_SECONDS };
        let moment = watch.wait(&mut self.events, seconds);
        tell_ready(&self.events, ready);
        let Some(moment) = moment else {
            return;
        };
        if self.moment < moment {
            self.moment = moment;
            drop_what_comes(&mut self.closing, moment);
        }
    }

    fn now(&self) -> Moment {
        self.moment
    }

    fn accept(&mut self, key: usize) -> Came<TcpReady>
        ensures comes { Comes (λ link. link) self.old.door result self.new.door }
        ensures limits { LimitsReady self.old.left result self.new.left }
    {
        if self.left == Some(0) {
            self.closed = true;
            return Came::Closed;
        }
        match self.next_link(key) {
            Ok(Some(link)) => {
                self.handed = self.handed.and(&());
                self.left = self.left.map(|n| n - 1);
                Came::Link(link)
            }
            Ok(None) => Came::NotYet,
            Err(_) => {
                self.faults = self.faults.saturating_add(1);
                Came::Failed
            }
        }
    }

    fn back(&mut self, link: TcpReady)
        ensures back { TakesBack self.old.door link self.new.door }
        ensures left { self.new.left ≡ self.old.left }
    {
        self.back = self.back.and(&link);
        let mut link = link;
        if let Some(watch) = &self.watch {
            link.leave(watch.poll.registry());
        }
        if link.shut() {
            let since = self.moment;
            // (where there is no memory to keep it, it is closed at once)
            let _kept = self.closing.push(Closing { link, since });
        }
    }
}
