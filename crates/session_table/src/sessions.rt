//! The sessions of a server.
ghost use Rattle.std.specs.Prelude.{◌≡◌, ◌==◌, ◌≤◌, [], None, Some, filter, find, if◌then◌else◌, length, nat_eq, nat_lt, not, position, true, false, ℕ, MatchOption, IfOk};
ghost use Rattle.std.specs.List.{list_all, list_any};
ghost use Rattle.indexmap.specs.IndexMap.{values};
ghost use Rattle.afp_serial.specs.Limits.{links_end, most_volumes};
ghost use Rattle.afp_serial.specs.Token.{session_token};
ghost use Rattle.afp_serial.specs.World.{is_expired, is_on_link, Session};
ghost use Rattle.afp_serial.specs.declared.attachment.Attachment.TheVariants.{Detached};
ghost use Rattle.afp_serial.specs.SessionToken.{is_of_another, is_same_user};
ghost use Rattle.std.specs.Option.{option_copied};
ghost use Rattle.afp_base.specs.Cached.{cached_answer};
ghost use Rattle.afp_serial.specs.Answer.{request};
ghost use Rattle.session_table.specs.lemma.Kept.{shown, IsOldIn, IsOldOf};
ghost use Rattle.session_table.specs.Sessions.{session_of, with_sessions, ended, keeping, replaced, Adopts, AreBelow, Becomes, HasNone, IsAt, IsGone, Opens, with_opened};

use crate::link_numbers::LinkNumbers;
use crate::open_volumes::OpenVolumes;
use crate::token::{TOKEN_SIZE, is_token, token_of};
use afp_base::{Code, LinkNumber, Moment, OutOfMemory, SessionNumber, VolumeId};
use afp_serial::Attachment;
use byteorder::{BigEndian, ByteOrder};
use indexmap::IndexMap;
use replay_cache::{Answer, Cache, Request};
use std::alloc::Global;
use std::marker::Model;
use thiserror::Error;

/// The most sessions, attached and detached together.
const MOST_SESSIONS: usize = 64;

/// The seconds after which a detached session is gone.
const DETACHED_TIME: u32 = 600;

/// Why no session was opened: there are as many as there may be, or there is no memory.
#[derive(Clone, Copy, Debug, PartialEq, Eq, Error)]
pub enum SessionFault {
    #[error("there are as many sessions as there may be")]
    Full,
    #[error("out of memory")]
    Memory,
}

/// What a session has beside its number.
#[derive(Drop)]
pub struct Open {
    place: Attachment,
    user: Option<u32>,
    volumes: OpenVolumes,
    cache: Cache,
}

impl Open {
    /// Whether the session has the link.
    fn has_link(&self, link: u64) -> bool
        ensures { result ≡ is_on_link link self.now.place }
    {
        match self.place {
            Attachment::Attached(own) => own.0 == link,
            Attachment::Detached(_) => false,
        }
    }

    /// Whether the session lost its link 600 seconds ago or before.
    fn is_gone(&self, now: Moment) -> bool
        ensures { result ≡ is_expired now self.now.place }
    {
        match self.place {
            Attachment::Attached(_) => false,
            Attachment::Detached(moment) => moment.seconds() + DETACHED_TIME <= now.seconds(),
        }
    }
}

/// The sessions of a server, in the order in which they were opened.
///
/// Contracts see them as a list, beside the next link number and the key of their tokens.
#[derive(Drop)]
pub struct Sessions {
    alloc: Global,
    token_key: [u8; 32],
    links: LinkNumbers,
    by_number: IndexMap<u64, Open>,
}

impl Model for Sessions {
    ghost use Rattle.session_table.specs.Sessions.{Table};
    ghost use Rattle.session_table.specs.lemma.Kept.{shown};

    ghost Value = { Table };

    ghost view = { λ a. record { sessions = shown a.by_number.entries; next_link = a.links; token_key = a.token_key } };
}

impl Sessions {
    /// None, with room for 64. The one error is want of memory.
    pub fn new(alloc: Global, token_key: [u8; 32]) -> Result<Sessions, OutOfMemory>
        ensures { IfOk result (λ t. t ≡ record { sessions = []; next_link = 1; token_key = token_key }) }
    {
        Ok(Sessions {
            alloc,
            token_key,
            links: LinkNumbers::new(),
            by_number: IndexMap::with_capacity(alloc, MOST_SESSIONS)?,
        })
    }

    /// How many there are.
    pub fn count(&self) -> usize
        ensures { result ≡ length self.now.sessions }
    {
        self.by_number.len()
    }

    /// Opens a session on the next link, under the link's number. An error changes nothing.
    pub fn open(&mut self) -> Result<LinkNumber, SessionFault>
        requires { AreBelow self.old }
        ensures { Opens self.old result self.new }
    {
        let Some(link) = self.links.next() else {
            return Err(SessionFault::Full);
        };
        if self.by_number.len() >= MOST_SESSIONS {
            return Err(SessionFault::Full);
        }
        let Ok(cache) = Cache::new(self.alloc) else {
            return Err(SessionFault::Memory);
        };
        let session = Open {
            place: Attachment::Attached(link),
            user: None,
            volumes: OpenVolumes::new(),
            cache,
        };
        match self.by_number.insert(link.0, session) {
            Ok(_) => {
                self.links.draw();
                Ok(link)
            }
            Err(_) => Err(SessionFault::Memory),
        }
    }

    /// The session that has the link.
    pub fn by_link(&self, l: LinkNumber) -> Option<SessionNumber>
        ensures { MatchOption result (find (λ s. is_on_link l.0 s.place) self.now.sessions ≡ None) (λ number. IsAt self.now.sessions l.0 number.0) }
    {
        let Some(index) = index_at(&self.by_number, l.0) else {
            return None;
        };
        match self.by_number.get_index(index) {
            Some((number, _)) => Some(SessionNumber(*number)),
            None => None,
        }
    }

    /// The first session that lost its link 600 seconds ago or before.
    pub fn next_expired(&self, now: Moment) -> Option<SessionNumber>
        ensures { MatchOption result (find (λ s. is_expired now s.place) self.now.sessions ≡ None) (λ number. IsGone self.now.sessions now number.0) }
    {
        let Some(index) = gone_at(&self.by_number, now) else {
            return None;
        };
        match self.by_number.get_index(index) {
            Some((number, _)) => Some(SessionNumber(*number)),
            None => None,
        }
    }

    /// The session has no link any more.
    pub fn detach(&mut self, s: SessionNumber, now: Moment)
        ensures { Becomes self.old s.0 (λ x. record x { place = Detached now }) self.new }
    {
        if let Some(session) = self.by_number.get_mut(&s.0) {
            session.place = Attachment::Detached(now);
        }
    }

    /// The session ends.
    pub fn end(&mut self, s: SessionNumber)
        ensures { self.new ≡ with_sessions self.old (ended self.old.sessions s.0) }
    {
        self.by_number.shift_remove(&s.0);
    }

    /// Gives the old session of a token the place of this one, which ends. The code says why it does not come back; then nothing changes.
    pub fn adopt(
        &mut self,
        s: SessionNumber,
        token: &[u8],
        now: Moment,
    ) -> Result<SessionNumber, Code>
        requires { AreBelow self.old }
        ensures { (x : Session) → session_of self.old.sessions s.0 ≡ Some x → Adopts self.old x token.now now result self.new }
    {
        let Some(old) = self.of_token(s, token, now) else {
            return Err(Code::ItemNotFound);
        };
        if self.is_of_another(s, old) {
            return Err(Code::AccessDenied);
        }
        if self.has_volumes(s) {
            return Err(Code::ParamErr);
        }
        self.rejoin(s, old);
        Ok(old)
    }

    /// The other session of that token, where it has a link or lost it less than 600 seconds ago.
    fn of_token(&self, s: SessionNumber, token: &[u8], now: Moment) -> Option<SessionNumber>
        requires { AreBelow self.now }
        ensures { IsOldOf self.now s.0 token.now now result }
    {
        self.links.are_few();
        match old_of(&self.by_number, self.token_key, s.0, token, now) {
            Some(number) => Some(SessionNumber(number)),
            None => None,
        }
    }

    /// Whether the old session has another user than this one, or none.
    fn is_of_another(&self, s: SessionNumber, old: SessionNumber) -> bool
        ensures { (x o : Session) → session_of self.now.sessions s.0 ≡ Some x → session_of self.now.sessions old.0 ≡ Some o → result ≡ is_of_another x (Some o) }
    {
        let (user, old_user) = (self.user(s), self.user(old));
        !is_same_user(old_user, user)
    }

    /// Whether the session has some volume open.
    fn has_volumes(&self, s: SessionNumber) -> bool
        ensures { (x : Session) → session_of self.now.sessions s.0 ≡ Some x → result ≡ not (length x.volumes == 0) }
    {
        match self.by_number.get(&s.0) {
            Some(session) => !session.volumes.is_empty(),
            None => false,
        }
    }

    /// The session ends, and the old one has its place.
    fn rejoin(&mut self, s: SessionNumber, old: SessionNumber)
        requires { nat_eq old.0 s.0 ≡ false }
        ensures { (x o : Session) → session_of self.old.sessions s.0 ≡ Some x → session_of self.old.sessions old.0 ≡ Some o → self.new ≡ with_sessions self.old (replaced (ended self.old.sessions s.0) (record o { place = x.place })) }
    {
        let Some(session) = self.by_number.get(&s.0) else {
            return;
        };
        let place = session.place;
        self.end(s);
        self.set_place(old, place);
    }

    /// The session has another link, or none.
    fn set_place(&mut self, s: SessionNumber, place: Attachment)
        ensures { Becomes self.old s.0 (λ x. record x { place = place }) self.new }
    {
        if let Some(session) = self.by_number.get_mut(&s.0) {
            session.place = place;
        }
    }

    /// The answer that is kept for an equal request of the session.
    pub fn kept(
        &self,
        s: SessionNumber,
        id: u16,
        write: bool,
        offset: u32,
        payload: &[u8],
    ) -> Option<&Answer>
        ensures { (x : Session) → session_of self.now.sessions s.0 ≡ Some x → option_copied result ≡ cached_answer x.cache (request id write offset payload.now) }
    {
        match self.by_number.get(&s.0) {
            Some(session) => session.cache.find(id, write, offset, payload),
            None => None,
        }
    }

    /// Keeps the answer to a request of the session for which none is kept. The oldest of 32 goes.
    pub fn keep(&mut self, s: SessionNumber, request: Request, answer: Answer)
        requires { HasNone self.old s.0 request }
        ensures { self.new ≡ with_sessions self.old (keeping self.old.sessions s.0 request answer) }
    {
        if let Some(session) = self.by_number.get_mut(&s.0) {
            session.cache.store(request, answer);
        }
    }

    /// The token of the session.
    pub fn token(&self, s: SessionNumber) -> [u8; 16]
        ensures { result ≡ session_token self.now.token_key s.0 }
    {
        token_of(self.token_key, s.0)
    }

    /// Who has logged in to the session.
    pub fn user(&self, s: SessionNumber) -> Option<u32>
        ensures { (x : Session) → session_of self.now.sessions s.0 ≡ Some x → result ≡ x.user }
    {
        match self.by_number.get(&s.0) {
            Some(session) => session.user,
            None => None,
        }
    }

    /// Somebody has logged in to the session.
    pub fn set_user(&mut self, s: SessionNumber, id: u32)
        ensures { Becomes self.old s.0 (λ x. record x { user = Some id }) self.new }
    {
        if let Some(session) = self.by_number.get_mut(&s.0) {
            session.user = Some(id);
        }
    }

    /// Whether the session has the volume open.
    pub fn has_volume(&self, s: SessionNumber, v: VolumeId) -> bool
        ensures { (x : Session) → session_of self.now.sessions s.0 ≡ Some x → result ≡ list_any (λ other. other == v.0) x.volumes }
    {
        match self.by_number.get(&s.0) {
            Some(session) => session.volumes.contains(v),
            None => false,
        }
    }

    /// The session has the volume open from now on, or not.
    pub fn set_volume(&mut self, s: SessionNumber, v: VolumeId, opened: bool)
        requires { (1 ≤ v.0) × (v.0 ≤ most_volumes) }
        ensures { Becomes self.old s.0 (λ x. if opened then with_opened x v.0 else record x { volumes = filter (λ other. not (other == v.0)) x.volumes }) self.new }
    {
        if opened {
            self.open_volume(s, v);
            return;
        }
        self.close_volume(s, v);
    }

    /// The session has the volume open from now on; twice is once.
    pub fn open_volume(&mut self, s: SessionNumber, v: VolumeId)
        requires { (1 ≤ v.0) × (v.0 ≤ most_volumes) }
        ensures { Becomes self.old s.0 (λ x. with_opened x v.0) self.new }
    {
        if let Some(session) = self.by_number.get_mut(&s.0) {
            session.volumes.open(v);
        }
    }

    /// The session has it open no more.
    pub fn close_volume(&mut self, s: SessionNumber, v: VolumeId)
        ensures { Becomes self.old s.0 (λ x. record x { volumes = filter (λ other. not (other == v.0)) x.volumes }) self.new }
    {
        if let Some(session) = self.by_number.get_mut(&s.0) {
            session.volumes.close(v);
        }
    }
}

/// Whether both are of one user.
fn is_same_user(a: Option<u32>, b: Option<u32>) -> bool
    ensures { result ≡ is_same_user a b }
{
    match a {
        Some(a) => match b {
            Some(b) => a == b,
            None => false,
        },
        None => false,
    }
}

/// The number of the session of a token, where it is none of this number, and has a link or lost it less than 600 seconds ago.
fn old_of(
    by_number: &IndexMap<u64, Open>,
    key: [u8; 32],
    own: u64,
    token: &[u8],
    now: Moment,
) -> Option<u64>
    ensures { (next : ℕ) → list_all (λ s. nat_lt s.number next) (shown by_number.now.entries) ≡ true → next ≤ links_end → IsOldIn key now (shown by_number.now.entries) own token.now result }
{
    // with it comes that no two sessions have one number
    let _count = by_number.len();
    if token.len() != TOKEN_SIZE {
        return None;
    }
    let number = BigEndian::read_u64(token);
    let Some(session) = by_number.get(&number) else {
        return None;
    };
    if number == own {
        return None;
    }
    if session.is_gone(now) {
        return None;
    }
    if !is_token(key, number, token) {
        return None;
    }
    Some(number)
}

/// The place of the session that has the link.
fn index_at(by_number: &IndexMap<u64, Open>, link: u64) -> Option<usize>
    ensures { result ≡ position (λ x. is_on_link link x.place) (values by_number.now) }
{
    by_number
        .values()
        .position(|session| session.has_link(link))
}

/// The place of the first session that lost its link too long ago.
fn gone_at(by_number: &IndexMap<u64, Open>, now: Moment) -> Option<usize>
    ensures { result ≡ position (λ x. is_expired now x.place) (values by_number.now) }
{
    by_number.values().position(|session| session.is_gone(now))
}
