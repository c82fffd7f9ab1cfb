//! A board over TCP and WebSocket.

ghost use Rattle.std.specs.Prelude.{◌≡◌, ◌<◌, ◌≤◌, Err, None, Some, not, IsOk, OnOk, OnErr, IfOk};
ghost use Rattle.std.specs.Prelude.{IfSome, MatchOption, length, slice_get};
ghost use Rattle.std.specs.List.{remove};
ghost use Rattle.yd_world.specs.Plan.{FailsWhere};
ghost use Rattle.yd_sockets.specs.Board.{ClosesSession, CountsFault, Happens, HappensAt, NotesSend, Starts};
ghost use Rattle.yd_sockets.specs.Board.{failures_to, not_started};
ghost use Rattle.yd_sockets.specs.Looking.{Looks};
ghost use Rattle.yd_sockets.specs.Numbers.{IsNowhere, IsOpen};

use crate::address::local_address;
use crate::counting::{first_session, one_more};
use crate::door::Door;
use crate::entrance::Seen;
use crate::look::{Look, MOST_ROUNDS, STILL_ROUNDS};
use crate::sessions::Sessions;
use crate::watch::Watch;
use std::alloc::Global;
use std::marker::Model;
use std::net::Net;
use std::random::RandomSource;
use std::time::Clock;
use tungstenite::{RandomKeys, WebSocket};
use yd_lines::line::Given;
use yd_lines::{Stream, Wire};
use yd_world::{Event, NoMemory, Outage, Session, Switchboard, Way, What};

/// Connections of the system. It tells nothing of what comes.
#[derive(Drop)]
pub struct SocketBoard<R: Net + Clock + RandomSource + Copy> {
    alloc: Global,
    outside: R,
    door: Door<R>,
    sessions: Sessions<Wire<R::Stream>, RandomKeys<R>>,
    // Where the next look goes on: at 0 the door, then each session in turn.
    turn: usize,
    next: u64,
    watch: Watch,
    faults: u64,
    failed: Vec<u64>,
}

impl<R: Net + Clock + RandomSource + Copy> Model for SocketBoard<R> {
    ghost use Rattle.std.specs.Prelude.{is_some};
    ghost use Rattle.yd_sockets.specs.Board.{BoardState};

    ghost Value = { BoardState };

    ghost view = { λ b. record {
      is_started = is_some b.watch.start;
      next_session = b.next;
      sessions = b.sessions;
      moment = b.watch.moment;
      faults = b.faults;
      failed_sends = b.failed.items;
    } };
}

impl<R: Net + Clock + RandomSource + Copy> SocketBoard<R> {
    /// A board that was not started, without a fault.
    pub fn new(alloc: Global, outside: R) -> SocketBoard<R>
        ensures { result ≡ not_started }
    {
        SocketBoard {
            alloc,
            outside,
            door: Door::Shut,
            sessions: Sessions::new(alloc),
            turn: 0,
            next: 0,
            watch: Watch::new(),
            faults: 0,
            failed: Vec::new(alloc),
        }
    }

    // Whether the board was started.
    fn is_started(&self) -> bool
        ensures { result ≡ self.now.is_started }
    {
        self.watch.is_started()
    }

    // Starts, if the address is one of this machine and the board was not started before.
    fn try_start(&mut self, address: &str, way: Way) -> Result<(), Outage>
        ensures starts { OnOk result (Starts self.old self.new address.now way) }
        ensures unchanged { OnErr result (self.new ≡ self.old) }
    {
        if self.is_started() {
            return Err(Outage::Failed);
        }
        let Some(place) = local_address(address) else {
            return Err(Outage::Failed);
        };
        let door = Door::open(self.alloc, &self.outside, place, address, way)?;
        if !self.watch.start(&self.outside) {
            return Err(Outage::Failed);
        }
        self.door = door;
        self.next = first_session(way);
        Ok(())
    }

    // Waits for the next event.
    fn wait(&mut self) -> Result<What, NoMemory>
        ensures takes { IfOk result (λ what. Happens self.old self.new what) }
        ensures unchanged { OnErr result (self.new ≡ self.old) }
    {
        let mut still = 0u32;
        for _ in 0..MOST_ROUNDS {
            let is_whole = self.is_at_start();
            match self.look_around()? {
                Look::Happened(what) => return Ok(what),
                Look::Moved => still = 0,
                Look::Still => {
                    if is_whole {
                        still = still.saturating_add(1);
                    }
                }
            }
            if still >= STILL_ROUNDS {
                return Ok(What::Idle);
            }
        }
        Ok(What::Idle)
    }

    // Looks at the door and at each session once, from where the last look ended.
    fn look_around(&mut self) -> Result<Look, NoMemory>
        ensures looks { IfOk result (λ look. Looks self.old self.new look) }
        ensures unchanged { OnErr result (self.new ≡ self.old) }
    {
        let mut has_moved = false;
        for _ in 0..usize::MAX {
            if self.has_gone_round() {
                break;
            }
            match self.look()? {
                Look::Happened(what) => return Ok(Look::Happened(what)),
                Look::Moved => has_moved = true,
                Look::Still => {}
            }
        }
        if has_moved {
            Ok(Look::Moved)
        } else {
            Ok(Look::Still)
        }
    }

    // Whether the next look is at the door.
    fn is_at_start(&self) -> bool {
        self.turn == 0
    }

    // Whether no session is left to be looked at. Then the turn is the door's again.
    fn has_gone_round(&mut self) -> bool
        ensures { self.new ≡ self.old }
    {
        if self.turn > self.sessions.len() {
            self.turn = 0;
            return true;
        }
        false
    }

    // Whose turn it is, and the next one's comes after it.
    fn take_turn(&mut self) -> usize
        ensures { self.new ≡ self.old }
    {
        let at = self.turn;
        self.turn = at.saturating_add(1);
        at
    }

    // How many sessions are open.
    fn count(&self) -> usize
        ensures { result ≡ length self.now.sessions }
    {
        self.sessions.len()
    }

    // Looks at the door, or at the session whose turn it is, and passes the turn on.
    fn look(&mut self) -> Result<Look, NoMemory>
        ensures looks { IfOk result (λ look. Looks self.old self.new look) }
        ensures unchanged { OnErr result (self.new ≡ self.old) }
    {
        let at = self.take_turn();
        if at == 0 {
            return self.look_at_door();
        }
        if at > self.count() {
            return Ok(Look::Still);
        }
        self.look_at_session(at - 1)
    }

    fn look_at_door(&mut self) -> Result<Look, NoMemory>
        ensures looks { IfOk result (λ look. Looks self.old self.new look) }
        ensures unchanged { OnErr result (self.new ≡ self.old) }
    {
        match self.door.look(self.alloc, &self.outside)? {
            Seen::Nobody => Ok(Look::Still),
            Seen::Somebody => Ok(Look::Moved),
            Seen::Entered(line) => self.welcome(line),
        }
    }

    // A connection becomes a session. Those beyond the last number would have none.
    fn welcome(
        &mut self,
        line: WebSocket<Stream<Wire<R::Stream>>, RandomKeys<R>>,
    ) -> Result<Look, NoMemory>
        ensures looks { IfOk result (λ look. Looks self.old self.new look) }
        ensures unchanged { OnErr result (self.new ≡ self.old) }
    {
        let number = self.next;
        let Some(after) = number.checked_add(1) else {
            return Ok(Look::Moved);
        };
        self.sessions.add(number, line)?;
        self.next = after;
        Ok(Look::Happened(What::Opened(Session(number))))
    }

    fn look_at_session(&mut self, at: usize) -> Result<Look, NoMemory>
        requires { at < length self.old.sessions }
        ensures looks { IfOk result (λ look. Looks self.old self.new look) }
        ensures unchanged { OnErr result (self.new ≡ self.old) }
    {
        let session = self.session_at(at);
        match self.take(at)? {
            Given::Nothing => Ok(Look::Still),
            Given::Something => Ok(Look::Moved),
            Given::Message(bytes) => Ok(Look::Happened(What::Received(session, bytes))),
            Given::Ended => {
                self.end(at);
                Ok(Look::Happened(What::Closed(session)))
            }
        }
    }

    // The session at this place.
    fn session_at(&self, at: usize) -> Session
        requires { at < length self.now.sessions }
        ensures { slice_get self.now.sessions at ≡ Some result.0 }
    {
        Session(self.sessions.number(at))
    }

    // Where a session is.
    fn find(&self, session: Session) -> Option<usize>
        ensures found { MatchOption result (IsNowhere session.0 self.now.sessions)
            (λ at. slice_get self.now.sessions at ≡ Some session.0) }
        ensures within { IfSome result (λ at. at < length self.now.sessions) }
    {
        self.sessions.find(session.0)
    }

    // What came on the session at this place.
    fn take(&mut self, at: usize) -> Result<Given, NoMemory>
        requires { at < length self.old.sessions }
        ensures { self.new ≡ self.old }
    {
        self.sessions.take(self.alloc, at)
    }

    // Tells the peer of the session at this place why it is left.
    fn part(&mut self, at: usize, reason: &str)
        requires { at < length self.old.sessions }
        ensures { self.new ≡ self.old }
    {
        self.sessions.part(self.alloc, at, reason);
    }

    // The session at this place is open no more.
    fn end(&mut self, at: usize)
        requires { at < length self.old.sessions }
        ensures { self.new ≡ record self.old { sessions = remove self.old.sessions at } }
    {
        self.sessions.remove(at);
    }

    // The moment of an event that comes now.
    fn moment(&mut self) -> u64
        ensures forward { self.old.moment ≤ result }
        ensures kept { self.new ≡ record self.old { moment = result } }
    {
        self.watch.moment(&self.outside)
    }

    // Makes room for the note of one send that fails.
    fn make_room(&mut self) -> Result<(), NoMemory>
        ensures { self.new ≡ self.old }
    {
        if self.failed.reserve(1).is_err() {
            return Err(NoMemory);
        }
        Ok(())
    }

    // Notes a send that failed.
    fn note_failure(&mut self, to: Session) -> Outage
        ensures { NotesSend {X = Unit {0}} self.old self.new to.0 (Err result) }
    {
        match self.failed.push(to.0) {
            Ok(()) => Outage::Failed,
            Err(_) => Outage::NoMemory,
        }
    }

    // The outage, with one fault more unless it is want of memory.
    fn noted(&mut self, outage: Outage) -> Outage
        ensures counts { CountsFault {X = Unit {0}} self.old self.new (Err outage) }
        ensures same { result ≡ outage }
    {
        match outage {
            Outage::Failed => {
                self.faults = one_more(self.faults);
                Outage::Failed
            }
            Outage::NoMemory => Outage::NoMemory,
        }
    }

    // Sends on the session, if it is open.
    fn try_send(&mut self, to: Session, message: &[u8]) -> Result<(), Outage>
        ensures unchanged { self.new ≡ self.old }
        ensures open { OnOk result (IsOpen to.0 self.old.sessions) }
    {
        match self.find(to) {
            Some(at) => self.sessions.send(self.alloc, at, message),
            None => Err(Outage::Failed),
        }
    }
}

impl<R: Net + Clock + RandomSource + Copy> Switchboard for SocketBoard<R> {
    ghost told = { λ _. None };

    ghost faults = { λ b. b.faults };

    ghost send_faults = { λ b. failures_to b.failed_sends };

    ghost is_calm = { λ _. ⊥ };

    fn start(&mut self, address: &str, way: Way) -> Result<(), Outage>
        ensures starts { OnOk result (Starts self.old self.new address.now way) }
        ensures counts { CountsFault self.old self.new result }
    {
        match self.try_start(address, way) {
            Ok(()) => Ok(()),
            Err(outage) => Err(self.noted(outage)),
        }
    }

    fn next(&mut self) -> Result<Event, Outage>
        ensures happens { IfOk result (λ event. HappensAt self.old self.new event) }
        ensures counts { CountsFault self.old self.new result }
        ensures before { FailsWhere (not self.old.is_started) result }
    {
        if !self.is_started() {
            return Err(self.noted(Outage::Failed));
        }
        match self.wait() {
            Ok(what) => {
                let now = self.moment();
                Ok(Event { now, what })
            }
            Err(_) => Err(Outage::NoMemory),
        }
    }

    fn send(&mut self, to: Session, message: &[u8]) -> Result<(), Outage>
        ensures notes { NotesSend self.old self.new to.0 result }
        ensures open { OnOk result (IsOpen to.0 self.old.sessions) }
    {
        // The memory for the note is found first, so that no failure goes without one.
        if self.make_room().is_err() {
            return Err(Outage::NoMemory);
        }
        match self.try_send(to, message) {
            Ok(()) => Ok(()),
            Err(Outage::Failed) => Err(self.note_failure(to)),
            Err(Outage::NoMemory) => Err(Outage::NoMemory),
        }
    }

    fn close(&mut self, to: Session, reason: &str) -> Result<(), NoMemory>
        ensures closes { ClosesSession self.old self.new to.0 }
        ensures done { IsOk result }
    {
        if let Some(at) = self.find(to) {
            self.part(at, reason);
            self.end(at);
        }
        Ok(())
    }
}
