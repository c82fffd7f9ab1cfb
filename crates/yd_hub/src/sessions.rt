//! Which sessions are open: their numbers, in order.

ghost use Rattle.std.specs.Prelude.{◌≡◌, ◌≤◌, ◌∷◌, [], true, false, length, take, drop, nat_lt, IfOk, OnOk, OnErr};
ghost use Rattle.yd_words.specs.Each.{Each};
ghost use Rattle.yd_hub.specs.Sessions.{AreSessions, is_first, is_open, with_session, without};

use crate::fault::NoMemory;
use std::alloc::Global;
use std::marker::Model;
use yd_world::Session;

/// Numbers of sessions, ascending; a look-up is a bisection.
#[derive(Drop)]
pub struct Sessions {
    numbers: Vec<u64>,
}

impl Model for Sessions {
    ghost use Rattle.std.specs.Prelude.{ℕ, List};
    ghost use Rattle.yd_hub.specs.Sessions.{AreSessions};

    ghost Value = { List ℕ };

    ghost view = { λ it. it.numbers.items };

    ghost invariant = { λ it. AreSessions it.numbers.items };
}

impl Sessions {
    /// No session. It takes no memory.
    pub fn new(alloc: Global) -> Sessions
        ensures { result ≡ [] }
    {
        Sessions {
            numbers: Vec::new(alloc),
        }
    }

    /// This session alone.
    pub fn only(alloc: Global, session: Session) -> Result<Sessions, NoMemory>
        ensures { IfOk result (λ sessions. sessions ≡ session.0 ∷ []) }
    {
        let mut numbers = Vec::new(alloc);
        numbers.push(session.0)?;
        Ok(Sessions { numbers })
    }

    /// How many there are.
    pub fn len(&self) -> usize
        ensures { result ≡ length self.now }
    {
        self.numbers.len()
    }

    /// Whether the session is one of them.
    pub fn has(&self, session: Session) -> bool
        ensures { result ≡ is_open self.now session.0 }
    {
        has_in(&self.numbers, session.0)
    }

    /// The numbers as they are lent.
    pub fn as_slice(&self) -> &[u64]
        ensures { result.now ≡ self.now }
    {
        self.numbers.as_slice()
    }

    /// With one session more.
    pub fn insert(&mut self, session: Session) -> Result<(), NoMemory>
        ensures added { OnOk result (self.new ≡ with_session session.0 self.old) }
        ensures unchanged { OnErr result (self.new ≡ self.old) }
    {
        insert_in(&mut self.numbers, session.0)?;
        Ok(())
    }

    /// Without one session.
    pub fn remove(&mut self, session: Session)
        ensures { self.new ≡ without session.0 self.old }
    {
        remove_in(&mut self.numbers, session.0);
    }

    /// The others, once more.
    pub fn others(&self, session: Session) -> Result<Sessions, NoMemory>
        ensures { IfOk result (λ others. others ≡ without session.0 self.now) }
    {
        let mut numbers = Vec::from_slice(*self.numbers.allocator(), &self.numbers)?;
        remove_in(&mut numbers, session.0);
        Ok(Sessions { numbers })
    }

    /// All of them, once more.
    pub fn copy(&self) -> Result<Sessions, NoMemory>
        ensures { IfOk result (λ copy. copy ≡ self.now) }
    {
        let numbers = Vec::from_slice(*self.numbers.allocator(), &self.numbers)?;
        Ok(Sessions { numbers })
    }
}

/// How many numbers are smaller.
fn place(numbers: &[u64], session: u64) -> usize
    requires { AreSessions numbers.now }
    ensures bound { result ≤ length numbers.now }
    ensures before { Each (λ number. nat_lt number session ≡ true) (take result numbers.now) }
    ensures behind { Each (λ number. nat_lt number session ≡ false) (drop result numbers.now) }
{
    numbers.partition_point(|number| *number < session)
}

/// The session's number is at this place.
fn is_at(numbers: &[u64], at: usize, session: u64) -> bool
    ensures { result ≡ is_first (drop at numbers.now) session }
{
    at < numbers.len() && numbers[at] == session
}

fn has_in(numbers: &[u64], session: u64) -> bool
    requires { AreSessions numbers.now }
    ensures { result ≡ is_open numbers.now session }
{
    let at = place(numbers, session);
    let found = is_at(numbers, at, session);
    found
}

fn insert_in(numbers: &mut Vec<u64>, session: u64) -> Result<(), NoMemory>
    requires { AreSessions numbers.old.items }
    ensures added { OnOk result (numbers.new.items ≡ with_session session numbers.old.items) }
    ensures unchanged { OnErr result (numbers.new.items ≡ numbers.old.items) }
    ensures kept { AreSessions numbers.new.items }
{
    let at = place(numbers, session);
    if !is_at(numbers, at, session) {
        numbers.insert(at, session)?;
    }
    Ok(())
}

fn remove_in(numbers: &mut Vec<u64>, session: u64)
    requires { AreSessions numbers.old.items }
    ensures removed { numbers.new.items ≡ without session numbers.old.items }
    ensures kept { AreSessions numbers.new.items }
{
    let at = place(numbers, session);
    if is_at(numbers, at, session) {
        numbers.remove(at);
    }
}
