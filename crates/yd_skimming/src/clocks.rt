//! A vector that is asked of one client many times in a row.

ghost use Rattle.std.specs.Prelude.{◌≡◌};
ghost use Rattle.yd_ids.specs.Id.{IsClient};
ghost use Rattle.yd_ids.specs.Vector.{clock_of};

use std::marker::Model;
use yd_ids::{Client, Vector};

/// A vector, with the clock of the client that was asked last. It is seen as the vector.
#[derive(Drop)]
pub struct Clocks<'a> {
    vector: &'a Vector,
    client: Client,
    clock: u64,
}

impl<'a> Model for Clocks<'a> {
    ghost use Rattle.std.specs.Prelude.{◌≡◌, ℕ, List};
    ghost use Rattle.yd_ids.specs.declared.id.Client.{Client};
    ghost use Rattle.yd_ids.specs.Vector.{clock_of};

    ghost Value = { List (Client × ℕ) };

    ghost view = { λ it. it.vector.now };

    ghost invariant = { λ it. it.clock ≡ clock_of it.vector.now it.client.0 };
}

impl<'a> Clocks<'a> {
    /// The clocks of this vector.
    pub fn new(vector: &'a Vector) -> Clocks<'a>
        ensures { result ≡ vector.now }
    {
        let client = Client(0);
        let clock = vector.get(client);
        Clocks {
            vector,
            client,
            clock,
        }
    }

    /// The clock that the client has reached. It takes a look-up only where another client was
    /// asked last.
    #[inline]
    pub fn get(&mut self, client: Client) -> u64
        requires { IsClient client }
        ensures clock { result ≡ clock_of self.old client.0 }
        ensures same { self.new ≡ self.old }
    {
        if self.client.0 != client.0 {
            self.clock = self.vector.get(client);
            self.client = client;
        }
        self.clock
    }
}
