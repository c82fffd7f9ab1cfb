//! Which addresses a board takes.

ghost use Rattle.std.specs.Prelude.{IfSome};
ghost use Rattle.yd_sockets.specs.Address.{IsLocal};

use std::net::{Ipv4Addr, SocketAddrV4};

/// The address that the text names, if it is `127.0.0.1:PORT` with a port from 1 to 65,535. No
/// other machine reaches such an address (own).
pub fn local_address(text: &str) -> Option<SocketAddrV4>
    ensures { IfSome result (IsLocal text.now) }
{
    match text.parse::<SocketAddrV4>() {
        Ok(address) => {
            if address.ip().octets() == Ipv4Addr::LOCALHOST.octets() && address.port() != 0 {
                Some(address)
            } else {
                None
            }
        }
        Err(_) => None,
    }
}
