//! Where the line of a client stands among those of all.

ghost use Rattle.std.specs.Prelude.{◌≡◌, ◌≢◌, ◌<◌, ◌≤◌, None, true, false, nat_lt, length, HoldsAt, IfSome, IfNone, IfOk, OnOk, OnErr, IsOk};
ghost use Rattle.yd_pieces.specs.Pieces.{IsBoundary};
ghost use Rattle.yd_index.specs.Lines.{AreLines, IsLineOf, IsOther, line_of, room_of, KeepsLines, IsSeat};

use crate::line::Line;
use std::alloc::AllocError;
use yd_ids::Client;

/// How many lines stand before that of a client.
fn lines_below(lines: &[Line], client: Client) -> usize
    ensures bound { result ≤ length lines.now }
    ensures boundary { IsBoundary (λ line. nat_lt line.client client.0) lines.now result }
{
    let mut low = 0;
    let mut high = lines.len();
    while low < high {
        let mid = low + (high - low) / 2;
        if lines[mid].client().0 < client.0 {
            low = mid + 1;
        } else {
            high = mid;
        }
    }
    low
}

/// Whether the line at a place is the client's.
fn is_at(lines: &[Line], at: usize, client: Client) -> bool
    ensures inside { result ≡ true → at < length lines.now }
    ensures found { result ≡ true → HoldsAt (IsLineOf client.0) lines.now at }
    ensures other { result ≡ false → at < length lines.now
        → HoldsAt (IsOther client.0) lines.now at }
{
    if at >= lines.len() {
        return false;
    }
    lines[at].client().0 == client.0
}

/// Where the client's line stands.
pub fn seat(lines: &[Line], client: Client) -> Option<usize>
    requires { AreLines 0 lines.now }
    ensures seat { IfSome result (λ i. IsSeat lines.now lines.now i client.0) }
    ensures missing { IfNone result (line_of lines.now client.0 ≡ None) }
{
    let at = lines_below(lines, client);
    if is_at(lines, at, client) {
        return Some(at);
    }
    None
}

/// Where the client's line stands, which is made where there is none.
pub fn seat_made(lines: &mut Vec<Line>, client: Client) -> Result<usize, AllocError>
    requires { AreLines 0 lines.old.items }
    ensures seat { IfOk result (λ i. IsSeat lines.old.items lines.new.items i client.0) }
    ensures lines { AreLines 0 lines.new.items }
    ensures kept { KeepsLines lines.old.items lines.new.items }
    ensures succeeds { 0 < room_of lines.old.items client.0 → IsOk result }
{
    let at = lines_below(lines, client);
    if is_at(lines, at, client) {
        return Ok(at);
    }
    let alloc = *lines.allocator();
    lines.insert(at, Line::new(alloc, client))?;
    Ok(at)
}
