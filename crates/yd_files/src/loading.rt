//! Loading a whole file from a library.

ghost use Rattle.std.specs.Prelude.{◌≡◌, ◌≢◌, ◌+◌, ◌<◌, ◌≤◌, Err, IsErrOf, IsOk, OnOk, take, vec_len};
ghost use Rattle.yd_world.specs.Faults.{Rose, HasCause};
ghost use Rattle.yd_world.specs.Shelf.{HasName};
ghost use Rattle.yd_files.specs.Loading.{BeginsLast, Loads, KeepsFiles, ReadsInto};

use crate::fault::LoadFault;
use std::alloc::{AllocError, Global};
use yd_world::{Failed, Library};

/// How many bytes a file may have.
const MOST: usize = 1 << 28;

/// How many bytes are asked for at once, at least.
const PIECE: usize = 1 << 14;

/// The bytes under a name. Nothing is read past the byte that makes the file too large.
pub fn read_all<L: Library>(
    alloc: Global,
    library: &mut L,
    name: &str,
) -> Result<Vec<u8>, LoadFault>
    ensures loads { Loads (L.told library.old) (L.told library.new) name.now result }
    ensures files { KeepsFiles (L.told library.old) (L.told library.new) }
    ensures begun { BeginsLast (L.told library.old) (L.told library.new) name.now }
    ensures counts { L.faults library.old ≤ L.faults library.new }
    ensures failed { IsErrOf result LoadFault.ReadFault
        → Rose (L.faults library.old) (L.faults library.new) }
    ensures calm { L.is_calm library.old → HasName (L.told library.old) name.now
        → L.is_calm library.new × (result ≢ Err LoadFault.ReadFault)
        × (L.faults library.new ≡ L.faults library.old) }
{
    library.begin(name)?;
    let mut buffer = Vec::new(alloc);
    let mut filled = 0;
    while filled <= MOST {
        make_room(&mut buffer, filled)?;
        let count = read_piece(library, &mut buffer, filled)?;
        if count == 0 {
            buffer.truncate(filled);
            return Ok(buffer);
        }
        filled += count;
    }
    Err(LoadFault::TooLarge)
}

// Room behind what is filled, for a piece at least or up to the last byte that may be read.
fn make_room(buffer: &mut Vec<u8>, filled: usize) -> Result<(), AllocError>
    requires filled { filled ≤ vec_len buffer.old }
    requires allowed { filled ≤ MOST }
    requires small { vec_len buffer.old ≤ MOST + 1 }
    ensures kept { OnOk result (take filled buffer.new.items ≡ take filled buffer.old.items) }
    ensures small { OnOk result (vec_len buffer.new ≤ MOST + 1) }
    ensures room { OnOk result (filled < vec_len buffer.new) }
{
    let len = buffer.len();
    if len - filled >= PIECE || len > MOST {
        return Ok(());
    }
    buffer.resize(next_len(len), 0)?;
    Ok(())
}

// The next length of a buffer that grows by doubling.
fn next_len(len: usize) -> usize
    requires { len ≤ MOST }
    ensures longer { len < result }
    ensures allowed { result ≤ MOST + 1 }
{
    let doubled = PIECE.max(2 * len);
    if doubled < MOST { doubled } else { MOST + 1 }
}

// Reads once into the room behind what is filled.
fn read_piece<L: Library>(
    library: &mut L,
    buffer: &mut Vec<u8>,
    filled: usize,
) -> Result<usize, Failed>
    requires { filled ≤ vec_len buffer.old }
    ensures reads { ReadsInto (L.told library.old) (L.told library.new)
        buffer.old.items buffer.new.items filled result }
    ensures len { vec_len buffer.new ≡ vec_len buffer.old }
    ensures cause { HasCause (L.faults library.old) (L.faults library.new) result }
    ensures calm { L.is_calm library.old → L.is_calm library.new × IsOk result
        × (L.faults library.new ≡ L.faults library.old) }
{
    library.read(&mut buffer[filled..])
}
