//! Bytes in hexadecimal digits, and numbers.

use crate::slip::Slip;
use std::alloc::Global;

/// How often a group of bytes may be repeated.
const MOST_TIMES: u64 = 1 << 29;

/// A number in decimal digits.
pub(crate) fn number_of(text: &str) -> Result<u64, Slip> {
    text.parse::<u64>().map_err(|_| Slip::BadNumber)
}

/// Bytes, as `read_bytes` reads them.
pub(crate) fn bytes_of(alloc: Global, text: &str) -> Result<Vec<u8>, Slip> {
    let mut bytes = Vec::new(alloc);
    read_bytes(alloc, &mut bytes, text)?;
    Ok(bytes)
}

/// Adds bytes in groups of two hexadecimal digits or more, parted by spaces. `GROUP*N` is a group N
/// times.
pub(crate) fn read_bytes(alloc: Global, bytes: &mut Vec<u8>, text: &str) -> Result<(), Slip> {
    for group in text.split_whitespace() {
        match group.split_once('*') {
            None => add_group(alloc, bytes, group, 1)?,
            Some((digits, times)) => add_group(alloc, bytes, digits, number_of(times)?)?,
        }
    }
    Ok(())
}

fn add_group(alloc: Global, bytes: &mut Vec<u8>, digits: &str, times: u64) -> Result<(), Slip> {
    if times > MOST_TIMES {
        return Err(Slip::BadNumber);
    }
    let group = hex::decode(alloc, digits).map_err(|_| Slip::BadBytes)?;
    if let [byte] = group.as_slice() {
        let run = vec![in alloc; *byte; times as usize]?;
        bytes.extend_from_slice(run.as_slice())?;
        return Ok(());
    }
    for _ in 0..times {
        bytes.extend_from_slice(group.as_slice())?;
    }
    Ok(())
}
