//! Files of a library, as a file of cases gives them.

use crate::bytes::bytes_of;
use crate::slip::Slip;
use std::alloc::Global;

/// Bytes under a name.
#[derive(Drop)]
pub struct Stored<'a> {
    /// The name: no file beside it in one list has the same.
    pub name: &'a str,
    /// The file's bytes.
    pub bytes: Vec<u8>,
}

/// The bytes of the file of this name, if there is one.
pub(crate) fn file_named<'b>(files: &'b [Stored<'_>], name: &str) -> Option<&'b [u8]> {
    let file = files.iter().find(|file| file.name == name)?;
    Some(file.bytes.as_slice())
}

/// The bytes of a case's own file of this name, or else of the shared one.
pub(crate) fn file_of<'b>(
    own: &'b [Stored<'_>],
    shared: &'b [Stored<'_>],
    name: &str,
) -> Result<&'b [u8], Slip> {
    file_named(own, name)
        .or_else(|| file_named(shared, name))
        .ok_or(Slip::NoFile)
}

/// Adds a file: a name that no other has, a space, and bytes. A slip adds none.
pub(crate) fn add_file<'a>(
    alloc: Global,
    files: &mut Vec<Stored<'a>>,
    text: &'a str,
) -> Result<(), Slip> {
    let (name, digits) = text.split_once(' ').unwrap_or((text, ""));
    if name.is_empty() || file_named(files.as_slice(), name).is_some() {
        return Err(Slip::BadName);
    }
    let bytes = bytes_of(alloc, digits)?;
    files.push(Stored { name, bytes })?;
    Ok(())
}
