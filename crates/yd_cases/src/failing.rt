//! Calls that are set to fail.

use crate::bytes::number_of;
use crate::slip::Slip;
use std::alloc::Global;

/// What fails of a library or of a stream.
#[derive(Drop)]
pub struct Failing {
    /// The calls that fail, by their numbers from 0 on.
    pub calls: Vec<u64>,
    /// How many bytes a stream takes before each further write fails.
    pub limit: Option<u64>,
}

impl Failing {
    /// Nothing fails.
    pub(crate) fn new(alloc: Global) -> Failing {
        Failing {
            calls: Vec::new(alloc),
            limit: None,
        }
    }

    /// Takes `at N` in: call N fails.
    pub(crate) fn take_call(&mut self, text: &str) -> Result<(), Slip> {
        match text.split_once(' ') {
            Some(("at", count)) => self.calls.push(number_of(count)?)?,
            _ => return Err(Slip::UnknownWord),
        }
        Ok(())
    }

    /// Takes `at N` in, or `after N`: N bytes are taken, and then all writes fail.
    pub(crate) fn take(&mut self, text: &str) -> Result<(), Slip> {
        match text.split_once(' ') {
            Some(("after", count)) => {
                self.limit = Some(number_of(count)?);
                Ok(())
            }
            _ => self.take_call(text),
        }
    }
}
