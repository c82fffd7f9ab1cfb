//! Each front of a file: its first bytes, from none to all but the last.

use crate::bytes::number_of;
use crate::slip::Slip;
use std::alloc::Global;

/// What is said of a front that has so many bytes or more, up to the next place.
#[derive(Clone, Copy)]
pub struct Place<'a> {
    /// The least number of bytes.
    pub from: usize,
    /// What is said.
    pub told: &'a str,
}

/// A file that is cut to each length below its own, and the place that is told for each length.
#[derive(Drop)]
pub struct Fronts<'a> {
    /// The file's name.
    pub name: &'a str,
    /// The places, ascending. The first one stands at 0.
    pub places: Vec<Place<'a>>,
}

impl<'a> Fronts<'a> {
    /// Reads places: each is a number of bytes, which is what is told, or `N=TOLD`. They are parted
    /// by one space, begin at 0, ascend, and are below the file's length.
    pub(crate) fn read(
        alloc: Global,
        name: &'a str,
        text: &'a str,
        len: usize,
    ) -> Result<Fronts<'a>, Slip> {
        let mut places = Vec::new(alloc);
        let mut least = 0u64;
        for word in text.split(' ') {
            let (digits, told) = word.split_once('=').unwrap_or((word, word));
            let from = number_of(digits)?;
            let is_first = places.is_empty();
            if from < least || (is_first && from != 0) || from >= len as u64 {
                return Err(Slip::BadPlaces);
            }
            places.push(Place {
                from: from as usize,
                told,
            })?;
            least = from.saturating_add(1);
        }
        Ok(Fronts { name, places })
    }

    /// What is told of the front of this length: the last place that is not past it.
    pub(crate) fn told_at(&self, len: usize) -> &'a str {
        let mut told = "";
        for place in &self.places {
            if place.from <= len {
                told = place.told;
            }
        }
        told
    }
}
