//! Fields, read in V2.

ghost use Rattle.std.specs.Prelude.{◌≡◌, Some};
ghost use Rattle.yd_parts.specs.Fault.{Makes, TakesNoMemory};
ghost use Rattle.yd_v2.specs.Reading.{most_structs, v2_at, v2_end, v2_spot, v2_start};
ghost use Rattle.yd_v2.specs.Sound.{IsSoundV2};

use crate::column::{byte_in, diff_in, end_in, refusal, string_in, uint_in};
use crate::head::read_head;
use crate::json_making::json_of_value;
use crate::known::key_of;
use std::alloc::Global;
use std::marker::Model;
use yd_any::{Any, Json};
use yd_cols::{ByteReader, IntDiffReader, StringReader, UintReader};
use yd_fields::FieldReader;
use yd_ids::{Client, Id};
use yd_parts::{Cause, Column, Parts, ReadError, Spot, read_any};
use yd_reading::{flag_of, range_of};

/// How many structs a file may declare: runs of equal values could make any number of them out of
/// a few bytes (own).
const MOST_STRUCTS: u64 = 4_194_304;

/// Reads the fields of an update in V2, in which each type of field has its column, or stands in
/// the rest behind the columns (Yjs 13, UpdateDecoderV2).
#[derive(Drop)]
pub struct V2Reader<'a> {
    keys: IntDiffReader<'a>,
    clients: UintReader<'a>,
    lefts: IntDiffReader<'a>,
    rights: IntDiffReader<'a>,
    infos: ByteReader<'a>,
    strings: StringReader<'a>,
    parents: ByteReader<'a>,
    kinds: UintReader<'a>,
    lengths: UintReader<'a>,
    rest: Parts<'a>,
    known: Vec<&'a str>,
    spot: Spot,
}

impl<'a> Model for V2Reader<'a> {
    ghost use Rattle.std.specs.Prelude.{IsUtf8};
    ghost use Rattle.yd_words.specs.Each.{Each};
    ghost use Rattle.yd_v2.specs.KnownView.{keys_of};
    ghost use Rattle.yd_v2.specs.Reading.{V2Now};

    ghost Value = { V2Now };

    ghost view = { λ r. record {
      left = record {
        keys = r.keys;
        clients = r.clients;
        lefts = r.lefts;
        rights = r.rights;
        infos = r.infos;
        strings = r.strings;
        parents = r.parents;
        kinds = r.kinds;
        lengths = r.lengths;
        rest = r.rest;
      };
      known = keys_of r.known.items;
      spot = r.spot;
    } };

    ghost invariant = { λ r. Each IsUtf8 (keys_of r.known.items) };
}

impl<'a> V2Reader<'a> {
    /// A reader before the first field of a file, of which the flag, the columns and the text of
    /// the strings are read. It takes no memory.
    #[tactic(auto, unfolding(crate::specs::Reading::v2_start))]
    pub fn new(alloc: Global, bytes: &'a [u8]) -> Result<V2Reader<'a>, ReadError>
        ensures made { Makes (λ r. r) result (v2_start bytes.now) }
        ensures memory { TakesNoMemory result }
    {
        let mut parts = Parts::new(Column::Head, bytes);
        let spot = parts.here();
        let head = read_head(&mut parts)?;
        match StringReader::new(head.strings) {
            Err(fault) => Err(refusal(Column::Strings, fault)),
            Ok(strings) => Ok(V2Reader {
                keys: IntDiffReader::new(head.keys),
                clients: UintReader::new(head.clients),
                lefts: IntDiffReader::new(head.lefts),
                rights: IntDiffReader::new(head.rights),
                infos: ByteReader::new(head.infos),
                strings,
                parents: ByteReader::new(head.parents),
                kinds: UintReader::new(head.kinds),
                lengths: UintReader::new(head.lengths),
                rest: Parts::new(Column::Rest, parts.rest()),
                known: Vec::new(alloc),
                spot,
            }),
        }
    }
}

#[tactic(auto, unfolding(crate::specs::Reading::v2_at, yd_parts::specs::Plan::read_by))]
impl<'a> FieldReader<'a> for V2Reader<'a> {
    ghost field_at = { v2_at };

    ghost spot_of = { v2_spot };

    ghost end_at = { v2_end };

    ghost most_of = { λ _. Some most_structs };

    ghost is_sound = { IsSoundV2 };

    fn get_info(&mut self) -> Result<u8, ReadError> {
        let (info, spot) = byte_in(Column::Infos, &mut self.infos)?;
        self.spot = spot;
        Ok(info)
    }

    fn get_client(&mut self) -> Result<u64, ReadError> {
        let (client, spot) = uint_in(Column::Clients, &mut self.clients)?;
        self.spot = spot;
        Ok(client)
    }

    fn get_left(&mut self) -> Result<Id, ReadError> {
        let (client, spot) = uint_in(Column::Clients, &mut self.clients)?;
        let (clock, _) = diff_in(Column::Lefts, &mut self.lefts)?;
        self.spot = spot;
        Ok(Id {
            client: Client(client),
            clock,
        })
    }

    fn get_right(&mut self) -> Result<Id, ReadError> {
        let (client, spot) = uint_in(Column::Clients, &mut self.clients)?;
        let (clock, _) = diff_in(Column::Rights, &mut self.rights)?;
        self.spot = spot;
        Ok(Id {
            client: Client(client),
            clock,
        })
    }

    #[tactic(auto, using(crate::proofs::FieldLemmas::flag_field_at))]
    fn get_flag(&mut self) -> Result<u8, ReadError> {
        let (flag, spot) = byte_in(Column::Parents, &mut self.parents)?;
        self.spot = spot;
        flag_of(u64::from(flag), spot)
    }

    fn get_string(&mut self) -> Result<&'a str, ReadError> {
        let (string, spot) = string_in(Column::Strings, &mut self.strings)?;
        self.spot = spot;
        Ok(string)
    }

    #[tactic(auto, using(crate::proofs::FieldLemmas::key_at, crate::proofs::KnownLemmas::keys_with_last, crate::proofs::SoundLemmas::texts_with_last))]
    fn get_key(&mut self) -> Result<&'a str, ReadError> {
        let (number, spot) = diff_in(Column::Keys, &mut self.keys)?;
        self.spot = spot;
        if let Some(key) = key_of(&self.known, number) {
            return Ok(key);
        }
        let (key, _) = string_in(Column::Strings, &mut self.strings)?;
        if self.known.push(key).is_err() {
            return Err(ReadError::NoMemory);
        }
        Ok(key)
    }

    fn get_kind(&mut self) -> Result<u64, ReadError> {
        let (kind, spot) = uint_in(Column::Kinds, &mut self.kinds)?;
        self.spot = spot;
        Ok(kind)
    }

    fn get_length(&mut self) -> Result<u64, ReadError> {
        let (len, spot) = uint_in(Column::Lengths, &mut self.lengths)?;
        self.spot = spot;
        Ok(len)
    }

    #[tactic(auto, using(crate::proofs::FieldLemmas::any_at))]
    fn get_any(&mut self, alloc: Global) -> Result<Any, ReadError> {
        self.spot = self.rest.here();
        read_any(alloc, &mut self.rest)
    }

    fn get_blob(&mut self) -> Result<&'a [u8], ReadError> {
        self.spot = self.rest.here();
        self.rest.blob()
    }

    #[tactic(auto, using(crate::proofs::FieldLemmas::json_at))]
    fn get_json(&mut self, alloc: Global) -> Result<Json, ReadError> {
        self.spot = self.rest.here();
        let value = read_any(alloc, &mut self.rest)?;
        json_of_value(alloc, &value, self.spot)
    }

    fn get_number(&mut self) -> Result<u64, ReadError> {
        self.spot = self.rest.here();
        self.rest.unsigned()
    }

    #[tactic(auto, using(crate::proofs::FieldLemmas::range_field_at, crate::proofs::RestLemmas::unsigned_small))]
    fn get_range(&mut self, before: u64) -> Result<(u64, u64), ReadError> {
        let far = self.rest.unsigned()?;
        self.spot = self.rest.spot();
        let less = self.rest.unsigned()?;
        range_of(before + far, less + 1, self.spot)
    }

    fn spot(&self) -> Spot {
        self.spot
    }

    fn most_structs(&self) -> Option<u64> {
        Some(MOST_STRUCTS)
    }

    // What the columns keep is said to proofs by calls that only read.
    #[tactic(auto, using(crate::proofs::SoundLemmas::v2_fits))]
    fn reads_soundly(&self) {
        self.clients.in_range();
        self.kinds.in_range();
        self.lengths.in_range();
        self.strings.is_text();
    }

    #[tactic(auto, unfolding(crate::specs::Reading::v2_end))]
    fn finish(self) -> Result<(), ReadError> {
        if self.rest.left() > 0 {
            return Err(ReadError::Fault {
                cause: Cause::Trailing,
                spot: self.rest.here(),
            });
        }
        end_in(Column::Keys, self.keys.finish())?;
        end_in(Column::Clients, self.clients.finish())?;
        end_in(Column::Lefts, self.lefts.finish())?;
        end_in(Column::Rights, self.rights.finish())?;
        end_in(Column::Infos, self.infos.finish())?;
        end_in(Column::Strings, self.strings.finish())?;
        end_in(Column::Parents, self.parents.finish())?;
        end_in(Column::Kinds, self.kinds.finish())?;
        end_in(Column::Lengths, self.lengths.finish())
    }
}
