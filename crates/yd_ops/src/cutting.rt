//! A run that is cut in two.

ghost use Rattle.std.specs.Prelude.{◌≡◌, ◌+◌, ◌<◌, ◌≤◌, length, take, drop, IfOk, IfErr, OnOk, OnErr};
ghost use Rattle.yd_ids.specs.Id.{IsClock};
ghost use Rattle.yd_ops.specs.Value.{len_of};
ghost use Rattle.yd_ops.specs.Operation.{later_id};
ghost use Rattle.yd_ops.specs.View.{content_value, run_value};
ghost use Rattle.yd_ops.specs.Cutting.{content_before, content_behind, run_before, run_behind};

use crate::contents::{Content, JsonUnits};
use crate::fault::NoMemory;
use crate::runs::Run;
use yd_ids::Id;

/// A cut found no memory, and this is the run as it was.
#[derive(Drop)]
pub struct CutFault(pub Run);

impl Run {
    /// The run's first `n` units as a run, and the others as another, in time and memory of the
    /// others; of deleted units only their numbers change. The second run's left origin is the unit
    /// before it, and it carries no list. So both have the run's operations, and join to it again
    /// (`law::runs_are_cut`). A pair may be parted, so that each half stands without its partner, and
    /// neither run is valid; `Units::is_cut` tells where (own).
    pub fn cut(self, n: u64) -> Result<(Run, Run), CutFault>
        requires some { 0 < n }
        requires inside { n < len_of (content_value self.content) }
        requires ends { IsClock (self.id.clock + len_of (content_value self.content)) }
        ensures first { IfOk result (λ runs. run_value runs.0 ≡ run_before n (run_value self)) }
        ensures other { IfOk result (λ runs. run_value runs.1 ≡ run_behind n (run_value self)) }
        ensures unchanged { IfErr result (λ fault. run_value fault.0 ≡ run_value self) }
    {
        let mut first = self;
        match first.content.split_off(n) {
            Err(_) => Err(CutFault(first)),
            Ok(content) => {
                let other = Run {
                    id: later(first.id, n),
                    left: Some(later(first.id, n - 1)),
                    right: first.right,
                    list: None,
                    content,
                };
                Ok((first, other))
            }
        }
    }
}

/// The same client's id so many clocks later.
fn later(id: Id, count: u64) -> Id
    requires { IsClock (id.clock + count) }
    ensures { result ≡ later_id id count }
{
    Id {
        client: id.client,
        clock: id.clock + count,
    }
}

impl Content {
    /// Keeps the first `n` units, and gives the others out, in time and memory of what it gives out.
    /// It may part a pair, so that each half stands without its partner (own).
    pub fn split_off(&mut self, n: u64) -> Result<Content, NoMemory>
        requires some { 0 < n }
        requires inside { n < len_of (content_value self.old) }
        ensures kept { OnOk result (content_value self.new
            ≡ content_before n (content_value self.old)) }
        ensures given { IfOk result (λ rest. content_value rest
            ≡ content_behind n (content_value self.old)) }
        ensures unchanged { OnErr result (content_value self.new ≡ content_value self.old) }
    {
        match self {
            Content::Json(units) => Ok(Content::Json(units.split_off(n)?)),
            Content::Str(units) => Ok(Content::Str(units.split_off(n)?)),
            Content::Any(values) => Ok(Content::Any(values.split_off(n)?)),
            Content::Deleted(count) => {
                let rest = *count - n;
                *count = n;
                Ok(Content::Deleted(rest))
            }
            // What has one unit has no place inside.
            _ => unreachable!(),
        }
    }
}

impl JsonUnits {
    /// Keeps the first `n` units, and gives the others out, in time and memory of what it gives out.
    pub fn split_off(&mut self, n: u64) -> Result<JsonUnits, NoMemory>
        requires { n ≤ length self.old }
        ensures kept { OnOk result (self.new ≡ take n self.old) }
        ensures given { IfOk result (λ rest. rest ≡ drop n self.old) }
        ensures unchanged { OnErr result (self.new ≡ self.old) }
    {
        let units = self.units.split_off(n as usize)?;
        Ok(JsonUnits { units })
    }
}
