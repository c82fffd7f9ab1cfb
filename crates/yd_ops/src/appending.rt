//! Runs that join, and become one.

ghost use Rattle.std.specs.Prelude.{◌≡◌, ◌++◌, true, OnOk, OnErr};
ghost use Rattle.yd_ops.specs.View.{content_value, run_value};
ghost use Rattle.yd_ops.specs.Joining.{are_of_one_kind, joined_content, run_joins, joined_run};

use crate::contents::{Content, JsonUnits};
use crate::fault::NoMemory;
use crate::runs::Run;

impl Run {
    /// Puts the next run behind this one, in time of what that has; so both are one run, as they were
    /// before a cut. If there is no memory, the next run is dropped.
    pub fn append(&mut self, next: Run) -> Result<(), NoMemory>
        requires { run_joins (run_value self.old) (run_value next) ≡ true }
        ensures appended { OnOk result (run_value self.new
            ≡ joined_run (run_value self.old) (run_value next)) }
        ensures unchanged { OnErr result (run_value self.new ≡ run_value self.old) }
    {
        self.content.append(next.content)
    }
}

impl Content {
    /// Puts the units of another content of the same kind behind these, in time of what that has. If
    /// there is no memory, they are dropped; so it is with more than 2^64-1 deleted units.
    pub fn append(&mut self, next: Content) -> Result<(), NoMemory>
        requires { are_of_one_kind (content_value self.old) (content_value next) ≡ true }
        ensures appended { OnOk result (content_value self.new
            ≡ joined_content (content_value self.old) (content_value next)) }
        ensures unchanged { OnErr result (content_value self.new ≡ content_value self.old) }
    {
        match (self, next) {
            (Content::Json(units), Content::Json(next)) => units.append(next),
            (Content::Str(units), Content::Str(next)) => {
                units.append(&next)?;
                Ok(())
            }
            (Content::Any(values), Content::Any(next)) => {
                values.append(next)?;
                Ok(())
            }
            (Content::Deleted(count), Content::Deleted(more)) => {
                match count.checked_add(more) {
                    None => Err(NoMemory),
                    Some(both) => {
                        *count = both;
                        Ok(())
                    }
                }
            }
            // Contents of no kind, or of two, do not join.
            _ => unreachable!(),
        }
    }
}

impl JsonUnits {
    /// Moves the other's units behind these, in time of what it moves. If there is no memory, they
    /// are dropped.
    pub fn append(&mut self, other: JsonUnits) -> Result<(), NoMemory>
        ensures appended { OnOk result (self.new ≡ self.old ++ other) }
        ensures unchanged { OnErr result (self.new ≡ self.old) }
    {
        let mut other = other;
        self.units.append(&mut other.units)?;
        Ok(())
    }
}
