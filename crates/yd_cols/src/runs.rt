//! What is left of a column in runs.

ghost use Rattle.std.specs.Prelude.{◌≡◌};
ghost use Rattle.yd_cols.specs.Answer.{GivesHand};
ghost use Rattle.yd_cols.specs.Reading.{end_of_runs, of_number, runs_from};
ghost use Rattle.yd_num.specs.Fault.{cause_of};

use crate::fault::{ColCause, ColFault};
use crate::run::Run;
use std::marker::Model;
use yd_num::{Cursor, NumFault};

/// The run in hand, and behind it the bytes of the others.
#[derive(Drop)]
pub struct Runs<'a, V> {
    run: Run<V>,
    at: usize,
    cursor: Cursor<'a>,
}

impl<'a, V> Model for Runs<'a, V> {
    ghost use Rattle.yd_cols.specs.Reading.{RunsLeft};

    ghost Value = { RunsLeft V };

    ghost view = { λ r. record {
      value = r.run.value;
      more = r.run.more;
      at = r.at;
      place = r.cursor.place;
      bytes = r.cursor.unread;
    } };
}

impl<'a, V: Copy> Runs<'a, V> {
    /// All runs that are left, with a value that is in no run.
    pub fn new(none: V, cursor: Cursor<'a>) -> Runs<'a, V>
        ensures { result ≡ runs_from none cursor.entry.place cursor.entry.unread }
    {
        Runs {
            run: Run {
                value: none,
                more: 0,
            },
            at: cursor.place(),
            cursor,
        }
    }

    /// The same runs again.
    pub fn copy(&self) -> Runs<'a, V>
        ensures { result ≡ self.now }
    {
        Runs {
            run: self.run,
            at: self.at,
            cursor: self.cursor.copy(),
        }
    }

    /// The value in hand, or that of the last run.
    pub fn value(&self) -> V
        ensures { result ≡ self.now.value }
    {
        self.run.value
    }

    /// The place of the run in hand.
    pub fn place(&self) -> usize
        ensures { result ≡ self.now.at }
    {
        self.at
    }

    /// The place behind the run in hand.
    pub fn end_place(&self) -> usize
        ensures { result ≡ self.now.place }
    {
        self.cursor.place()
    }

    /// One more value of the run in hand, if it has one.
    pub fn hand(&mut self) -> Option<V>
        ensures { GivesHand self.old self.new result }
    {
        if self.run.more == 0 {
            return None;
        }
        self.run.more -= 1;
        Some(self.run.value)
    }

    /// A cursor before the next run.
    pub fn ahead(&self) -> Cursor<'a>
        ensures place { result.place ≡ self.now.place }
        ensures unread { result.unread ≡ self.now.bytes }
    {
        self.cursor.copy()
    }
    /// The next run, behind which the cursor stands, is in hand, and its first value is given.
    pub fn open(&mut self, run: Run<V>, ahead: Cursor<'a>) -> V
        ensures given { result ≡ run.value }
        ensures opened { self.new ≡ record {
          value = run.value;
          more = run.more;
          at = self.old.place;
          place = ahead.entry.place;
          bytes = ahead.entry.unread;
        } }
    {
        self.at = self.cursor.place();
        self.run = run;
        self.cursor = ahead;
        self.run.value
    }

    /// No run can be read.
    pub fn fault(&self, fault: NumFault) -> ColFault
        ensures { result ≡ record { cause = of_number (cause_of fault); at = self.now.place } }
    {
        ColFault {
            cause: cause_of(fault),
            at: self.cursor.place(),
        }
    }

    /// Whether no value is left.
    pub fn end(&self) -> Result<(), ColFault>
        ensures { result ≡ end_of_runs self.now }
    {
        if self.run.more > 0 {
            return Err(ColFault {
                cause: ColCause::ColumnLeft,
                at: self.at,
            });
        }
        if self.cursor.left() > 0 {
            return Err(ColFault {
                cause: ColCause::ColumnLeft,
                at: self.cursor.place(),
            });
        }
        Ok(())
    }
}

/// The cause of a number or a text that cannot be read.
pub fn cause_of(fault: NumFault) -> ColCause
    ensures { result ≡ of_number (cause_of fault) }
{
    match fault {
        NumFault::ShortInput(_) => ColCause::ShortInput,
        NumFault::NumberTooLarge(_) => ColCause::NumberTooLarge,
        NumFault::BadUtf8(_) => ColCause::BadUtf8,
    }
}
