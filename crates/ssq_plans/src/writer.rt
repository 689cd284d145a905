//! Bytes that are written piece by piece.
ghost use Rattle.std.specs.Prelude.{◌≡◌, [], ◌++◌, IfOk, List, ℕ, codes, decimal};
ghost use Rattle.std.specs.Option.{ForSome};
ghost use Rattle.ssq_time.specs.Time.{IsStampTime};
ghost use Rattle.ssq_plans.specs.Records.{time_or_none};
ghost use Rattle.ssq_plans.specs.Written.{Holds, Adds};

use ssq_field::{Bytes, put_decimal_to};
use ssq_time::put_time;
use std::alloc::{AllocError, Global};
use std::marker::Model;

/// Bytes that are written piece by piece: of a record, of what a checkpoint has, of what is told of an epoch. Where memory runs out it
/// remembers that, and `into_vec` tells it.
#[derive(Drop)]
pub struct Writer {
    out: Vec<u8>,
    is_whole: bool,
}

impl Model for Writer {
    ghost use Rattle.ssq_plans.specs.Written.{Written};

    ghost Value = { Written };

    ghost view = { λ writer. record { bytes = writer.out.items; is_whole = writer.is_whole } };
}

impl Writer {
    /// No bytes.
    pub fn new(alloc: Global) -> Writer
        ensures { Holds result [] }
    {
        Writer {
            out: Vec::new(alloc),
            is_whole: true,
        }
    }

    /// Appends the bytes.
    pub fn put(&mut self, bytes: &[u8])
        ensures { Adds self.old bytes.now self.new }
    {
        self.is_whole = self.is_whole && self.out.extend_from_slice(bytes).is_ok();
    }

    /// Appends these bytes, and the number after them.
    pub fn put_number(&mut self, front: &[u8], number: u64)
        ensures { Adds self.old (front.now ++ decimal number) self.new }
    {
        self.put(front);
        self.is_whole = self.is_whole && put_decimal_to(&mut self.out, number).is_ok();
    }

    /// Appends these bytes, and the number after them that is the rest of their line.
    pub fn put_number_line(&mut self, front: &[u8], number: u64)
        ensures { Adds self.old (front.now ++ decimal number ++ codes "\n") self.new }
    {
        self.put_number(front, number);
        self.put(b"\n");
    }

    /// Appends a time of the years 0001 to 9999, or `none` where there is none.
    fn put_time_or_none(&mut self, time: Option<i64>)
        requires { ForSome time IsStampTime }
        ensures { Adds self.old (time_or_none time) self.new }
    {
        match time {
            None => self.put(b"none"),
            Some(time) => {
                self.is_whole = self.is_whole && put_time(&mut self.out, time).is_ok();
            }
        }
    }

    /// Appends these bytes, and after them a time of the years 0001 to 9999, in microseconds since 1970-01-01T00:00:00Z, or `none`.
    pub fn put_time(&mut self, front: &[u8], time: Option<i64>)
        requires { ForSome time IsStampTime }
        ensures { Adds self.old (front.now ++ time_or_none time) self.new }
    {
        self.put(front);
        self.put_time_or_none(time);
    }

    /// The same, as the rest of a line.
    pub fn put_time_line(&mut self, front: &[u8], time: Option<i64>)
        requires { ForSome time IsStampTime }
        ensures { Adds self.old (front.now ++ time_or_none time ++ codes "\n") self.new }
    {
        self.put_time(front, time);
        self.put(b"\n");
    }

    /// The bytes, where none is missing. Room for them was all that was lacking otherwise.
    pub fn into_vec(self) -> Result<Vec<u8>, AllocError>
        ensures { (held : List ℕ) → Holds self held → IfOk result (λ bytes. bytes.items ≡ held) }
    {
        let Writer { out, is_whole } = self;
        if is_whole { Ok(out) } else { Err(AllocError) }
    }

    /// The same, as a record keeps them.
    pub(crate) fn finish(self) -> Result<Bytes, AllocError>
        ensures { (held : List ℕ) → Holds self held → IfOk result (λ bytes. bytes ≡ held) }
    {
        Ok(Bytes::from_vec(self.into_vec()?))
    }
}
