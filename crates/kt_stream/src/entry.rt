//! The records of a stream as values, and what a kind of record owes to be read.
//! The rules: docs/STREAMS.md, "Records".
ghost use Rattle.std.specs.Prelude.{◌≡◌, ◌≤◌, List, [], ◌∷◌, ◌++◌, length, take, OnOk, OnErr};

use std::alloc::{AllocError, Global};
use std::marker::Model;
use std::mem::replace;

/// A value whose memory is used again.
pub trait Reusable: Sized + Drop {
    /// A value to be written over. Asks for no memory.
    fn blank(alloc: Global) -> Self;

    /// Becomes the same as another value, in the memory that it has as far as that goes. An error is want of
    /// memory; nothing is said of the value then.
    fn copy_from(&mut self, other: &Self) -> Result<(), AllocError>
        ensures ok { OnOk result (self.new ≡ other.now) };
}

/// The loss of one sidx.
#[derive(Clone, Copy)]
pub struct Pair {
    /// -1 for the mean, -2 for the standard deviation, 1 and up for the samples.
    pub sidx: i32,
    /// In cents, from 1 to 10^16.
    pub loss: u64,
}

/// A list, of records or of what one record has. Contracts see the list.
#[derive(Drop)]
pub struct Records<T> {
    items: Vec<T>,
}

impl<T> Model for Records<T> {
    ghost use Rattle.std.specs.Prelude.{List};

    ghost Value = { List T };

    ghost view = { λ list. list.items.items };
}

impl<T: Drop> Records<T> {
    /// The empty list. Asks for no memory.
    pub fn new(alloc: Global) -> Records<T>
        ensures value { result ≡ [] }
    {
        Records {
            items: Vec::new(alloc),
        }
    }

    /// Appends an element. Refused only for want of memory, and the list is then as it was.
    pub fn push(&mut self, item: T) -> Result<(), AllocError>
        ensures ok { OnOk result (self.new ≡ self.old ++ item ∷ []) }

        ensures memory { OnErr result (self.new ≡ self.old) }
    {
        self.items.push(item)?;
        Ok(())
    }

    /// Keeps the first `len` elements.
    pub fn truncate(&mut self, len: usize)
        requires { len ≤ length self.old }
        ensures value { self.new ≡ take len self.old }
    {
        self.items.truncate(len);
    }

    /// The elements in order.
    pub fn as_slice(&self) -> &[T]
        ensures value { result.now ≡ self.now }
    {
        self.items.as_slice()
    }

    /// The list that a vector holds. Takes no memory.
    pub fn from_vec(items: Vec<T>) -> Records<T>
        ensures value { result ≡ items.items }
    {
        Records { items }
    }

    /// The vector that holds the list, which is empty from then on. Takes no memory.
    pub(crate) fn take_vec(&mut self) -> Vec<T>
        ensures value { result.items ≡ self.old }
        ensures empty { self.new ≡ [] }
    {
        let alloc = *self.items.allocator();
        replace(&mut self.items, Vec::new(alloc))
    }
}

impl<T: Copy + Drop> Records<T> {
    /// Becomes the same as another list, in the memory that it has as far as that goes. An error is want of memory,
    /// and the list is empty then.
    pub fn copy_from(&mut self, other: &Records<T>) -> Result<(), AllocError>
        ensures ok { OnOk result (self.new ≡ other.now) }

        ensures memory { OnErr result (self.new ≡ []) }
    {
        self.items.clear();
        self.items.extend_from_slice(other.items.as_slice())
    }
}

/// The pairs of a record, in order.
pub type Pairs = Records<Pair>;

/// A bin of a damage distribution.
#[derive(Clone, Copy)]
pub struct Bin {
    /// The cumulative probability up to this bin's upper end, at most 1,002,001,000,000.
    pub prob_to: u64,
    /// The mean damage of the bin in millionths, at most 1,000,000.
    pub mean: u32,
}

/// The bins of a distribution, in order.
pub type Bins = Records<Bin>;

/// The damage distribution of one area peril and vulnerability in one event.
#[derive(Drop)]
pub struct Cdf {
    /// The event's id, from 1 to 2,147,483,647.
    pub event: u32,
    /// The area peril's id, from 1 to 2,147,483,647.
    pub areaperil: u32,
    /// The vulnerability's id, from 1 to 2,147,483,647.
    pub vulnerability: u32,
    /// The bins, by rising probability.
    pub bins: Bins,
}

impl Reusable for Cdf {
    fn blank(alloc: Global) -> Self {
        Cdf {
            event: 0,
            areaperil: 0,
            vulnerability: 0,
            bins: Records::new(alloc),
        }
    }

    fn copy_from(&mut self, other: &Self) -> Result<(), AllocError> {
        self.bins.copy_from(&other.bins)?;
        self.event = other.event;
        self.areaperil = other.areaperil;
        self.vulnerability = other.vulnerability;
        Ok(())
    }
}

/// The losses of one item, or of one output of a programme, in one event.
#[derive(Drop)]
pub struct LossRecord {
    /// The event's id, from 1 to 2,147,483,647.
    pub event: u32,
    /// The id of the item or of the output, from 1 to 2,147,483,647.
    pub id: u32,
    /// The losses, by rising sidx; zero losses are left out.
    pub pairs: Pairs,
}

impl Reusable for LossRecord {
    fn blank(alloc: Global) -> Self {
        LossRecord {
            event: 0,
            id: 0,
            pairs: Records::new(alloc),
        }
    }

    fn copy_from(&mut self, other: &Self) -> Result<(), AllocError> {
        self.pairs.copy_from(&other.pairs)?;
        self.event = other.event;
        self.id = other.id;
        Ok(())
    }
}

/// The losses of one summary id in one event.
#[derive(Drop)]
pub struct SummaryRecord {
    /// The event's id, from 1 to 2,147,483,647.
    pub event: u32,
    /// The summary id, from 1 to 2,147,483,647.
    pub summary: u32,
    /// The exposure of the summary id in cents, at most 10^14.
    pub exposure: u64,
    /// The losses, by rising sidx; zero losses are left out.
    pub pairs: Pairs,
}

impl Reusable for SummaryRecord {
    fn blank(alloc: Global) -> Self {
        SummaryRecord {
            event: 0,
            summary: 0,
            exposure: 0,
            pairs: Records::new(alloc),
        }
    }

    fn copy_from(&mut self, other: &Self) -> Result<(), AllocError> {
        self.pairs.copy_from(&other.pairs)?;
        self.event = other.event;
        self.summary = other.summary;
        self.exposure = other.exposure;
        Ok(())
    }
}

/// A record, and the byte of the stream at which it begins.
#[derive(Drop)]
pub struct Placed<R> {
    /// The first byte of the record, counted from 0 in the whole stream.
    pub at: u64,
    /// The record.
    pub entry: R,
}

impl<R: Reusable> Reusable for Placed<R> {
    fn blank(alloc: Global) -> Self {
        Placed {
            at: 0,
            entry: R::blank(alloc),
        }
    }

    fn copy_from(&mut self, other: &Self) -> Result<(), AllocError> {
        self.entry.copy_from(&other.entry)?;
        self.at = other.at;
        Ok(())
    }
}
