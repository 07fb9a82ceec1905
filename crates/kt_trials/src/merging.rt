//! What the merger of a round takes while the workers work.
//! The rule: docs/PROVING.md, "Tests".

use crate::failure::Failure;
use kt_claims::{Inbox, Item, Reorder};
use kt_part::merge;
use rtrb::RingBuffer;
use std::alloc::AllocGlobal;
use std::io::Print;

/// Prints what the merger has taken of a lane with two items, the later number first and the earlier without a block.
pub(crate) fn print_merging<R: AllocGlobal + Print>(rt: &R) -> Result<(), Failure> {
    let alloc = rt.alloc();
    let (mut ring, lane) = RingBuffer::new(alloc, 16)?;
    ring.push_reserved(Item {
        number: 1,
        block: Some(101u32),
    });
    ring.push_reserved(Item {
        number: 0,
        block: None,
    });
    let mut inbox = Inbox {
        reorder: Reorder::new(alloc)?,
        is_spoiled: false,
        arrived: 0,
    };
    merge(2, &mut inbox, &mut [lane]);
    println!(rt;
        "merged: {} items, spoiled: {}",
        inbox.arrived, inbox.is_spoiled
    )?;
    for _ in 0..3 {
        println!(rt; "  {:?}", inbox.reorder.next())?;
    }
    Ok(())
}
