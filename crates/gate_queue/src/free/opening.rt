//! Opens a queue without a bound together with all its seats.
ghost use Rattle.std.specs.Prelude.{◌≡◌, ◌≤◌, [], All, IfOk, vec_len};
ghost use Rattle.std.specs.Vec.{vec_capacity};
ghost use Rattle.crossbeam_queue.specs.SegTies.{IsSegPassOf};
ghost use Rattle.gate_queue.specs.Seats.{in_blocks, IsHeadOf, AreAllTailsOf};
ghost use Rattle.gate_queue.specs.Inner.Sharing.{opening};
ghost use Rattle.gate_queue.specs.Inner.Views.{AreNew};
ghost use Rattle.gate_queue.specs.FreeViews.{known_by};

use super::batch::BLOCK;
use super::known::{Begins, Blocks, FreeRight};
use super::queue::FreeQueue;
use super::seats::{FreeHead, FreeTail};
use crate::known::{Plans, Seats};
use std::alloc::{AllocError, Global};
use std::collections::VecDeque;

/// Opens a queue without a bound, with one seat for each of `senders` senders, numbered from 0 in the order of the list,
/// and the taker's seat. There may be no sender.
///
/// `AllocError` says that there was no memory for the first blocks or the seats.
pub fn open_free<T: Drop>(
    alloc: Global,
    senders: usize,
) -> Result<(FreeQueue<T>, Vec<FreeTail<T>>, FreeHead<T>), AllocError>
    ensures queue { IfOk result (λ opened. opened.0.name.senders ≡ senders) }
    ensures tails { IfOk result (λ opened. AreAllTailsOf opened.0 opened.1.items) }
    ensures nothing_put { IfOk result (λ opened. All (λ tail. tail.put ≡ []) opened.1.items) }
    ensures head { IfOk result (λ opened. IsHeadOf opened.0 opened.2 × (opened.2.taken ≡ [])) }
{
    let tails = Vec::with_capacity(alloc, senders)?;
    let ready = VecDeque::with_capacity(alloc, BLOCK)?;
    let (blocks, mut right) = Blocks::with_rule(alloc)?;
    let _begun = blocks.another::<Begins>(&mut right);
    let right = plan(&blocks, right, senders);
    let (right, tails) = seat(&blocks, right, tails, senders);
    let queue = FreeQueue {
        blocks,
        senders,
        alloc,
    };
    Ok((queue, tails, FreeHead { right, ready }))
}

// Tells the taker's seat how many senders there will be, before any of them has its seat.
fn plan<T: Drop>(blocks: &Blocks<T>, mut right: FreeRight<T>, senders: usize) -> FreeRight<T>
    requires { IsSegPassOf blocks.now right × (known_by right ≡ opening 0 0) }
    ensures { IsSegPassOf blocks.now result × (known_by result ≡ opening senders 0) }
{
    for _planned in 0..senders {
        let _counted = blocks.another::<Plans>(&mut right);
    }
    right
}

// Gives each sender its seat.
fn seat<T: Drop>(
    blocks: &Blocks<T>,
    mut right: FreeRight<T>,
    mut tails: Vec<FreeTail<T>>,
    senders: usize,
) -> (FreeRight<T>, Vec<FreeTail<T>>)
    requires right { IsSegPassOf blocks.now right × (known_by right ≡ opening senders 0) }
    requires room { (tails.items ≡ []) × (senders ≤ vec_capacity tails) }
    ensures right { IsSegPassOf blocks.now result.0 × (known_by result.0 ≡ opening senders senders) }
    ensures tails { (vec_len result.1 ≡ senders) × AreNew (in_blocks blocks.now.web) senders result.1.items }
{
    for sender in 0..senders {
        let own = blocks.another::<Seats>(&mut right);
        tails.push_reserved(FreeTail { sender, right: own });
    }
    (right, tails)
}
