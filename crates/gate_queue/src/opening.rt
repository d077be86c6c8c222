//! Opens a bounded queue together with all its seats.
ghost use Rattle.std.specs.Prelude.{◌≡◌, ◌≤◌, ◌↔◌, [], All, IfOk, IsErrOf, vec_len};
ghost use Rattle.std.specs.Vec.{vec_capacity};
ghost use Rattle.crossbeam_queue.specs.Passes.{view, IsPassOf};
ghost use Rattle.gate_queue.specs.Seats.{in_table, IsHeadOf, AreAllTailsOf};
ghost use Rattle.gate_queue.specs.Inner.Sharing.{opening};
ghost use Rattle.gate_queue.specs.Inner.Views.{AreNew};

use crate::fault::OpenFault;
use crate::known::{Places, Plans, Right, Seats};
use crate::queue::EventQueue;
use crate::seats::{Head, Tail};
use std::alloc::Global;

/// Opens a queue of `capacity` places with one seat for each of `senders` senders, numbered from 0 in the order of the
/// list, and the taker's seat. There may be no sender.
///
/// `Capacity` comes first, exactly where `capacity` is 0. `Memory` says that there was no memory for the places or the seats.
pub fn open<T>(
    alloc: Global,
    capacity: usize,
    senders: usize,
) -> Result<(EventQueue<T>, Vec<Tail<T>>, Head<T>), OpenFault>
    ensures no_capacity { IsErrOf result OpenFault.Capacity ↔ (capacity ≡ 0) }
    ensures queue { IfOk result (λ opened. (opened.0.capacity ≡ capacity) × (opened.0.name.senders ≡ senders)) }
    ensures tails { IfOk result (λ opened. AreAllTailsOf opened.0 opened.1.items) }
    ensures nothing_put { IfOk result (λ opened. All (λ tail. tail.put ≡ []) opened.1.items) }
    ensures head { IfOk result (λ opened. IsHeadOf opened.0 opened.2 × (opened.2.taken ≡ [])) }
{
    if capacity == 0 {
        return Err(OpenFault::Capacity);
    }
    let Ok(tails) = Vec::with_capacity(alloc, senders) else {
        return Err(OpenFault::Memory);
    };
    let Ok((places, right)) = Places::ruled(alloc, capacity) else {
        return Err(OpenFault::Memory);
    };
    let right = plan(&places, right, senders);
    let (right, tails) = seat(&places, right, tails, senders);
    let queue = EventQueue {
        places,
        senders,
        alloc,
    };
    Ok((queue, tails, Head { right }))
}

// Tells the taker's seat how many senders there will be, before any of them has its seat.
fn plan<T>(places: &Places<T>, mut right: Right<T>, senders: usize) -> Right<T>
    requires { IsPassOf places.now right × (view right ≡ opening 0 0) }
    ensures { IsPassOf places.now result × (view result ≡ opening senders 0) }
{
    for _planned in 0..senders {
        let _counted = places.another::<Plans>(&mut right);
    }
    right
}

// Gives each sender its seat.
fn seat<T>(
    places: &Places<T>,
    mut right: Right<T>,
    mut tails: Vec<Tail<T>>,
    senders: usize,
) -> (Right<T>, Vec<Tail<T>>)
    requires right { IsPassOf places.now right × (view right ≡ opening senders 0) }
    requires room { (tails.items ≡ []) × (senders ≤ vec_capacity tails) }
    ensures right { IsPassOf places.now result.0 × (view result.0 ≡ opening senders senders) }
    ensures tails { (vec_len result.1 ≡ senders) × AreNew (in_table places.now.table.shared.table_id) senders result.1.items }
{
    for sender in 0..senders {
        let own = places.another::<Seats>(&mut right);
        tails.push_reserved(Tail { sender, right: own });
    }
    (right, tails)
}
