//! What the seats of a queue without a bound know beyond what those of every queue do, for the proofs alone: no value of these types is
//! ever made.

use crate::known::Known;
use crate::tagged::Tagged;
use crossbeam_queue::protocol::{Protocol, Split};
use crossbeam_queue::{RuledSegQueue, SegPass};

/// The rule that every queue without a bound keeps, as a protocol of the threads that share it.
pub struct FreeSharing;

impl<T> Protocol<Tagged<T>, Known<T>> for FreeSharing {
    ghost use Rattle.gate_queue.specs.Inner.FreeSharing.{SharesFree};
    ghost use Rattle.gate_queue.specs.declared.known.Known.TheVariants.{Nothing};

    ghost holds = { SharesFree };

    ghost first = { Nothing };
}

/// The step by which the first pass, which knows nothing, becomes the taker's.
pub struct Begins;

impl<T> Split<Known<T>> for Begins {
    ghost use Rattle.gate_queue.specs.Inner.Sharing.{nothing};
    ghost use Rattle.gate_queue.specs.Inner.FreeSharing.{begun};

    ghost left = { begun };

    ghost right = { nothing };
}

/// The step that gives back the first of the senders' seats that were joined to the taker's.
pub struct Parts;

impl<T> Split<Known<T>> for Parts {
    ghost use Rattle.gate_queue.specs.Inner.FreeSharing.{parted, first_joined};

    ghost left = { parted };

    ghost right = { first_joined };
}

/// The linked blocks in which the values of a queue stand.
pub type Blocks<T> = RuledSegQueue<Tagged<T>, Known<T>, FreeSharing>;

/// A seat's right to take steps in the protocol.
pub type FreeRight<T> = SegPass<Tagged<T>, Known<T>>;
