//! Makes the reports of complete items.
ghost use Rattle.std.specs.Prelude.{◌≡◌, ◌≤◌, ◌+◌, ◌++◌, length, map, vec_capacity};
ghost use Rattle.gate_items.specs.Inner.Ring.{after_ring};
ghost use Rattle.gate_items.specs.Machine.{head_of, report_of, rest_of};

use crate::item::{QueueItem, Report};
use crate::ring::Ring;

// Makes the report of an item. It takes no memory.
pub(crate) fn report_of(item: QueueItem) -> Report
    ensures { result ≡ report_of item }
{
    let success = !item.has_failed();
    Report {
        key: item.key,
        patchset: item.patchset,
        set: item.set,
        success,
    }
}

// Reports the complete items at the head, which leave. The caller has reserved room for the reports.
pub(crate) fn report_complete(ring: &mut Ring, reported: &mut Vec<Report>)
    requires { length reported.old.items + length ring.old.items ≤ vec_capacity reported.old }
    ensures ring { ring.new ≡ after_ring ring.old.next (rest_of ring.old.items) }
    ensures reported { reported.new.items ≡ reported.old.items ++ map report_of (head_of ring.old.items) }
    ensures room { length reported.new.items + length ring.new.items ≤ vec_capacity reported.new }
{
    while let Some(item) = ring.take_complete() {
        reported.push_reserved(report_of(item));
    }
}
