//! Where a connection's records come from, up to the connection's queue.
//!
//! A `LineSplit` cuts a stream into records, and the pieces in which the stream comes don't matter (`the_cutting_does_not_matter`). A
//! `StopCell` holds the cause to stop, which whoever asks first sets for good. Each thread has a note of the cell, and two notes that know
//! a cause know the same one (`StopNote::agree`). A `Source` numbers the records that it accepts and puts them into its connection's queue,
//! with the end mark after them (`accepted_records_are_numbered`). It accepts none once its note knows a cause to stop. Only
//! `RecordFeed::next` and the `offer`, `renew` and `close` of a source may wait.
#![tactic(auto)]

mod feed;
mod laws;
mod lines;
mod reader_feed;
mod source;
mod split;
mod stop;

pub use feed::{FeedStep, RecordFeed};
pub use laws::{
    accepted_records_are_numbered, the_cutting_does_not_matter, the_lines_that_ended_are_given,
};
pub use reader_feed::ReaderFeed;
pub use source::{ClosedSource, MOST_RECORDS, OfferFault, RenewFault, Source};
pub use split::LineSplit;
pub use stop::{StopCause, StopCell, StopNote};
