//! Records of Gerrit's `stream-events`, and the events that they are read as.
//!
//! Every other crate of the repository stands on this one, so it also holds the few types that all of them share: ids, texts,
//! lists, queue entries and the error `Memory`.
#![tactic(auto)]

mod approvals;
mod event;
mod fields;
mod ids;
mod integers;
mod json_numbers;
mod laws;
mod limits;
mod members;
mod memory;
mod names;
mod outbox;
mod paths;
mod places;
mod queue;
mod read;
mod reader;
mod reading;
mod record;
mod sequence;
mod shared;
mod text;
mod transit;

pub use approvals::{MAX_APPROVALS, category};
pub use event::Event;
pub use ids::{ConnId, ManagerKind, PipelineId, Stamp, TenantId};
pub use integers::{number_of_text, read_number};
pub use laws::{
    entries_have_generations, events_have_bytes, records_have_generations,
    the_limits_are_as_defined,
};
pub use memory::Memory;
pub use names::name_text;
pub use outbox::{BoundedItems, Outbox, OutboxItems};
pub use queue::Queue;
pub use read::read_record;
pub use reader::RecordReader;
pub use reading::{Reading, Why};
pub use record::{MAX_LINE, Record};
pub use sequence::Sequence;
pub use shared::Shared;
pub use text::Text;
pub use transit::{ConnEntry, PLACES, PipelineItem, Stamped, TenantItem};
