//! `Batch`, a batch of events with the key of each.
ghost use Rattle.std.specs.Prelude.{◌≡◌, length};

use gate_match_rules::Search;

// A batch of events. At an event's place, `conns` has its connection, and `gens` the generation whose rules apply to it.
#[derive(Drop)]
pub(crate) struct Batch<'b, 'c> {
    pub(crate) search: Search<'b, 'c>,
    pub(crate) gens: &'b [u32],
    pub(crate) conns: &'b [u32],
    ghost each_gen: { length gens.now ≡ length search.columns.now },
    ghost each_conn: { length conns.now ≡ length search.columns.now },
}
