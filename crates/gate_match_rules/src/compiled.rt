//! `Compiled`, a rule that is ready to be asked of batches.
use crate::asked::Asked;
use gate_record::Text;

/// A rule whose entries have their numbers in a matcher cache.
#[derive(Drop)]
pub struct Compiled<'c> {
    pub(crate) event: Vec<Asked<'c>>,
    pub(crate) branch: Vec<Asked<'c>>,
    pub(crate) refname: Vec<Asked<'c>>,
    pub(crate) username: Vec<Asked<'c>>,
    pub(crate) email: Vec<Asked<'c>>,
    pub(crate) comment: Vec<Asked<'c>>,
    pub(crate) approval: &'c [(Text, i64)],
    pub(crate) ignore_deletes: bool,
}
