//! What tests and benchmarks of running threads share: configurations, records, feeds of records, and runs.
#![tactic(auto)]

mod documents;
mod done;
mod feed;
mod run;
mod silent;

pub use documents::{
    COMMENT, COMMENTS, EIGHTH, FIRST, FOREIGN, NEVER, NO_EVENT, ONE, SEVENTH, TWO_CONNECTIONS,
    TWO_PIPELINES, TWO_TENANTS, generations,
};
pub use done::{Done, reports, reports_all};
pub use feed::Feed;
pub use run::Run;
pub use silent::Silent;
