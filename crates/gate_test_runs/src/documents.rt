//! Configurations, and records that go with them.
use gate_config::{GenerationFault, Generations, read_generations};
use gate_test_lines::bytes_of;
use std::alloc::Global;

/// One connection, one tenant and one pipeline, which selects new patch sets of the project `demo`.
pub const ONE: &str =
    r#"{"tenants":[{"name":"main","source":{"gerrit":{"untrusted-projects":["demo"]}}}],"config":{"main":[{"pipeline":{"name":"check","manager":"independent","trigger":{"gerrit":[{"event":"patchset-created"}]}}},{"project":{"name":"demo","check":{"jobs":["build"]}}}]}}"#;

/// The same, but the pipeline selects comments.
pub const COMMENTS: &str =
    r#"{"tenants":[{"name":"main","source":{"gerrit":{"untrusted-projects":["demo"]}}}],"config":{"main":[{"pipeline":{"name":"check","manager":"independent","trigger":{"gerrit":[{"event":"comment-added"}]}}},{"project":{"name":"demo","check":{"jobs":["build"]}}}]}}"#;

/// The same, but no rule selects anything.
pub const NEVER: &str =
    r#"{"tenants":[{"name":"main","source":{"gerrit":{"untrusted-projects":["demo"]}}}],"config":{"main":[{"pipeline":{"name":"check","manager":"independent","trigger":{"gerrit":[]}}},{"project":{"name":"demo","check":{"jobs":["build"]}}}]}}"#;

/// The same project in two pipelines, which both select its new patch sets.
pub const TWO_PIPELINES: &str =
    r#"{"tenants":[{"name":"main","source":{"gerrit":{"untrusted-projects":["demo"]}}}],"config":{"main":[{"pipeline":{"name":"check","manager":"independent","trigger":{"gerrit":[{"event":"patchset-created"}]}}},{"pipeline":{"name":"post","manager":"independent","trigger":{"gerrit":[{"event":"patchset-created"}]}}}]}}"#;

/// Two connections of one tenant, whose pipeline selects new patch sets of either.
pub const TWO_CONNECTIONS: &str =
    r#"{"tenants":[{"name":"main","source":{"a":{"untrusted-projects":["demo"]},"b":{"untrusted-projects":["demo"]}}}],"config":{"main":[{"pipeline":{"name":"check","manager":"independent","trigger":{"a":[{"event":"patchset-created"}],"b":[{"event":"patchset-created"}]}}}]}}"#;

/// Two tenants of two pipelines each, over two connections. Of the first one, `check` selects new patch sets, and `post` comments. Of the
/// second one, `gate` selects both, and `idle` nothing. The second one alone lists `demo` of the second connection.
pub const TWO_TENANTS: &str =
    r#"{"tenants":[{"name":"main","source":{"gerrit":{"untrusted-projects":["demo"]}}},{"name":"other","source":{"gerrit":{"untrusted-projects":["demo"]},"review":{"untrusted-projects":["demo"]}}}],"config":{"main":[{"pipeline":{"name":"check","manager":"independent","trigger":{"gerrit":[{"event":"patchset-created"}]}}},{"pipeline":{"name":"post","manager":"independent","trigger":{"gerrit":[{"event":"comment-added"}]}}},{"project":{"name":"demo","check":{"jobs":["build"]},"post":{"jobs":["build"]}}}],"other":[{"pipeline":{"name":"gate","manager":"independent","trigger":{"gerrit":[{"event":["patchset-created","comment-added"]}]}}},{"pipeline":{"name":"idle","manager":"independent"}},{"project":{"name":"demo","gate":{"jobs":["build"]}}}]}}"#;

/// A new patch set of `demo`.
pub const FIRST: &str =
    r#"{"type":"patchset-created","change":{"project":"demo","branch":"master","number":1},"patchSet":{"number":1}}"#;

/// The same of another change.
pub const SEVENTH: &str =
    r#"{"type":"patchset-created","change":{"project":"demo","branch":"master","number":7},"patchSet":{"number":1}}"#;

/// And of a third one.
pub const EIGHTH: &str =
    r#"{"type":"patchset-created","change":{"project":"demo","branch":"master","number":8},"patchSet":{"number":1}}"#;

/// A new patch set of a project that no tenant lists.
pub const FOREIGN: &str =
    r#"{"type":"patchset-created","change":{"project":"other","branch":"master","number":7},"patchSet":{"number":1}}"#;

/// A comment on a change of `demo`.
pub const COMMENT: &str = r#"{"type":"comment-added","change":{"project":"demo","number":9}}"#;

/// A record that is no event.
pub const NO_EVENT: &str = r#"{"type":"#;

/// A configuration that has a generation for each of these documents.
pub fn generations(alloc: Global, documents: &[&str]) -> Result<Generations, GenerationFault> {
    let documents = bytes_of(alloc, documents)?;
    read_generations(alloc, documents.as_slice())
}
