//! Words of a command line, and what the program reads and prints.
use std::alloc::{AllocError, Global};
use std::process::Abort;

pub(crate) const BASE: &str =
    r#"{"tenants":[{"name":"main","source":{"gerrit":{"untrusted-projects":["demo"]}}}],"config":{"main":[{"pipeline":{"name":"check","manager":"independent","trigger":{"gerrit":[{"event":"patchset-created"}]}}},{"project":{"name":"demo","check":{"jobs":["build"]}}}]}}"#;

pub(crate) const NOTHING_HAPPENED: &str = r#"connection "gerrit" accepted 0 open
pipeline "main" "check" running
done "main" "check" "gerrit"
"#;

// What a call gave. It promises nothing of the value, so the proof of a test doesn't carry the contracts of its calls.
pub(crate) fn given<T, E: Drop>(rt: &impl Abort, answer: Result<T, E>) -> T {
    match answer {
        Ok(value) => value,
        Err(_) => panic!(rt; "the call is done"),
    }
}

/// The words of a command line.
pub(crate) fn words_of(rt: &(impl AllocGlobal + Abort), words: &[&str]) -> Vec<String> {
    given(rt, owned(rt.alloc(), words))
}

fn owned(alloc: Global, words: &[&str]) -> Result<Vec<String>, AllocError> {
    let mut all = Vec::new(alloc);
    for word in words {
        all.push(String::from_str(alloc, word)?)?;
    }
    Ok(all)
}
