//! Whose event it is.
use super::playing::{check, play};
use gate_test_lines::halves;
use std::alloc::{AllocError, Global};
use std::test::Fail;

// Sees that an event of a type has the user name and the email of one account, which are the same, or neither.
fn has_account(alloc: Global, kind: &str, account: &str) -> Result<(), Fail> {
    let line = format!(in alloc;
        r#"{{"type":{kind},"uploader":{{"username":"up","email":"up"}},"author":{{"username":"au","email":"au"}},"submitter":{{"username":"su","email":"su"}},"abandoner":{{"username":"ab","email":"ab"}},"restorer":{{"username":"re","email":"re"}}}}"#
    )?;
    let wanted = account_text(alloc, kind, account)?;
    check(alloc, line.as_bytes(), wanted.as_str())
}

// The same of each line of a table: the type, and behind the arrow the account.
fn have_accounts(alloc: Global, table: &str) -> Result<(), Fail> {
    for line in table.trim().lines() {
        let (kind, account) = halves(line);
        has_account(alloc, kind, account)?;
    }
    Ok(())
}

fn account_text(alloc: Global, kind: &str, account: &str) -> Result<String, AllocError> {
    match account {
        "nobody" => format!(in alloc; "kind {kind}\n"),
        _ => format!(in alloc; "kind {kind}\nusername {account}\nemail {account}\n"),
    }
}

#[test]
fn the_type_says_whose_event_it_is(rt: HostRuntime) -> Result<(), Fail> {
    let table = r#"
        "patchset-created" -> "up"
        "comment-added" -> "au"
        "change-merged" -> "su"
        "ref-updated" -> "su"
        "change-abandoned" -> "ab"
        "change-restored" -> "re"
        "topic-changed" -> nobody
        "Change-Merged" -> nobody
        "change-merged " -> nobody
        "" -> nobody
    "#;
    have_accounts(rt.alloc(), table)
}

#[test]
fn an_account_may_lack_either(rt: HostRuntime) -> Result<(), Fail> {
    let script = r#"
        read {"type":"topic-changed","submitter":{"username":"u","email":"e"}}
        kind "topic-changed"

        read {"type":"change-merged","uploader":{"username":"u","email":"e"}}
        kind "change-merged"

        read {"type":"change-merged","submitter":"u"}
        kind "change-merged"

        read {"type":"change-merged","submitter":["u"]}
        kind "change-merged"

        read {"type":"change-merged","submitter":{"username":"u"}}
        kind "change-merged"
        username "u"

        read {"type":"change-merged","submitter":{"email":"e"}}
        kind "change-merged"
        email "e"

        read {"type":"change-merged","submitter":{"username":1,"email":"e"}}
        kind "change-merged"
        email "e"

        read {"type":"change-merged","username":"u","email":"e"}
        kind "change-merged"
    "#;
    play(rt.alloc(), script)
}
