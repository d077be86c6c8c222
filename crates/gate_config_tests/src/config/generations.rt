//! Several documents as the generations of a configuration.
use super::{BEHIND_CHECK, ITEMS, TENANTS, asked, filled, text_and_table};
use gate_config::{Generations, read_config, read_generations};
use gate_test_lines::{comes_to, halves, word_and_rest};
use std::alloc::Global;
use std::test::Fail;

// Sees what is read of two documents: blocks with an empty line between them, each line a text for the hole of a document. The first
// line of a block makes document 0, and each line behind it document 1, with the answer behind an arrow: how many generations
// there are, or the fault. A line that begins with `#` says what follows.
fn beside(alloc: Global, document: &str, script: &str) -> Result<(), Fail> {
    for block in script.split("\n\n") {
        if let Some((first, table)) = text_and_table(block.trim())? {
            beside_table(alloc, document, first, table)?;
        }
    }
    Ok(())
}

fn beside_table(alloc: Global, document: &str, first: &str, table: &str) -> Result<(), Fail> {
    for line in table.lines() {
        let (second, wanted) = halves(line);
        let found = answer_to(alloc, document, first, second.trim())?;
        comes_to(line, found.as_str().trim(), wanted)?;
    }
    Ok(())
}

fn answer_to(alloc: Global, document: &str, first: &str, second: &str) -> Result<String, Fail> {
    let mut documents = Vec::new(alloc);
    push_filled(alloc, &mut documents, document, first)?;
    push_filled(alloc, &mut documents, document, second)?;
    answer(alloc, documents.as_slice())
}

fn push_filled(
    alloc: Global,
    documents: &mut Vec<Vec<u8>>,
    document: &str,
    text: &str,
) -> Result<(), Fail> {
    let whole = filled(alloc, document, text)?;
    documents.push(whole.into_bytes())?;
    Ok(())
}

// How many generations are read, or the fault.
fn answer(alloc: Global, documents: &[Vec<u8>]) -> Result<String, Fail> {
    match read_generations(alloc, documents) {
        Ok(gens) => count_text(alloc, &gens),
        Err(fault) => Ok(format!(in alloc; "{fault}")?),
    }
}

fn count_text(alloc: Global, gens: &Generations) -> Result<String, Fail> {
    let count = gens.count();
    Ok(format!(in alloc; "{count}")?)
}

#[test]
fn tenants_are_compared(rt: HostRuntime) -> Result<(), Fail> {
    let tenants = r#"
        # the same connections, of which each project list may differ, also from none

        [{"name":"main","source":{"a":null,"b":{}}}]
        [{"name":"main","source":{"a":null,"b":{}}}] -> 2
        [{"name":"main","source":{"b":null,"a":{"untrusted-projects":["demo"]}}}] -> 2
        [{"name":"main","source":{"a":null}}] -> generation 1 shape
        [{"name":"main","source":{"a":null,"b":null,"c":null}}] -> generation 1 shape
        [{"name":"main","source":{"a":null,"c":{}}}] -> generation 1 shape
        [{"name":"main"}] -> generation 1 shape

        # the same tenants in order

        [{"name":"x","source":{"a":null}},{"name":"y","source":{"b":null}}]
        [{"name":"x","source":{"a":{}}},{"tenant":{"name":"y","source":{"b":{}}}}] -> 2
        [{"name":"x","source":{"a":null}},{"name":"z","source":{"b":null}}] -> generation 1 shape
        [{"name":"y","source":{"b":null}},{"name":"x","source":{"a":null}}] -> generation 1 shape
        [{"name":"x","source":{"a":null,"b":null}}] -> generation 1 shape
        [{"name":"x","source":{"a":null}},{"name":"y","source":{"b":null}},{"name":"z"}] -> generation 1 shape

        # each tenant lists the same connections

        [{"name":"x","source":{"a":null,"b":null}},{"name":"y","source":{"b":null}}]
        [{"name":"x","source":{"a":null,"b":null}},{"name":"y","source":{"a":null}}] -> generation 1 shape
        [{"name":"x","source":{"a":null,"b":null}},{"name":"y"}] -> generation 1 shape
        [{"name":"x","source":{"a":null}},{"name":"y","source":{"b":null}}] -> generation 1 shape

        # a document's own faults come first, and those of document 0 before those of document 1

        []
        [] -> 2
        5 -> generation 1 shape tenants
        [{"name":"x","source":5}] -> generation 1 shape tenants[0].source

        5
        6 -> shape tenants
        [] -> shape tenants
    "#;
    beside(rt.alloc(), TENANTS, tenants)
}

#[test]
fn pipelines_are_compared(rt: HostRuntime) -> Result<(), Fail> {
    let items = r#"
        [{"pipeline":{"name":"check","manager":"independent"}},{"pipeline":{"name":"gate","manager":"dependent"}}]
        [{"pipeline":{"name":"check","manager":"independent","trigger":{"gerrit":{"event":"x"}}}},{"pipeline":{"name":"gate","manager":"dependent"}}] -> 2
        [null,{"pipeline":{"name":"check","manager":"independent"}}] -> generation 1 shape config.main[0]
        [{"pipeline":{"name":"check","manager":"independent"}}] -> generation 1 shape
        [{"pipeline":{"name":"gate","manager":"dependent"}},{"pipeline":{"name":"check","manager":"independent"}}] -> generation 1 shape
        [{"pipeline":{"name":"check","manager":"dependent"}},{"pipeline":{"name":"gate","manager":"dependent"}}] -> generation 1 shape
        [{"pipeline":{"name":"check","manager":"independent"}},{"pipeline":{"name":"gate","manager":"independent"}}] -> generation 1 shape
        [{"pipeline":{"name":"check","manager":"independent"}},{"pipeline":{"name":"post","manager":"dependent"}}] -> generation 1 shape
        [{"pipeline":{"name":"check","manager":"independent"}},{"pipeline":{"name":"gate","manager":"dependent"}},{"pipeline":{"name":"post","manager":"dependent"}}] -> generation 1 shape
        null -> generation 1 shape
        [{"pipeline":{"name":"check","manager":"other"}}] -> generation 1 manager config.main[0].pipeline.manager
    "#;
    beside(rt.alloc(), ITEMS, items)
}

#[test]
fn jobs_are_compared(rt: HostRuntime) -> Result<(), Fail> {
    let items = r#"
        # by project, whichever stanzas name them

        {"project":{"name":"a","check":{"jobs":["build","lint"]}}},{"project":{"name":"b","check":{"jobs":["docs"]}}}
        {"project":{"name":"b","check":{"jobs":["docs"]}}},{"project":{"name":"a","check":{"jobs":["build","lint"]}}} -> 2
        {"project":{"name":"a","check":{"jobs":["build"]}}},{"project":{"name":"b","check":{"jobs":["docs"]}}},{"project":{"name":"a","check":{"jobs":["build",{"lint":{}}]}}} -> 2
        {"project":{"name":"a","check":{"jobs":["build","lint"]}}},{"project":{"name":"b","check":{"jobs":["docs"]}}},{"project":{"name":"c","check":{"jobs":[]}}} -> 2
        {"project":{"name":"a","check":{"jobs":["lint","build"]}}},{"project":{"name":"b","check":{"jobs":["docs"]}}} -> generation 1 shape
        {"project":{"name":"a","check":{"jobs":["build"]}}},{"project":{"name":"b","check":{"jobs":["docs"]}}} -> generation 1 shape
        {"project":{"name":"a","check":{"jobs":["build","lint","x"]}}},{"project":{"name":"b","check":{"jobs":["docs"]}}} -> generation 1 shape
        {"project":{"name":"b","check":{"jobs":["build","lint"]}}},{"project":{"name":"a","check":{"jobs":["docs"]}}} -> generation 1 shape
        {"project":{"name":"a","check":{"jobs":["build","lint"]}}} -> generation 1 shape
        {"project":{"name":"a","check":{"jobs":["build","lint"]}}},{"project":{"name":"b"}} -> generation 1 shape
        {"project":{"name":"a","check":{"jobs":["build","lint"]}}},{"project":{"name":"b","check":{"jobs":["docs"]}}},{"project":{"name":"c","check":{"jobs":["x"]}}} -> generation 1 shape

        # a stanza without jobs is none

        {"project":{"name":"a","check":{"jobs":[]}}}
        {"project":{"name":"a"}} -> 2
        {"project":{"name":"b","check":{"jobs":[]}}} -> 2
        {"project":null} -> 2
        {"project":{"name":"a","check":{"jobs":["x"]}}} -> generation 1 shape

        {"project":null}
        {"project":{"name":"a","check":{"jobs":[]}}} -> 2
        {"project":{"name":"a","check":{"jobs":["x"]}}} -> generation 1 shape
        {"project":{"name":"a","check":{"jobs":[5]}}} -> generation 1 shape config.main[1].project.check.jobs[0]
    "#;
    beside(rt.alloc(), BEHIND_CHECK, items)
}

// So many documents, each the same.
fn answer_to_many(alloc: Global, count: usize) -> Result<String, Fail> {
    let mut documents = Vec::new(alloc);
    for _ in 0..count {
        push_filled(alloc, &mut documents, TENANTS, "[]")?;
    }
    answer(alloc, documents.as_slice())
}

#[test]
fn documents_are_counted(rt: HostRuntime) -> Result<(), Fail> {
    let alloc = rt.alloc();
    comes_to("none", answer_to_many(alloc, 0)?.as_str(), "generations")?;
    comes_to("one", answer_to_many(alloc, 1)?.as_str(), "1")?;
    comes_to("sixteen", answer_to_many(alloc, 16)?.as_str(), "16")?;
    comes_to(
        "seventeen",
        answer_to_many(alloc, 17)?.as_str(),
        "generations",
    )
}

// A tenant with the projects of `@`.
const PROJECTS: &str =
    r#"{"tenants":[{"name":"main","source":{"gerrit":{"untrusted-projects":@}}}],"config":{"main":[{"pipeline":{"name":"check","manager":"independent","trigger":{"gerrit":[{"event":"patchset-created"}]}}},{"project":{"name":"demo","check":{"jobs":["build"]}}}]}}"#;

// Another rule, with the projects of `@`.
const OTHER_RULE: &str =
    r#"{"tenants":[{"name":"main","source":{"gerrit":{"untrusted-projects":@}}}],"config":{"main":[{"pipeline":{"name":"check","manager":"independent","trigger":{"gerrit":[{"event":"comment-added"}]}}},{"project":{"name":"demo","check":{"jobs":["build"]}}}]}}"#;

// Sees what generations answer: in each line the number of one, a question (`asked`), and behind an arrow the answer.
fn generations_say(alloc: Global, gens: &Generations, table: &str) -> Result<(), Fail> {
    for line in table.trim().lines() {
        let (words, wanted) = halves(line.trim());
        let (number, question) = word_and_rest(words);
        let config = gens.generation(number_in(number)?);
        comes_to(
            line,
            asked::answer(alloc, config, question)?.as_str(),
            wanted,
        )?;
    }
    Ok(())
}

fn number_in(word: &str) -> Result<u32, Fail> {
    match word.parse() {
        Ok(number) => Ok(number),
        Err(_) => Err(Fail::from("the number of a generation")),
    }
}

fn three_documents(alloc: Global) -> Result<Vec<Vec<u8>>, Fail> {
    let mut documents = Vec::new(alloc);
    push_filled(alloc, &mut documents, PROJECTS, r#"["demo"]"#)?;
    push_filled(alloc, &mut documents, OTHER_RULE, r#"["demo"]"#)?;
    push_filled(alloc, &mut documents, PROJECTS, r#"["other"]"#)?;
    Ok(documents)
}

#[test]
fn each_generation_answers_as_its_document(rt: HostRuntime) -> Result<(), Fail> {
    let alloc = rt.alloc();
    let documents = three_documents(alloc)?;
    let table = r#"
        0 rule -> event=patchset-created ignore-deletes=true
        1 rule -> event=comment-added ignore-deletes=true
        2 rule -> event=patchset-created ignore-deletes=true
        3 rule -> event=patchset-created ignore-deletes=true
        0 belongs 0 0 demo -> true
        1 belongs 0 0 demo -> true
        2 belongs 0 0 demo -> false
        3 belongs 0 0 demo -> true
        4294967295 belongs 0 0 demo -> true
        2 belongs 0 0 other -> true
        1 jobs 0 0 demo -> build
        2 jobs 0 0 demo -> build
        2 jobs 0 0 other -> nothing
    "#;
    match read_generations(alloc, documents.as_slice()) {
        Ok(gens) => generations_say(alloc, &gens, table),
        Err(_) => Err(Fail::from("no generations")),
    }
}

#[test]
fn one_configuration_is_a_generation(rt: HostRuntime) -> Result<(), Fail> {
    let alloc = rt.alloc();
    let whole = filled(alloc, OTHER_RULE, r#"["demo"]"#)?;
    let gens = Generations::of(alloc, read_config(alloc, whole.as_bytes())?);
    comes_to("how many", count_text(alloc, &gens)?.as_str(), "1")?;
    let first = asked::answer(alloc, gens.first(), "rules 0 0 0")?;
    comes_to("of the first", first.as_str(), "1")?;
    generations_say(alloc, &gens, "0 rules 0 0 0 -> 1\n1 rules 0 0 0 -> 1")
}
