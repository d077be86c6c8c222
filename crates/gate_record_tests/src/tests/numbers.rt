//! What is a number, and what isn't.
use super::playing::check;
use gate_record::{number_of_text, read_number};
use gate_test_lines::{comes_to, halves};
use serde_json::Value;
use std::alloc::{AllocError, Global};
use std::test::Fail;

// Sees which number a JSON value is, by itself and as the number of a change.
fn is_number(alloc: Global, json: &str, wanted: &str) -> Result<(), Fail> {
    is_value(alloc, json, wanted)?;
    is_change(alloc, json, wanted)
}

fn is_value(alloc: Global, json: &str, wanted: &str) -> Result<(), Fail> {
    let value = Value::from_str(alloc, json)?;
    is_read(alloc, read_number(&value), wanted)
}

fn is_read(alloc: Global, number: Option<i64>, wanted: &str) -> Result<(), Fail> {
    let found = format!(in alloc; "{number:?}")?;
    comes_to("a number", found.as_str(), wanted)
}

fn is_change(alloc: Global, json: &str, wanted: &str) -> Result<(), Fail> {
    let line = format!(in alloc; r#"{{"type":"a","change":{{"number":{json}}}}}"#)?;
    let wanted = change_text(alloc, wanted)?;
    check(alloc, line.as_bytes(), wanted.as_str())
}

// An event whose change has the number that `Some(..)` holds, if any.
fn change_text(alloc: Global, number: &str) -> Result<String, AllocError> {
    match number.strip_prefix("Some(") {
        Some(number) => {
            let number = number.trim_end_matches(')');
            format!(in alloc; "kind \"a\"\nchange {number}\n")
        }
        None => String::from_str(alloc, "kind \"a\"\n"),
    }
}

#[test]
fn reads_numbers(rt: HostRuntime) -> Result<(), Fail> {
    let table = r#"
        7 -> Some(7)
        0 -> Some(0)
        -7 -> Some(-7)
        9223372036854775807 -> Some(9223372036854775807)
        9223372036854775808 -> None
        -9223372036854775808 -> Some(-9223372036854775808)
        -9223372036854775809 -> None
        -0 -> None
        7.0 -> None
        2.0 -> None
        1e2 -> None
        true -> None
        null -> None
        [] -> None
        [7] -> None
        {} -> None
        "7" -> Some(7)
        "+7" -> Some(7)
        "-7" -> Some(-7)
        "007" -> Some(7)
        "-0" -> Some(0)
        "9223372036854775807" -> Some(9223372036854775807)
        "9223372036854775808" -> None
        "-9223372036854775808" -> Some(-9223372036854775808)
        "-9223372036854775809" -> None
        "2.0" -> None
        "2 " -> None
        " 2" -> None
        "" -> None
        "+" -> None
        "-" -> None
        "+-2" -> None
        "٣" -> None
    "#;
    for line in table.trim().lines() {
        let (json, wanted) = halves(line);
        is_number(rt.alloc(), json, wanted)?;
    }
    Ok(())
}

#[test]
fn reads_numbers_of_texts(rt: HostRuntime) {
    let found = (
        number_of_text("+7"),
        number_of_text("-007"),
        number_of_text("7 "),
    );
    assert_eq!(rt; found, (Some(7), Some(-7), None));
}
