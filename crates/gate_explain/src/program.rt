//! Reads the words of the command line and the files that they name.
use crate::explaining::{Wanted, explain};
use crate::fault::Fault;
use crate::table::push_settings;
use gate_record::Memory;
use std::fs;
use std::io::ErrorKind;
use std::rt::Files;

/// The text that the program prints for these words, of which the first is the program's name. All files are read before any is looked
/// into.
pub fn told(rt: &(impl Files + AllocGlobal), words: &[String]) -> Result<String, Fault> {
    let alloc = rt.alloc();
    match words_in(words) {
        Some(("", Some(config), None)) => {
            explain(alloc, files(rt, config)?.as_slice(), Wanted::Words)
        }
        Some(("", Some(config), Some(script))) => {
            let files = files(rt, config)?;
            let script = file(rt, script)?;
            explain(alloc, files.as_slice(), Wanted::Script(script.as_slice()))
        }
        Some(("--dot", Some(config), None)) => {
            explain(alloc, files(rt, config)?.as_slice(), Wanted::Picture)
        }
        Some(("--settings", None, None)) => {
            let mut out = String::new(alloc);
            push_settings(&mut out)?;
            Ok(out)
        }
        _ => Err(Fault::Usage),
    }
}

// An option, the path of a configuration and the path of a script, each if there is one. A word that begins with `-` is an option, unless
// it is `-` alone or follows `--`.
type Words<'w> = (&'w str, Option<&'w str>, Option<&'w str>);

fn words_in(words: &[String]) -> Option<Words<'_>> {
    let mut found: Words<'_> = ("", None, None);
    let mut ended = false;
    for word in words.iter().skip(1) {
        let word = word.as_str();
        if !ended && word == "--" {
            ended = true;
            continue;
        }
        let is_option = !ended && word != "-" && word.starts_with("-");
        found = match found {
            ("", config, script) if is_option => (word, config, script),
            (option, None, None) if !is_option => (option, Some(word), None),
            (option, config, None) if !is_option => (option, config, Some(word)),
            _ => return None,
        };
    }
    Some(found)
}

// Reads the files at these paths, which are joined by commas.
fn files(rt: &(impl Files + AllocGlobal), paths: &str) -> Result<Vec<Vec<u8>>, Fault> {
    let mut files = Vec::new(rt.alloc());
    for path in paths.split(',') {
        files.push(file(rt, path)?).map_err(Memory::from)?;
    }
    Ok(files)
}

fn file(rt: &(impl Files + AllocGlobal), path: &str) -> Result<Vec<u8>, Fault> {
    match fs::read(rt, path) {
        Ok(bytes) => Ok(bytes),
        Err(error) => match error.kind() {
            ErrorKind::OutOfMemory => Err(Fault::Memory),
            _ => Err(Fault::File(String::from_str(rt.alloc(), path).map_err(Memory::from)?)),
        },
    }
}
