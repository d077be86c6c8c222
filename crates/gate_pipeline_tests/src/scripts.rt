//! Scripts: each line is a step and, behind an arrow, what it comes to; where that isn't said, it is the empty text.
use gate_test_lines::{comes_to, halves};
use std::alloc::Global;
use std::test::Fail;

// What takes the steps of scripts.
pub(crate) trait Player {
    // Takes a step, and adds what it comes to to an empty text.
    fn take(&mut self, text: &mut String, step: &str) -> Result<(), Fail>;
}

// Takes each step of a script, and compares what it comes to with what stands behind the arrow.
pub(crate) fn play_all<P: Player>(alloc: Global, player: &mut P, script: &str) -> Result<(), Fail> {
    for line in script.trim().lines() {
        play_line(alloc, player, line)?;
    }
    Ok(())
}

fn play_line<P: Player>(alloc: Global, player: &mut P, line: &str) -> Result<(), Fail> {
    let (step, wanted) = halves(line);
    let mut found = String::new(alloc);
    player.take(&mut found, step)?;
    comes_to(line, found.as_str(), wanted)
}

// How often a step is taken: once where that isn't said.
pub(crate) fn times_of(word: &str) -> Result<u32, Fail> {
    match word {
        "" => Ok(1),
        _ => Ok(word.parse::<u32>()?),
    }
}
