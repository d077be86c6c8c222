//! Tells what a script does, line by line, with names in place of numbers.
mod answers;
mod part;
mod player;
mod wrong;

use crate::fault::Fault;
use crate::names::Added;
use crate::script::player::Player;
use crate::script::wrong::wrong_line;
use gate_config::Generations;
use gate_core::read_script_line;
use gate_line::{first_line, is_skipped};

/// Adds what each line of a script did. `Faulty` says that a line stands for nothing.
pub fn push_script(out: &mut String, gens: &Generations, script: &[u8]) -> Result<(), Fault> {
    push_heading(out)?;
    let mut player = Player::new(*out.allocator(), gens)?;
    push_lines(out, &mut player, script)
}

fn push_heading(out: &mut String) -> Added {
    Ok(out.push_str("\nThe script, line by line:\n")?)
}

fn push_lines(out: &mut String, player: &mut Player<'_>, script: &[u8]) -> Result<(), Fault> {
    let mut number: u64 = 0;
    let mut rest = script;
    while !rest.is_empty() {
        let (line, more) = first_line(rest);
        number = number.saturating_add(1);
        if !is_skipped(line) {
            push_line(out, player, number, line)?;
        }
        rest = more;
    }
    Ok(())
}

fn push_line(
    out: &mut String,
    player: &mut Player<'_>,
    number: u64,
    line: &[u8],
) -> Result<(), Fault> {
    let alloc = *out.allocator();
    match read_script_line(alloc, line) {
        Ok(scripted) => {
            push_front(out, number, line)?;
            Ok(player.push(out, scripted)?)
        }
        Err(fault) => Err(Fault::Faulty(wrong_line(alloc, number, line, fault)?)),
    }
}

// Adds the number of a line and as much of the line as there is room for, with spaces in place of control characters.
fn push_front(out: &mut String, number: u64, line: &[u8]) -> Added {
    let alloc = *out.allocator();
    let mut text = String::new(alloc);
    for letter in String::from_utf8_lossy(alloc, line)?.as_str().chars() {
        text.push(if letter < ' ' { ' ' } else { letter })?;
    }
    let text = text.as_str();
    Ok(write!(out, "{number:>6}  {text:<42.42}  ")?)
}
