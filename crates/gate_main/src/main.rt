//! The program `gate`: gives the words of the command line and the system's host to gate_main_program, and ends with its exit status.
#![tactic(auto)]

use gate_main_program::{run_unread, run_words};
use std::process::ExitCode;
use std::rt::Env;
use std::{env, io};

fn main(rt: HostRuntime) -> ExitCode {
    let mut errors = rt.stderr();
    let status = match words_of(&rt) {
        Ok(words) => {
            let (mut input, mut output) = (rt.stdin(), rt.stdout());
            run_words(&rt, words.as_slice(), &mut input, &mut output, &mut errors)
        }
        Err(error) => run_unread(&error, &mut errors),
    };
    ExitCode::from(status)
}

fn words_of(rt: &(impl Env + AllocGlobal)) -> io::Result<Vec<String>> {
    Ok(env::args(rt)?.collect(rt.alloc())?)
}
