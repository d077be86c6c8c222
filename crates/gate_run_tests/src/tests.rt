//! The tests of gate_run, a module for each subject.

mod asking;
mod failing;
mod late;
mod marks;
mod meeting;
mod meetings;
mod naps;
mod playing;
mod posts;
mod renewals;
mod runs;
mod stops;
mod streams;
mod told;
mod wake_ups;
mod wide;
