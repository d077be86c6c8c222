//! The tests of gate_items, a module for each subject.

mod causes;
mod examples;
mod index;
mod keys;
mod line;
mod playing;
mod refs;
mod script;
