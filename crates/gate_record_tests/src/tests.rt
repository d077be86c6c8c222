//! The tests of gate_record, a module for each subject.

mod accounts;
mod approvals;
mod events;
mod numbers;
mod playing;
mod readings;
mod shown;
mod values;
