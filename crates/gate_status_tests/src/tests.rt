//! The tests of gate_status, a module for each subject.

mod base;
mod board_runs;
mod boards;
mod commands;
mod devices;
mod faults;
mod sessions;
mod sizes;
mod sockets;
