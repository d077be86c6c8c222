//! Tests of what no contract says: the files of sockets, reads that are interrupted, and time limits.

mod host;
mod interrupts;
mod socket_file;
mod timed;
