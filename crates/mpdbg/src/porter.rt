//! Who comes to `mpdbg serve` and who leaves, told to a person at a terminal.

use mpd_server::Porter;
use std::io;
use std::marker::Sync;

/// Tells a person at a terminal who comes and who leaves.
#[derive(Drop)]
pub(crate) struct TerminalPorter<'r, R> {
    pub(crate) rt: &'r R,
    /// Whether standard error is a terminal: else nobody is told.
    pub(crate) is_terminal: bool,
}

/// Says that a client has left, and how many of its requests were taken.
fn say_left<R: Eprint>(rt: &R, client: usize, requests: usize) -> io::Result<()> {
    match requests {
        1 => eprintln!(rt; "client {client} left after 1 request"),
        count => eprintln!(rt; "client {client} left after {count} requests"),
    }
}

impl<R: Eprint + Sync> Porter for TerminalPorter<'_, R> {
    fn has_come(&self, client: usize, clients: usize) {
        if self.is_terminal {
            let _unwritten = eprintln!(self.rt; "client {client} of {clients} is here");
        }
    }

    fn has_left(&self, client: usize, requests: usize) {
        if self.is_terminal {
            let _unwritten = say_left(self.rt, client, requests);
        }
    }
}
