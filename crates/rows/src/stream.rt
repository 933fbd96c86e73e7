//! A text that is given once.
ghost use Rattle.std.specs.Prelude.{◌≡◌, ◌≤◌, ◌<◌, length};

use outside::{Failed, Shelf};

/// One text under every name, a byte at a time, given once as standard input gives it. It tells no bytes.
#[derive(Drop)]
pub struct Stream {
    text: Vec<u8>,
    at: usize,
    ready: bool,
    taken: u64,
    ended: bool,
}

impl Stream {
    /// A text of which nothing was given.
    pub fn new(text: Vec<u8>) -> Stream {
        Stream {
            text,
            at: 0,
            ready: false,
            taken: 0,
            ended: false,
        }
    }
}

impl Shelf for Stream {
    ghost use Rattle.std.specs.Prelude.{None, true};

    ghost text = { λ s name. None };

    ghost is_begun = { λ s name. true };

    ghost left = { λ s. None };

    ghost faults = { λ s name. 0 };

    ghost ready = { λ s. s.ready };

    ghost taken = { λ s. s.taken };

    ghost ended = { λ s. s.ended };

    fn begin(&mut self, _name: &str) -> Result<(), Failed> {
        self.ready = true;
        self.taken = 0;
        self.ended = false;
        Ok(())
    }

    fn read(&mut self, buf: &mut [u8]) -> Result<usize, Failed> {
        if buf.is_empty() {
            return Ok(0);
        }
        if self.at >= self.text.len() {
            self.ended = true;
            return Ok(0);
        }
        buf[0] = self.text[self.at];
        self.at += 1;
        self.taken = self.taken.saturating_add(1);
        Ok(1)
    }
}
