//! What is told of a run.

use crate::row::Row;
use crate::running::Ran;
use bit_lists::OutOfMemory;
use std::alloc::Global;

/// Text that waits to be written.
#[derive(Drop)]
pub struct Page {
    alloc: Global,
    pub bytes: Vec<u8>,
}

impl Page {
    pub fn new(alloc: Global) -> Page {
        Page {
            alloc,
            bytes: Vec::new(alloc),
        }
    }

    /// Adds a text.
    pub fn text(&mut self, text: &str) -> Result<(), OutOfMemory> {
        self.bytes.extend_from_slice(text.as_bytes())?;
        Ok(())
    }

    /// Adds a number and a text behind it.
    pub fn number(&mut self, number: u64, text: &str) -> Result<(), OutOfMemory> {
        let digits = format!(in self.alloc; "{number}{text}")?;
        self.text(&digits)
    }

    /// A run in full: its name, its status, and what it wrote line by line.
    pub fn answer(&mut self, row: &Row, ran: &Ran) -> Result<(), OutOfMemory> {
        self.text("row ")?;
        self.text(&row.name)?;
        self.text("\nstatus ")?;
        self.number(u64::from(ran.status), "\n")?;
        if row.brief {
            self.outline("out", ran.out.written())?;
        } else {
            self.lines("out", ran.out.written())?;
        }
        if row.some_step {
            let told = without_step(self.alloc, ran.err.written())?;
            self.lines("err", &told)?;
        } else {
            self.lines("err", ran.err.written())?;
        }
        if row.count {
            self.calls(ran)?;
            self.text("\n")?;
        }
        Ok(())
    }

    /// How often a run began a text, and read.
    pub fn calls(&mut self, ran: &Ran) -> Result<(), OutOfMemory> {
        self.text("begins ")?;
        self.number(ran.begins, ", reads ")?;
        self.number(ran.reads, "")
    }

    // Each line of some bytes. What follows the last line feed is told as cut off.
    fn lines(&mut self, name: &str, written: &[u8]) -> Result<(), OutOfMemory> {
        let mut at_start = true;
        for byte in written {
            if at_start {
                self.text(name)?;
                self.text(": ")?;
            }
            self.bytes.push(*byte)?;
            at_start = *byte == b'\n';
        }
        if !at_start {
            self.text(" (cut off)\n")?;
        }
        Ok(())
    }

    // The length of some bytes, their checksum, and their first and last line.
    fn outline(&mut self, name: &str, written: &[u8]) -> Result<(), OutOfMemory> {
        self.text(name)?;
        self.text(": ")?;
        self.number(written.len() as u64, " bytes, Adler-32 ")?;
        self.number(u64::from(adler_32(written)), "\n")?;
        self.lines(name, first_line(written))?;
        self.lines(name, last_line(written))
    }

    /// Some bytes on one line, beside those of the run in full.
    pub fn beside(&mut self, written: &[u8], whole: &[u8]) -> Result<(), OutOfMemory> {
        if written.is_empty() {
            return self.text("none");
        }
        if whole.starts_with(written) {
            self.text("first ")?;
            self.number(written.len() as u64, " of ")?;
            return self.number(whole.len() as u64, " bytes");
        }
        self.quoted(written)
    }

    // Some bytes with their line feeds as \n.
    fn quoted(&mut self, written: &[u8]) -> Result<(), OutOfMemory> {
        self.text("\"")?;
        for byte in written {
            if *byte == b'\n' {
                self.text("\\n")?;
            } else {
                self.bytes.push(*byte)?;
            }
        }
        self.text("\"")
    }
}

// Some bytes with two dots in place of a number behind "step".
fn without_step(alloc: Global, written: &[u8]) -> Result<Vec<u8>, OutOfMemory> {
    let mut kept = Vec::new(alloc);
    for byte in written {
        if !byte.is_ascii_digit() {
            kept.push(*byte)?;
        } else if kept.ends_with(b"step ") {
            kept.extend_from_slice(b"..")?;
        } else if !kept.ends_with(b"step ..") {
            kept.push(*byte)?;
        }
    }
    Ok(kept)
}

// The checksum Adler-32: the sum of the bytes from 1 on, and above it the sum of these sums, each modulo 65,521.
fn adler_32(bytes: &[u8]) -> u32 {
    let mut low = 1u64;
    let mut high = 0u64;
    for byte in bytes {
        low = low.wrapping_add(u64::from(*byte)) % 65_521;
        high = high.wrapping_add(low) % 65_521;
    }
    (high.wrapping_mul(65_536).wrapping_add(low) % 4_294_967_296) as u32
}

// The first line, with its line feed.
fn first_line(bytes: &[u8]) -> &[u8] {
    match bytes.iter().position(|byte| *byte == b'\n') {
        Some(place) => bytes.get(..=place).unwrap_or(bytes),
        None => bytes,
    }
}

// The last line, with its line feed.
fn last_line(bytes: &[u8]) -> &[u8] {
    let Some((_, front)) = bytes.split_last() else {
        return bytes;
    };
    match front.iter().rposition(|byte| *byte == b'\n') {
        Some(place) => bytes.get(place + 1..).unwrap_or(bytes),
        None => bytes,
    }
}
