//! Bytes that are told, and what a line spells.
use bit_lists::Bits;
use std::alloc::Global;
use std::fmt::Debug;

/// Bytes one after another. They aren't whole where memory was wanted for some of them.
#[derive(Drop)]
pub struct Page {
    pub alloc: Global,
    pub bytes: Vec<u8>,
    pub whole: bool,
}

impl Page {
    pub fn new(alloc: Global) -> Page {
        Page {
            alloc,
            bytes: Vec::new(alloc),
            whole: true,
        }
    }

    /// Adds bytes.
    pub fn put(&mut self, bytes: &[u8]) {
        let added = self.bytes.extend_from_slice(bytes).is_ok();
        self.whole = self.whole && added;
    }

    /// Adds a text.
    pub fn text(&mut self, text: &str) {
        self.put(text.as_bytes());
    }

    /// Adds a value as it is shown, behind a blank.
    pub fn show<T: Debug>(&mut self, value: &T) {
        match format!(in self.alloc; " {value:?}") {
            Ok(text) => self.text(&text),
            Err(_) => self.whole = false,
        }
    }

    /// Adds a list of bits as it is spelled.
    pub fn bits(&mut self, x: &Bits) {
        for i in 0..x.len() {
            self.text(if x.get(i) { "1" } else { "0" });
        }
    }

    /// Adds what a line spells. Two signs `~` hold a number, a blank and what is repeated so often.
    pub fn spell(&mut self, line: &str) {
        let mut once = true;
        for piece in line.split('~') {
            let (times, piece) = if once {
                ("1", piece)
            } else {
                piece.split_once(' ').unwrap_or(("", ""))
            };
            for _ in 0..times.parse::<u32>().unwrap_or(0) {
                self.unescape(piece);
            }
            once = !once;
        }
    }

    // Two digits of base 16 behind a `\` are a byte.
    fn unescape(&mut self, piece: &str) {
        let (plain, escaped) = piece.split_once('\\').unwrap_or((piece, ""));
        self.text(plain);
        for part in escaped.split('\\') {
            if let Some((digits, rest)) = part.split_at_checked(2) {
                self.put(&[u8::from_str_radix(digits, 16).unwrap_or(0)]);
                self.text(rest);
            }
        }
    }
}
