//! Texts of shelves, read whole.
use bit_lists::OutOfMemory;
use call_rows::{Page, Row};
use outside::{CalmShelf, MemoryShelf, Named, Shelf, TakeStop, read_all};
use std::alloc::Global;

/// A text of 47 bytes.
pub const TEXT: &str = "OPENQASM 2.0;\nqreg q[2];\nh q[0];\ncx q[0],q[1];\n";

pub fn tell(row: &mut Row<'_>, page: &mut Page) {
    match row.name() {
        "reads" => tell_reads(row.count() as usize, page),
        "begins" => tell_begins(row.count(), row.name(), page),
        "blanks" => tell_blanks(row.count() as usize, page),
        "calm" => tell_calm(page),
        _ => page.text("no such shelf"),
    }
}

/// Whether a file is the text.
pub fn tell_file<S: Shelf>(files: &mut S, row: &mut Row<'_>, page: &mut Page) {
    page.show(&taking(page.alloc, files, row.name(), TEXT.as_bytes()));
}

// Takes a whole text, and says why it wasn't taken, if it wasn't. Another text is one that is too long.
fn taking<S: Shelf>(alloc: Global, shelf: &mut S, name: &str, text: &[u8]) -> Option<TakeStop> {
    match read_all(alloc, shelf, name) {
        Ok(bytes) => {
            if bytes.as_slice() == text {
                None
            } else {
                Some(TakeStop::TooLong)
            }
        }
        Err(stop) => Some(stop),
    }
}

fn named(alloc: Global, name: &str, text: &[u8]) -> Result<Vec<Named>, OutOfMemory> {
    let file = Named {
        name: String::from_str(alloc, name)?,
        text: Vec::from_slice(alloc, text)?,
    };
    Ok(vec![in alloc; file]?)
}

// A shelf of one file that gives so many bytes at a time, where this begin and this read fail, from 1 on; 0 is none.
fn shelf_of(
    alloc: Global,
    text: &[u8],
    most: usize,
    begin: u32,
    read: u32,
) -> Result<MemoryShelf, OutOfMemory> {
    let files = named(alloc, "file", text)?;
    let begins = vec![in alloc; begin]?;
    let reads = vec![in alloc; read]?;
    MemoryShelf::new(alloc, files, most.max(1), begins, reads)
}

// By the most bytes of a read, for each read that fails in turn.
fn tell_reads(most: usize, page: &mut Page) {
    for bad in 1..50 {
        match shelf_of(page.alloc, TEXT.as_bytes(), most, 0, bad) {
            Ok(mut shelf) => page.show(&taking(page.alloc, &mut shelf, "file", TEXT.as_bytes())),
            Err(stop) => page.show(&stop),
        }
    }
}

// Three texts in a row where one begin fails.
fn tell_begins(bad: u32, name: &str, page: &mut Page) {
    match shelf_of(page.alloc, TEXT.as_bytes(), 7, bad, 0) {
        Ok(mut shelf) => {
            for _ in 0..3 {
                page.show(&taking(page.alloc, &mut shelf, name, TEXT.as_bytes()));
            }
        }
        Err(stop) => page.show(&stop),
    }
}

fn tell_blanks(length: usize, page: &mut Page) {
    match vec![in page.alloc; b' '; length] {
        Ok(blanks) => tell_whole(&blanks, page),
        Err(_) => page.text("no memory"),
    }
}

fn tell_whole(text: &[u8], page: &mut Page) {
    match shelf_of(page.alloc, text, usize::MAX, 0, 0) {
        Ok(mut shelf) => page.show(&taking(page.alloc, &mut shelf, "file", text)),
        Err(stop) => page.show(&stop),
    }
}

// What a calm shelf gives of a name that it has, and of one that it hasn't.
fn tell_calm(page: &mut Page) {
    match named(page.alloc, "abc", b"123") {
        Ok(files) => {
            let mut shelf = CalmShelf::new(page.alloc, files);
            page.show(&taking(page.alloc, &mut shelf, "abc", b"123"));
            page.show(&taking(page.alloc, &mut shelf, "abcd", b""));
        }
        Err(stop) => page.show(&stop),
    }
}
