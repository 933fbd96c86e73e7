//! Texts with their names.
ghost use Rattle.std.specs.Prelude.{◌≡◌, ◌≤◌, ◌<◌, ◌-◌, ◌+◌, ◌++◌, [], min, take, drop, length, IfSome};
ghost use Rattle.outside.specs.Memory.{place_of, text_in};

use std::marker::Model;

/// A text with its name.
#[derive(Drop)]
pub struct Named {
    pub name: String,
    pub text: Vec<u8>,
}

impl Model for Named {
    ghost use Rattle.std.specs.Prelude.{string_bytes};
    ghost use Rattle.outside.specs.Memory.{NamedText};

    ghost Value = { NamedText };

    ghost view = { λ f. record { name = string_bytes f.name; text = f.text.items } };
}

// The place of the first file of this name.
pub fn find(files: &[Named], name: &str) -> Option<usize>
    ensures { result ≡ place_of name.now files.now }
{
    files.iter().position(|file| file.name.as_str() == name)
}

// Gives the next bytes of a text.
pub fn give(text: &[u8], at: usize, most: usize, buf: &mut [u8]) -> usize
    requires at { at ≤ length text.now }
    requires some { 1 ≤ most }
    ensures count { result ≡ min (min (length buf.old) most) (length text.now - at) }
    ensures bytes { drop at text.now ≡ take result buf.new ++ drop (at + result) text.now }
    ensures end { result ≡ 0 → 0 < length buf.old → drop at text.now ≡ [] }
{
    let count = buf.len().min(most).min(text.len() - at);
    buf[..count].copy_from_slice(&text[at..at + count]);
    count
}

// The text of the file at a place, or none.
pub fn text_in(files: &[Named], place: Option<usize>) -> &[u8]
    requires { IfSome place (λ i. i < length files.now) }
    ensures { result.now ≡ text_in files.now place }
{
    match place {
        Some(i) => {
            let file = &files[i];
            &file.text
        }
        None => &[],
    }
}
