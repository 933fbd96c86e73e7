//! Hashes of names, by a key that is drawn from the text that holds them.
use std::hash::{BuildHasher, DefaultHasher, Hasher};

/// What makes hashers of one key.
///
/// The key is a digest of all bytes of the text, so that names that were chosen to collide under one key don't under that of the text
/// that holds them.
#[derive(Clone, Copy)]
pub struct KeyedNames {
    begun: DefaultHasher,
}

impl KeyedNames {
    /// Those of the text's key. The work is linear in the bytes.
    pub fn of_text(text: &[u8]) -> KeyedNames {
        let mut digest = DefaultHasher::new();
        digest.write(text);
        let mut begun = DefaultHasher::new();
        begun.write_u64(digest.finish());
        KeyedNames { begun }
    }
}

impl BuildHasher for KeyedNames {
    type Hasher = DefaultHasher;

    ghost build_hasher = { λ names. names.begun };

    fn build_hasher(&self) -> DefaultHasher {
        self.begun
    }
}
