//! `Text`, an owned UTF-8 text. A copy of a short text is kept inline and takes no memory.
ghost use Rattle.std.specs.Prelude.{◌≡◌, string_bytes, IfOk};

use crate::memory::Memory;
use arrayvec::ArrayString;
use std::alloc::Global;
use std::fmt;
use std::marker::Model;

// Copies of at most this many bytes are kept inline. Most names of projects, branches, refs and accounts are no longer.
const INLINE: usize = 32;

/// A text. Contracts see it as the list of its UTF-8 bytes. A copy of at most 32 bytes takes no memory.
#[derive(Drop)]
pub struct Text {
    bytes: TextBytes,
}

#[derive(Drop)]
enum TextBytes {
    Inline(ArrayString<INLINE>),
    Heap(String),
}

impl Model for Text {
    ghost use Rattle.std.specs.Prelude.{ℕ, List};
    ghost use Rattle.gate_record.specs.Inner.Texts.{bytes_in};

    ghost Value = { List ℕ };

    ghost view = { λ t. bytes_in t.bytes };
}

impl Text {
    /// Takes over a string. It takes no memory.
    pub fn new(string: String) -> Text
        ensures { result ≡ string_bytes string }
    {
        Text {
            bytes: TextBytes::Heap(string),
        }
    }

    /// Returns a copy of a text. At most 32 bytes take no memory.
    pub fn copy(alloc: Global, text: &str) -> Result<Text, Memory>
        ensures { IfOk result (λ copy. copy ≡ text.now) }
    {
        let bytes = match ArrayString::from(text) {
            Ok(inline) => TextBytes::Inline(inline),
            Err(_) => TextBytes::Heap(String::from_str(alloc, text)?),
        };
        Ok(Text { bytes })
    }

    /// Borrows the text.
    pub fn as_str(&self) -> &str
        ensures { result.now ≡ self.now }
    {
        match &self.bytes {
            TextBytes::Inline(text) => text.as_str(),
            TextBytes::Heap(text) => text.as_str(),
        }
    }
}

impl fmt::Debug for Text {
    fn fmt<W: fmt::Write>(&self, f: &mut fmt::Formatter<W>) -> fmt::Result {
        fmt::Debug::fmt(self.as_str(), f)
    }
}
