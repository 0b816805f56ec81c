// Names: texts of at most 32 bytes, as the book keeps them.
ghost use Rattle.std.specs.Prelude.{◌≡◌, ◌≤◌, length};
ghost use Rattle.book.specs.Book.{name_of, name_bytes, blank_name};
ghost use Rattle.book.specs.Steps.{same_bytes};
ghost use Rattle.steps.specs.Turn.{short_name};

use book::{NAME_BYTES, Name};

// A text of at most 32 bytes as a name.
#[tactic(auto, using(std::proofs::lemmas::List::Edits::paste_more))]
pub(crate) fn name_of(text: &[u8]) -> Name
    requires { length text.now ≤ 32 }
    ensures { result ≡ name_of text.now }
{
    let mut bytes = [0u8; NAME_BYTES];
    // std's `copy_from_slice` would ask the C library for `memmove`
    for (i, b) in text.iter().enumerate() {
        bytes[i] = *b;
    }
    Name {
        bytes,
        len: text.len() as u8,
    }
}

pub(crate) fn blank_name() -> Name
    ensures { result ≡ blank_name }
{
    Name {
        bytes: [0u8; NAME_BYTES],
        len: 0,
    }
}

// The same of any text; one of over 32 bytes is no name.
pub(crate) fn short_name(text: &[u8]) -> Name
    ensures { result ≡ short_name text.now }
{
    if NAME_BYTES < text.len() {
        return blank_name();
    }
    name_of(text)
}

// Whether a name is that text.
pub(crate) fn is_named(name: Name, text: &[u8]) -> bool
    ensures { result ≡ same_bytes (name_bytes name) text.now }
{
    name.as_bytes() == text
}
