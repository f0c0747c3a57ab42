ghost use Rattle.std.specs.Prelude.{◌≡◌, IfOk, IfSome};
ghost use Rattle.std.specs.Str.{IsUtf8};
ghost use Rattle.perm_values.specs.Texts.{text_bytes};

use crate::NoMemory;
use std::alloc::Global;
use std::marker::Model;

/// The bytes of a short text, so many that a text takes the room of two words.
const SHORT: usize = 14;

/// A text of few bytes, which lie in the value itself.
#[derive(Drop)]
pub(crate) struct ShortText {
    len: u8,
    bytes: [u8; SHORT],
}

impl Model for ShortText {
    ghost use Rattle.std.specs.Prelude.{ℕ, List, take, ◌≤◌, IsUtf8};

    ghost Value = { List ℕ };

    ghost view = { λ s. take s.len s.bytes };

    ghost invariant = { λ s. (s.len ≤ 14) × IsUtf8 (take s.len s.bytes) };
}

impl ShortText {
    /// The text in a short one; `None` where it has too many bytes.
    fn new(text: &str) -> Option<ShortText>
        ensures { IfSome result (λ short. short ≡ text.now) }
    {
        let source = text.as_bytes();
        if source.len() > SHORT {
            return None;
        }
        let mut bytes = [0; SHORT];
        bytes[..source.len()].copy_from_slice(source);
        Some(ShortText {
            len: source.len() as u8,
            bytes,
        })
    }

    fn as_str(&self) -> &str
        ensures value { result.now ≡ self.now }
        ensures utf8 { IsUtf8 self.now }
    {
        unsafe { std::str::from_utf8_unchecked(&self.bytes[..self.len as usize]) }
    }
}

/// A text in the value itself, or behind a pointer.
#[derive(Drop)]
pub(crate) enum Text {
    Short(ShortText),
    Long(Box<String>),
}

impl Text {
    /// The text in memory of its own. It fails only for want of memory.
    pub(crate) fn new(alloc: Global, text: &str) -> Result<Text, NoMemory>
        ensures { IfOk result (λ made. text_bytes made ≡ text.now) }
    {
        match ShortText::new(text) {
            Some(short) => Ok(Text::Short(short)),
            None => Ok(Text::Long(Box::new(alloc, String::from_str(alloc, text)?)?)),
        }
    }

    /// The text itself.
    pub(crate) fn as_str(&self) -> &str
        ensures value { result.now ≡ text_bytes self.now }
        ensures utf8 { IsUtf8 (text_bytes self.now) }
    {
        match self {
            Text::Short(short) => short.as_str(),
            Text::Long(long) => long.as_str(),
        }
    }
}
