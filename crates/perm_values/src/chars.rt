ghost use Rattle.std.specs.Prelude.{◌≡◌, ℕ, ◌<◌, ◌^◌, ◌↔◌, IsSome, IfOk, IfSome, IsTrue, length, nat_eq};
ghost use Rattle.std.specs.Cmp.{equiv, partial_equiv_from_equiv, partial_order_from_agreeing_total};
ghost use Rattle.std.specs.Cmp.Lexicographic.{pointwise, slice_cmp, nat_list_eq_equiv, nat_list_cmp_total};
ghost use Rattle.std.specs.Hash as fed;
ghost use Rattle.std.specs.Ordering.{nat_cmp};
ghost use Rattle.std.specs.Str.{IsUtf8};

use crate::text::Text;
use crate::{Copyable, NoMemory};
use std::alloc::Global;
use std::hash::{Hash, Hasher};
use std::marker::Model;

/// A text, seen as its list of bytes, which are always UTF-8.
#[derive(Drop)]
pub struct Chars {
    text: Text,
}

impl Model for Chars {
    ghost use Rattle.std.specs.Prelude.{ℕ, List};
    ghost use Rattle.perm_values.specs.Texts.{text_bytes};

    ghost Value = { List ℕ };

    ghost view = { λ c. text_bytes c.text };
}

impl Chars {
    /// The text of these bytes; `None` exactly where they aren't UTF-8. It fails only for want of memory.
    pub fn new(alloc: Global, bytes: &[u8]) -> Result<Option<Chars>, NoMemory>
        ensures valid { IfOk result (λ found. IsSome found ↔ IsUtf8 bytes.now) }
        ensures value { IfOk result (λ found. IfSome found (λ text. text ≡ bytes.now)) }
    {
        match std::str::from_utf8(bytes) {
            Ok(text) => Ok(Some(Chars::from_text(alloc, text)?)),
            Err(_) => Ok(None),
        }
    }

    /// The same text in memory of its own. It fails only for want of memory.
    pub fn from_text(alloc: Global, text: &str) -> Result<Chars, NoMemory>
        ensures { IfOk result (λ made. made ≡ text.now) }
    {
        Ok(Chars {
            text: Text::new(alloc, text)?,
        })
    }

    /// The bytes of the text.
    pub fn bytes(&self) -> &[u8]
        ensures value { result.now ≡ self.now }
        ensures utf8 { IsUtf8 self.now }
    {
        self.text.as_str().as_bytes()
    }

    /// The text itself.
    pub fn as_str(&self) -> &str
        ensures { result.now ≡ self.now }
    {
        self.text.as_str()
    }
}

impl Copyable for Chars {
    fn copy(&self, alloc: Global) -> Result<Chars, NoMemory> {
        Chars::from_text(alloc, self.text.as_str())
    }
}

impl PartialEq for Chars {
    ghost eq = { pointwise nat_eq };

    ghost laws = { partial_equiv_from_equiv nat_list_eq_equiv };

    fn eq(&self, other: &Chars) -> bool {
        self.text.as_str() == other.text.as_str()
    }
}

impl Eq for Chars {
    ghost laws = { nat_list_eq_equiv };
}

impl Hash for Chars {
    ghost hash_input = { fed.str };

    ghost use Rattle.std.proofs.Common.{rules};
    ghost use Rattle.std.specs.Cmp.Rules.{hashing};

    ghost respects_eq = { Prim.search (hashing, rules) };

    fn hash<H: Hasher>(&self, state: &mut H) {
        self.text.as_str().hash(state);
    }
}
