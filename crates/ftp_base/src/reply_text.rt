//! The text of a reply.

use crate::bytes::Bytes;
use std::alloc::{AllocError, Global};
use std::marker::Model;

/// The text of a reply, which contracts see as a list: bytes of its own, or words of the program, which are never copied.
#[derive(Debug, Drop)]
pub struct ReplyText {
    words: Words,
}

#[derive(Debug, Drop)]
pub(crate) enum Words {
    Own(Bytes),
    Fixed(&'static [u8]),
}

impl Model for ReplyText {
    ghost use Rattle.std.specs.Prelude.{ℕ, List};
    ghost use Rattle.ftp_base.specs.ReplyText.{letters_of};

    ghost Value = { List ℕ };

    ghost view = { λ text. letters_of text.words };
}

impl PartialEq for ReplyText {
    ghost use Rattle.std.specs.Prelude.{nat_eq};
    ghost use Rattle.std.specs.Cmp.{partial_equiv_from_equiv};
    ghost use Rattle.std.specs.Cmp.Lexicographic.{pointwise, nat_list_eq_equiv};

    ghost eq = { pointwise nat_eq };

    ghost laws = { partial_equiv_from_equiv nat_list_eq_equiv };

    fn eq(&self, other: &ReplyText) -> bool {
        self.as_slice() == other.as_slice()
    }
}

impl Eq for ReplyText {
    ghost use Rattle.std.specs.Cmp.Lexicographic.{nat_list_eq_equiv};

    ghost laws = { nat_list_eq_equiv };
}

impl Clone for ReplyText {
    ghost use Rattle.std.specs.Prelude.{◌≡◌};

    ghost is_clone = { λ text copy. copy ≡ text };

    fn clone(&self) -> Result<ReplyText, AllocError> {
        match &self.words {
            Words::Own(bytes) => Ok(ReplyText::from_bytes(bytes.clone()?)),
            Words::Fixed(words) => Ok(ReplyText::from_static(words)),
        }
    }
}

impl ReplyText {
    ghost use Rattle.std.specs.Prelude.{◌≡◌, IfOk};

    /// Words of the program.
    pub fn from_static(words: &'static [u8]) -> ReplyText
        ensures { result ≡ words.now }
    {
        ReplyText {
            words: Words::Fixed(words),
        }
    }

    /// Takes over bytes.
    pub fn from_bytes(bytes: Bytes) -> ReplyText
        ensures { result ≡ bytes }
    {
        ReplyText {
            words: Words::Own(bytes),
        }
    }

    /// Takes over the bytes of a vector.
    pub fn from_vec(items: Vec<u8>) -> ReplyText
        ensures { result ≡ items.items }
    {
        ReplyText::from_bytes(Bytes::from_vec(items))
    }

    /// Lends the bytes.
    pub fn as_slice(&self) -> &[u8]
        ensures { result.now ≡ self.now }
    {
        match &self.words {
            Words::Own(bytes) => bytes.as_slice(),
            Words::Fixed(words) => words,
        }
    }

    /// Gives an equal value. Words of the program take no memory.
    pub fn copy(&self, _alloc: Global) -> Result<ReplyText, AllocError>
        ensures { IfOk result (λ copy. copy ≡ self.now) }
    {
        self.clone()
    }
}
