ghost use Rattle.std.specs.Prelude.{◌≡◌, IfOk};

use crate::few_bytes::{FEW, FewBytes};
use std::alloc::{AllocError, Global};
use std::marker::Model;

/// Where the bytes of a text stand.
#[derive(Drop)]
pub(crate) enum Held {
    /// In the text itself.
    Few(FewBytes),
    /// In memory of their own.
    Many(Vec<u8>),
}

/// Bytes that are mostly text. Contracts see the list of them.
#[derive(Drop)]
pub struct ByteText {
    held: Held,
}

impl Model for ByteText {
    ghost use Rattle.std.specs.Prelude.{ℕ, List};

    ghost Value = { List ℕ };

    ghost use Rattle.trace_base.specs.ByteTexts.{text_bytes};

    ghost view = { λ text. text_bytes text.held };
}

impl ByteText {
    /// A copy of the bytes. Up to 30 of them take no memory.
    pub fn copy(alloc: Global, bytes: &[u8]) -> Result<ByteText, AllocError>
        ensures { IfOk result (λ text. text ≡ bytes.now) }
    {
        if bytes.len() <= FEW {
            Ok(ByteText {
                held: Held::Few(FewBytes::copy(bytes)),
            })
        } else {
            Ok(ByteText::from_vec(bytes.to_vec(alloc)?))
        }
    }

    /// The bytes themselves; no memory is taken.
    pub fn from_vec(bytes: Vec<u8>) -> ByteText
        ensures { result ≡ bytes.items }
    {
        ByteText {
            held: Held::Many(bytes),
        }
    }

    /// The bytes.
    #[inline(always)]
    pub fn as_bytes(&self) -> &[u8]
        ensures { result.now ≡ self.now }
    {
        match &self.held {
            Held::Few(few) => few.as_bytes(),
            Held::Many(bytes) => bytes.as_slice(),
        }
    }
}
