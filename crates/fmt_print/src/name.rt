//! Short texts that are kept by what shows them.

ghost use Rattle.std.specs.Prelude.{◌≡◌, ◌≤◌, IfSome};
ghost use Rattle.trace_base.specs.Kept.{until_nul};
ghost use Rattle.fmt_forms.specs.Shows.{Shows};

use crate::step::put_first;
use trace_base::{Tail, until_nul};

/// A text of up to sixteen bytes.
#[derive(Drop)]
pub struct Name {
    /// Its bytes, with zeros after them.
    front: [u8; 16],
    len: u8,
    ghost within: { len ≤ 16 },
}

impl Name {
    ghost use Rattle.fmt_print.specs.Names.{name_text};

    /// The name that a text up to its first NUL is, if it is so short.
    pub fn of(text: &[u8]) -> Option<Name>
        ensures { IfSome result (λ name. name_text name ≡ until_nul text.now) }
    {
        let shown = until_nul(text);
        if shown.len() > 16 {
            return None;
        }
        let mut front = [0; 16];
        put_first(&mut front, shown);
        Some(Name {
            front,
            len: shown.len() as u8,
        })
    }

    /// Shows it as it is.
    #[inline(always)]
    #[tactic(auto, using(fmt_forms::proofs::Gathering::put_shown))]
    pub fn show(&self, into: &mut Tail<'_>)
        ensures { Shows into.old into.new (name_text self.now) }
    {
        into.put_front(&self.front, self.len as usize);
    }
}
