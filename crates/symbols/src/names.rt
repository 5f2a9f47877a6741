// Names as they stand in a text.

ghost use Rattle.std.specs.Prelude.{◌≡◌, None, OnOk, reverse};
ghost use Rattle.symbols.specs.NameMap.{SamePairs};
ghost use Rattle.symbols.specs.Names.{names_view, AreInside, IsSortedPairs};
ghost use Rattle.symbols.specs.Spots.{firsts};

use crate::order::{keep_firsts, sort_spots};
use std::alloc::{AllocError, Global};
use trace_base::ByteText;

/// The place of a name in the text.
#[derive(Clone, Copy, Debug)]
pub(crate) struct Span {
    pub start: usize,
    pub len: usize,
}

/// A number and the place of the name beside it.
#[derive(Clone, Copy, Debug)]
pub(crate) struct Spot {
    /// The address or the pid.
    pub key: u64,
    /// Where the name stands.
    pub span: Span,
}

/// Names in the order in which they were found, or in that of their numbers. They stand in the text that they were read from.
#[derive(Drop)]
pub(crate) struct Names {
    pub spots: Vec<Spot>,
    pub text: ByteText,
}

impl Names {
    /// Reverses the order of the names.
    pub fn reverse(&mut self)
        requires { AreInside self.old }
        ensures inside { AreInside self.new }
        ensures value { names_view self.new ≡ reverse (names_view self.old) }
    {
        self.spots.reverse();
    }

    /// Puts the names in order of their numbers, those of one number as they stand.
    pub fn sort(&mut self, alloc: Global) -> Result<(), AllocError>
        requires { AreInside self.old }
        ensures inside { OnOk result (AreInside self.new) }
        ensures rises { OnOk result (IsSortedPairs (names_view self.new)) }
        ensures same { OnOk result (SamePairs (names_view self.old) (names_view self.new)) }
    {
        sort_spots(alloc, &mut self.spots)?;
        Ok(())
    }

    /// Of consecutive names with one number keeps only the first.
    pub fn keep_firsts(&mut self)
        requires { AreInside self.old }
        ensures inside { AreInside self.new }
        ensures value { names_view self.new ≡ firsts None (names_view self.old) }
    {
        keep_firsts(&mut self.spots);
    }
}
