ghost use Rattle.std.specs.Prelude.{◌≡◌, List};
ghost use Rattle.std.specs.Coded.{coded_list};

use std::marker::Model;

/// A `Vec` that contracts see as the list of its items. None of its calls takes memory.
#[derive(Drop)]
pub struct ListOf<T> {
    inner: Vec<T>,
}

impl<T> Model for ListOf<T> {
    ghost Value = { List T };

    ghost coded = { coded_list T.code };

    ghost view = { λ list. list.inner.items };
}

impl<T> ListOf<T> {
    /// The list of these items.
    pub fn from_vec(items: Vec<T>) -> ListOf<T>
        ensures { result ≡ items.items }
    {
        ListOf { inner: items }
    }

    /// Its items.
    pub fn as_slice(&self) -> &[T]
        ensures { result.now ≡ self.now }
    {
        self.inner.as_slice()
    }

    /// Its items, given back.
    pub fn into_vec(self) -> Vec<T>
        ensures { result.items ≡ self }
    {
        let ListOf { inner } = self;
        inner
    }
}
