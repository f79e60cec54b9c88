//! A link to an item, in four bytes.
ghost use Rattle.std.specs.Prelude.{◌≡◌, ◌<◌, Some, None};

use std::marker::Model;

const NO_ITEM: u32 = u32::MAX;

/// The number of an item, or none. Contracts see an `Option`.
#[derive(Clone, Copy)]
pub(crate) struct Link {
    number: u32,
}

impl Model for Link {
    ghost use Rattle.std.specs.Prelude.{ℕ, Option};
    ghost use Rattle.mpd_queue.specs.Links.{item_of, number_of, link_back};

    ghost Value = { Option ℕ };

    ghost view = { λ l. item_of l.number };

    ghost inverse = { λ o. record { number = number_of o } };

    ghost inverse_ok = { λ a h. link_back a };
}

impl Link {
    /// No item.
    pub(crate) fn none() -> Link
        ensures { result ≡ None }
    {
        Link { number: NO_ITEM }
    }

    /// A link to an item, whose number has a link of its own.
    pub(crate) fn to(item: usize) -> Link
        requires { item < 4294967295 }
        ensures { result ≡ Some item }
    {
        Link {
            number: item as u32,
        }
    }

    /// The item that the link leads to, if any.
    pub(crate) fn item(self) -> Option<usize>
        ensures { result ≡ self }
    {
        if self.number == NO_ITEM {
            return None;
        }
        Some(self.number as usize)
    }
}
