//! The lots of a list of keys, as casting reads them.

ghost use Rattle.std.specs.Prelude.{min, length};
ghost use Rattle.leaders.specs.Order.{beats};

use crate::book::PLACES;
use casting::Lots;
use keys::key::{Key, ahead};

/// The lots of a list of keys, of which no more than 4,000 count.
#[derive(Clone, Copy)]
pub struct KeyLots<'a, K> {
    pub keys: &'a [K],
}

impl<'a, K: Key> Lots for KeyLots<'a, K> {
    ghost order = { λ l. beats K.Key.at_least l.keys.now };

    ghost count = { λ l. min (length l.keys.now) 4000 };

    fn len(&self) -> usize {
        self.keys.len().min(PLACES)
    }

    fn beats(&self, i: usize, j: usize) -> bool {
        let x = &self.keys[i - 1];
        let y = &self.keys[j - 1];
        ahead(x, y, i < j)
    }
}
