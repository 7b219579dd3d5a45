ghost use Rattle.keys.specs.Prices.{price_at_least, price_of};
ghost use Rattle.std.proofs.Common.{rules};

use crate::key::Key;

/// A price in whole cents: the higher is the better.
#[derive(Clone, Copy, PartialEq, Eq, PartialOrd, Ord, Debug)]
#[repr(C)]
pub struct Price {
    pub cents: u32,
}

impl Key for Price {
    const FIELDS: usize = 1;

    ghost FIELDS = { 1 };

    ghost at_least = { price_at_least };

    ghost made = { price_of };

    ghost total = { Prim.search rules };

    ghost transitive = { Prim.search rules };

    ghost few = { Prim.search rules };

    ghost counted = { Prim.search rules };

    fn from_fields(fields: &[u32]) -> Option<Price> {
        match fields {
            [cents] => Some(Price { cents: *cents }),
            _ => None,
        }
    }

    fn at_least(&self, other: &Price) -> bool {
        self >= other
    }
}
