// The links of the tree, by one pass over the lots.
ghost use Rattle.std.specs.Prelude.{◌≡◌, ◌<◌, ◌≤◌};
ghost use Rattle.links.specs.Made.{LotsLinked};

use crate::Lots;
use links::Links;

/// Links all lots.
pub(crate) fn link<L: Lots>(lots: &L, links: &mut Links)
    requires { links.old.n ≡ L.Lots.count lots.now }
    ensures lots { links.new.n ≡ links.old.n }
    ensures linked { LotsLinked (L.Lots.order lots.now) links.new.n links.new }
{
    links.clear();
    // By the lots' numbers: a lot is linked by its number, and there is no list of lots to go through. Not `1..=`, with which a loop ends in two ways, and is proved twice.
    for k in 1..lots.len() + 1 {
        let place = links.climb(k, |x| lots.beats(x as usize, k));
        links.hang(k, place);
    }
}
