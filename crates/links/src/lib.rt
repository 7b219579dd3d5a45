//! The tree of an order of lots, linked in working numbers: for each lot where it hangs, the best lot on its left and on its right, and how many children it has.
//!
//! What it has is for the crates that link lots and walk along the links: its types are public for them, which have what their methods require.
//! The working numbers are lent by the caller, and nothing is allocated: so a lot is named by its number in them, and 0 stands for no lot.
#![tactic(auto)]

pub mod sides;

ghost use Rattle.std.specs.Prelude.{◌≡◌, ℕ, suc, ◌+◌, ◌-◌, ◌*◌, ◌^◌, ◌<◌, ◌≤◌, Bool, true, ◌⊎◌, List, ◌++◌, length, slice_index, slice_set};
ghost use Rattle.leaders.specs.Order.{Strict};
ghost use Rattle.leaders.specs.Sheet.{parent};
ghost use Rattle.links.specs.Links.{Top, Tells};
ghost use Rattle.links.specs.Walks.{Hangs, Passes, AtMost, Rises};

use sides::{Sides, Words};

/// Where a lot hangs: on its parent, which may be node 0, the root; and the best of the lots between the two, or 0 for none, as it is stored.
#[derive(Clone, Copy)]
pub struct Place {
    pub parent: u32,
    pub best: u32,
}

/// The links of node 0 and of `n` lots, while they are made. `n` stands beside the lists, since node 0 has a place in each that is no lot's.
#[derive(Drop)]
pub struct Links<'a> {
    pub n: usize,
    pub up: &'a mut [u32],
    pub left: &'a mut [u32],
    pub right: &'a mut [u32],
    pub kids: &'a mut [u32],
    ghost few: { n < 2 ^ 30 },
    ghost up_long: { length up.now ≡ suc n },
    ghost left_long: { length left.now ≡ suc n },
    ghost right_long: { length right.now ≡ suc n },
    ghost kids_long: { length kids.now ≡ suc n },
}

impl<'a> Links<'a> {
    /// Takes exactly the working numbers that the links of `n` lots take.
    pub fn over(work: &'a mut [u32], n: usize) -> Links<'a>
        requires few { n < 2 ^ 30 }
        requires numbers { length work.old ≡ 4 * (n + 1) }
        ensures lots { result.n ≡ n }
        ensures parts { work.old ≡ result.up.now ++ (result.left.now ++ (result.right.now ++ result.kids.now)) }
    {
        let (up, others) = work.split_at_mut(n + 1);
        let (left, more) = others.split_at_mut(n + 1);
        let (right, kids) = more.split_at_mut(n + 1);
        Links {
            n,
            up,
            left,
            right,
            kids,
        }
    }

    /// No lot is linked.
    pub fn clear(&mut self)
        ensures lots { self.new.n ≡ self.old.n }
        ensures up { self.new.up.now ≡ self.old.up.now }
        ensures left { self.new.left.now ≡ slice_set self.old.left.now 0 0 }
        ensures rights { (k : ℕ) → k ≤ self.new.n → slice_index self.new.right.now k ≡ 0 }
        ensures counts { (k : ℕ) → k ≤ self.new.n → slice_index self.new.kids.now k ≡ 0 }
    {
        self.left[0] = 0;
        self.right.fill(0);
        self.kids.fill(0);
    }

    /// Links lot `k`, the one after those that are linked.
    pub fn hang(&mut self, k: usize, place: Place)
        requires lot { k ≤ self.old.n }
        requires parent { place.parent < k }
        requires count { slice_index self.old.kids.now place.parent < k }
        ensures lots { self.new.n ≡ self.old.n }
        ensures up { self.new.up.now ≡ slice_set self.old.up.now k place.parent }
        ensures left { self.new.left.now ≡ slice_set self.old.left.now k place.best }
        ensures right { self.new.right.now ≡ slice_set self.old.right.now place.parent k }
        ensures kids { self.new.kids.now ≡ slice_set self.old.kids.now place.parent (slice_index self.old.kids.now place.parent + 1) }
    {
        self.up[k] = place.parent;
        self.left[k] = place.best;
        self.right[place.parent as usize] = k as u32;
        self.kids[place.parent as usize] += 1;
    }

    /// Where lot `k` hangs: on the first node up from lot `k - 1` at which `stops` is true, or on node 0. The lot passed last is the best of those between.
    pub fn climb<F: Fn(u32) -> bool>(&self, k: usize, stops: F) -> Place
        requires lot { (1 ≤ k) × (k ≤ self.now.n) }
        requires hangs { Hangs k self.now.up.now }
        requires stops { (x : ℕ) → 1 ≤ x → x < k → F.pre stops x }
        ensures path { (passed : List ℕ) × Passes self.now.up.now (F.post stops) (k - 1) 0 passed result.parent result.best }
        ensures below { (result.parent < k) × (result.best < k) }
        ensures stopped { (result.parent ≡ 0) ⊎ F.post stops result.parent true }
        // for every order of which the test tells whether a lot beats lot k
        ensures found { (b : ℕ → ℕ → Bool) → Strict b → ((m : ℕ) → 1 ≤ m → m < k → slice_index self.now.up.now m ≡ parent b m) → Tells b k (F.post stops) → (result.parent ≡ parent b k) × Top b (suc result.parent) (k - 1) result.best }
    {
        let mut x = (k - 1) as u32;
        let mut last = 0;
        // Node 0 is the root, where the climb ends.
        while x != 0 && !stops(x) {
            last = x;
            x = self.up[x as usize];
        }
        Place {
            parent: x,
            best: last,
        }
    }

    /// The words of the lots, where all numbers are among the lots.
    pub fn words(&self) -> Words<'_>
        requires lefts { AtMost self.now.n self.now.left.now }
        requires rights { AtMost self.now.n self.now.right.now }
        requires rises { Rises self.now.n self.now.right.now }
        requires kids { AtMost self.now.n self.now.kids.now }
        ensures lots { result.sides.n ≡ self.now.n }
        ensures left { result.sides.left.now ≡ self.now.left.now }
        ensures right { result.sides.right.now ≡ self.now.right.now }
        ensures kids { result.kids.now ≡ self.now.kids.now }
    {
        Words {
            sides: Sides {
                n: self.n,
                left: self.left,
                right: self.right,
            },
            kids: self.kids,
        }
    }
}
