// The walks along linked lots, and how long the lots' words are.
ghost use Rattle.std.specs.Prelude.{◌≡◌, ℕ, suc, ◌+◌, ◌-◌, ◌*◌, ◌^◌, ◌<◌, ◌≤◌, List, length, slice_index};
ghost use Rattle.links.specs.Walks.{Chain, AtMost, Rises};

/// For node 0 and each of `n` lots the best lot on its left and on its right, or 0 for none.
#[derive(Clone, Copy)]
pub struct Sides<'a> {
    pub n: usize,
    pub left: &'a [u32],
    pub right: &'a [u32],
    ghost few: { n < 2 ^ 30 },
    ghost left_long: { length left.now ≡ suc n },
    ghost right_long: { length right.now ≡ suc n },
    ghost lefts: { AtMost n left.now },
    ghost rights: { AtMost n right.now },
    ghost rises: { ∥ Rises n right.now ∥₁ },
}

impl Sides<'_> {
    /// How many lots there are from `start` along the right.
    fn steps(&self, start: u32) -> usize
        requires { start ≤ self.now.n }
        ensures few { result ≤ suc self.now.n }
        ensures chain { (xs : List ℕ) → Chain self.now.right.now start xs → result ≡ length xs }
    {
        let mut x = start;
        let mut steps = 0;
        // 0 ends the list, as it is stored.
        while x != 0 {
            steps += 1;
            x = self.right[x as usize];
        }
        steps
    }
}

/// The sides of the lots and how many children each has, by which the lots' words are found.
#[derive(Clone, Copy)]
pub struct Words<'a> {
    pub sides: Sides<'a>,
    pub kids: &'a [u32],
    ghost kids_long: { length kids.now ≡ suc sides.n },
    ghost kids_most: { AtMost sides.n kids.now },
}

impl Words<'_> {
    /// How many symbols the word of lot `k` has.
    pub fn size(&self, k: usize) -> usize
        requires { k ≤ self.now.sides.n }
        ensures few { result ≤ 2 * self.now.sides.n }
        ensures chain { (xs : List ℕ) → Chain self.now.sides.right.now (slice_index self.now.sides.left.now k) xs → result ≡ (length xs + slice_index self.now.kids.now k) - 1 }
    {
        let sides = self.sides;
        (sides.steps(sides.left[k]) + self.kids[k] as usize).saturating_sub(1)
    }
}
