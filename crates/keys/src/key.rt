ghost use Rattle.std.specs.Prelude.{◌≡◌, ℕ, ◌≤◌, Bool, true, ◌&&◌, ◌⊎◌, List, length, Some, Option, ◌==◌};
ghost use Rattle.leaders.specs.Order.{Strict, level_by, leads, beats};

/// A kind of key: which keys are at least as good as which, and how a key is made of its fields.
pub trait Key: Sized {
    /// How many fields a key of this kind has.
    const FIELDS: usize;

    // The same number, for clauses.
    ghost FIELDS: { ℕ };

    // The first key is at least as good as the second.
    ghost at_least: { Self → Self → Bool };

    // The key that these fields make, if they make one.
    ghost made: { List ℕ → Option Self };

    /// How many fields a key of this kind has.
    fn count() -> usize
        ensures { result ≡ FIELDS }
    {
        Self::FIELDS
    }

    /// The key that these fields make; `None` where the kind refuses them. `TryFrom` has no place for the law on their count.
    fn from_fields(fields: &[u32]) -> Option<Self>
        ensures { result ≡ made fields.now };

    /// Whether this key is at least as good as the other.
    fn at_least(&self, other: &Self) -> bool
        ensures { result ≡ at_least self.now other.now };

    // Of two keys at least one is at least as good as the other.
    ghost total: { (x y : Self) → (at_least x y ≡ true) ⊎ (at_least y x ≡ true) };

    ghost transitive: { (x y z : Self) → at_least x y ≡ true → at_least y z ≡ true → at_least x z ≡ true };

    // A kind has one to four fields.
    ghost few: { (1 ≤ FIELDS) × (FIELDS ≤ 4) };

    // Any other count of fields is refused.
    ghost counted: { (fields : List ℕ) (key : Self) → made fields ≡ Some key → length fields ≡ FIELDS };
}

/// Whether two keys are level: each is at least as good as the other.
pub fn level<K: Key>(a: &K, b: &K) -> bool
    ensures { result ≡ level_by K.Key.at_least a.now b.now }
{
    a.at_least(b) && b.at_least(a)
}

/// Whether `a` leads `b`: it is at least as good, and either better or the first of the two.
pub fn ahead<K: Key>(a: &K, b: &K, first: bool) -> bool
    ensures { result ≡ leads K.Key.at_least a.now b.now first }
{
    a.at_least(b) && (!b.at_least(a) || first)
}

/// Whether there are as many fields as a key of this kind has.
pub fn has_count<K: Key>(fields: &[u32]) -> bool
    ensures { result ≡ (length fields.now == K.Key.FIELDS) }
{
    fields.len() == K::count()
}

/// Every list of keys puts its lots in a strict order: the two laws of a kind are all that this needs.
pub fn lots_are_ordered<K: Key>() -> u8
    ensures { (keys : List K) → Strict (beats K.Key.at_least keys) }
{
    0
}
