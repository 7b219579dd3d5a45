//! The fields of a key, as a call carries them.

ghost use Rattle.std.specs.Prelude.{◌≡◌, take};
ghost use Rattle.book.specs.Held.{numbers};

/// The fields of a key, five at most: no kind has more than four, so a count that every kind refuses can be written too. Nothing is allocated: calls that carry them are copied.
#[derive(Clone, Copy)]
pub struct Fields {
    values: [u32; 5],
    count: usize,
}

impl Fields {
    /// The first five of these fields.
    pub fn new(fields: &[u32]) -> Fields
        ensures { numbers result ≡ take 5 fields.now }
    {
        let count = fields.len().min(5);
        let mut values = [0; 5];
        values[0..count].copy_from_slice(&fields[0..count]);
        Fields { values, count }
    }

    pub fn as_slice(&self) -> &[u32]
        ensures { result.now ≡ numbers self.now }
    {
        let n = self.count.min(5);
        &self.values[0..n]
    }
}
