//! Rows of any type, found from the front by a key.
ghost use Rattle.std.specs.Prelude.{◌≡◌, Bool, not};
ghost use Rattle.std.specs.List.{count_by, filter, find, list_any, position};
ghost use Rattle.std.specs.Option.{option_copied};

/// What rows are looked for by.
pub trait Picker<T> {
    /// Whether it is the key of a row.
    ghost picks: { Self → T → Bool };

    fn picks(&self, row: &T) -> bool
        ensures { result ≡ picks self.now row.now };
}

/// The first row of a key.
pub fn find<T, K: Picker<T> + Copy>(rows: &[T], key: K) -> Option<&T>
    ensures { option_copied result ≡ find (K.picks key) rows.now }
{
    rows.iter().find(|row| key.picks(row))
}

/// The place of the first row of a key.
pub(crate) fn place_of<T, K: Picker<T> + Copy>(rows: &[T], key: K) -> Option<usize>
    ensures { result ≡ position (K.picks key) rows.now }
{
    rows.iter().position(|row| key.picks(row))
}

/// Whether there is a row of a key.
pub(crate) fn any<T, K: Picker<T> + Copy>(rows: &[T], key: K) -> bool
    ensures { result ≡ list_any (K.picks key) rows.now }
{
    rows.iter().any(|row| key.picks(row))
}

/// How many rows of a key there are.
pub fn count<T, K: Picker<T> + Copy>(rows: &[T], key: K) -> usize
    ensures { result ≡ count_by (K.picks key) rows.now }
{
    rows.iter().filter(|row| key.picks(*row)).count()
}

/// Removes all rows of a key.
pub fn remove<T: Drop, K: Picker<T> + Copy>(rows: &mut Vec<T>, key: K)
    ensures { rows.new.items ≡ filter (λ row. not (K.picks key row)) rows.old.items }
{
    rows.retain(|row| !key.picks(row));
}
