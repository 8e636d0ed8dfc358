//! Tables of words and of what each of them means.
ghost use Rattle.std.specs.Prelude.{◌≡◌, bytes_eq};
ghost use Rattle.gm_parse.specs.inner.Tables.{meaning_of_first};

/// What the table says of the word, and `other` where it says nothing.
pub fn meaning_or<T: Copy>(table: &[(&[u8], T)], word: &[u8], other: T) -> T
    ensures { result ≡ meaning_of_first (λ entry. bytes_eq word.now entry.0.now) (λ entry. entry.1) other table.now }
{
    for (name, meaning) in table {
        if word == *name {
            return *meaning;
        }
    }
    other
}
