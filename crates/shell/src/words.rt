//! Tables of words.

ghost use Rattle.std.specs.Prelude.{◌≡◌, map};
ghost use Rattle.std.specs.Str.{str_eq_ignore_ascii_case};
ghost use Rattle.shell.specs.Commands as spec;

/// Whether two words are the same except for the case of the ASCII letters.
pub fn is_same(a: &[u8], b: &[u8]) -> bool
    ensures { result ≡ str_eq_ignore_ascii_case a.now b.now }
{
    a.eq_ignore_ascii_case(b)
}

/// What a table has beside a word, in letters of any case.
pub fn lookup<T: Copy>(table: &[(&[u8], T)], word: &[u8]) -> Option<T>
    ensures { result ≡ spec.in_table (map (λ k. (k.0.now, k.1)) table.now) word.now }
{
    let mut table = table;
    'entries: while let [entry, rest @ ..] = table {
        if is_same(entry.0, word) {
            return Some(entry.1);
        }
        table = rest;
    }
    None
}
