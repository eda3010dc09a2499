//! Words that stand for values, in tables.

ghost use Rattle.std.specs.Prelude.{◌≡◌};
ghost use Rattle.std.specs.Map.{lookup};
ghost use Rattle.std.specs.Str.{bytes_eq, str_eq_ignore_ascii_case};

/// The value that the word stands for in the table.
///
/// # Proved
///
/// - It is that of the first row with the word, and there is none where no row has it (also `value_named_in_any_case`).
pub fn value_named<V: Copy>(table: &[(&[u8], V)], word: &[u8]) -> Option<V>
    ensures { result ≡ lookup (λ name. bytes_eq name.now word.now) table.now }
{
    table.iter().find(|row| row.0 == word).map(|row| row.1)
}

/// The value that the word stands for in the table, be its letters large or small.
pub fn value_named_in_any_case<V: Copy>(table: &[(&[u8], V)], word: &[u8]) -> Option<V>
    ensures { result ≡ lookup (λ name. str_eq_ignore_ascii_case name.now word.now) table.now }
{
    table
        .iter()
        .find(|row| row.0.eq_ignore_ascii_case(word))
        .map(|row| row.1)
}
