ghost use Rattle.std.specs.Prelude.{◌≡◌, ℕ, IfSome, None, map};
ghost use Rattle.ix_model.specs.Answers.CommandLine.{IsCount, IsWorkers};

/// The number of the word, where it is of at most so many decimal digits and lies between 1 and `most`.
pub(crate) fn count(word: &str, figures: usize, most: u32) -> Option<u32>
    ensures some { IfSome result (λ n. IsCount figures most word.now n) }
    ensures none { result ≡ None → (n : ℕ) → ¬ (IsCount figures most word.now n) }
{
    // A leading `+` is no digit here, and `parse` would take it.
    if word.len() > figures || word.as_bytes().first() == Some(&b'+') {
        return None;
    }
    match word.parse::<u32>() {
        Ok(n) if 1 <= n && n <= most => Some(n),
        _ => None,
    }
}

/// The number of workers that the values of `--workers` name, 2 where there are none.
pub(crate) fn workers(values: &[&str]) -> Option<u32>
    ensures some { IfSome result (λ n. IsWorkers (map (λ value. value.now) values.now) n) }
    ensures none { result ≡ None → (n : ℕ) → ¬ (IsWorkers (map (λ value. value.now) values.now) n) }
{
    match values {
        [] => Some(2),
        [value] => count(value, 3, 64),
        _ => None,
    }
}
