//! The number that a word says.
ghost use Rattle.std.specs.Prelude.{◌≡◌, ◌≢◌, ◌≤◌, false, IsTrue, IfSome, length, slice_index};
ghost use Rattle.match_script.specs.Words.{is_number};
ghost use Rattle.commands.specs.Said.{number_said};

// Whether digits that begin so have no sign and no leading zero.
fn begins_plainly(word: &[u8]) -> bool
    ensures plain { IsTrue result → (slice_index word.now 0 ≢ 43) × (slice_index word.now 0 ≡ 48 → length word.now ≡ 1) }
    ensures other { result ≡ false → is_number word.now ≡ false }
{
    match word {
        [b'+', ..] => false,
        [b'0', _, ..] => false,
        _ => true,
    }
}

/// The number in this range that a word says.
pub(crate) fn number(word: &str, least: u32, most: u32) -> Option<u32>
    ensures said { result ≡ number_said least most word.now }
    ensures least { IfSome result (λ n. least ≤ n) }
    ensures most { IfSome result (λ n. n ≤ most) }
{
    if !begins_plainly(word.as_bytes()) {
        return None;
    }
    match word.parse::<u32>() {
        Ok(n) => {
            if least <= n && n <= most {
                Some(n)
            } else {
                None
            }
        }
        Err(_) => None,
    }
}
