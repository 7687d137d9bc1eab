//! Numbers of connections.
ghost use Rattle.std.specs.Prelude.{◌≡◌, ◌≤◌, IfSome};
ghost use Rattle.std.specs.Char.{is_ascii_digit};
ghost use Rattle.std.specs.List.{list_all};
ghost use Rattle.bm_words.specs.Form.{count_of, if_count, is_numeral};

/// The number of connections in the word: 1 to 20,000, in decimal without a sign or a leading zero.
#[tactic(auto, unfolding(crate::specs::Form::count_of))]
pub(crate) fn count_in(word: &str) -> Option<u32>
    ensures count { result ≡ count_of word.now }
    ensures range { IfSome result (λ n. (1 ≤ n) × (n ≤ 20000)) }
{
    if !is_numeral(word.as_bytes()) {
        return None;
    }
    match word.parse::<u32>() {
        Ok(n) => if_count(n),
        // The number is too large for its type.
        Err(_) => None,
    }
}

/// The number, if it is 1 to 20,000.
fn if_count(n: u32) -> Option<u32>
    ensures count { result ≡ if_count n }
    ensures range { IfSome result (λ n. (1 ≤ n) × (n ≤ 20000)) }
{
    if (1..=20_000).contains(&n) {
        Some(n)
    } else {
        None
    }
}

/// Whether these are decimal digits, and the first isn't 0.
fn is_numeral(octets: &[u8]) -> bool
    ensures { result ≡ is_numeral octets.now }
{
    match octets {
        [] => false,
        [first, ..] => *first != b'0' && are_digits(octets),
    }
}

fn are_digits(octets: &[u8]) -> bool
    ensures { result ≡ list_all is_ascii_digit octets.now }
{
    octets.iter().all(|octet| octet.is_ascii_digit())
}
