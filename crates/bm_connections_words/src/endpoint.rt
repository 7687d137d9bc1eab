//! Addresses with ports.
ghost use Rattle.std.specs.Prelude.{◌≡◌};
ghost use Rattle.std.specs.Char.{is_ascii_digit};
ghost use Rattle.std.specs.List.{list_all};
ghost use Rattle.bm_connections_words.specs.Options as spec;

/// Whether the word is an address with a port: digits and dots, a colon, and digits.
pub(crate) fn is_endpoint(word: &str) -> bool
    ensures { result ≡ spec.is_endpoint word.now }
{
    match word.split_once(':') {
        Some((address, port)) => is_address(address.as_bytes()) && is_port(port.as_bytes()),
        None => false,
    }
}

fn is_address(octets: &[u8]) -> bool
    ensures { result ≡ spec.is_address octets.now }
{
    match octets {
        [] => false,
        [_, ..] => are_of_address(octets),
    }
}

fn are_of_address(octets: &[u8]) -> bool
    ensures { result ≡ list_all spec.is_of_address octets.now }
{
    octets.iter().all(|octet| is_of_address(*octet))
}

fn is_of_address(octet: u8) -> bool
    ensures { result ≡ spec.is_of_address octet }
{
    octet.is_ascii_digit() || octet == b'.'
}

fn is_port(octets: &[u8]) -> bool
    ensures { result ≡ spec.is_port octets.now }
{
    match octets {
        [] => false,
        [_, ..] => are_digits(octets),
    }
}

/// Whether all of these are decimal digits.
pub(crate) fn are_digits(octets: &[u8]) -> bool
    ensures { result ≡ list_all is_ascii_digit octets.now }
{
    octets.iter().all(|octet| octet.is_ascii_digit())
}
