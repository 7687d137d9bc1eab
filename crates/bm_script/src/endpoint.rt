//! Addresses with a port, as texts.
ghost use Rattle.std.specs.Prelude.{◌≡◌, ◌≤◌, IfSome, option_map};
ghost use Rattle.bm_script.specs.Values as values;

/// An address and a port.
#[derive(Clone, Copy, PartialEq, Eq)]
pub(crate) struct Endpoint {
    pub(crate) addr: u32,
    pub(crate) port: u16,
}

/// The address and the port in `A.B.C.D:PORT`.
pub(crate) fn read_endpoint(text: &[u8]) -> Option<Endpoint>
    ensures { result ≡ values.endpoint text.now }
{
    let (a, text) = octet_before(text, b'.')?;
    let (b, text) = octet_before(text, b'.')?;
    let (c, text) = octet_before(text, b'.')?;
    let (d, text) = octet_before(text, b':')?;
    let port = decimal_number(text, 65_535)?;
    Some(Endpoint {
        addr: ((a * 256 + b) * 256 + c) * 256 + d,
        port: port as u16,
    })
}

/// The number of an octet before a mark, and the text after the mark.
fn octet_before(text: &[u8], mark: u8) -> Option<(u32, &[u8])>
    ensures gives { option_map (λ p. (p.0, p.1.now)) result ≡ values.octet_before mark text.now }
    ensures within { IfSome result (λ p. p.0 ≤ 255) }
{
    let (front, rest) = parted(text, mark)?;
    let n = decimal_number(front, 255)?;
    Some((n, rest))
}

/// The text before the first such octet, and the text after it.
fn parted(text: &[u8], mark: u8) -> Option<(&[u8], &[u8])>
    ensures { option_map (λ p. (p.0.now, p.1.now)) result ≡ values.parted mark text.now }
{
    for at in 0..text.len() {
        if text[at] == mark {
            return Some((&text[..at], &text[at + 1..]));
        }
    }
    None
}

/// A number of at most `high`, in decimal digits.
fn decimal_number(text: &[u8], high: u32) -> Option<u32>
    requires { high ≤ 65535 }
    ensures gives { result ≡ values.decimal_number high text.now }
    ensures within { IfSome result (λ n. n ≤ high) }
{
    if is_plain(text) {
        digits(text, high)
    } else {
        None
    }
}

/// Whether the text isn't empty, and has no leading 0 before other digits.
fn is_plain(text: &[u8]) -> bool
    ensures { result ≡ values.is_plain text.now }
{
    match text {
        [] => false,
        [_] => true,
        [first, ..] => *first != b'0',
    }
}

/// The number that the digits write, if it is at most `high`.
fn digits(text: &[u8], high: u32) -> Option<u32>
    requires { high ≤ 65535 }
    ensures gives { result ≡ values.digits high 0 text.now }
    ensures within { IfSome result (λ n. n ≤ high) }
{
    let mut n = 0;
    for c in text {
        if *c < b'0' || *c > b'9' {
            return None;
        }
        n = n * 10 + u32::from(*c - b'0');
        if n > high {
            return None;
        }
    }
    Some(n)
}
