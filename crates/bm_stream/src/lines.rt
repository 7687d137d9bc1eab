//! The line of a stream.
ghost use Rattle.std.specs.Prelude.{◌≡◌, ◌++◌, OnErr, OnOk, Some, string_bytes};
ghost use Rattle.bm_stream.specs.Inside.Lines.{received_line};
ghost use Rattle.bm_stream.specs.Text as text;

use bm_base::{Flow, Memory, Moment, ServerId};
use bm_trace::Endpoint;
use std::alloc::AllocError;
use std::fmt;

/// What an accepted connection received: how many octets, their FNV-1a number, and whether they
/// reach the FIN.
#[derive(Clone, Copy)]
pub(crate) struct Received {
    /// When it was accepted.
    pub(crate) clock: Moment,
    pub(crate) server: ServerId,
    pub(crate) flow: Flow,
    pub(crate) octets: u64,
    pub(crate) hash: u64,
    pub(crate) ended: bool,
}

/// An octet in two digits of base 16.
#[derive(Clone, Copy)]
struct HexOctet(u8);

impl fmt::Display for HexOctet {
    ghost output = { λ octet. Some (text.hex_octet octet.0) };

    fn fmt<W: fmt::Write>(&self, f: &mut fmt::Formatter<W>) -> fmt::Result {
        let octet = self.0;
        write!(f, "{octet:02x}")
    }
}

/// A number in 16 digits of base 16.
#[derive(Clone, Copy)]
struct HexWord(u64);

#[tactic(auto, unfolding(crate::specs::Text::hex_word))]
impl fmt::Display for HexWord {
    ghost output = { λ word. Some (text.hex_word word.0) };

    fn fmt<W: fmt::Write>(&self, f: &mut fmt::Formatter<W>) -> fmt::Result {
        let [a, b, c, d, e, g, h, i] = self.0.to_be_bytes().map(HexOctet);
        write!(f, "{a}{b}{c}{d}{e}{g}{h}{i}")
    }
}

fn end_word(ended: bool) -> &'static str
    ensures { result.now ≡ text.end_word ended }
{
    if ended { "ended" } else { "open" }
}

/// Writes the line of what a connection received.
#[tactic(auto, unfolding(crate::specs::Text::stream_line))]
fn write_line(line: &mut String, received: &Received) -> Result<(), AllocError>
    ensures { OnOk result
        (string_bytes line.new ≡ string_bytes line.old ++ received_line (Some received.now)) }
{
    let clock = received.clock.0;
    let server = received.server.0;
    let client = Endpoint {
        addr: received.flow.src,
        port: received.flow.sport,
    };
    let service = Endpoint {
        addr: received.flow.dst,
        port: received.flow.dport,
    };
    let octets = received.octets;
    let hash = HexWord(received.hash);
    let end = end_word(received.ended);
    writeln!(
        line,
        "stream {clock} {server} {client} {service} octets {octets} {hash} {end}"
    )
}

/// Appends the line of what a connection received, if there is one. The line is put together in
/// `line`.
pub(crate) fn append_line(
    out: &mut Vec<u8>,
    line: &mut String,
    received: Option<Received>,
) -> Result<(), Memory>
    ensures ok { OnOk result (out.new.items ≡ out.old.items ++ received_line received) }
    ensures err { OnErr result (out.new.items ≡ out.old.items) }
{
    let Some(received) = received else {
        return Ok(());
    };
    line.clear();
    write_line(line, &received)?;
    out.extend_from_slice(line.as_bytes())?;
    Ok(())
}
