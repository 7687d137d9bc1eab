//! Captures, built from their packets.
use std::alloc::{AllocError, Global};

/// What a packet is.
#[derive(Clone, Copy)]
pub(crate) enum Kind {
    /// A SYN.
    Syn,
    /// Ten octets of data.
    Data,
    /// A FIN.
    Fin,
    /// A reset.
    Rst,
    /// These octets of data.
    Text(&'static [u8]),
}

/// A TCP packet from 10.0.0.1 to 192.0.2.1 port 80: seconds and parts of a second from the first
/// record on, source port, sequence number, and what it is.
#[derive(Clone, Copy)]
pub(crate) struct Packet(pub u32, pub u32, pub u16, pub u32, pub Kind);

/// A SYN and, a part of a second later, data.
pub(crate) const OPENED: &'static [Packet] = &[
    Packet(0, 0, 1000, 100, Kind::Syn),
    Packet(0, 1, 1000, 101, Kind::Data),
];

/// The unit and the order of octets of a capture's numbers.
#[derive(Clone, Copy)]
pub(crate) enum Form {
    /// Microseconds, little endian.
    Micro,
    /// Nanoseconds, little endian.
    Nano,
    /// Microseconds, big endian.
    Turned,
}

/// These pieces, one after another.
fn joined(alloc: Global, pieces: &[&[u8]]) -> Result<Vec<u8>, AllocError> {
    pieces.concat(alloc)
}

/// Appends these pieces, one after another.
fn append(octets: &mut Vec<u8>, pieces: &[&[u8]]) -> Result<(), AllocError> {
    for piece in pieces {
        octets.extend_from_slice(piece)?;
    }
    Ok(())
}

/// How many octets these are.
fn count(octets: &[u8]) -> u32 {
    u32::try_from(octets.len()).unwrap_or(0)
}

/// A number in the order of octets of this form.
fn number(form: Form, number: u32) -> [u8; 4] {
    match form {
        Form::Turned => number.to_be_bytes(),
        _ => number.to_le_bytes(),
    }
}

/// A capture of raw IP packets.
pub(crate) fn raw(alloc: Global, form: Form, packets: &[Packet]) -> Result<Vec<u8>, AllocError> {
    let mut octets = header(alloc, form, 101)?;
    for packet in packets {
        append_record(alloc, &mut octets, form, packet)?;
    }
    Ok(octets)
}

/// Appends the record of a packet.
fn append_record(
    alloc: Global,
    octets: &mut Vec<u8>,
    form: Form,
    packet: &Packet,
) -> Result<(), AllocError> {
    let network = network(alloc, packet, 1, 0x4000)?;
    record(octets, form, (packet.0, packet.1), &network)
}

/// What follows a frame's two addresses: what says its type, and its packet.
struct Frame(&'static [u8], Inside);

/// What a frame carries.
enum Inside {
    /// This many zeros.
    Zeros(usize),
    /// A SYN to 192.0.2.`.0`, with this word of flags and fragment offset.
    Opening(u8, u16),
    /// Data, with a length that the network card fills in.
    Offloaded,
}

/// ARP, IPv6, a fragment, another destination, a VLAN tag, and a length that the network card fills
/// in.
static FRAMES: [Frame; 6] = [
    Frame(b"\x08\x06", Inside::Zeros(28)),
    Frame(b"\x86\xdd\x60", Inside::Zeros(39)),
    Frame(b"\x08\x00", Inside::Opening(1, 0x2000)),
    Frame(b"\x08\x00", Inside::Opening(9, 0x4000)),
    Frame(b"\x81\x00\x00\x07\x08\x00", Inside::Opening(1, 0x4000)),
    Frame(b"\x08\x00", Inside::Offloaded),
];

/// A capture of these Ethernet frames, a microsecond apart, and of a record cut short.
pub(crate) fn ethernet(alloc: Global) -> Result<Vec<u8>, AllocError> {
    let mut octets = header(alloc, Form::Micro, 1)?;
    let mut micros: u32 = 0;
    for row in &FRAMES {
        let packet = contents(alloc, &row.1)?;
        append_frame(alloc, &mut octets, micros, row.0, &packet)?;
        micros = micros.saturating_add(1);
    }
    octets.extend_from_slice(&[0; 9])?;
    Ok(octets)
}

/// The octets of what a frame carries.
fn contents(alloc: Global, inside: &Inside) -> Result<Vec<u8>, AllocError> {
    let syn = Packet(0, 0, 1000, 100, Kind::Syn);
    match *inside {
        Inside::Zeros(count) => vec![in alloc; 0; count],
        Inside::Opening(to, fragment) => network(alloc, &syn, to, fragment),
        Inside::Offloaded => tcp(
            alloc,
            (0, 0x4000),
            &[10, 0, 0, 1, 192, 0, 2, 1, 3, 232, 0, 80],
            (101, 501),
            0x18,
            b"abcdefghij",
        ),
    }
}

/// A segment of a session: microseconds, whether the client sent it, its sequence number, its
/// acknowledgment, its flags, and how many octets of data it has.
struct Sent(u32, bool, u32, u32, u8, u8);

/// A usual session from 10.0.0.1 port 1002 to the service, with pauses of some milliseconds.
static SESSION: [Sent; 12] = [
    Sent(0, true, 1000, 0, 0x02, 0),
    Sent(400, false, 500, 1001, 0x12, 0),
    Sent(800, true, 1001, 501, 0x10, 0),
    Sent(1000, true, 1001, 501, 0x18, 100),
    Sent(1500, false, 501, 1101, 0x10, 0),
    Sent(2500, false, 501, 1101, 0x18, 200),
    Sent(3500, true, 1101, 501, 0x10, 0),
    Sent(6000, true, 1101, 501, 0x18, 50),
    Sent(6500, false, 701, 1151, 0x18, 80),
    Sent(7000, true, 1151, 501, 0x10, 0),
    Sent(7500, false, 781, 1151, 0x11, 0),
    Sent(8000, true, 1151, 501, 0x11, 0),
];

/// A capture of a session's Ethernet frames, without checksums: 1,294 octets.
pub(crate) fn session(alloc: Global) -> Result<Vec<u8>, AllocError> {
    let mut octets = header(alloc, Form::Micro, 1)?;
    for sent in &SESSION {
        let packet = packet_of(alloc, sent)?;
        append_frame(alloc, &mut octets, sent.0, b"\x08\x00", &packet)?;
    }
    Ok(octets)
}

/// The data of a session's segments.
static ZEROS: [u8; 200] = [0; 200];

/// The IPv4 packet of a session's segment.
fn packet_of(alloc: Global, sent: &Sent) -> Result<Vec<u8>, AllocError> {
    let Sent(_, by_client, seq, ack, flags, len) = *sent;
    let ends = if by_client {
        [10, 0, 0, 1, 192, 0, 2, 1, 3, 234, 0, 80]
    } else {
        [192, 0, 2, 1, 10, 0, 0, 1, 0, 80, 3, 234]
    };
    let data = ZEROS.get(..usize::from(len)).unwrap_or(&[]);
    let length = length_with(data);
    tcp(alloc, (length, 0x4000), &ends, (seq, ack), flags, data)
}

/// A capture of the pcapng form: one interface of raw IP with these options, and these packets,
/// whose times are their parts of a second.
pub(crate) fn blocks(
    alloc: Global,
    options: &[u8],
    packets: &[Packet],
) -> Result<Vec<u8>, AllocError> {
    let mut octets = front(alloc, options)?;
    for packet in packets {
        append_enhanced(alloc, &mut octets, packet)?;
    }
    Ok(octets)
}

/// The block of a section, and that of an interface of raw IP with these options.
fn front(alloc: Global, options: &[u8]) -> Result<Vec<u8>, AllocError> {
    let length = count(options).saturating_add(20).to_le_bytes();
    joined(
        alloc,
        &[
            b"\x0a\x0d\x0d\x0a\x1c\x00\x00\x00",
            b"\x4d\x3c\x2b\x1a\x01\x00\x00\x00\xff\xff\xff\xff\xff\xff\xff\xff",
            b"\x1c\x00\x00\x00",
            b"\x01\x00\x00\x00",
            &length,
            b"\x65\x00\x00\x00\x00\x00\x04\x00",
            options,
            &length,
        ],
    )
}

/// What follows a packet of this even size in its block.
fn padding(size: u32) -> &'static [u8] {
    if size % 4 == 0 { b"" } else { b"\x00\x00" }
}

/// Appends the block of an enhanced packet of interface 0.
fn append_enhanced(alloc: Global, octets: &mut Vec<u8>, packet: &Packet) -> Result<(), AllocError> {
    let network = network(alloc, packet, 1, 0x4000)?;
    let size = count(&network);
    let padding = padding(size);
    let length = size.saturating_add(count(padding)).saturating_add(32);
    append(
        octets,
        &[
            b"\x06\x00\x00\x00",
            &length.to_le_bytes(),
            &[0; 8],
            &packet.1.to_le_bytes(),
            &size.to_le_bytes(),
            &size.to_le_bytes(),
            &network,
            padding,
            &length.to_le_bytes(),
        ],
    )
}

/// The header of a capture of this link type.
fn header(alloc: Global, form: Form, link: u32) -> Result<Vec<u8>, AllocError> {
    let magic: u32 = match form {
        Form::Nano => 0xa1b2_3c4d,
        _ => 0xa1b2_c3d4,
    };
    let version = match form {
        Form::Turned => [0, 2, 0, 4],
        _ => [2, 0, 4, 0],
    };
    joined(
        alloc,
        &[
            &number(form, magic),
            &version,
            &[0; 8],
            &number(form, 65_535),
            &number(form, link),
        ],
    )
}

/// Appends a record of this moment with these octets.
fn record(octets: &mut Vec<u8>, form: Form, at: (u32, u32), body: &[u8]) -> Result<(), AllocError> {
    let length = number(form, count(body));
    append(
        octets,
        &[
            &number(form, at.0),
            &number(form, at.1),
            &length,
            &length,
            body,
        ],
    )
}

/// Appends a record with an Ethernet frame, `micros` microseconds after the first.
fn append_frame(
    alloc: Global,
    octets: &mut Vec<u8>,
    micros: u32,
    kind: &[u8],
    network: &[u8],
) -> Result<(), AllocError> {
    let addresses = b"\x02\x00\x00\x00\x00\x01\x02\x00\x00\x00\x00\x02";
    let body = joined(alloc, &[addresses, kind, network])?;
    record(octets, Form::Micro, (0, micros), &body)
}

/// The IPv4 packet of a TCP packet, to 192.0.2.`to`, with this word of flags and fragment offset.
fn network(alloc: Global, packet: &Packet, to: u8, fragment: u16) -> Result<Vec<u8>, AllocError> {
    let Packet(_, _, port, seq, kind) = *packet;
    let (flags, ack, data): (u8, u32, &[u8]) = match kind {
        Kind::Syn => (0x02, 0, b""),
        Kind::Data => (0x18, 501, b"abcdefghij"),
        Kind::Fin => (0x11, 501, b""),
        Kind::Rst => (0x04, 0, b""),
        Kind::Text(text) => (0x18, 501, text),
    };
    let [high, low] = port.to_be_bytes();
    let ends = [10, 0, 0, 1, 192, 0, 2, to, high, low, 0, 80];
    let length = length_with(data);
    tcp(alloc, (length, fragment), &ends, (seq, ack), flags, data)
}

/// The length of a packet with these octets of data.
fn length_with(data: &[u8]) -> u16 {
    u16::try_from(data.len()).unwrap_or(0).saturating_add(40)
}

/// A TCP packet over IPv4, without checksums: its length, its word of flags and fragment offset, its
/// addresses and ports, its sequence number and acknowledgment, its flags, and its data.
fn tcp(
    alloc: Global,
    (length, fragment): (u16, u16),
    ends: &[u8; 12],
    (seq, ack): (u32, u32),
    flags: u8,
    data: &[u8],
) -> Result<Vec<u8>, AllocError> {
    joined(
        alloc,
        &[
            &[0x45, 0],
            &length.to_be_bytes(),
            &[0, 0],
            &fragment.to_be_bytes(),
            &[64, 6, 0, 0],
            ends,
            &seq.to_be_bytes(),
            &ack.to_be_bytes(),
            &[0x50, flags, 255, 255, 0, 0, 0, 0],
            data,
        ],
    )
}
