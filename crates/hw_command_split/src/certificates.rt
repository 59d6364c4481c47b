//! Several certificates one after another in one input, as `cat` makes it.

ghost use Rattle.std.specs.Prelude.{◌≡◌, ◌≤◌, ◌<◌, IfOk, Some, codes, false, length};
ghost use Rattle.hw_desk.specs.Calm.{calm_state};
ghost use Rattle.hw_desk.specs.State.{IsNewDesk};
ghost use Rattle.hw_desk.specs.declared.desk.Feed.TheVariants.{Certificate};
ghost use Rattle.hw_command_split.specs.Certs.{CertAnswer, CertsAnswer, EndsFirst, ReadsCerts, lines_in, moved_stop, stop_of_read};

use hw_cert::{Line, Version};
use hw_command::{CertOutcome, CertStop, ReadCert, read_cert, shows_nothing};
use hw_desk::{CalmDesk, Desk, Feed, NamedBytes, ReadStop, read_whole};
use hw_flat::{Flat, NoMemory};
use std::alloc::Global;

/// The most bytes of all certificates.
const MOST_BYTES: u64 = 1 << 40;

/// How the first line of a certificate begins.
const HEADER: &[u8] = b"cert ";

/// Begins the certificates under their name, reads them to their end, and checks each. The first line
/// that isn't taken has its number in the whole input.
pub(crate) fn read_certs<D: Desk>(
    alloc: Global,
    desk: &mut D,
    flat: &Flat,
    name: &str,
) -> Result<Vec<Vec<Line>>, Result<CertOutcome, CertStop>>
    requires unread { ((D.state desk.old).feeds Certificate).begun ≡ false }
    ensures { ReadsCerts flat.now name.now (D.state desk.old) (D.state desk.new) result }
{
    if desk.begin(Feed::Certificate, name).is_err() {
        return Err(Err(CertStop::Fault));
    }
    let bytes = match read_whole(alloc, desk, Feed::Certificate, MOST_BYTES) {
        Ok(bytes) => bytes,
        Err(stop) => return Err(no_bytes(stop)),
    };
    check_each(alloc, flat, &bytes)
}

/// Why there are no bytes, told as of a certificate.
fn no_bytes(stop: ReadStop) -> Result<CertOutcome, CertStop>
    ensures { result ≡ stop_of_read stop }
{
    match stop {
        ReadStop::Fault => Err(CertStop::Fault),
        ReadStop::TooLong => Ok(CertOutcome::TooLong),
        ReadStop::NoMemory => Err(CertStop::NoMemory),
    }
}

/// The lines of each certificate. The input has one at least.
fn check_each(
    alloc: Global,
    flat: &Flat,
    bytes: &[u8],
) -> Result<Vec<Vec<Line>>, Result<CertOutcome, CertStop>>
    ensures { CertsAnswer flat.now bytes.now result }
{
    let mut certs = Vec::new(alloc);
    let mut before = 0u64;
    let mut begin = 0;
    'each: loop {
        let end = begin + first_length(&bytes[begin..]);
        let cert = &bytes[begin..end];
        let lines = match check_one(alloc, flat, cert) {
            Ok(lines) => lines,
            Err(stopped) => return Err(moved_on(stopped, before)),
        };
        if certs.push(lines).is_err() {
            return Err(Err(CertStop::NoMemory));
        }
        if end == bytes.len() {
            return Ok(certs);
        }
        before += count_lines(cert);
        begin = end;
    }
}

/// How many bytes come before the header of the second certificate, or all of them.
fn first_length(bytes: &[u8]) -> usize
    ensures within { result ≤ length bytes.now }
    ensures some { 0 < length bytes.now → 0 < result }
    ensures first { EndsFirst bytes.now result }
{
    for (place, byte) in bytes.iter().enumerate() {
        if *byte == b'\n' && bytes[place + 1..].starts_with(HEADER) {
            return place + 1;
        }
    }
    bytes.len()
}

/// How many lines end in the bytes.
fn count_lines(bytes: &[u8]) -> u64
    ensures { result ≡ lines_in bytes.now }
{
    bytes.iter().filter(|byte| **byte == b'\n').count() as u64
}

/// The lines of a certificate, or its outcome where it is refused.
fn check_one(
    alloc: Global,
    flat: &Flat,
    bytes: &[u8],
) -> Result<Vec<Line>, Result<CertOutcome, CertStop>>
    ensures { CertAnswer flat.now bytes.now result }
{
    let mut desk = match desk_of(alloc, bytes) {
        Ok(desk) => desk,
        Err(_) => return Err(Err(CertStop::NoMemory)),
    };
    let lines = Vec::new(alloc);
    let ReadCert {
        outcome,
        kept: lines,
        ..
    } = match read_cert(alloc, &mut desk, flat, NAME, Version::Three, lines) {
        Ok(read) => read,
        Err(stop) => return Err(Err(stop)),
    };
    if shows_nothing(outcome) {
        return Err(Ok(outcome));
    }
    Ok(lines)
}

/// The name under which a certificate stands in memory.
const NAME: &str = "certificate";

/// A desk in memory with this certificate.
fn desk_of(alloc: Global, bytes: &[u8]) -> Result<CalmDesk, NoMemory>
    ensures fresh { IfOk result (λ desk. IsNewDesk (calm_state desk)) }
    ensures holds { IfOk result (λ desk. (calm_state desk).held (codes "certificate") ≡ Some bytes.now) }
{
    let name = String::from_str(alloc, NAME)?;
    let bytes = Vec::from_slice(alloc, bytes)?;
    let mut files = Vec::new(alloc);
    files.push(NamedBytes { name, bytes })?;
    CalmDesk::new(alloc, files)
}

/// An outcome after this many lines of other certificates.
fn moved_on(stopped: Result<CertOutcome, CertStop>, before: u64) -> Result<CertOutcome, CertStop>
    ensures { result ≡ moved_stop before stopped }
{
    match stopped {
        Ok(CertOutcome::Wrong { number, word, hint }) => Ok(CertOutcome::Wrong {
            number: number.saturating_add(before),
            word,
            hint,
        }),
        _ => stopped,
    }
}
