// Numbers and records as bytes, the lowest byte of a number first.
ghost use Rattle.std.specs.Prelude.{◌≡◌, ◌+◌, ◌≤◌, ◌++◌, length, take, drop};
ghost use Rattle.journals.specs.Numbers.{bytes4};
ghost use Rattle.journals.specs.Records.{record_image, record_of};

use ledgers::bodies::{Body, MAX_BODY};
use ledgers::ids::{EntryId, Lac, LedgerId};
use messages::entries::Held;

pub const RECORD_BYTES: usize = 52;

// The N bytes from a place on.
pub(crate) fn bytes_at<const N: usize>(bytes: &[u8], at: usize) -> [u8; N]
    requires { at + N ≤ length bytes.now }
    ensures { result ≡ take N (drop at bytes.now) }
{
    let mut part = [0; N];
    part.copy_from_slice(&bytes[at..at + N]);
    part
}

// Writes a number in four bytes.
pub(crate) fn put_number(bytes: &mut [u8], at: usize, number: u32)
    requires { at + 4 ≤ length bytes.old }
    ensures { bytes.new ≡ take at bytes.old ++ (bytes4 number ++ drop (at + 4) bytes.old) }
{
    bytes[at..at + 4].copy_from_slice(&number.to_le_bytes());
}

// The record of an entry.
pub(crate) fn image(held: &Held) -> [u8; RECORD_BYTES]
    ensures { result ≡ record_image held.now }
{
    let body = held.body.as_slice();
    let mut bytes = [0; RECORD_BYTES];
    bytes[0..2].copy_from_slice(&held.ledger.0.to_le_bytes()[0..2]);
    bytes[2..4].copy_from_slice(&(body.len() as u16).to_le_bytes());
    put_number(&mut bytes, 4, held.entry.0);
    put_number(&mut bytes, 8, held.lac.0);
    bytes[12..12 + body.len()].copy_from_slice(body);
    bytes
}

// The entry in a record.
pub(crate) fn record_in(bytes: &[u8; RECORD_BYTES]) -> Held
    ensures { result ≡ record_of bytes.now }
{
    let length = u16::from_le_bytes(bytes_at(bytes, 2)) as usize;
    let Some(body) = Body::new(&bytes[12..12 + MAX_BODY.min(length)]) else {
        unreachable()
    };
    Held {
        ledger: LedgerId(u32::from(u16::from_le_bytes(bytes_at(bytes, 0)))),
        entry: EntryId(u32::from_le_bytes(bytes_at(bytes, 4))),
        lac: Lac(u32::from_le_bytes(bytes_at(bytes, 8))),
        body,
    }
}
