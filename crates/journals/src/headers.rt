// The header that a file begins with.
ghost use Rattle.std.specs.Prelude.{◌≡◌, ◌≤◌, length};
ghost use Rattle.journals.specs.Files.{header_image};
ghost use Rattle.journals.specs.Headers.{header_in};

use crate::bytes::{bytes_at, put_number};

pub const HEADER_BYTES: usize = 32;

#[derive(Clone, Copy)]
pub(crate) struct Header {
    // How many records there are,
    pub count: u32,
    // where they end,
    pub end: u32,
    // the fences of all ledgers, a bit for each,
    pub fences: u32,
    // and the size of the file.
    pub size: u32,
}

impl Header {
    // The header of a file.
    #[tactic(auto, using(crate::proofs::Words::word4), unfolding(crate::specs::Headers::header_in))]
    pub(crate) fn read(file: &[u8]) -> Header
        requires { 32 ≤ length file.now }
        ensures { result ≡ header_in file.now }
    {
        Header {
            count: u32::from_le_bytes(bytes_at(file, 0)),
            end: u32::from_le_bytes(bytes_at(file, 4)),
            fences: u32::from_le_bytes(bytes_at(file, 8)),
            size: u32::from_le_bytes(bytes_at(file, 12)),
        }
    }

    // The bytes that a file with this header begins with.
    #[tactic(auto, unfolding(crate::specs::Files::header_image))]
    pub(crate) fn to_bytes(self) -> [u8; HEADER_BYTES]
        ensures { result ≡ header_image self.count self.end self.fences self.size }
    {
        let mut bytes = [0; HEADER_BYTES];
        put_number(&mut bytes, 0, self.count);
        put_number(&mut bytes, 4, self.end);
        put_number(&mut bytes, 8, self.fences);
        put_number(&mut bytes, 12, self.size);
        bytes
    }
}
