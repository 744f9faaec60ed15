// The text of a printed line, written from its end on.
ghost use Rattle.std.specs.Prelude.{◌≡◌, ◌≤◌, length};

use crate::printing::OUTPUT_BYTES;

// It lies at the end of a room in memory of its own, so that nothing is allocated for it. Each piece is put in front of the others, since
// that is how the digits of a number come: so no piece is made elsewhere and copied. In an `ArrayString`, to which each piece is
// copied, a script of short lines took two fifths more instructions.
#[derive(Drop)]
pub(crate) struct PrintedLine {
    room: [u8; OUTPUT_BYTES],
    // Where it begins.
    start: usize,
    ghost whole: { length room ≡ 128 },
    ghost within: { start ≤ 128 },
}

pub mod pieces;
