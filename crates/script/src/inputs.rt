// A whole input: any bytes, cut into lines that are played one after the other.
ghost use Rattle.std.specs.Prelude.{IfOk};
ghost use Rattle.script.specs.Inputs.{LinesPlayed, InputPlayed};

use crate::players::Player;
use crate::printed::PrintedLine;
use std::alloc::{AllocError, Global};

// A longer input is not played.
pub const MAX_INPUT: usize = 32768;

// All that was printed for an input, and the counts of its lines.
#[derive(Drop)]
pub struct Played {
    pub output: Vec<u8>,
    pub lines: u64,
    pub refused: u64,
}

// Plays an input from its first line to its last. Only want of memory keeps it from an answer.
pub fn play_input(heap: Global, input: &[u8]) -> Result<Played, AllocError>
    ensures { IfOk result (InputPlayed input.now) }
{
    let mut output = Vec::new(heap);
    if input.len() > MAX_INPUT {
        output.extend_from_slice(b"! long\n")?;
        return Ok(Played {
            output,
            lines: 0,
            refused: 0,
        });
    }
    let player = play_lines(&mut output, input)?;
    Ok(Played {
        output,
        lines: player.lines,
        refused: player.refused,
    })
}

// Plays each line of the input, and appends what is printed for them and at the end.
fn play_lines(output: &mut Vec<u8>, input: &[u8]) -> Result<Player, AllocError>
    ensures { IfOk result (LinesPlayed output.old.items input.now output.new.items) }
{
    let mut player = Player::new();
    let mut text = PrintedLine::new();
    for line in input.split_inclusive(|byte| *byte == b'\n') {
        player.play(line, &mut text);
        output.extend_from_slice(text.as_slice())?;
    }
    player.totals(&mut text);
    output.extend_from_slice(text.as_slice())?;
    Ok(player)
}
