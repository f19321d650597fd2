// Prints the listing of a plan over a volume: `titles.plan` over `titles.vol`.
//
// `specs/Printed.antt` says what is printed. A turn gives a part of it in a buffer, by a listing
// call into a page. The parts that are written and those still to come are together the whole
// (`specs/Demands.antt`). What is here opens, reads, calls and writes.
#![tactic(auto)]

ghost use Rattle.lister.specs.Turns.{Due};

mod files;
mod pages;
mod text;

use files::{PLAN_BYTES, read_file};
use pages::{Start, TEXT, VOLUME, turn_text};
use std::io;

// Writes the text of the turn that starts there; no other text may be handed to it.
fn write_turn(
    rt: &impl Print,
    volume: &[u8],
    file: &[u8],
    start: Start,
    text: &[u8],
) -> io::Result<()>
    requires { Due volume.now file.now start.doc start.tally text.now }
{
    rt.write_all(text)
}

// Writes the text of each turn, until nothing is left or a write fails.
fn print(rt: &impl Print, volume: &[u8], file: &[u8]) -> io::Result<()> {
    let mut text = [0u8; TEXT];
    let mut start = Start { doc: 0, tally: 0 };
    loop {
        let turn = turn_text(volume, file, start, &mut text);
        write_turn(rt, volume, file, start, &text[..turn.bytes])?;
        let Some(next) = turn.next else {
            return Ok(());
        };
        start = next;
    }
}

fn main(rt: HostRuntime) -> io::Result<()> {
    // One byte more than the longest file in order, so that a longer one is seen to be longer.
    let mut volume = [0u8; VOLUME + 1];
    let n = read_file(&rt, b"titles.vol", &mut volume);
    let mut file = [0u8; PLAN_BYTES + 1];
    let m = read_file(&rt, b"titles.plan", &mut file);
    print(&rt, &volume[..n], &file[..m])
}
