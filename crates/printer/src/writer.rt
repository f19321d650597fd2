// The call that writes a plan as a line.
ghost use Rattle.std.specs.Prelude.{◌≡◌, List, ℕ, length};
ghost use Rattle.plan.specs.Check.{Accepted};
ghost use Rattle.printer.specs.Answers.{said_written};
ghost use Rattle.printer.specs.Write.{write_answer, write_out};
ghost use Rattle.printer.specs.Inner.Trees.{LineWritten};

use super::answers::WriteError;
use super::bytes::Text;
use super::trees::{Level, put_tree};

// No line of an accepted plan has more bytes.
const MOST_BYTES: usize = 2048;

// The line of an accepted plan. The first pass counts its bytes.
fn write_line(plan: &[u32], out: &mut [u8]) -> Result<u32, WriteError>
    requires { (v : List ℕ) × Accepted v plan.now }
    ensures { LineWritten plan.now out.old result out.new }
{
    let last = plan.len() / 4 - 1;
    let mut counted = Text {
        out: &mut [],
        at: MOST_BYTES,
    };
    put_tree(plan, last, Level::Line, &mut counted);
    let bytes = MOST_BYTES - counted.at;
    if out.len() < bytes {
        return Err(WriteError::Short);
    }
    let mut text = Text { out, at: bytes };
    put_tree(plan, last, Level::Line, &mut text);
    Ok(bytes as u32)
}

// Writes a plan as its line, to the front of `out`.
pub fn write(volume: &[u8], plan: &[u32], out: &mut [u8]) -> Result<u32, WriteError>
    ensures result_value { said_written result
        ≡ write_answer volume.now plan.now (length out.old) }
    ensures out_after { out.new
        ≡ write_out volume.now plan.now out.old }
{
    plan::check(volume, plan)?;
    write_line(plan, out)
}
