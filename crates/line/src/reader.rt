// The call that reads a line.
ghost use Rattle.std.specs.Prelude.{◌≡◌, length};
ghost use Rattle.line.specs.Answers.{said_read};
ghost use Rattle.line.specs.Read.{read_answer, read_out};

use super::answers::ReadError;
use super::reading::{Reached, Stop, read_rows};

// Reads a line as the rows of a plan, into the front of `out`, and gives how many words they are.
// The first pass counts the rows.
pub fn read(text: &[u8], out: &mut [u32]) -> Result<u32, ReadError>
    ensures result_value { said_read result ≡ read_answer text.now (length out.old) }
    ensures out_after { out.new ≡ read_out text.now out.old }
{
    if 2048 < text.len() {
        return Err(ReadError::Broken(2048));
    }
    let mut none = [0; 1];
    match read_rows(text, &mut none) {
        Err(Stop::Broken(q)) => Err(ReadError::Broken(q as u32)),
        Err(Stop::Deep(q)) => Err(ReadError::Deep(q as u32)),
        Ok(Reached { rows, .. }) => {
            if 64 < rows {
                return Err(ReadError::TooMany);
            }
            if out.len() < 4 * rows {
                return Err(ReadError::Short);
            }
            // It ends as the first pass did.
            let _ = read_rows(text, out);
            Ok(4 * rows as u32)
        }
    }
}
