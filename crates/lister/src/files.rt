// The two files: their bytes, and the words of a plan file.
ghost use Rattle.std.specs.Prelude.{◌≤◌, length, IfOk};
ghost use Rattle.plan.specs.Limits.{most_words};
ghost use Rattle.lister.specs.Printed.{plan_words};
ghost use Rattle.lister.specs.Inner.Stored.{Stored};
ghost use Rattle.lister.specs.Inner.Files.{IsPrefixLen};

use std::fs::OpenOptions;
use std::io;
use std::io::Read;
use std::rt::Files;

// Reads until the file ends or buf is full, and answers how many bytes it put at the front of buf.
fn read_to_end(file: &mut impl Read, buf: &mut [u8]) -> io::Result<usize>
    ensures { IfOk result (λ n. IsPrefixLen n buf.new) }
{
    let mut n = 0;
    while n < buf.len() {
        let more = file.read(&mut buf[n..])?;
        if more == 0 {
            break;
        }
        n += more;
    }
    Ok(n)
}

// The bytes of a file, as many as fit, at the front of buf: how many there are. A file that cannot
// be opened or read counts as empty, and so does one whose path is no UTF-8, which std cannot open.
// Under a bound `Files` in place of the runtime's own type the program would reach every call of the
// system on files, and not these three alone: open, read, close.
pub fn read_file(rt: &HostRuntime, path: &[u8], buf: &mut [u8]) -> usize
    ensures { IsPrefixLen result buf.new }
{
    let Ok(name) = str::from_utf8(path) else {
        return 0;
    };
    let Ok(mut file) = rt.open_file(OpenOptions::new().read(true), name) else {
        return 0;
    };
    read_to_end(&mut file, buf).unwrap_or(0)
}

// The bytes of a plan's row, and the most bytes of a plan file.
const ROW_BYTES: usize = 16;

pub const PLAN_BYTES: usize = 4 * plan::MOST_WORDS;

// The words of a plan file at the front of words: how many there are. A file of 0 bytes, over 1,024
// bytes or of no multiple of 16 has none.
pub fn plan_words(file: &[u8], words: &mut [u32]) -> usize
    requires { most_words ≤ length words.old }
    ensures { Stored words.old 0 (plan_words file.now) words.new result }
{
    if file.is_empty() || PLAN_BYTES < file.len() || file.len() % ROW_BYTES != 0 {
        return 0;
    }
    let n = file.len() / 4;
    for i in 0..n {
        words[i] = block::read32(file, 4 * i);
    }
    n
}
