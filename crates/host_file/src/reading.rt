ghost use Rattle.std.specs.Prelude.{◌≤◌, length, IfOk};

use std::io;
use std::io::{Error, ErrorKind};
use std::os::unix::fs::FileExt;

/// Reads from `at` on until `out` is full or a read gives nothing, and answers how many bytes came. A read that a
/// signal interrupts is made again.
pub fn read_full_at<F: FileExt>(file: &F, at: u64, out: &mut [u8]) -> io::Result<usize>
    ensures { IfOk result (λ n. n ≤ length out.old) }
{
    // No file is as long as a signed place can't say, and the system takes no such place.
    if i64::try_from(at).is_err() {
        return Ok(0);
    }
    let mut done = 0;
    while done < out.len() {
        let count = read_at(file, at.saturating_add(done as u64), &mut out[done..])?;
        if count == 0 {
            break;
        }
        done += count;
    }
    Ok(done)
}

/// One read, made again while signals interrupt it.
fn read_at<F: FileExt>(file: &F, at: u64, out: &mut [u8]) -> io::Result<usize>
    ensures { IfOk result (λ n. n ≤ length out.old) }
{
    for _ in 0..u64::MAX {
        match file.read_at(out, at) {
            Err(e) if e.kind() == ErrorKind::Interrupted => {}
            answer => return answer,
        }
    }
    Err(Error::from(ErrorKind::TimedOut))
}
