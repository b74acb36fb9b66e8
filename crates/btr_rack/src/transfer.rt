// Reading and storing whole ranges of a file.
ghost use Rattle.std.specs.Prelude.{◌≡◌, ◌+◌, ◌<◌, ◌≤◌, ◌^◌, false, length, take, IsTrue};
ghost use Rattle.btr_rack.specs.declared.raw_call.RawCall.TheVariants.{Read, Stored};
ghost use Rattle.btr_rack.specs.History.{FallsShort, Moved, Stops};

use crate::raw_file::RawFile;
use crate::tried::Tried;

/// How often, in one call, a read or a write is made again that the system interrupted.
const TRIES_AGAIN: u64 = 16;

/// Fills the buffer with the bytes from `off` on, or says that it could not: a read failed, or was interrupted too
/// often, or the file ends.
pub(crate) fn fill(raw: &mut RawFile, off: u64, buf: &mut [u8]) -> bool
    requires { off + length buf.old < 2 ^ 63 }
    ensures read { IsTrue result → Moved Read off raw.old.history raw.new.history buf.new }
    ensures cause { result ≡ false → FallsShort Read off raw.old.history raw.new.history buf.new }
{
    let mut done = 0;
    let mut again = 0;
    while done < buf.len() {
        match raw.read(off + done as u64, &mut buf[done..]) {
            Tried::Done(count) => done += count,
            Tried::Interrupted => {
                if again >= TRIES_AGAIN {
                    return false;
                }
                again += 1;
            }
            Tried::Refused => return false,
        }
    }
    true
}

/// Stores the bytes from `off` on, and answers how many: fewer than all where a write failed, or was interrupted too
/// often.
pub(crate) fn store(raw: &mut RawFile, off: u64, bytes: &[u8]) -> usize
    requires { off + length bytes.now < 2 ^ 64 }
    ensures count { result ≤ length bytes.now }
    ensures stored { result ≡ length bytes.now → Moved Stored off raw.old.history raw.new.history bytes.now }
    ensures cause { result < length bytes.now → Stops Stored off raw.old.history raw.new.history (take result bytes.now) }
{
    let mut done = 0;
    let mut again = 0;
    while done < bytes.len() {
        match raw.store(off + done as u64, &bytes[done..]) {
            Tried::Done(stored) => done += stored,
            Tried::Interrupted => {
                if again >= TRIES_AGAIN {
                    return done;
                }
                again += 1;
            }
            Tried::Refused => return done,
        }
    }
    done
}
