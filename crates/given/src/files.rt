ghost use Rattle.std.specs.Prelude.{◌≤◌, length};

use std::fs::File;
use std::io;
use std::io::{Error, ErrorKind, Read};
use std::rt::Files;

// The file of that name, open for reading. std opens names that are UTF-8.
pub fn open_named<R: Files>(rt: &R, name: &[u8]) -> io::Result<R::File> {
    let path = str::from_utf8(name).map_err(|_| Error::from(ErrorKind::InvalidFilename))?;
    File::open(rt, path)
}

// Reads until the buffer is full, the file ends or a read fails, and says how many bytes stand at the buffer's start.
pub fn read_full(file: &mut impl Read, buffer: &mut [u8]) -> usize
    ensures { result ≤ length buffer.new }
{
    let mut done = 0;
    // No `for`: it goes on by as many bytes as came.
    while done < buffer.len() {
        let n = file.read(&mut buffer[done..]).unwrap_or(0);
        if n == 0 {
            break;
        }
        done += n;
    }
    done
}
