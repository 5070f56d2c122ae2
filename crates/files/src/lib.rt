// A whole input, or a file by name, read into a lent buffer.
#![tactic(auto)]

ghost use Rattle.std.specs.Prelude.{◌≡◌, ◌≤◌, length, take};

use std::fs::OpenOptions;
use std::io::Read;
use std::rt::{Env, Files};

// as long as the system lets a path be: a row of its own, as there is no heap
const MOST_PATH_BYTES: usize = 4096;

// The bytes of an open file, as many as the buffer takes; how many. A file that cannot be read to its end counts as one of
// 0 bytes, so that no half-read file is taken for a whole one.
pub fn read_whole(file: &mut impl Read, buffer: &mut [u8]) -> usize
    ensures within { result ≤ length buffer.new }
    ensures front { result ≡ length (take result buffer.new) }
{
    // a count, and no slice: the contract says how many bytes stand at the buffer's front, and each program cuts there
    let mut done = 0;
    // a loop over `read`: `read_to_end` puts the bytes on the heap, and `read_exact` wants to know how many there are
    while done < buffer.len() {
        let Ok(n) = file.read(&mut buffer[done..]) else {
            return 0;
        };
        if n == 0 {
            return done;
        }
        done += n;
    }
    done
}

// The bytes of the file that the argument of this number names, as many as the buffer takes; how many. A file that isn't
// named or can't be opened counts as one of 0 bytes; so does one whose name isn't UTF-8, since std opens no such file.
// The handle is the system's own and no bound, so that a program rests on no more calls of the system than it makes.
pub fn read_named(rt: &HostRuntime, argument: usize, buffer: &mut [u8]) -> usize
    ensures within { result ≤ length buffer.new }
    ensures front { result ≡ length (take result buffer.new) }
{
    let mut path = [0u8; MOST_PATH_BYTES];
    // an error for an argument that is missing or too long for a path: cut short it would name another file
    let Ok(n) = rt.arg(argument, &mut path) else {
        return 0;
    };
    let Ok(name) = str::from_utf8(&path[..n]) else {
        return 0;
    };
    let Ok(mut file) = rt.open_file(OpenOptions::new().read(true), name) else {
        return 0;
    };
    read_whole(&mut file, buffer)
}
