// Files read whole, and written whole or not at all; and what the programs need of the system beside: their words, and a line for what fails.
#![tactic(auto)]

pub mod faults;
pub mod words;

ghost use Rattle.std.specs.Prelude.{◌≡◌, ◌≤◌, ◌<◌, length, take, OnOk};
ghost use Rattle.std.specs.Io.KnownBytes.{Consumes, IsAtEnd};

use faults::tell;
use std::fs::{File, OpenOptions};
use std::io::{ErrorKind, Read, Seek, SeekFrom, Write};
use std::{fs, io, str};
use texts::put_bytes;

// The longest name of a file, and one byte more.
pub const NAME: usize = 4096;

// Names of files are text here, as they are in `std`.
fn text_of(path: &[u8]) -> io::Result<&str> {
    match str::from_utf8(path) {
        Ok(text) => Ok(text),
        Err(_) => Err(io::Error::from(ErrorKind::InvalidFilename)),
    }
}

// Opens a file to read it.
pub fn open_read(rt: &HostRuntime, path: &[u8]) -> io::Result<File> {
    fs::open(rt, text_of(path)?)
}

// Reads until the bytes are full, the input ends or a read fails. How many bytes were read stands beside the failure.
pub fn read_full<R: Read>(input: &mut R, bytes: &mut [u8]) -> (usize, io::Result<()>)
    ensures room { result.0 ≤ length bytes.new }
    ensures front { result.0 ≡ length (take result.0 bytes.new) }
    ensures read { Consumes (R.remaining input.old) (R.remaining input.new) (take result.0 bytes.new) }
    ensures whole { OnOk result.1 (result.0 < length bytes.new → IsAtEnd (R.remaining input.new)) }
{
    let mut done = 0;
    // A `while`: a read gives as many bytes as it likes.
    while done < bytes.len() {
        match input.read(&mut bytes[done..]) {
            Ok(0) => break,
            Ok(read) => done += read,
            Err(error) => return (done, Err(error)),
        }
    }
    (done, Ok(()))
}

// Reads a file, or as much of it as the bytes have room for, and answers how much that is. A file that cannot be opened, or not be read to its end, is named
// on standard error, and counts as empty: half of it might say something else.
pub fn read_file(rt: &HostRuntime, path: &[u8], bytes: &mut [u8]) -> usize
    ensures room { result ≤ length bytes.new }
    ensures front { result ≡ length (take result bytes.new) }
{
    let mut file = match open_read(rt, path) {
        Ok(file) => file,
        Err(error) => {
            tell(rt, path, error);
            return 0;
        }
    };
    let (read, whole) = read_full(&mut file, bytes);
    if let Err(error) = whole {
        tell(rt, path, error);
        return 0;
    }
    read
}

// The name of the file beside the one that is named, and its length: 0 where there is no room for it.
fn beside(path: &[u8], name: &mut [u8]) -> usize
    ensures room { result ≤ length name.new }
    ensures front { result ≡ length (take result name.new) }
{
    if name.len() < 5 {
        return 0;
    }
    if name.len() - 5 < path.len() {
        return 0;
    }
    let end = put_bytes(name, 0, path);
    put_bytes(name, end, b".part")
}

// Makes a file that is not there yet, to write it.
fn create(rt: &HostRuntime, path: &[u8]) -> io::Result<File> {
    OpenOptions::new()
        .write(true)
        .create_new(true)
        .open(rt, text_of(path)?)
}

// All bytes are in the file, and on the disk.
fn fill(mut file: File, bytes: &[u8]) -> io::Result<()> {
    file.write_all(bytes)?;
    file.sync_all()
}

// Takes away the file that was begun. Where that fails, it stays.
fn give_up(rt: &HostRuntime, name: &[u8]) {
    if let Ok(name) = text_of(name) {
        let _ = fs::remove_file(rt, name);
    }
}

fn rename(rt: &HostRuntime, name: &[u8], path: &[u8]) -> io::Result<()> {
    fs::rename(rt, text_of(name)?, text_of(path)?)
}

// Fills a file beside the one that is named, and gives it that name: whoever opens the name finds the old bytes or the new ones, and all of them. What fails
// is named on standard error, and leaves the old file as it was.
fn replace(rt: &HostRuntime, path: &[u8], bytes: &[u8]) {
    let mut name = [0u8; NAME];
    let length = beside(path, &mut name);
    let name = &name[..length];
    let file = match create(rt, name) {
        Ok(file) => file,
        Err(error) => {
            tell(rt, name, error);
            return;
        }
    };
    if let Err(error) = fill(file, bytes) {
        tell(rt, name, error);
        give_up(rt, name);
        return;
    }
    if let Err(error) = rename(rt, name, path) {
        tell(rt, path, error);
        give_up(rt, name);
    }
}

// Writes a device or a pipe as it is: it has no bytes that could be lost.
fn write_through(rt: &HostRuntime, mut file: File, path: &[u8], bytes: &[u8]) {
    if let Err(error) = file.write_all(bytes) {
        tell(rt, path, error);
    }
}

// Opens a file that is there, to write it.
fn open_update(rt: &HostRuntime, path: &[u8]) -> io::Result<File> {
    OpenOptions::new()
        .read(true)
        .write(true)
        .open(rt, text_of(path)?)
}

// A regular file is known by this: it may be cut to the length that it has.
fn is_regular(file: &mut File) -> bool {
    match file.seek(SeekFrom::End(0)) {
        Ok(length) => file.set_len(length).is_ok(),
        Err(_) => false,
    }
}

// Writes the file that is named. One that may not be written is left as it is.
pub fn write_file(rt: &HostRuntime, path: &[u8], bytes: &[u8]) {
    let mut file = match open_update(rt, path) {
        Ok(file) => file,
        Err(error) => {
            if error.kind() == ErrorKind::NotFound {
                replace(rt, path, bytes);
            } else {
                tell(rt, path, error);
            }
            return;
        }
    };
    if is_regular(&mut file) {
        drop(file);
        replace(rt, path, bytes);
    } else {
        write_through(rt, file, path, bytes);
    }
}
