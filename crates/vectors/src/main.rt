// Puts the stored cases to the entries for a controller in C, and counts what comes out different. It writes how many there were of each kind.
// Then the same for a file of wrong expectations, all of which must come out different.
#![tactic(auto)]

mod bodies;
mod calls;
mod records;

use files::faults::tell;
use files::{open_read, read_full};
use std::io;

// Reads a file of stored cases, and writes what was found.
fn report(rt: &HostRuntime, path: &[u8]) -> io::Result<()> {
    let mut file = match open_read(rt, path) {
        Ok(file) => file,
        Err(error) => {
            tell(rt, path, error);
            return Ok(());
        }
    };
    let mut cases = [0u8; 300000];
    let (n, _) = read_full(&mut file, &mut cases);
    records::report(rt, &cases[..n])
}

fn main(rt: HostRuntime) -> io::Result<()> {
    report(&rt, b"cases")?;
    rt.write_all(b"wrong expectations\n")?;
    report(&rt, b"wrong")
}
