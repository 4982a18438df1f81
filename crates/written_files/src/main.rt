// Cleans and compiles stored files as `clean` and `compile` do, and prints in hex what then stands in the files; and shows some as `show` does.
#![tactic(auto)]

ghost use Rattle.std.specs.Prelude.{◌<◌};

use files::{open_read, read_full};
use std::io;

fn hex_digit(n: u8) -> u8
    requires { n < 16 }
{
    if n < 10 { b'0' + n } else { b'A' + (n - 10) }
}

fn print_byte(rt: &impl Print, byte: u8) -> io::Result<()> {
    rt.write_all(&[b' ', hex_digit(byte / 16), hex_digit(byte % 16)])
}

fn print_bytes(rt: &impl Print, bytes: &[u8]) -> io::Result<()> {
    for byte in bytes {
        print_byte(rt, *byte)?;
    }
    Ok(())
}

// What stands in the file, or that it is not there.
fn print_file(rt: &HostRuntime, path: &[u8]) -> io::Result<()> {
    rt.write_all(path)?;
    let Ok(mut file) = open_read(rt, path) else {
        return rt.write_all(b" is not there\n");
    };
    let mut bytes = [0u8; 128];
    let (n, _) = read_full(&mut file, &mut bytes);
    rt.write_all(b":")?;
    print_bytes(rt, &bytes[..n])?;
    rt.write_all(b"\n")
}

fn clean(rt: &HostRuntime, what: &[u8], reading: u8, from: &[u8], to: &[u8]) -> io::Result<()> {
    rt.write_all(what)?;
    cleaner::clean_file(rt, reading, from, to);
    print_file(rt, to)
}

fn compile(rt: &HostRuntime, what: &[u8], from: &[u8], to: &[u8]) -> io::Result<()> {
    rt.write_all(what)?;
    scribe::compile_file(rt, from, to);
    print_file(rt, to)
}

// What `clean` writes: under both readings, in place, and where something is missing or in the way.
fn clean_policies(rt: &HostRuntime) -> io::Result<()> {
    clean(
        rt,
        b"\na policy of which much goes\n",
        1,
        b"doors",
        b"cleaned",
    )?;
    print_file(rt, b"cleaned.part")?;
    clean(rt, b"\nin place\n", 1, b"cleaned", b"cleaned")?;
    clean(
        rt,
        b"\na rule for the first tick alone, under reading 1\n",
        1,
        b"first",
        b"one",
    )?;
    clean(rt, b"\nunder reading 2\n", 2, b"first", b"two")?;
    clean(rt, b"\nno reading\n", 3, b"doors", b"three")?;
    clean(
        rt,
        b"\nno policy, and a file that stays\n",
        1,
        b"missing",
        b"one",
    )?;
    clean(rt, b"\na policy cut short\n", 1, b"short", b"one")?;
    clean(
        rt,
        b"\na folder that is not there\n",
        1,
        b"doors",
        b"missing/cleaned",
    )?;
    clean(
        rt,
        b"\na file in the way, and one that stays\n",
        1,
        b"doors",
        b"taken",
    )?;
    print_file(rt, b"taken.part")?;
    rt.write_all(b"\na full device\n")?;
    cleaner::clean_file(rt, 1, b"doors", b"/dev/full");
    print_file(rt, b"/dev/full.part")
}

// What `compile` writes: a file, and none where there is a refusal.
fn compile_texts(rt: &HostRuntime) -> io::Result<()> {
    compile(rt, b"\na text\n", b"valve.txt", b"valve")?;
    print_file(rt, b"valve.part")?;
    compile(
        rt,
        b"\na signal twice in a rule, and a file that stays\n",
        b"twice.txt",
        b"valve",
    )?;
    compile(rt, b"\nno text\n", b"missing", b"none")
}

// Texts that are one comment: the longest that is read, and a byte more.
fn compile_long(rt: &HostRuntime) -> io::Result<()> {
    let longest = [b'#'; 65536];
    files::write_file(rt, b"longest", &longest);
    compile(
        rt,
        b"\na text of 65536 bytes without a location\n",
        b"longest",
        b"none",
    )?;
    let longer = [b'#'; 65537];
    files::write_file(rt, b"longer", &longer);
    compile(rt, b"\na text of 65537 bytes\n", b"longer", b"none")
}

fn show_policies(rt: &HostRuntime) -> io::Result<()> {
    rt.write_all(b"\nshown: what was compiled, a policy cut short, no policy\n")?;
    scribe::show_file(rt, b"valve");
    scribe::show_file(rt, b"short");
    scribe::show_file(rt, b"longer");
    Ok(())
}

fn main(rt: HostRuntime) -> io::Result<()> {
    clean_policies(&rt)?;
    compile_texts(&rt)?;
    compile_long(&rt)?;
    show_policies(&rt)
}
