// Reads a list of names, one a line, and writes for each its name and the listing of the file NAME.in.
#![tactic(auto)]

use base_lines::{Output, each_line};
use std::io::{Error, ErrorKind, Read};
use std::rt::Files;
use std::{fs, io};

fn open_input<R: Files>(rt: &R, name: &[u8]) -> io::Result<R::File> {
    let mut path: Output<256> = Output::new();
    path.text(name);
    path.text(b".in");
    match str::from_utf8(path.as_slice()) {
        Ok(path) => fs::open(rt, path),
        Err(_) => Err(Error::from(ErrorKind::InvalidInput)),
    }
}

// The listing of an open file, or that it could not be read.
fn list_file(rt: &impl Print, input: &mut impl Read) -> io::Result<()> {
    let mut output = [0u8; 512];
    match listing_run::answer(input, &mut output) {
        Ok(n) => rt.write_all(&output[..n]),
        Err(_) => rt.write_all(b"failed\n"),
    }
}

fn list_name(rt: &(impl Files + Print), name: &[u8]) -> io::Result<()> {
    rt.write_all(name)?;
    rt.write_all(b"\n")?;
    match open_input(rt, name) {
        Ok(mut input) => list_file(rt, &mut input),
        Err(_) => rt.write_all(b"missing\n"),
    }
}

fn main(rt: HostRuntime) -> io::Result<()> {
    let mut input = [0u8; 65536];
    let n = base_input::read_whole(&mut rt.stdin(), &mut input)?;
    for name in each_line(&input[..n]) {
        list_name(&rt, name)?;
    }
    Ok(())
}
