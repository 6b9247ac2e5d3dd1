// The program's stored runs: for each file that an argument names, a line with its name and what the program prints for it.
#![tactic(auto)]

use std::env::FillError;
use std::rt::{Env, Files};
use std::{fs, io, str};

// A file that cannot be opened has a line on standard error.
fn run<R: Files + Print + Eprint>(rt: &R, path: &[u8]) -> io::Result<()> {
    rt.write_all(path)?;
    rt.write_all(b"\n")?;
    match str::from_utf8(path) {
        Err(error) => rt.eprintln(error),
        Ok(name) => match fs::open(rt, name) {
            Err(error) => eprintln!(rt; "{name}: {error}"),
            Ok(mut file) => print_doses::print_doses(&mut file, &mut io::writer(rt)),
        },
    }
}

fn main(rt: HostRuntime) -> io::Result<()> {
    let mut path = [0u8; 4096];
    for i in 1..usize::MAX {
        // An argument that does not fit counts as an empty one.
        let length = match rt.arg(i, &mut path) {
            Ok(length) => length,
            Err(FillError::TooLong) => 0,
            Err(FillError::NotPresent) => break,
        };
        run(&rt, &path[..length])?;
    }
    Ok(())
}
