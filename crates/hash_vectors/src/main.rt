// The published FNV-1a vectors: each input in hexadecimal, a blank, and its hash.
#![tactic(auto)]

use std::io;

fn vector(out: &impl Print, input: &[u8]) -> io::Result<()> {
    for b in input {
        print!(out; "{b:02x}")?;
    }
    println!(out; " {:016x}", hash::bytes(input))
}

fn main(rt: HostRuntime) -> io::Result<()> {
    let inputs = [
        "", "a", "b", "c", "d", "e", "f", "fo", "foo", "foob", "fooba", "foobar",
    ];
    for input in inputs {
        vector(&rt, input.as_bytes())?;
    }
    Ok(())
}
