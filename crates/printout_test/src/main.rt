// What `printout` prints for files, any bytes at all. `stdin` has files, each after six bytes, low byte first: how many bytes it has, and
// how many bytes are lent for the text. Where the buffer is too short, it is printed as it is then, with a mark after it.
// tests/sheet_files.py makes `stdin` and `stdout`; it was written from the rules and shares nothing with the libraries.
#![tactic(auto)]

use std::io;
use std::io::Read;

// Prints what a file's text is, in a buffer of exactly so many bytes.
fn print_text(rt: &impl Print, file: &[u8], out: &mut [u8]) -> io::Result<()> {
    let mut rows = [9u32; 12288];
    let mut records = [9u32; 4096];
    match printout::print_file(file, &mut rows, &mut records, out) {
        Some(n) => rt.write_all(&out[..n]),
        None => {
            rt.write_all(out)?;
            rt.println("|short")
        }
    }
}

// Reads the next file, and prints what its text is.
fn print_next(rt: &impl Print, input: &mut impl Read, head: &[u8; 6]) -> io::Result<()> {
    let mut file = [0u8; 65536];
    let mut out = [9u8; 196608];
    let n = usize::from(u16::from_le_bytes([head[0], head[1]]));
    let room = u32::from_le_bytes([head[2], head[3], head[4], 0]) as usize;
    input::read_full(input, &mut file[..n])?;
    if room <= out.len() {
        print_text(rt, &file[..n], &mut out[..room])?;
    }
    Ok(())
}

fn main(rt: HostRuntime) -> io::Result<()> {
    let mut input = rt.stdin();
    let mut head = [0u8; 6];
    for _ in 0..4096 {
        if input::read_full(&mut input, &mut head)? < head.len() {
            break;
        }
        print_next(&rt, &mut input, &head)?;
    }
    Ok(())
}
