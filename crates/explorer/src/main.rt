// The listing program: the list of the program file on standard input, printed on standard output.
//
// Proved (crate explorer_lines, specs/Pieces.antt): `begin` says what is to be printed, `printed file`, and each `next` hands over the bytes that
// come next in it, none only behind the last. So the pieces one after the other are `printed file`, also where the file is longer than the
// 4,097 bytes that are read of it (proofs/Handed.antt). No contract of the kit can say which bytes a call of the system reads or writes:
// that `print` writes each piece once and in order, and that `main` hands it what was read, is to be seen in the lines below.
#![tactic(auto)]

ghost use Rattle.explorer.specs.Reading.{Within};

use explorer_lines::{MOST_BYTES, begin, next};
use std::io;
use std::io::{Read, Write};

// Reads standard input to its end, or as much of it as there is room for: how many bytes were read.
fn read_input(rt: &HostRuntime, file: &mut [u8]) -> io::Result<usize>
    ensures { Within result file.new }
{
    let mut input = rt.stdin();
    let mut at = 0;
    while at < file.len() {
        let n = input.read(&mut file[at..])?;
        if n == 0 {
            break;
        }
        at += n;
    }
    Ok(at)
}

// Prints the list of this file, or its refusal.
fn print(rt: &HostRuntime, file: &[u8]) -> io::Result<()> {
    let mut output = rt.stdout();
    let mut listing = begin(file);
    let mut out = [0u8; MOST_BYTES];
    loop {
        let piece = next(listing, &mut out);
        if piece.length == 0 {
            return Ok(());
        }
        if output.write_all(&out[..piece.length]).is_err() {
            return eprint!(rt; "standard output cannot be written\n");
        }
        listing = piece.listing;
    }
}

fn main(rt: HostRuntime) -> io::Result<()> {
    let mut file = [0u8; 4097];
    match read_input(&rt, &mut file) {
        Ok(n) => print(&rt, &file[..n]),
        Err(_) => eprint!(rt; "standard input cannot be read\n"),
    }
}
