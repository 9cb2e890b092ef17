// Reads a sheet from standard input and prints its lines.
#![tactic(auto)]

use listing::list::list;
use sheets::read::reading_limit;
use std::io::{self, Read, Write};

fn main(rt: HostRuntime) -> io::Result<()> {
    let heap = rt.alloc();
    let mut input = Vec::new(heap);
    rt.stdin()
        .take(reading_limit() as u64)
        .read_to_end(&mut input)?;
    let out = list(input.as_slice()).to_bytes(heap)?;
    rt.stdout().write_all(out.as_slice())
}
