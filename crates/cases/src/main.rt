// Lists each sheet that an argument names, under its name. After the word `cut` a sheet is listed cut off after each
// of its bytes.
#![tactic(auto)]

use listing::list::list;
use std::io::Write;
use std::{env, fs, io};

fn show(rt: &HostRuntime, input: &[u8]) -> io::Result<()> {
    let out = list(input).to_bytes(rt.alloc())?;
    rt.stdout().write_all(out.as_slice())
}

fn show_cut(rt: &HostRuntime, sheet: &[u8]) -> io::Result<()> {
    for n in 0..sheet.len() {
        show(rt, &sheet[..n])?;
    }
    Ok(())
}

fn show_file(rt: &HostRuntime, name: &str, cut: bool) -> io::Result<()> {
    rt.println(name)?;
    let sheet = fs::read(rt, name)?;
    if cut {
        return show_cut(rt, sheet.as_slice());
    }
    show(rt, sheet.as_slice())
}

fn main(rt: HostRuntime) -> io::Result<()> {
    let mut cut = false;
    for name in env::args(&rt)?.skip(1) {
        if name.as_str() == "cut" {
            cut = true;
        } else {
            show_file(&rt, name.as_str(), cut)?;
        }
    }
    Ok(())
}
