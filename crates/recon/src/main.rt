// Reconciles bank.txt with book.txt, and prints the report or the first refusal.
#![tactic(auto)]

use domain::blank::blank;
use domain::entry::Item;
use reconcile::{LONGEST, reconcile};
use std::io::{Read, Write};
use std::{fs, io};

// How many items the table has, and how many bytes the output.
const ITEMS: usize = 512;

const ROOM: usize = 32_768;

// A file's first bytes: one more than is taken, so that a longer file is known for one and never read whole.
fn read_front(rt: &HostRuntime, name: &str) -> io::Result<Vec<u8>> {
    let mut text = Vec::new(rt.alloc());
    fs::open(rt, name)?
        .take(LONGEST as u64 + 1)
        .read_to_end(&mut text)?;
    Ok(text)
}

// The same; a file that cannot be read is named on standard error.
fn load(rt: &HostRuntime, name: &str) -> io::Result<Vec<u8>> {
    let text = read_front(rt, name);
    if let Err(e) = &text {
        eprintln!(rt; "recon: cannot read {name}: {e}")?;
    }
    text
}

fn main(rt: HostRuntime) -> io::Result<()> {
    let bank = load(&rt, "bank.txt")?;
    let book = load(&rt, "book.txt")?;
    let mut table: Vec<Item> = vec![in rt.alloc(); blank(); ITEMS]?;
    let mut out: Vec<u8> = vec![in rt.alloc(); 0; ROOM]?;
    match reconcile(&bank, &book, &mut table, &mut out) {
        Ok(n) => rt.stdout().write_all(&out[..n]),
        Err(refused) => println!(rt; "{refused}"),
    }
}
