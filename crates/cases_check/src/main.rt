// Runs the check on cases 1 and 11 of document 01, and on a small block for each refusal from 1 to 10. The file stdout holds what it writes.
#![tactic(auto)]

use std::io;

// Writes a block's name and what the check answers of it.
fn run(rt: &impl Print, name: &str, block: &[u8]) -> io::Result<()> {
    print!(rt; "{name}")?;
    match checker::check(block) {
        Ok(()) => println!(rt; ": accepted"),
        Err(refusal) => println!(rt; ": {refusal}"),
    }
}

// Puts a byte at a place, if that is inside, and answers the place after it.
fn put(bytes: &mut [u8], at: usize, x: u8) -> usize {
    if at < bytes.len() {
        bytes[at] = x;
        return at + 1;
    }
    at
}

// Puts three bytes count times, and answers the place after them.
fn repeat(bytes: &mut [u8], start: usize, count: usize, x: u8, y: u8, z: u8) -> usize {
    let mut at = start;
    for _ in 0..count {
        for byte in [x, y, z] {
            at = put(bytes, at, byte);
        }
    }
    at
}

// Case 11 as request 05 moves it, 200 variables pass, the 201st gets 3: so many 64-bit globals, and exit_tb.
fn variables(rt: &impl Print, name: &str, bytes: &mut [u8], count: usize) -> io::Result<()> {
    let at = repeat(bytes, 0, count, 0x01, 0, 1);
    let after = put(bytes, at, 0x04);
    put(bytes, after, 0);
    run(rt, name, bytes)
}

// 1,024 ops pass, the 1,025th gets 9: a 64-bit global, so many mov_i64 before exit_tb.
fn moves(rt: &impl Print, name: &str, bytes: &mut [u8], count: usize) -> io::Result<()> {
    let start = repeat(bytes, 0, 1, 0x01, 0, 1);
    let at = repeat(bytes, start, count, 0x91, 0, 0);
    let after = put(bytes, at, 0x04);
    put(bytes, after, 0);
    run(rt, name, bytes)
}

fn case_11(rt: &impl Print) -> io::Result<()> {
    let mut few = [0u8; 602];
    variables(rt, "case 11: 200 variables", &mut few, 200)?;
    let mut more = [0u8; 605];
    variables(rt, "case 11: 201 variables", &mut more, 201)?;
    let mut most = [0u8; 3074];
    moves(rt, "case 11: 1,024 ops", &mut most, 1023)?;
    let mut over = [0u8; 3077];
    moves(rt, "case 11: 1,025 ops", &mut over, 1024)
}

fn case_1(rt: &impl Print) -> io::Result<()> {
    run(rt, "case 1: empty block", b"")?;
    run(rt, "case 1: 01 00", b"\x01\x00")
}

fn refusals_to_6(rt: &impl Print) -> io::Result<()> {
    run(rt, "record past the end", b"\x01\x00\x01\x04")?;
    run(rt, "unknown kind", b"\x01\x00\x01\x00")?;
    run(
        rt,
        "declaration after an op",
        b"\x01\x00\x01\x04\x00\x01\x00\x01",
    )?;
    run(
        rt,
        "global after a temporary",
        b"\x01\x02\x01\x01\x00\x01\x04\x01",
    )?;
    run(rt, "variable not declared", b"\x01\x00\x01\x04\x01")?;
    run(rt, "wrong width", b"\x01\x00\x00\x04\x00")?;
    run(rt, "label 127", b"\x01\x00\x01\x02\x7F\x04\x00")?;
    run(rt, "label above 127", b"\x01\x00\x01\x02\x80\x04\x00")
}

fn refusals_from_7(rt: &impl Print) -> io::Result<()> {
    run(
        rt,
        "label set twice",
        b"\x01\x00\x01\x02\x00\x02\x00\x04\x00",
    )?;
    run(
        rt,
        "jump to a label already set",
        b"\x01\x00\x01\x02\x00\x03\x00\x04\x00",
    )?;
    run(
        rt,
        "jumped-to label never set",
        b"\x01\x00\x01\x03\x00\x04\x00",
    )?;
    run(rt, "temporary read before a write", b"\x01\x02\x01\x04\x00")?;
    run(
        rt,
        "temporary read by the op that writes it",
        b"\x01\x02\x01\x91\x00\x00\x04\x00",
    )?;
    run(rt, "no op", b"\x01\x00\x01")?;
    run(rt, "last op is not exit_tb", b"\x01\x00\x01\x02\x00")?;
    run(rt, "exit with a global", b"\x01\x00\x01\x04\x00")
}

// Blocks whose last record, or end, breaks two rules: the one asked first answers.
fn orders(rt: &impl Print) -> io::Result<()> {
    run(rt, "1 before 3", b"\x01\x00\x01\x04\x00\x01\x00")?;
    run(rt, "4 before 5", b"\x01\x00\x00\x05\x00\x01")?;
    run(rt, "5 before 6", b"\x01\x00\x00\xA8\x00\x00\x00\x0A")?;
    run(
        rt,
        "6 before 7",
        b"\x01\x00\x01\x02\x00\xAA\x00\x00\x0A\x00",
    )?;
    run(
        rt,
        "7 before 8",
        b"\x01\x02\x01\x02\x00\xAA\x00\x00\x00\x00",
    )?;
    run(rt, "10 before 7", b"\x01\x00\x01\x03\x00")
}

fn main(rt: HostRuntime) -> io::Result<()> {
    case_1(&rt)?;
    case_11(&rt)?;
    refusals_to_6(&rt)?;
    refusals_from_7(&rt)?;
    orders(&rt)
}
