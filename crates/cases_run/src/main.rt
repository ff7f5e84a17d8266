// Runs cases 2 to 10 and 12 of document 01 and aligned accesses, and writes what each leaves. The file stdout holds what it writes.
#![tactic(auto)]

use std::io;

// Writes each byte as a space and two digits: std prints no slice so.
fn show_bytes(rt: &impl Print, bytes: &[u8]) -> io::Result<()> {
    for byte in bytes {
        print!(rt; " {byte:02x}")?;
    }
    Ok(())
}

fn show_globals(rt: &impl Print, globals: &[u64]) -> io::Result<()> {
    for x in globals {
        print!(rt; " 0x{x:x}")?;
    }
    Ok(())
}

// Runs a block, and writes its name, how it ends, and the globals and memory that it leaves.
fn run(
    rt: &impl Print,
    name: &str,
    block: &[u8],
    globals: &mut [u64],
    memory: &mut [u8],
) -> io::Result<()> {
    print!(rt; "{name}")?;
    match run::run(block, globals, memory) {
        Ok(ending) => print!(rt; "{ending}")?,
        Err(refusal) => print!(rt; "{refusal}")?,
    }
    print!(rt; ", globals")?;
    show_globals(rt, globals)?;
    if memory.len() > 0 {
        print!(rt; ", memory")?;
        show_bytes(rt, memory)?;
    }
    println!(rt; "")
}

fn case_2(rt: &impl Print) -> io::Result<()> {
    let block = b"\x01\x00\x01\x04\x00";
    match checker::check(block) {
        Ok(()) => println!(rt; "case 2: accepted")?,
        Err(refusal) => println!(rt; "case 2: {refusal}")?,
    }
    let mut globals = [0x0123456789ABCDEFu64];
    let mut memory = [0u8; 0];
    run(rt, "case 2: ", block, &mut globals, &mut memory)
}

// v0 is a 64-bit global, v1 to v3 are 32-bit globals: v1 := v2; v1 := v1 op v3; v0 := v1; exit with v0.
fn binary(rt: &impl Print, name: &str, block: &[u8], a: u64, b: u64) -> io::Result<()> {
    let mut globals = [0xAAu64, 0xBB, a, b];
    let mut memory = [0u8; 0];
    run(rt, name, block, &mut globals, &mut memory)
}

fn case_3(rt: &impl Print) -> io::Result<()> {
    binary(
        rt,
        "case 3: add_i32 FFFFFFFF, 1: ",
        b"\x01\x00\x01\x01\x00\x00\x01\x00\x00\x01\x00\x00\x11\x01\x02\x14\x01\x01\x03\x06\x00\x01\x04\x00",
        0xFFFFFFFF,
        1,
    )
}

fn case_4(rt: &impl Print) -> io::Result<()> {
    let block =
        b"\x01\x00\x01\x01\x00\x00\x01\x00\x00\x01\x00\x00\x11\x01\x02\x1F\x01\x01\x03\x06\x00\x01\x04\x00";
    binary(
        rt,
        "case 4: divs_i32 80000000 by FFFFFFFF: ",
        block,
        0x80000000,
        0xFFFFFFFF,
    )?;
    binary(
        rt,
        "case 4: divs_i32 80000001 by FFFFFFFF: ",
        block,
        0x80000001,
        0xFFFFFFFF,
    )
}

fn case_5(rt: &impl Print) -> io::Result<()> {
    binary(
        rt,
        "case 5: divs_i32 FFFFFFF9 by 2: ",
        b"\x01\x00\x01\x01\x00\x00\x01\x00\x00\x01\x00\x00\x11\x01\x02\x1F\x01\x01\x03\x06\x00\x01\x04\x00",
        0xFFFFFFF9,
        2,
    )?;
    binary(
        rt,
        "case 5: rems_i32 FFFFFFF9 by 2: ",
        b"\x01\x00\x01\x01\x00\x00\x01\x00\x00\x01\x00\x00\x11\x01\x02\x21\x01\x01\x03\x06\x00\x01\x04\x00",
        0xFFFFFFF9,
        2,
    )
}

fn case_6(rt: &impl Print) -> io::Result<()> {
    let block =
        b"\x01\x00\x01\x01\x00\x00\x01\x00\x00\x01\x00\x00\x11\x01\x02\x25\x01\x01\x03\x06\x00\x01\x04\x00";
    binary(
        rt,
        "case 6: sar_i32 80000000 by 31: ",
        block,
        0x80000000,
        31,
    )?;
    binary(
        rt,
        "case 6: sar_i32 80000000 by 32: ",
        block,
        0x80000000,
        32,
    )
}

fn case_7(rt: &impl Print) -> io::Result<()> {
    binary(
        rt,
        "case 7: setcond_i32 FFFFFFFF, 0, LT: ",
        b"\x01\x00\x01\x01\x00\x00\x01\x00\x00\x01\x00\x00\x11\x01\x02\x28\x01\x01\x03\x02\x06\x00\x01\x04\x00",
        0xFFFFFFFF,
        0,
    )?;
    binary(
        rt,
        "case 7: setcond_i32 FFFFFFFF, 0, LTU: ",
        b"\x01\x00\x01\x01\x00\x00\x01\x00\x00\x01\x00\x00\x11\x01\x02\x28\x01\x01\x03\x06\x06\x00\x01\x04\x00",
        0xFFFFFFFF,
        0,
    )
}

// v0 is a 64-bit global, v1 a 32-bit one: v0 := op v1; exit with v0.
fn extend(rt: &impl Print, name: &str, block: &[u8], a: u64) -> io::Result<()> {
    let mut globals = [0xAAu64, a];
    let mut memory = [0u8; 0];
    run(rt, name, block, &mut globals, &mut memory)
}

// The last block has a third global, of 64 bits: v1 := trunc v2; v0 := v1; exit with v0.
fn case_8(rt: &impl Print) -> io::Result<()> {
    extend(
        rt,
        "case 8: ext_i32_i64 80000000: ",
        b"\x01\x00\x01\x01\x00\x00\x05\x00\x01\x04\x00",
        0x80000000,
    )?;
    extend(
        rt,
        "case 8: extu_i32_i64 80000000: ",
        b"\x01\x00\x01\x01\x00\x00\x06\x00\x01\x04\x00",
        0x80000000,
    )?;
    let block = b"\x01\x00\x01\x01\x00\x00\x01\x00\x01\x07\x01\x02\x06\x00\x01\x04\x00";
    let mut globals = [0xAAu64, 0xBB, 0x100000005];
    let mut memory = [0u8; 0];
    run(
        rt,
        "case 8: trunc_i64_i32 100000005: ",
        block,
        &mut globals,
        &mut memory,
    )
}

// v0 is a 64-bit global, v1 a 32-bit one, v2 the address: v1 := load, or store v1; v0 := v1; exit with v0.
fn access(
    rt: &impl Print,
    name: &str,
    block: &[u8],
    address: u64,
    memory: &mut [u8],
) -> io::Result<()> {
    let mut globals = [0xAAu64, 0xBB, address];
    run(rt, name, block, &mut globals, memory)
}

fn case_9(rt: &impl Print) -> io::Result<()> {
    let mut memory = [0u8, 1, 2, 3, 4, 5, 6, 7, 8, 9, 10, 11, 12, 13, 14, 15];
    let load = b"\x01\x00\x01\x01\x00\x00\x01\x00\x01\x2B\x01\x02\x02\x06\x00\x01\x04\x00";
    let load_byte = b"\x01\x00\x01\x01\x00\x00\x01\x00\x01\x2B\x01\x02\x00\x06\x00\x01\x04\x00";
    let store = b"\x01\x00\x01\x01\x00\x00\x01\x00\x01\x2C\x01\x02\x02\x06\x00\x01\x04\x00";
    let store_byte = b"\x01\x00\x01\x01\x00\x00\x01\x00\x01\x2C\x01\x02\x00\x06\x00\x01\x04\x00";
    access(rt, "case 9: a 4-byte load at 12: ", load, 12, &mut memory)?;
    access(rt, "case 9: a 4-byte load at 13: ", load, 13, &mut memory)?;
    access(
        rt,
        "case 9: a 1-byte load at FFFFFFFFFFFFFFFF: ",
        load_byte,
        0xFFFFFFFFFFFFFFFF,
        &mut memory,
    )?;
    access(
        rt,
        "case 9: a 1-byte store at FFFFFFFFFFFFFFFF: ",
        store_byte,
        0xFFFFFFFFFFFFFFFF,
        &mut memory,
    )?;
    access(rt, "case 9: a 4-byte store at 13: ", store, 13, &mut memory)?;
    access(rt, "case 9: a 4-byte store at 12: ", store, 12, &mut memory)
}

// Bit 4: aligned, at an odd address inside and outside the memory, and past its end.
fn aligned_accesses(rt: &impl Print) -> io::Result<()> {
    let mut memory = [0u8, 1, 2, 3, 4, 5, 6, 7, 8, 9, 10, 11, 12, 13, 14, 15];
    let load = b"\x01\x00\x01\x01\x00\x00\x01\x00\x01\x2B\x01\x02\x12\x06\x00\x01\x04\x00";
    let store = b"\x01\x00\x01\x01\x00\x00\x01\x00\x01\x2C\x01\x02\x12\x06\x00\x01\x04\x00";
    access(
        rt,
        "a 4-byte load with bit 4 at 12: ",
        load,
        12,
        &mut memory,
    )?;
    access(rt, "a 4-byte load with bit 4 at 5: ", load, 5, &mut memory)?;
    access(
        rt,
        "a 4-byte load with bit 4 at 13: ",
        load,
        13,
        &mut memory,
    )?;
    access(
        rt,
        "a 4-byte load with bit 4 at 16: ",
        load,
        16,
        &mut memory,
    )?;
    access(
        rt,
        "a 4-byte store with bit 4 at 5: ",
        store,
        5,
        &mut memory,
    )?;
    access(
        rt,
        "a 4-byte store with bit 4 at FFFFFFFFFFFFFFFF: ",
        store,
        0xFFFFFFFFFFFFFFFF,
        &mut memory,
    )?;
    access(
        rt,
        "a 4-byte store with bit 4 at 16: ",
        store,
        16,
        &mut memory,
    )?;
    access(
        rt,
        "a 4-byte store with bit 4 at 8: ",
        store,
        8,
        &mut memory,
    )
}

fn case_10(rt: &impl Print) -> io::Result<()> {
    let signed = b"\x01\x00\x01\x01\x00\x00\x01\x00\x01\x2B\x01\x02\x04\x06\x00\x01\x04\x00";
    let little = b"\x01\x00\x01\x01\x00\x00\x01\x00\x01\x2B\x01\x02\x01\x06\x00\x01\x04\x00";
    let big = b"\x01\x00\x01\x01\x00\x00\x01\x00\x01\x2B\x01\x02\x09\x06\x00\x01\x04\x00";
    let mut byte = [0x80u8];
    let mut two = [0x12u8, 0x34];
    access(rt, "case 10: 80 signed: ", signed, 0, &mut byte)?;
    access(rt, "case 10: 12 34 little-endian: ", little, 0, &mut two)?;
    access(rt, "case 10: 12 34 big-endian: ", big, 0, &mut two)
}

// Writes the pass's result, the rest of the buffer, and the run of the result.
fn show_result(rt: &impl Print, out: &[u8], n: usize) -> io::Result<()> {
    if n <= out.len() {
        print!(rt; "case 12: result of {n} bytes:")?;
        show_bytes(rt, &out[0..n])?;
        println!(rt; "")?;
        print!(rt; "case 12: rest of the buffer:")?;
        show_bytes(rt, &out[n..])?;
        println!(rt; "")?;
        let mut globals = [7u64, 2, 3, 4];
        let mut memory = [0u8; 0];
        run(
            rt,
            "case 12: after: ",
            &out[0..n],
            &mut globals,
            &mut memory,
        )?;
    }
    Ok(())
}

fn case_12(rt: &impl Print) -> io::Result<()> {
    let block =
        b"\x01\x00\x01\x01\x00\x00\x01\x00\x00\x01\x00\x00\x01\x02\x00\x10\x04\x01\x00\x00\x00\x00\x00\x00\x00\x14\x01\x02\x03\x14\x01\x01\x04\x11\x01\x04\x04\x00";
    let mut globals = [7u64, 2, 3, 4];
    let mut memory = [0u8; 0];
    run(rt, "case 12: before: ", block, &mut globals, &mut memory)?;
    let mut out = [0xEEu8; 32];
    match pass::pass(block, &mut out) {
        Ok(n) => show_result(rt, &out, n),
        Err(refusal) => println!(rt; "case 12: {refusal}"),
    }
}

fn main(rt: HostRuntime) -> io::Result<()> {
    case_2(&rt)?;
    case_3(&rt)?;
    case_4(&rt)?;
    case_5(&rt)?;
    case_6(&rt)?;
    case_7(&rt)?;
    case_8(&rt)?;
    case_9(&rt)?;
    aligned_accesses(&rt)?;
    case_10(&rt)?;
    case_12(&rt)
}
