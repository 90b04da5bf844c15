// The bench cases of document 01 and those of change requests, run: for each the answers of the
// compiled code, and whether they are those of the table. What is handed to the code is required to
// be a case of the table in crate `casetable`, which is proved of the rules.
#![tactic(auto)]

mod bench;
mod case;
mod text;

use crate::bench::bench_parameter;
use crate::case::{Case, run_case};
use flashrules::error::Error;
use gaugerules::state::{BOOT_OPEN, BOOT_SEALED};
use integers::kind::Kind;

// Cases that are one call.
fn values<R: Print>(rt: &R) {
    run_case(rt, 0, b"P1", Case::Sum(&[0x00; 32], 255));
    run_case(rt, 1, b"P2", Case::Sum(&[0xFF; 32], 31));
    run_case(rt, 2, b"P3", Case::Change(31, 0xFF, 0x00, 30));
    run_case(rt, 3, b"P4", Case::Change(0xFE, 0x01, 0x02, 0xFD));
    run_case(rt, 5, b"P6", Case::Lookup(48, 1, None, 1));
    run_case(
        rt,
        6,
        b"P6",
        Case::Lookup(48, 2, Some(Error::UnknownBlock), 0),
    );
}

// Cases that are a script.
#[tactic(auto, unfolding(hextext::specs::Hex::digit))]
fn sessions<R: Print>(rt: &R) {
    let script = b"007F01\n007F02\n007F00\n";
    let output = b"0000\n01\n01\n";
    let case = Case::Session(0, BOOT_SEALED, script, output, 0, 0);
    run_case(rt, 4, b"P5", case);
    let script = b"016100\n013E3001\n01400507\n006001\n0160FA\n0160F3\n";
    let output = b"000100\n000200\n000200\n00F3\n080000\n000101\n";
    let case = Case::Session(0, BOOT_OPEN, script, output, 32, 5);
    run_case(rt, 7, b"P7", case);
    let script = b"01001404\n01001404\n01007236\n01000000\n000002\n";
    let output = b"000200\n000200\n000200\n000200\n000040\n";
    let case = Case::Session(0, BOOT_SEALED, script, output, 0, 0);
    run_case(rt, 8, b"P8", case);
    let script = b"01001404\n01000000\n01007236\n01000000\n000002\n";
    let output = b"000200\n000200\n000200\n000200\n000060\n";
    let case = Case::Session(0, BOOT_SEALED, script, output, 0, 0);
    run_case(rt, 9, b"P8", case);
    let script = b"013F01\n014009\n";
    let output = b"000100\n070000\n";
    let case = Case::Session(0, BOOT_SEALED, script, output, 0, 0);
    run_case(rt, 10, b"P9", case);
    let script = b"016100\n013E3000\n004020\n01002000\n004020\n";
    let output =
        b"000100\n000200\n005500000000000000000000000000000000000000000000000000000000000000\n000200\n000000000000000000000000000000000000000000000000000000000000000000\n";
    let case = Case::Session(0x55, BOOT_OPEN, script, output, 0, 0x55);
    run_case(rt, 11, b"P10", case);
}

// Cases that set or read a parameter.
fn parameters<R: Print>(rt: &R) {
    let parameter = bench_parameter(48, 31, Kind::U16, 0, 65535);
    let case = Case::SetParameter(false, parameter, 0x1234, None, 31, &[0x12, 0x34]);
    run_case(rt, 12, b"P11", case);
    let parameter = bench_parameter(58, 95, Kind::U16, 0, 65535);
    let case = Case::SetParameter(
        false,
        parameter,
        0x1234,
        Some(Error::MisplacedParameter),
        0,
        b"",
    );
    run_case(rt, 13, b"P11", case);
    let parameter = bench_parameter(48, 30, Kind::U16, 0, 65535);
    let case = Case::SetParameter(false, parameter, 0x1234, None, 30, &[0x12, 0x34]);
    run_case(rt, 14, b"P11", case);
    let parameter = bench_parameter(48, 0, Kind::I8, -128, 127);
    let case = Case::SetParameter(false, parameter, -128, None, 0, &[0x80]);
    run_case(rt, 15, b"P12", case);
    let parameter = bench_parameter(48, 0, Kind::I8, -128, 127);
    let case = Case::GetParameter(0x80, parameter, -128);
    run_case(rt, 16, b"P12", case);
}

// Cases of change requests.
#[tactic(auto, unfolding(hextext::specs::Hex::digit))]
fn requests<R: Print>(rt: &R) {
    let script = b"013F02\n014007\n0160F800\n0160F8\n";
    let output = b"000100\n000100\n030101\n000100\n";
    let case = Case::Session(0, BOOT_SEALED, script, output, 65, 7);
    run_case(rt, 17, b"C-12", case);
    let script =
        b"01001404\n01007236\n016100\n013E7000\n014701\n01603F\n01603E\n01470001\n01603E\n";
    let output = b"000200\n000200\n000100\n000200\n000100\n080000\n100000\n000200\n000101\n";
    let case = Case::Session(0, BOOT_SEALED, script, output, 137, 1);
    run_case(rt, 18, b"C-14", case);
    let script = b"016100\n013E7000\n014015\n01603E\n";
    let output = b"000100\n000200\n000100\n000101\n";
    let case = Case::Session(0, BOOT_OPEN, script, output, 129, 0x15);
    run_case(rt, 19, b"C-14", case);
    let script =
        b"020A8B\n013F0207\n0160F8\n01002000\n013F0207\n0160F8\n021195\n021194\n020A8C\n0160F8\n";
    let output = b"00\n000200\n110000\n000200\n000200\n110000\n01\n00\n00\n000101\n";
    let case = Case::Session(0, BOOT_SEALED, script, output, 65, 7);
    run_case(rt, 20, b"C-16", case);
}

// Parameters that cross a block's end, the second with a cut of power.
fn across_blocks<R: Print>(rt: &R) {
    let max = 0xFFFFFFFF;
    let value = 0x12345678;
    let parameter = bench_parameter(58, 30, Kind::U32, 0, max);
    let case = Case::SetParameter(false, parameter, value, None, 63, &[0x12, 0x34, 0x56, 0x78]);
    run_case(rt, 21, b"C-17", case);
    let parameter = bench_parameter(58, 30, Kind::U32, 0, max);
    let case = Case::SetParameter(true, parameter, value, None, 63, &[0x12, 0x34]);
    run_case(rt, 22, b"C-17", case);
    let parameter = bench_parameter(48, 29, Kind::I32, -2, 0);
    let case = Case::SetParameter(false, parameter, -2, None, 29, &[0xFF, 0xFF, 0xFF, 0xFE]);
    run_case(rt, 23, b"C-17", case);
    let parameter = bench_parameter(48, 30, Kind::I32, -2, 0);
    let case = Case::SetParameter(
        false,
        parameter,
        -2,
        Some(Error::MisplacedParameter),
        0,
        b"",
    );
    run_case(rt, 24, b"C-17", case);
}

fn main(rt: HostRuntime) {
    values(&rt);
    sessions(&rt);
    parameters(&rt);
    requests(&rt);
    across_blocks(&rt);
}
