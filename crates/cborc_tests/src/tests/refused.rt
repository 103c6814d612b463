//! Which bytes are refused, for what reason and where, by each subcommand that reads an item.

use super::{columns, ran};
use std::alloc::{AllocError, Global};

// The options, the file, and the line of the refusal, in the order of the reasons.
static REFUSED: &str = r#" |  | refused 1 Truncated at 0
 | 18 | refused 1 Truncated at 1
 | 1bffffffffffffff | refused 1 Truncated at 8
 | f8 | refused 1 Truncated at 1
 | 41 | refused 1 Truncated at 1
 | 9f | refused 1 Truncated at 1
 | c1 | refused 1 Truncated at 1
 | 1903 | refused 1 Truncated at 2
 | 8201 | refused 1 Truncated at 2
 | 5f41 | refused 1 Truncated at 2
 | 5bffffffffffffffff | refused 1 Truncated at 9
 | bb8000000000000000 | refused 1 Truncated at 9
 | 62ff | refused 1 Truncated at 2
 | 7bffffffffffffffff | refused 1 Truncated at 9
 | 9bffffffffffffffff | refused 1 Truncated at 9
 | bbffffffffffffffff | refused 1 Truncated at 9
 | 81 | refused 1 Truncated at 1
--bytes 8 | 1bffffffffffffffff | refused 2 TooLong at 8
--bytes 8 | 1bffffffffffffff | refused 2 TooLong at 8
--bytes 1 | 1864 | refused 2 TooLong at 1
--bytes 1 | f81f | refused 2 TooLong at 1
--bytes 0 | 00 | refused 2 TooLong at 0
--bytes 0 |  | refused 2 TooLong at 0
--bytes 0 | ff | refused 2 TooLong at 0
--bytes 0 | 80 | refused 2 TooLong at 0
 | 1c | refused 3 Reserved at 0
 | 1d | refused 3 Reserved at 0
 | 1e | refused 3 Reserved at 0
 | 3c | refused 3 Reserved at 0
 | 5c | refused 3 Reserved at 0
 | 7d | refused 3 Reserved at 0
 | 9e | refused 3 Reserved at 0
 | bc | refused 3 Reserved at 0
 | dd | refused 3 Reserved at 0
 | fe | refused 3 Reserved at 0
 | 3d | refused 3 Reserved at 0
 | 5e | refused 3 Reserved at 0
 | 7c | refused 3 Reserved at 0
 | 9d | refused 3 Reserved at 0
 | be | refused 3 Reserved at 0
 | dc | refused 3 Reserved at 0
 | fc | refused 3 Reserved at 0
--depth 0 | 9c | refused 3 Reserved at 0
 | 811c | refused 3 Reserved at 1
 | a11c | refused 3 Reserved at 1
 | c11c | refused 3 Reserved at 1
 | 9f1c | refused 3 Reserved at 1
 | a1001c | refused 3 Reserved at 2
 | bf001c | refused 3 Reserved at 2
 | 1f | refused 4 NoIndefinite at 0
 | 3f | refused 4 NoIndefinite at 0
 | df | refused 4 NoIndefinite at 0
 | f90000 | refused 5 Float at 0
 | fa | refused 5 Float at 0
 | fb | refused 5 Float at 0
 | f97c00 | refused 5 Float at 0
 | fa00000000 | refused 5 Float at 0
 | fb0000000000000000 | refused 5 Float at 0
 | 8201f90000 | refused 5 Float at 2
 | f800 | refused 6 BadSimple at 1
 | f81f | refused 6 BadSimple at 1
 | f818 | refused 6 BadSimple at 1
 | ff | refused 7 StrayBreak at 0
 | 81ff | refused 7 StrayBreak at 1
 | a1ff | refused 7 StrayBreak at 1
 | c1ff | refused 7 StrayBreak at 1
 | a100ff | refused 7 StrayBreak at 2
 | bf00ff | refused 7 StrayBreak at 2
 | 5f5c | refused 8 BadChunk at 1
 | 7f4100ff | refused 8 BadChunk at 1
 | 5f6100ff | refused 8 BadChunk at 1
 | 5f00ff | refused 8 BadChunk at 1
 | 5f5f4100ffff | refused 8 BadChunk at 1
 | 5f1c | refused 8 BadChunk at 1
 | 7f1c | refused 8 BadChunk at 1
--depth 1 | c1c100 | refused 9 TooDeep at 1 | 1(1(0))
--depth 0 | 9f | refused 9 TooDeep at 0
--depth 2 | 818180 | refused 9 TooDeep at 2 | [[[]]]
--depth 2 | 81818101 | refused 9 TooDeep at 2 | [[[1]]]
--depth 0 | 80 | refused 9 TooDeep at 0 | []
 | 61ff | refused 10 InvalidText at 1
 | 63eda080 | refused 10 InvalidText at 1
 | 6341c080 | refused 10 InvalidText at 2
 | 6341e6b0 | refused 10 InvalidText at 2
 | 64f4908080 | refused 10 InvalidText at 1
 | 7f61c361bcff | refused 10 InvalidText at 2
 | a161ff | refused 10 InvalidText at 2
 | a2616100616101 | refused 11 RepeatedKey at 4 | {"a": 0, "a": 1}
 | a26161007f6161ff01 | refused 11 RepeatedKey at 4 | {"a": 0, "a": 1}
 | a20100180100 | refused 11 RepeatedKey at 3 | {1: 0, 1: 0}
 | a2a20102030400a20304010201 | refused 11 RepeatedKey at 7 | {{1: 2, 3: 4}: 0, {3: 4, 1: 2}: 1}
 | a2a1010100a20101010100 | refused 11 RepeatedKey at 8 | {{1: 1}: 0, {1: 1, 1: 1}: 0}
 | a201000100 | refused 11 RepeatedKey at 3 | {1: 0, 1: 0}
 | 0000 | refused 12 Trailing at 1
 | 186400 | refused 12 Trailing at 2
--bytes 1 | 0000 | refused 12 Trailing at 1
 | 9fffff | refused 12 Trailing at 2
 | a1010200 | refused 12 Trailing at 3
--keys basic | a18000 | refused 20 KeyKind at 1 | {[]: 0}
--keys basic | a1f400 | refused 20 KeyKind at 1 | {false: 0}
--keys basic | a1410000 | refused 20 KeyKind at 1 | {h'00': 0}
--keys basic | a1c10000 | refused 20 KeyKind at 1 | {1(0): 0}
--keys basic | a100a18000 | refused 20 KeyKind at 3 | {0: {[]: 0}}
--keys basic | a1f8 | refused 20 KeyKind at 1
--keys basic --bytes 2 | a1f8 | refused 20 KeyKind at 1
--keys basic | a1f81f00 | refused 20 KeyKind at 1
--keys basic | a1f97c0000 | refused 5 Float at 1
--keys basic --depth 1 | a18000 | refused 9 TooDeep at 1 | {[]: 0}"#;

// Rows that the strict rules refuse.
static NOT_CANONICAL: &str = r#" | a1 | refused 1 Truncated at 1
 | 811c | refused 3 Reserved at 1
 | a11c | refused 3 Reserved at 1
 | c11c | refused 3 Reserved at 1
 | a1001c | refused 3 Reserved at 2
 | 1f | refused 4 NoIndefinite at 0
 | 61ff | refused 10 InvalidText at 1
 | a26261610061ff00 | refused 10 InvalidText at 6 | before its key order
 | a1010200 | refused 12 Trailing at 3 | {1: 2} and a byte
 | 1800 | refused 14 NotShortest at 0 | 0
 | 1900ff | refused 14 NotShortest at 0 | 255
 | 5800 | refused 14 NotShortest at 0 | h''
 | 7801ff | refused 14 NotShortest at 0 | before its text
 | 811817 | refused 14 NotShortest at 1 | [23]
 | d80100 | refused 14 NotShortest at 0 | 1(0)
 | a20100180100 | refused 14 NotShortest at 3 | {1: 0, 1: 0}
 | a2186400180100 | refused 14 NotShortest at 4 | {100: 0, 1: 0}
 | 9fff | refused 15 Indefinite at 0 | []
 | a19fff00 | refused 15 Indefinite at 1 | {[]: 0}
 | 7f657374726561646d696e67ff | refused 15 Indefinite at 0 | "streaming"
 | a201000100 | refused 16 KeyOrder at 3 | {1: 0, 1: 0}
 | a202000100 | refused 16 KeyOrder at 3 | {2: 0, 1: 0}
 | a2a0008000 | refused 16 KeyOrder at 3 | {{}: 0, []: 0}
 | a2a201000000000000 | refused 16 KeyOrder at 4 | {{1: 0, 0: 0}: 0, 0: 0}
--order length | a21864002000 | refused 16 KeyOrder at 4 | {100: 0, -1: 0}
--keys basic | a19fff00 | refused 20 KeyKind at 1 | {[]: 0}"#;

// Text that `--hex` refuses.
static NOT_HEX: [&str; 9] = [
    "180", "18 0 ", "0", "0g", "0x00", "18,00", "18\x0b00", "18\x0c00", "éé",
];

// Whether each command refuses the file of the row as it says.
fn is_refused(alloc: Global, commands: &[&str], row: &str) -> Result<bool, AllocError> {
    let Some((options, file, refusal)) = columns(row) else {
        return Ok(false);
    };
    for command in commands {
        let line = format!(in alloc; "{command} {options}")?;
        if !ran(alloc, line.as_str(), file)?.stopped(1, refusal) {
            return Ok(false);
        }
    }
    Ok(true)
}

#[test]
fn refuses(rt: HostRuntime) -> Result<(), AllocError> {
    let commands = [
        "canon in out",
        "canon --hex in out",
        "check in",
        "check --hex in",
        "show in",
    ];
    for row in REFUSED.lines() {
        assert!(rt; is_refused(rt.alloc(), &commands, row)?, "{row}");
    }
    Ok(())
}

#[test]
fn refuses_what_is_not_canonical(rt: HostRuntime) -> Result<(), AllocError> {
    let commands = ["check --strict in", "check --strict --hex in"];
    for row in NOT_CANONICAL.lines() {
        assert!(rt; is_refused(rt.alloc(), &commands, row)?, "{row}");
    }
    Ok(())
}

#[test]
fn reads_hex_digits_alone(rt: HostRuntime) -> Result<(), AllocError> {
    for &text in &NOT_HEX {
        for line in ["canon --hex in out", "check --hex in"] {
            let ran = ran(rt.alloc(), line, text)?;
            assert!(rt; ran.stopped(3, "not hex: in"), "{text} {line}");
        }
    }
    Ok(())
}
