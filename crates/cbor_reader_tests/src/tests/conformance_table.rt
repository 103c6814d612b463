//! The conformance table: which bytes are which item, and why others are refused.
//!
//! One row a line, with five columns between bars; a line that begins with `//` heads the rows below:
//!
//! 1. The input in hex digits. `256*c1` means `c1` 256 times.
//! 2. The limits: `depth 1`, `bytes 4`, `keys basic`, or more of them in this order. Without them the
//!    depth is 256, the bytes 1048576, and keys are of any kind; `basic` is `IntegersAndTexts`.
//! 3. The canonical bytes of the input (RFC 8949, section 4.2): `same`, or the bytes in hex; with a
//!    slash, first in the bytewise order of keys and then in the length-first one. Or the
//!    refusal: the reason's number and name, the offset, and the number of bytes read.
//! 4. What the strict reader returns, if it is not as in column 3 (`same` then means that all bytes
//!    are consumed): `taken` and a count, or a refusal; with a slash for the two orders.
//! 5. The item in diagnostic notation (section 8), or the reason in words.
//!
//! The bytes of the first rows are those of the examples of appendix A without floating-point
//! numbers. Canonical bytes and refusals were worked out by hand from the definitions. More rows of
//! refusals are in `refusals_table.rt`, those of kinds of keys in `keys_table.rt`, those of each
//! first byte in `initial_bytes_table.rt`.

use super::initial_bytes_table::INITIAL_BYTES;
use super::keys_table::KINDS_OF_KEYS;
use super::refusals_table::REFUSALS;

/// The rows of this file and of the three others.
pub(super) fn tables() -> [&'static str; 4] {
    [ACCEPTED, REFUSALS, KINDS_OF_KEYS, INITIAL_BYTES]
}

static ACCEPTED: &str = r#"
// Appendix A.
00 | | same | | 0
01 | | same | | 1
0a | | same | | 10
17 | | same | | 23
1818 | | same | | 24
1819 | | same | | 25
1864 | | same | | 100
1903e8 | | same | | 1000
1a000f4240 | | same | | 1000000
1b000000e8d4a51000 | | same | | 1000000000000
1bffffffffffffffff | | same | | 18446744073709551615
c249010000000000000000 | | same | | 2(h'010000000000000000')
3bffffffffffffffff | | same | | -18446744073709551616
c349010000000000000000 | | same | | 3(h'010000000000000000')
20 | | same | | -1
29 | | same | | -10
3863 | | same | | -100
3903e7 | | same | | -1000
f4 | | same | | false
f5 | | same | | true
f6 | | same | | null
f7 | | same | | undefined
f0 | | same | | simple(16)
f8ff | | same | | simple(255)
c074323031332d30332d32315432303a30343a30305a | | same | | 0("2013-03-21T20:04:00Z")
c11a514b67b0 | | same | | 1(1363896240)
d74401020304 | | same | | 23(h'01020304')
d818456449455446 | | same | | 24(h'6449455446')
d82076687474703a2f2f7777772e6578616d706c652e636f6d | | same | | 32("http://www.example.com")
40 | | same | | h''
4401020304 | | same | | h'01020304'
60 | | same | | ""
6161 | | same | | "a"
6449455446 | | same | | "IETF"
62225c | | same | | the quoted characters " and \
62c3bc | | same | | "ü"
63e6b0b4 | | same | | "水"
64f0908591 | | same | | the quoted character U+10151
80 | | same | | []
83010203 | | same | | [1, 2, 3]
8301820203820405 | | same | | [1, [2, 3], [4, 5]]
98190102030405060708090a0b0c0d0e0f101112131415161718181819 | | same | | [1, 2, .., 25]
a0 | | same | | {}
a201020304 | | same | | {1: 2, 3: 4}
a26161016162820203 | | same | | {"a": 1, "b": [2, 3]}
826161a161626163 | | same | | ["a", {"b": "c"}]
a56161614161626142616361436164614461656145 | | same | | {"a": "A", "b": "B", "c": "C", "d": "D", "e": "E"}
5f42010243030405ff | | 450102030405 | 15 Indefinite at 0, read 1 | h'0102030405'
7f657374726561646d696e67ff | | 6973747265616d696e67 | 15 Indefinite at 0, read 1 | "streaming"
9fff | | 80 | 15 Indefinite at 0, read 1 | []
9f018202039f0405ffff | | 8301820203820405 | 15 Indefinite at 0, read 1 | [1, [2, 3], [4, 5]]
9f01820203820405ff | | 8301820203820405 | 15 Indefinite at 0, read 1 | [1, [2, 3], [4, 5]]
83018202039f0405ff | | 8301820203820405 | 15 Indefinite at 5, read 6 | [1, [2, 3], [4, 5]]
83019f0203ff820405 | | 8301820203820405 | 15 Indefinite at 2, read 3 | [1, [2, 3], [4, 5]]
9f0102030405060708090a0b0c0d0e0f101112131415161718181819ff | | 98190102030405060708090a0b0c0d0e0f101112131415161718181819 | 15 Indefinite at 0, read 1 | [1, 2, .., 25]
bf61610161629f0203ffff | | a26161016162820203 | 15 Indefinite at 0, read 1 | {"a": 1, "b": [2, 3]}
826161bf61626163ff | | 826161a161626163 | 15 Indefinite at 3, read 4 | ["a", {"b": "c"}]
bf6346756ef563416d7421ff | | a263416d74216346756ef5 | 15 Indefinite at 0, read 1 | {"Fun": true, "Amt": -2}
// Heads at the bounds of their widths, and heads that are not the shortest.
1817 | | 17 | 14 NotShortest at 0, read 2 | 23
1800 | | 00 | 14 NotShortest at 0, read 2 | 0
1b0000000000000017 | | 17 | 14 NotShortest at 0, read 9 | 23
18ff | | same | | 255
1900ff | | 18ff | 14 NotShortest at 0, read 3 | 255
190100 | | same | | 256
19ffff | | same | | 65535
1a0000ffff | | 19ffff | 14 NotShortest at 0, read 5 | 65535
1a00010000 | | same | | 65536
1affffffff | | same | | 4294967295
1b00000000ffffffff | | 1affffffff | 14 NotShortest at 0, read 9 | 4294967295
1b0000000100000000 | | same | | 4294967296
37 | | same | | -24
3817 | | 37 | 14 NotShortest at 0, read 2 | -24
390017 | | 37 | 14 NotShortest at 0, read 3 | -24
3a00000017 | | 37 | 14 NotShortest at 0, read 5 | -24
3b0000000000000000 | | 20 | 14 NotShortest at 0, read 9 | -1
5800 | | 40 | 14 NotShortest at 0, read 2 | h''
580107 | | 4107 | 14 NotShortest at 0, read 2 | h'07'
59000107 | | 4107 | 14 NotShortest at 0, read 3 | h'07'
5a0000000107 | | 4107 | 14 NotShortest at 0, read 5 | h'07'
5b000000000000000107 | | 4107 | 14 NotShortest at 0, read 9 | h'07'
780161 | | 6161 | 14 NotShortest at 0, read 2 | "a"
79000161 | | 6161 | 14 NotShortest at 0, read 3 | "a"
7a0000000161 | | 6161 | 14 NotShortest at 0, read 5 | "a"
7b000000000000000161 | | 6161 | 14 NotShortest at 0, read 9 | "a"
980107 | | 8107 | 14 NotShortest at 0, read 2 | [7]
99000107 | | 8107 | 14 NotShortest at 0, read 3 | [7]
9a0000000107 | | 8107 | 14 NotShortest at 0, read 5 | [7]
9b000000000000000107 | | 8107 | 14 NotShortest at 0, read 9 | [7]
b8010102 | | a10102 | 14 NotShortest at 0, read 2 | {1: 2}
b900010102 | | a10102 | 14 NotShortest at 0, read 3 | {1: 2}
ba000000010102 | | a10102 | 14 NotShortest at 0, read 5 | {1: 2}
bb00000000000000010102 | | a10102 | 14 NotShortest at 0, read 9 | {1: 2}
d80100 | | c100 | 14 NotShortest at 0, read 2 | 1(0)
d9000100 | | c100 | 14 NotShortest at 0, read 3 | 1(0)
da0000000100 | | c100 | 14 NotShortest at 0, read 5 | 1(0)
db000000000000000100 | | c100 | 14 NotShortest at 0, read 9 | 1(0)
d9010000 | | same | | 256(0)
da0001000000 | | same | | 65536(0)
dbffffffffffffffff00 | | same | | 18446744073709551615(0)
811817 | | 8117 | 14 NotShortest at 1, read 3 | [23]
5818 24*07 | | same | | 24 bytes 07
7818 24*61 | | same | | 24 letters a
9818 24*00 | | same | | an array of 24 zeros
// Simple values, tags and strings.
f820 | | same | | simple(32)
c24101 | | same | | 2(h'01')
818101 | | same | | [[1]]
64225c0a7f | | same | | "\"\\\u000a\u007f"
181c | | same | | 28
411c | | same | | h'1c'
611c | | same | | "\u001c"
a10102 | | same | | {1: 2}
256*c1 00 | | same | | 0 in 256 tags 1
1024*c1 00 | depth 1024 | same | | 0 in 1024 tags 1
// Strings of indefinite length.
5fff | | 40 | 15 Indefinite at 0, read 1 | h'', no chunks
7fff | | 60 | 15 Indefinite at 0, read 1 | "", no chunks
5f4161ff | | 4161 | 15 Indefinite at 0, read 1 | h'61'
5f40ff | | 40 | 15 Indefinite at 0, read 1 | h'', an empty chunk
7f60ff | | 60 | 15 Indefinite at 0, read 1 | "", an empty chunk
5f41004101ff | | 420001 | 15 Indefinite at 0, read 1 | h'0001'
5f580107ff | | 4107 | 15 Indefinite at 0, read 1 | h'07'
5f59000107ff | | 4107 | 15 Indefinite at 0, read 1 | h'07'
5f5a0000000107ff | | 4107 | 15 Indefinite at 0, read 1 | h'07'
5f5b000000000000000107ff | | 4107 | 15 Indefinite at 0, read 1 | h'07'
7f780161ff | | 6161 | 15 Indefinite at 0, read 1 | "a"
7f79000161ff | | 6161 | 15 Indefinite at 0, read 1 | "a"
7f7a0000000161ff | | 6161 | 15 Indefinite at 0, read 1 | "a"
7f7b000000000000000161ff | | 6161 | 15 Indefinite at 0, read 1 | "a"
// Maps.
bfff | | a0 | 15 Indefinite at 0, read 1 | {}
a2416100616101 | | same | | {h'61': 0, "a": 1}
a2c101000101 | | a20101c10100 | 16 KeyOrder at 4, read 5 | {1(1): 0, 1: 1}: a tag is not its content
a202000100 | | a201000200 | 16 KeyOrder at 3, read 4 | {2: 0, 1: 0}
a2186400180100 | | a20100186400 | 14 NotShortest at 4, read 6 | {100: 0, 1: 0}
bf190003040102ff | | a201020304 | 15 Indefinite at 0, read 1 | {3: 4, 1: 2}
a8626161010a021864032004617a0581186406812007f408 | | a80a021864032004617a056261610181186406812007f408 / a80a022004f408186403617a058120076261610181186406 | 16 KeyOrder at 5, read 6 | {"aa": 1, 10: 2, 100: 3, -1: 4, "z": 5, [100]: 6, [-1]: 7, false: 8}
a80a021864032004617a056261610181186406812007f408 | | same / a80a022004f408186403617a058120076261610181186406 | taken 24 / 16 KeyOrder at 6, read 7 | the same in bytewise order
a80a022004f408186403617a058120076261610181186406 | | a80a021864032004617a056261610181186406812007f408 / same | 16 KeyOrder at 7, read 9 / taken 24 | the same in length-first order
a21864002000 | | same / a22000186400 | taken 6 / 16 KeyOrder at 4, read 5 | {100: 0, -1: 0}
a100a21864002000 | | same / a100a22000186400 | taken 8 / 16 KeyOrder at 6, read 7 | {0: {100: 0, -1: 0}}
a2a21864002000000100 | | a20100a2186400200000 / a20100a2200018640000 | 16 KeyOrder at 8, read 9 / 16 KeyOrder at 5, read 6 | {{100: 0, -1: 0}: 0, 1: 0}
a2a0008000 | | a28000a000 | 16 KeyOrder at 3, read 4 | {{}: 0, []: 0}
a2a201000000000000 | | a20000a20000010000 | 16 KeyOrder at 4, read 5 | {{1: 0, 0: 0}: 0, 0: 0}
a2a1010000a1010100 | | same | | {{1: 0}: 0, {1: 1}: 0}
a2a1010100a1010000 | | a2a1010000a1010100 | 16 KeyOrder at 5, read 8 | {{1: 1}: 0, {1: 0}: 0}
256*a100 00 | | same | | 0 in 256 maps with the key 0
1024*a100 00 | depth 1024 | same | | 0 in 1024 maps with the key 0
a282a302002000186481a201000000c5410100a26162016161a22000186400a22000186400 | | a282a30200186481a2000001002000c5410100a26161a21864002000616201a21864002000 / a2a26161a22000186400616201a2200018640082a302002000186481a200000100c5410100 | 16 KeyOrder at 7, read 9 / 16 KeyOrder at 13, read 14 | {[{2: 0, -1: 0, 100: [{1: 0, 0: 0}]}, 5(h'01')]: 0, {"ab": 1, "aa": {-1: 0, 100: 0}}: {-1: 0, 100: 0}}
a2a2a2186400200000c1a220f51864f480000000 | | a20000a2a2186400200000c1a21864f420f58000 / a20000a2a2200018640000c1a220f51864f48000 | 16 KeyOrder at 13, read 15 / 16 KeyOrder at 6, read 7 | {{{100: 0, -1: 0}: 0, 1({-1: true, 100: false}): []}: 0, 0: 0}
"#;

/// What the comparison returns for two inputs: `left | right | result | why`. It names the side that
/// is refused.
pub(crate) static PAIRS: &str = r#"
a201020304 | bf190003040102ff | same | {1: 2, 3: 4} in another order and spelling
5f4161ff | 4161 | same | h'61' in chunks
7f61616162ff | 626162 | same | "ab" in chunks
1b0000000000000001 | 01 | same | 1 in nine bytes
a2a201000200000100 | a20100a202000100 00 | same | {{1: 0, 2: 0}: 0, 1: 0}: order within a key
4161 | 6161 | different | h'61' and "a"
01 | 20 | different | 1 and -1
01 | 02 | different | 1 and 2
01 | f5 | different | 1 and true
c24101 | 01 | different | a bignum is a tag, not an integer
c101 | c201 | different | tags of unlike numbers
c101 | c102 | different | tags of unlike content
c101 | 01 | different | a tag is not its content
820102 | 820201 | different | [1, 2] and [2, 1]
8101 | 820101 | different | [1] and [1, 1]
80 | a0 | different | [] and {}
a10102 | a10103 | different | {1: 2} and {1: 3}
a10102 | a2010203 04 | different | {1: 2} and {1: 2, 3: 4}
a20102 0304 | a20104 0302 | different | {1: 2, 3: 4} and {1: 4, 3: 2}
61ff | 1f | left 10 InvalidText at 1, read 2 | both are refused
1f | 61ff | left 4 NoIndefinite at 0, read 1 | both are refused
0000 | 1f | left 12 Trailing at 1, read 1 | both are refused
00 | 0000 | right 12 Trailing at 1, read 1 | 0, and 0
00 | 1f | right 4 NoIndefinite at 0, read 1 | the left one is accepted
00 |  | right 1 Truncated at 0, read 0 | nothing on the right
 | 00 | left 1 Truncated at 0, read 0 | nothing on the left
00 | a201000100 | right 11 RepeatedKey at 3, read 4 | {1: 0, 1: 0}
"#;
