//! The tables of events: bytes, and the events that they report.
//!
//! One row a line, with five columns separated by bars: the bytes in hex digits; the limits on depth
//! and on bytes, if they are not 256 and 1048576; the events; the last result; and what the bytes
//! are, or why they are refused.
//!
//! An event is four words: its offset, its name, its argument, and the number of bytes of the
//! argument after the first byte of the head; `-` if there is none. An empty result is that the item
//! is complete with all bytes consumed. Other results are `done` and the number of bytes consumed;
//! `more`; or a reason, its offset, and the number of bytes consumed.

// Items of RFC 8949, appendix A, without floats, and others, in diagnostic notation.
pub(super) static ACCEPTED: &str = r#"
00 | | 0 unsigned 0 0 | | 0
01 | | 0 unsigned 1 0 | | 1
0a | | 0 unsigned 10 0 | | 10
17 | | 0 unsigned 23 0 | | 23
1818 | | 0 unsigned 24 1 | | 24
1819 | | 0 unsigned 25 1 | | 25
1864 | | 0 unsigned 100 1 | | 100
1903e8 | | 0 unsigned 1000 2 | | 1000
1a000f4240 | | 0 unsigned 1000000 4 | | 1000000
1b000000e8d4a51000 | | 0 unsigned 1000000000000 8 | | 1000000000000
1bffffffffffffffff | | 0 unsigned 18446744073709551615 8 | | 18446744073709551615
c249010000000000000000 | | 0 tag 2 0  1 bytes 9 0  2 piece 9 0 | | 2(h'010000000000000000')
3bffffffffffffffff | | 0 negative 18446744073709551615 8 | | -18446744073709551616
c349010000000000000000 | | 0 tag 3 0  1 bytes 9 0  2 piece 9 0 | | 3(h'010000000000000000')
20 | | 0 negative 0 0 | | -1
29 | | 0 negative 9 0 | | -10
3863 | | 0 negative 99 1 | | -100
3903e7 | | 0 negative 999 2 | | -1000
f4 | | 0 simple 20 0 | | false
f5 | | 0 simple 21 0 | | true
f6 | | 0 simple 22 0 | | null
f7 | | 0 simple 23 0 | | undefined
f0 | | 0 simple 16 0 | | simple(16)
f8ff | | 0 simple 255 1 | | simple(255)
c074323031332d30332d32315432303a30343a30305a | | 0 tag 0 0  1 text 20 0  2 piece 20 0 | | 0("2013-03-21T20:04:00Z")
c11a514b67b0 | | 0 tag 1 0  1 unsigned 1363896240 4 | | 1(1363896240)
d74401020304 | | 0 tag 23 0  1 bytes 4 0  2 piece 4 0 | | 23(h'01020304')
d818456449455446 | | 0 tag 24 1  2 bytes 5 0  3 piece 5 0 | | 24(h'6449455446')
d82076687474703a2f2f7777772e6578616d706c652e636f6d | | 0 tag 32 1  2 text 22 0  3 piece 22 0 | | 32("http://www.example.com")
40 | | 0 bytes 0 0 | | h''
4401020304 | | 0 bytes 4 0  1 piece 4 0 | | h'01020304'
60 | | 0 text 0 0 | | ""
6161 | | 0 text 1 0  1 piece 1 0 | | "a"
6449455446 | | 0 text 4 0  1 piece 4 0 | | "IETF"
62225c | | 0 text 2 0  1 piece 2 0 | | "\"\\"
62c3bc | | 0 text 2 0  1 piece 2 0 | | "U+00FC"
63e6b0b4 | | 0 text 3 0  1 piece 3 0 | | "U+6C34"
64f0908591 | | 0 text 4 0  1 piece 4 0 | | "U+10151"
80 | | 0 array 0 0 | | []
83010203 | | 0 array 3 0  1 unsigned 1 0  2 unsigned 2 0  3 unsigned 3 0 | | [1, 2, 3]
8301820203820405 | | 0 array 3 0  1 unsigned 1 0  2 array 2 0  3 unsigned 2 0  4 unsigned 3 0  5 array 2 0  6 unsigned 4 0  7 unsigned 5 0 | | [1, [2, 3], [4, 5]]
98190102030405060708090a0b0c0d0e0f101112131415161718181819 | | 0 array 25 1  2 unsigned 1 0  3 unsigned 2 0  4 unsigned 3 0  5 unsigned 4 0  6 unsigned 5 0  7 unsigned 6 0  8 unsigned 7 0  9 unsigned 8 0  10 unsigned 9 0  11 unsigned 10 0  12 unsigned 11 0  13 unsigned 12 0  14 unsigned 13 0  15 unsigned 14 0  16 unsigned 15 0  17 unsigned 16 0  18 unsigned 17 0  19 unsigned 18 0  20 unsigned 19 0  21 unsigned 20 0  22 unsigned 21 0  23 unsigned 22 0  24 unsigned 23 0  25 unsigned 24 1  27 unsigned 25 1 | | [1, 2, 3, .., 25]
a0 | | 0 map 0 0 | | {}
a201020304 | | 0 map 2 0  1 unsigned 1 0  2 unsigned 2 0  3 unsigned 3 0  4 unsigned 4 0 | | {1: 2, 3: 4}
a26161016162820203 | | 0 map 2 0  1 text 1 0  2 piece 1 0  3 unsigned 1 0  4 text 1 0  5 piece 1 0  6 array 2 0  7 unsigned 2 0  8 unsigned 3 0 | | {"a": 1, "b": [2, 3]}
826161a161626163 | | 0 array 2 0  1 text 1 0  2 piece 1 0  3 map 1 0  4 text 1 0  5 piece 1 0  6 text 1 0  7 piece 1 0 | | ["a", {"b": "c"}]
a56161614161626142616361436164614461656145 | | 0 map 5 0  1 text 1 0  2 piece 1 0  3 text 1 0  4 piece 1 0  5 text 1 0  6 piece 1 0  7 text 1 0  8 piece 1 0  9 text 1 0  10 piece 1 0  11 text 1 0  12 piece 1 0  13 text 1 0  14 piece 1 0  15 text 1 0  16 piece 1 0  17 text 1 0  18 piece 1 0  19 text 1 0  20 piece 1 0 | | {"a": "A", "b": "B", "c": "C", "d": "D", "e": "E"}
5f42010243030405ff | | 0 bytes - -  1 chunk 2 0  2 piece 2 0  4 chunk 3 0  5 piece 3 0  8 end - - | | (_ h'0102', h'030405')
7f657374726561646d696e67ff | | 0 text - -  1 chunk 5 0  2 piece 5 0  7 chunk 4 0  8 piece 4 0  12 end - - | | (_ "strea", "ming")
9fff | | 0 array - -  1 end - - | | [_ ]
9f018202039f0405ffff | | 0 array - -  1 unsigned 1 0  2 array 2 0  3 unsigned 2 0  4 unsigned 3 0  5 array - -  6 unsigned 4 0  7 unsigned 5 0  8 end - -  9 end - - | | [_ 1, [2, 3], [_ 4, 5]]
9f01820203820405ff | | 0 array - -  1 unsigned 1 0  2 array 2 0  3 unsigned 2 0  4 unsigned 3 0  5 array 2 0  6 unsigned 4 0  7 unsigned 5 0  8 end - - | | [_ 1, [2, 3], [4, 5]]
83018202039f0405ff | | 0 array 3 0  1 unsigned 1 0  2 array 2 0  3 unsigned 2 0  4 unsigned 3 0  5 array - -  6 unsigned 4 0  7 unsigned 5 0  8 end - - | | [1, [2, 3], [_ 4, 5]]
83019f0203ff820405 | | 0 array 3 0  1 unsigned 1 0  2 array - -  3 unsigned 2 0  4 unsigned 3 0  5 end - -  6 array 2 0  7 unsigned 4 0  8 unsigned 5 0 | | [1, [_ 2, 3], [4, 5]]
9f0102030405060708090a0b0c0d0e0f101112131415161718181819ff | | 0 array - -  1 unsigned 1 0  2 unsigned 2 0  3 unsigned 3 0  4 unsigned 4 0  5 unsigned 5 0  6 unsigned 6 0  7 unsigned 7 0  8 unsigned 8 0  9 unsigned 9 0  10 unsigned 10 0  11 unsigned 11 0  12 unsigned 12 0  13 unsigned 13 0  14 unsigned 14 0  15 unsigned 15 0  16 unsigned 16 0  17 unsigned 17 0  18 unsigned 18 0  19 unsigned 19 0  20 unsigned 20 0  21 unsigned 21 0  22 unsigned 22 0  23 unsigned 23 0  24 unsigned 24 1  26 unsigned 25 1  28 end - - | | [_ 1, 2, 3, .., 25]
bf61610161629f0203ffff | | 0 map - -  1 text 1 0  2 piece 1 0  3 unsigned 1 0  4 text 1 0  5 piece 1 0  6 array - -  7 unsigned 2 0  8 unsigned 3 0  9 end - -  10 end - - | | {_ "a": 1, "b": [_ 2, 3]}
826161bf61626163ff | | 0 array 2 0  1 text 1 0  2 piece 1 0  3 map - -  4 text 1 0  5 piece 1 0  6 text 1 0  7 piece 1 0  8 end - - | | ["a", {_ "b": "c"}]
bf6346756ef563416d7421ff | | 0 map - -  1 text 3 0  2 piece 3 0  5 simple 21 0  6 text 3 0  7 piece 3 0  10 negative 1 0  11 end - - | | {_ "Fun": true, "Amt": -2}
5fff | | 0 bytes - -  1 end - - | | (_ )
7fff | | 0 text - -  1 end - - | | (_ )
bfff | | 0 map - -  1 end - - | | {_ }
a2416100616101 | | 0 map 2 0  1 bytes 1 0  2 piece 1 0  3 unsigned 0 0  4 text 1 0  5 piece 1 0  6 unsigned 1 0 | | {h'61': 0, "a": 1}
a2c101000101 | | 0 map 2 0  1 tag 1 0  2 unsigned 1 0  3 unsigned 0 0  4 unsigned 1 0  5 unsigned 1 0 | | {1(1): 0, 1: 1}
1b0000000000000017 | | 0 unsigned 23 8 | | 23
a2616100616101 | | 0 map 2 0  1 text 1 0  2 piece 1 0  3 unsigned 0 0  4 text 1 0  5 piece 1 0  6 unsigned 1 0 | | {"a": 0, "a": 1}, well-formed and not valid
61ff | | 0 text 1 0  1 piece 1 0 | | a text that is not UTF-8, well-formed and not valid
"#;

// Well-formed items that are not valid, and one with a byte after it.
pub(super) static NOT_VALID: &str = r#"
63eda080 | | 0 text 3 0  1 piece 3 0 | done 4 | a text of a surrogate
6341c080 | | 0 text 3 0  1 piece 3 0 | done 4 | a text of "A" and U+0000 in two bytes
6341e6b0 | | 0 text 3 0  1 piece 3 0 | done 4 | a text of "A" and the front of a character
64f4908080 | | 0 text 4 0  1 piece 4 0 | done 5 | a text of a character past U+10FFFF
a26161007f6161ff01 | | 0 map 2 0  1 text 1 0  2 piece 1 0  3 unsigned 0 0  4 text - -  5 chunk 1 0  6 piece 1 0  7 end - -  8 unsigned 1 0 | done 9 | {"a": 0, (_ "a"): 1}
a26261610061ff00 | | 0 map 2 0  1 text 2 0  2 piece 2 0  4 unsigned 0 0  5 text 1 0  6 piece 1 0  7 unsigned 0 0 | done 8 | {"aa": 0, and a text that is not UTF-8: 0}
7f616161ffff | | 0 text - -  1 chunk 1 0  2 piece 1 0  3 chunk 1 0  4 piece 1 0  5 end - - | done 6 | (_ "a", and a text that is not UTF-8)
9fffff | | 0 array - -  1 end - - | done 2 | [_ ], and a break after it
"#;

// Prefixes of items: all bytes are consumed, and the item is not complete.
pub(super) static PREFIXES: &str = r#"
| | | more | nothing
18 | | | more | a head without its argument
41 | | 0 bytes 1 0 | more | a byte string without its byte
9f | | 0 array - - | more | an open array
c1 | | 0 tag 1 0 | more | a tag without its content
f8 | | | more | a simple value without its number
1903 | | | more | half of an argument
8201 | | 0 array 2 0  1 unsigned 1 0 | more | half of an array
5f41 | | 0 bytes - -  1 chunk 1 0 | more | a chunk without its byte
5bffffffffffffffff | | 0 bytes 18446744073709551615 8 | more | 2^64 - 1 bytes are to come
bb8000000000000000 | | 0 map 9223372036854775808 8 | more | 2^63 pairs are to come
7b0000000000000002c3 | | 0 text 2 8  9 piece 1 0 | more | half of a character
9b0000000100000000 | | 0 array 4294967296 8 | more | 2^32 items are to come
5a00000001 | | 0 bytes 1 4 | more | a byte string without its byte
da00000001 | | 0 tag 1 4 | more | a tag without its content
5f580201 | | 0 bytes - -  1 chunk 2 1  3 piece 1 0 | more | half of a chunk
"#;

// Bytes that begin no item, with the events before the offset of the refusal.
pub(super) static REFUSED: &str = r#"
1c | | | Reserved 0 1 | reserved additional information
3d | | | Reserved 0 1 | reserved additional information
5e | | | Reserved 0 1 | reserved additional information
7c | | | Reserved 0 1 | reserved additional information
9d | | | Reserved 0 1 | reserved additional information
be | | | Reserved 0 1 | reserved additional information
dc | | | Reserved 0 1 | reserved additional information
fc | | | Reserved 0 1 | reserved additional information
5f5c | | 0 bytes - - | BadChunk 1 2 | no chunk of the string
1f | | | NoIndefinite 0 1 | no indefinite length
3f | | | NoIndefinite 0 1 | no indefinite length
df | | | NoIndefinite 0 1 | no indefinite length
f97c00 | | | Float 0 1 | a float
fa00000000 | | | Float 0 1 | a float
fb0000000000000000 | | | Float 0 1 | a float
8201f90000 | | 0 array 2 0  1 unsigned 1 0 | Float 2 3 | a float
ff | | | StrayBreak 0 1 | a break where an item must begin
81ff | | 0 array 1 0 | StrayBreak 1 2 | a break where an item must begin
a1ff | | 0 map 1 0 | StrayBreak 1 2 | a break where an item must begin
c1ff | | 0 tag 1 0 | StrayBreak 1 2 | a break where an item must begin
a100ff | | 0 map 1 0  1 unsigned 0 0 | StrayBreak 2 3 | a break where an item must begin
bf00ff | | 0 map - -  1 unsigned 0 0 | StrayBreak 2 3 | a break where an item must begin
7f4100ff | | 0 text - - | BadChunk 1 2 | no chunk of the string
5f6100ff | | 0 bytes - - | BadChunk 1 2 | no chunk of the string
5f00ff | | 0 bytes - - | BadChunk 1 2 | no chunk of the string
5f5f4100ffff | | 0 bytes - - | BadChunk 1 2 | no chunk of the string
f800 | | | BadSimple 1 2 | a simple value below 32 in two bytes
f818 | | | BadSimple 1 2 | a simple value below 32 in two bytes
f81f | | | BadSimple 1 2 | a simple value below 32 in two bytes
c1c100 | 1 1048576 | 0 tag 1 0 | TooDeep 1 2 | one container too many
9f | 0 1048576 | | TooDeep 0 1 | one container too many
80 | 0 1048576 | | TooDeep 0 1 | one container too many
818180 | 2 1048576 | 0 array 1 0  1 array 1 0 | TooDeep 2 3 | one container too many
81818101 | 2 1048576 | 0 array 1 0  1 array 1 0 | TooDeep 2 3 | one container too many
9c | 0 1048576 | | Reserved 0 1 | reserved additional information
00 | 256 0 | | TooLong 0 0 | the byte limit
1864 | 256 1 | | TooLong 1 1 | the byte limit
62c3bc | 256 2 | 0 text 2 0  1 piece 1 0 | TooLong 2 2 | the byte limit
8101 | 256 1 | 0 array 1 0 | TooLong 1 1 | the byte limit
811c | 256 1 | 0 array 1 0 | TooLong 1 1 | the byte limit
5bffffffffffffffff | 256 9 | 0 bytes 18446744073709551615 8 | TooLong 9 9 | the byte limit
bb8000000000000000 | 256 9 | 0 map 9223372036854775808 8 | TooLong 9 9 | the byte limit
bb8000000000000000ff | | 0 map 9223372036854775808 8 | StrayBreak 9 10 | a break where an item must begin
bbffffffffffffffff00ff | | 0 map 18446744073709551615 8  9 unsigned 0 0 | StrayBreak 10 11 | a break where an item must begin
5ff9 | | 0 bytes - - | BadChunk 1 2 | no chunk of the string
7f5c | | 0 text - - | BadChunk 1 2 | no chunk of the string
7ffc | | 0 text - - | BadChunk 1 2 | no chunk of the string
5f41015901 | 256 4 | 0 bytes - -  1 chunk 1 0  2 piece 1 0 | TooLong 4 4 | the byte limit
c1c1c1 | 2 1048576 | 0 tag 1 0  1 tag 1 0 | TooDeep 2 3 | one container too many
f81f | 256 1 | | TooLong 1 1 | the byte limit
5b000000000000000a0102 | 256 10 | 0 bytes 10 8  9 piece 1 0 | TooLong 10 10 | the byte limit
"#;
