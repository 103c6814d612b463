//! The rows of the conformance table for maps whose keys must be integers or texts.

pub(super) static KINDS_OF_KEYS: &str = r#"
// Keys that are integers or texts, and values that are neither.
a300012002616103 | keys basic | same | | {0: 1, -1: 2, "a": 3}
a11bffffffffffffffff00 | keys basic | same | | {18446744073709551615: 0}
a1180000 | keys basic | a10000 | 14 NotShortest at 1, read 3 | {0: 0}
a17fff00 | keys basic | a16000 | 15 Indefinite at 1, read 2 | {"": 0}, no chunks
a17f6161ff00 | keys basic | a1616100 | 15 Indefinite at 1, read 2 | {"a": 0}
a1008140 | keys basic | same | | {0: [h'']}
a100c1f6 | keys basic | same | | {0: 1(null)}
81f4 | keys basic | same | | [false]
bfff | keys basic | a0 | 15 Indefinite at 0, read 1 | {}
a1000000 | keys basic | 12 Trailing at 3, read 3 | taken 3 | {0: 0}, and 0
// Keys of other kinds.
a1410000 | keys basic | 20 KeyKind at 1, read 2 | | {h'00': 0}
a18000 | keys basic | 20 KeyKind at 1, read 2 | | {[]: 0}
a1a000 | keys basic | 20 KeyKind at 1, read 2 | | {{}: 0}
a1c10000 | keys basic | 20 KeyKind at 1, read 2 | | {1(0): 0}
a1f400 | keys basic | 20 KeyKind at 1, read 2 | | {false: 0}
a1f82000 | keys basic | 20 KeyKind at 1, read 2 | | {simple(32): 0}
a15fff00 | keys basic | 20 KeyKind at 1, read 2 | | before the length that is missing
a19fff00 | | a18000 | 15 Indefinite at 1, read 2 | {[]: 0}, keys of any kind
a19fff00 | keys basic | 20 KeyKind at 1, read 2 | | before the length that is missing
a1bfff00 | keys basic | 20 KeyKind at 1, read 2 | | before the length that is missing
// .. at each depth, and after others
a100a18000 | keys basic | 20 KeyKind at 3, read 4 | | {0: {[]: 0}}
81a1f400 | keys basic | 20 KeyKind at 2, read 3 | | [{false: 0}]
a1a1800000 | keys basic | 20 KeyKind at 1, read 2 | | {{[]: 0}: 0}: the outer key
bff400ff | keys basic | 20 KeyKind at 1, read 2 | 15 Indefinite at 0, read 1 | {_ false: 0}
a200004000 | keys basic | 20 KeyKind at 3, read 4 | | {0: 0, h'': 0}
a26161004000 | keys basic | 20 KeyKind at 4, read 5 | | {"a": 0, h'': 0}: before the order
a201000100 | keys basic | 11 RepeatedKey at 3, read 4 | 16 KeyOrder at 3, read 4 | {1: 0, 1: 0}
a20061ff8000 | keys basic | 10 InvalidText at 3, read 4 | | the text before it
// The first byte of a key decides its kind.
a1 | keys basic | 1 Truncated at 1, read 1 | | a map without its pair
a1f8 | keys basic | 20 KeyKind at 1, read 2 | | a simple value without its number
a1f8 | bytes 2 keys basic | 20 KeyKind at 1, read 2 | | the number is past the limit
a1f8 | bytes 1 keys basic | 2 TooLong at 1, read 1 | | the key is past the limit
a1f81f00 | keys basic | 20 KeyKind at 1, read 2 | | before the number, which no simple value has
a15b | keys basic | 20 KeyKind at 1, read 2 | | a string without its length
// .. unless no item may begin so
a1dc | keys basic | 3 Reserved at 1, read 2 | | additional information 28
a1df | keys basic | 4 NoIndefinite at 1, read 2 | | a tag has no indefinite length
a1f97c0000 | keys basic | 5 Float at 1, read 2 | | {Infinity: 0}
a1ff | keys basic | 7 StrayBreak at 1, read 2 | | a break in a map of stated count
a17f4100ff00 | keys basic | 8 BadChunk at 2, read 3 | 15 Indefinite at 1, read 2 | a byte string as a chunk of a text
a18000 | depth 1 keys basic | 9 TooDeep at 1, read 2 | | {[]: 0}
a161ff00 | keys basic | 10 InvalidText at 2, read 3 | | a text all the same
"#;
