//! The rows of the conformance table for each of the 256 bytes, alone: what it begins, or why no
//! item begins with it (RFC 8949, section 3; floats are refused). The columns are those of
//! `conformance_table.rt`.

pub(super) static INITIAL_BYTES: &str = r#"
// Unsigned integers.
00 | | same | | 0
01 | | same | | 1
02 | | same | | 2
03 | | same | | 3
04 | | same | | 4
05 | | same | | 5
06 | | same | | 6
07 | | same | | 7
08 | | same | | 8
09 | | same | | 9
0a | | same | | 10
0b | | same | | 11
0c | | same | | 12
0d | | same | | 13
0e | | same | | 14
0f | | same | | 15
10 | | same | | 16
11 | | same | | 17
12 | | same | | 18
13 | | same | | 19
14 | | same | | 20
15 | | same | | 21
16 | | same | | 22
17 | | same | | 23
18 | | 1 Truncated at 1, read 1 | | an integer whose argument of one byte is missing
19 | | 1 Truncated at 1, read 1 | | an integer whose argument of two bytes is missing
1a | | 1 Truncated at 1, read 1 | | an integer whose argument of four bytes is missing
1b | | 1 Truncated at 1, read 1 | | an integer whose argument of eight bytes is missing
1c | | 3 Reserved at 0, read 1 | | additional information 28
1d | | 3 Reserved at 0, read 1 | | additional information 29
1e | | 3 Reserved at 0, read 1 | | additional information 30
1f | | 4 NoIndefinite at 0, read 1 | | an integer has no indefinite length
// Negative integers.
20 | | same | | -1
21 | | same | | -2
22 | | same | | -3
23 | | same | | -4
24 | | same | | -5
25 | | same | | -6
26 | | same | | -7
27 | | same | | -8
28 | | same | | -9
29 | | same | | -10
2a | | same | | -11
2b | | same | | -12
2c | | same | | -13
2d | | same | | -14
2e | | same | | -15
2f | | same | | -16
30 | | same | | -17
31 | | same | | -18
32 | | same | | -19
33 | | same | | -20
34 | | same | | -21
35 | | same | | -22
36 | | same | | -23
37 | | same | | -24
38 | | 1 Truncated at 1, read 1 | | a negative integer whose argument of one byte is missing
39 | | 1 Truncated at 1, read 1 | | a negative integer whose argument of two bytes is missing
3a | | 1 Truncated at 1, read 1 | | a negative integer whose argument of four bytes is missing
3b | | 1 Truncated at 1, read 1 | | a negative integer whose argument of eight bytes is missing
3c | | 3 Reserved at 0, read 1 | | additional information 28
3d | | 3 Reserved at 0, read 1 | | additional information 29
3e | | 3 Reserved at 0, read 1 | | additional information 30
3f | | 4 NoIndefinite at 0, read 1 | | a negative integer has no indefinite length
// Byte strings.
40 | | same | | h''
41 | | 1 Truncated at 1, read 1 | | a byte string without its 1 byte
42 | | 1 Truncated at 1, read 1 | | a byte string without its 2 bytes
43 | | 1 Truncated at 1, read 1 | | a byte string without its 3 bytes
44 | | 1 Truncated at 1, read 1 | | a byte string without its 4 bytes
45 | | 1 Truncated at 1, read 1 | | a byte string without its 5 bytes
46 | | 1 Truncated at 1, read 1 | | a byte string without its 6 bytes
47 | | 1 Truncated at 1, read 1 | | a byte string without its 7 bytes
48 | | 1 Truncated at 1, read 1 | | a byte string without its 8 bytes
49 | | 1 Truncated at 1, read 1 | | a byte string without its 9 bytes
4a | | 1 Truncated at 1, read 1 | | a byte string without its 10 bytes
4b | | 1 Truncated at 1, read 1 | | a byte string without its 11 bytes
4c | | 1 Truncated at 1, read 1 | | a byte string without its 12 bytes
4d | | 1 Truncated at 1, read 1 | | a byte string without its 13 bytes
4e | | 1 Truncated at 1, read 1 | | a byte string without its 14 bytes
4f | | 1 Truncated at 1, read 1 | | a byte string without its 15 bytes
50 | | 1 Truncated at 1, read 1 | | a byte string without its 16 bytes
51 | | 1 Truncated at 1, read 1 | | a byte string without its 17 bytes
52 | | 1 Truncated at 1, read 1 | | a byte string without its 18 bytes
53 | | 1 Truncated at 1, read 1 | | a byte string without its 19 bytes
54 | | 1 Truncated at 1, read 1 | | a byte string without its 20 bytes
55 | | 1 Truncated at 1, read 1 | | a byte string without its 21 bytes
56 | | 1 Truncated at 1, read 1 | | a byte string without its 22 bytes
57 | | 1 Truncated at 1, read 1 | | a byte string without its 23 bytes
58 | | 1 Truncated at 1, read 1 | | a byte string whose argument of one byte is missing
59 | | 1 Truncated at 1, read 1 | | a byte string whose argument of two bytes is missing
5a | | 1 Truncated at 1, read 1 | | a byte string whose argument of four bytes is missing
5b | | 1 Truncated at 1, read 1 | | a byte string whose argument of eight bytes is missing
5c | | 3 Reserved at 0, read 1 | | additional information 28
5d | | 3 Reserved at 0, read 1 | | additional information 29
5e | | 3 Reserved at 0, read 1 | | additional information 30
5f | | 1 Truncated at 1, read 1 | 15 Indefinite at 0, read 1 | a byte string of indefinite length
// Texts.
60 | | same | | ""
61 | | 1 Truncated at 1, read 1 | | a text without its 1 byte
62 | | 1 Truncated at 1, read 1 | | a text without its 2 bytes
63 | | 1 Truncated at 1, read 1 | | a text without its 3 bytes
64 | | 1 Truncated at 1, read 1 | | a text without its 4 bytes
65 | | 1 Truncated at 1, read 1 | | a text without its 5 bytes
66 | | 1 Truncated at 1, read 1 | | a text without its 6 bytes
67 | | 1 Truncated at 1, read 1 | | a text without its 7 bytes
68 | | 1 Truncated at 1, read 1 | | a text without its 8 bytes
69 | | 1 Truncated at 1, read 1 | | a text without its 9 bytes
6a | | 1 Truncated at 1, read 1 | | a text without its 10 bytes
6b | | 1 Truncated at 1, read 1 | | a text without its 11 bytes
6c | | 1 Truncated at 1, read 1 | | a text without its 12 bytes
6d | | 1 Truncated at 1, read 1 | | a text without its 13 bytes
6e | | 1 Truncated at 1, read 1 | | a text without its 14 bytes
6f | | 1 Truncated at 1, read 1 | | a text without its 15 bytes
70 | | 1 Truncated at 1, read 1 | | a text without its 16 bytes
71 | | 1 Truncated at 1, read 1 | | a text without its 17 bytes
72 | | 1 Truncated at 1, read 1 | | a text without its 18 bytes
73 | | 1 Truncated at 1, read 1 | | a text without its 19 bytes
74 | | 1 Truncated at 1, read 1 | | a text without its 20 bytes
75 | | 1 Truncated at 1, read 1 | | a text without its 21 bytes
76 | | 1 Truncated at 1, read 1 | | a text without its 22 bytes
77 | | 1 Truncated at 1, read 1 | | a text without its 23 bytes
78 | | 1 Truncated at 1, read 1 | | a text whose argument of one byte is missing
79 | | 1 Truncated at 1, read 1 | | a text whose argument of two bytes is missing
7a | | 1 Truncated at 1, read 1 | | a text whose argument of four bytes is missing
7b | | 1 Truncated at 1, read 1 | | a text whose argument of eight bytes is missing
7c | | 3 Reserved at 0, read 1 | | additional information 28
7d | | 3 Reserved at 0, read 1 | | additional information 29
7e | | 3 Reserved at 0, read 1 | | additional information 30
7f | | 1 Truncated at 1, read 1 | 15 Indefinite at 0, read 1 | a text of indefinite length
// Arrays.
80 | | same | | []
81 | | 1 Truncated at 1, read 1 | | an array without its 1 member
82 | | 1 Truncated at 1, read 1 | | an array without its 2 members
83 | | 1 Truncated at 1, read 1 | | an array without its 3 members
84 | | 1 Truncated at 1, read 1 | | an array without its 4 members
85 | | 1 Truncated at 1, read 1 | | an array without its 5 members
86 | | 1 Truncated at 1, read 1 | | an array without its 6 members
87 | | 1 Truncated at 1, read 1 | | an array without its 7 members
88 | | 1 Truncated at 1, read 1 | | an array without its 8 members
89 | | 1 Truncated at 1, read 1 | | an array without its 9 members
8a | | 1 Truncated at 1, read 1 | | an array without its 10 members
8b | | 1 Truncated at 1, read 1 | | an array without its 11 members
8c | | 1 Truncated at 1, read 1 | | an array without its 12 members
8d | | 1 Truncated at 1, read 1 | | an array without its 13 members
8e | | 1 Truncated at 1, read 1 | | an array without its 14 members
8f | | 1 Truncated at 1, read 1 | | an array without its 15 members
90 | | 1 Truncated at 1, read 1 | | an array without its 16 members
91 | | 1 Truncated at 1, read 1 | | an array without its 17 members
92 | | 1 Truncated at 1, read 1 | | an array without its 18 members
93 | | 1 Truncated at 1, read 1 | | an array without its 19 members
94 | | 1 Truncated at 1, read 1 | | an array without its 20 members
95 | | 1 Truncated at 1, read 1 | | an array without its 21 members
96 | | 1 Truncated at 1, read 1 | | an array without its 22 members
97 | | 1 Truncated at 1, read 1 | | an array without its 23 members
98 | | 1 Truncated at 1, read 1 | | an array whose argument of one byte is missing
99 | | 1 Truncated at 1, read 1 | | an array whose argument of two bytes is missing
9a | | 1 Truncated at 1, read 1 | | an array whose argument of four bytes is missing
9b | | 1 Truncated at 1, read 1 | | an array whose argument of eight bytes is missing
9c | | 3 Reserved at 0, read 1 | | additional information 28
9d | | 3 Reserved at 0, read 1 | | additional information 29
9e | | 3 Reserved at 0, read 1 | | additional information 30
9f | | 1 Truncated at 1, read 1 | 15 Indefinite at 0, read 1 | an array of indefinite length
// Maps.
a0 | | same | | {}
a1 | | 1 Truncated at 1, read 1 | | a map without its 1 pair
a2 | | 1 Truncated at 1, read 1 | | a map without its 2 pairs
a3 | | 1 Truncated at 1, read 1 | | a map without its 3 pairs
a4 | | 1 Truncated at 1, read 1 | | a map without its 4 pairs
a5 | | 1 Truncated at 1, read 1 | | a map without its 5 pairs
a6 | | 1 Truncated at 1, read 1 | | a map without its 6 pairs
a7 | | 1 Truncated at 1, read 1 | | a map without its 7 pairs
a8 | | 1 Truncated at 1, read 1 | | a map without its 8 pairs
a9 | | 1 Truncated at 1, read 1 | | a map without its 9 pairs
aa | | 1 Truncated at 1, read 1 | | a map without its 10 pairs
ab | | 1 Truncated at 1, read 1 | | a map without its 11 pairs
ac | | 1 Truncated at 1, read 1 | | a map without its 12 pairs
ad | | 1 Truncated at 1, read 1 | | a map without its 13 pairs
ae | | 1 Truncated at 1, read 1 | | a map without its 14 pairs
af | | 1 Truncated at 1, read 1 | | a map without its 15 pairs
b0 | | 1 Truncated at 1, read 1 | | a map without its 16 pairs
b1 | | 1 Truncated at 1, read 1 | | a map without its 17 pairs
b2 | | 1 Truncated at 1, read 1 | | a map without its 18 pairs
b3 | | 1 Truncated at 1, read 1 | | a map without its 19 pairs
b4 | | 1 Truncated at 1, read 1 | | a map without its 20 pairs
b5 | | 1 Truncated at 1, read 1 | | a map without its 21 pairs
b6 | | 1 Truncated at 1, read 1 | | a map without its 22 pairs
b7 | | 1 Truncated at 1, read 1 | | a map without its 23 pairs
b8 | | 1 Truncated at 1, read 1 | | a map whose argument of one byte is missing
b9 | | 1 Truncated at 1, read 1 | | a map whose argument of two bytes is missing
ba | | 1 Truncated at 1, read 1 | | a map whose argument of four bytes is missing
bb | | 1 Truncated at 1, read 1 | | a map whose argument of eight bytes is missing
bc | | 3 Reserved at 0, read 1 | | additional information 28
bd | | 3 Reserved at 0, read 1 | | additional information 29
be | | 3 Reserved at 0, read 1 | | additional information 30
bf | | 1 Truncated at 1, read 1 | 15 Indefinite at 0, read 1 | a map of indefinite length
// Tags.
c0 | | 1 Truncated at 1, read 1 | | tag 0 without its content
c1 | | 1 Truncated at 1, read 1 | | tag 1 without its content
c2 | | 1 Truncated at 1, read 1 | | tag 2 without its content
c3 | | 1 Truncated at 1, read 1 | | tag 3 without its content
c4 | | 1 Truncated at 1, read 1 | | tag 4 without its content
c5 | | 1 Truncated at 1, read 1 | | tag 5 without its content
c6 | | 1 Truncated at 1, read 1 | | tag 6 without its content
c7 | | 1 Truncated at 1, read 1 | | tag 7 without its content
c8 | | 1 Truncated at 1, read 1 | | tag 8 without its content
c9 | | 1 Truncated at 1, read 1 | | tag 9 without its content
ca | | 1 Truncated at 1, read 1 | | tag 10 without its content
cb | | 1 Truncated at 1, read 1 | | tag 11 without its content
cc | | 1 Truncated at 1, read 1 | | tag 12 without its content
cd | | 1 Truncated at 1, read 1 | | tag 13 without its content
ce | | 1 Truncated at 1, read 1 | | tag 14 without its content
cf | | 1 Truncated at 1, read 1 | | tag 15 without its content
d0 | | 1 Truncated at 1, read 1 | | tag 16 without its content
d1 | | 1 Truncated at 1, read 1 | | tag 17 without its content
d2 | | 1 Truncated at 1, read 1 | | tag 18 without its content
d3 | | 1 Truncated at 1, read 1 | | tag 19 without its content
d4 | | 1 Truncated at 1, read 1 | | tag 20 without its content
d5 | | 1 Truncated at 1, read 1 | | tag 21 without its content
d6 | | 1 Truncated at 1, read 1 | | tag 22 without its content
d7 | | 1 Truncated at 1, read 1 | | tag 23 without its content
d8 | | 1 Truncated at 1, read 1 | | a tag whose argument of one byte is missing
d9 | | 1 Truncated at 1, read 1 | | a tag whose argument of two bytes is missing
da | | 1 Truncated at 1, read 1 | | a tag whose argument of four bytes is missing
db | | 1 Truncated at 1, read 1 | | a tag whose argument of eight bytes is missing
dc | | 3 Reserved at 0, read 1 | | additional information 28
dd | | 3 Reserved at 0, read 1 | | additional information 29
de | | 3 Reserved at 0, read 1 | | additional information 30
df | | 4 NoIndefinite at 0, read 1 | | a tag has no indefinite length
// Simple values, floats and the break.
e0 | | same | | simple(0)
e1 | | same | | simple(1)
e2 | | same | | simple(2)
e3 | | same | | simple(3)
e4 | | same | | simple(4)
e5 | | same | | simple(5)
e6 | | same | | simple(6)
e7 | | same | | simple(7)
e8 | | same | | simple(8)
e9 | | same | | simple(9)
ea | | same | | simple(10)
eb | | same | | simple(11)
ec | | same | | simple(12)
ed | | same | | simple(13)
ee | | same | | simple(14)
ef | | same | | simple(15)
f0 | | same | | simple(16)
f1 | | same | | simple(17)
f2 | | same | | simple(18)
f3 | | same | | simple(19)
f4 | | same | | false
f5 | | same | | true
f6 | | same | | null
f7 | | same | | undefined
f8 | | 1 Truncated at 1, read 1 | | a simple value without its number
f9 | | 5 Float at 0, read 1 | | a float of two bytes
fa | | 5 Float at 0, read 1 | | a float of four bytes
fb | | 5 Float at 0, read 1 | | a float of eight bytes
fc | | 3 Reserved at 0, read 1 | | additional information 28
fd | | 3 Reserved at 0, read 1 | | additional information 29
fe | | 3 Reserved at 0, read 1 | | additional information 30
ff | | 7 StrayBreak at 0, read 1 | | a break
"#;
