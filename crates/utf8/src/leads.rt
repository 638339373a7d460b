// The lead bytes of UTF-8: what each of the 256 bytes says where a character begins, by the table of RFC 3629, section 4. These are the rows of the RFC, and the
// bytes that it leaves out:
//
//     lead byte   followers   first follower   later followers
//     00..7f      0
//     80..c1      no lead byte
//     c2..df      1           80..bf
//     e0          2           a0..bf           80..bf
//     e1..ec      2           80..bf           80..bf
//     ed          2           80..9f           80..bf
//     ee..ef      2           80..bf           80..bf
//     f0          3           90..bf           80..bf
//     f1..f3      3           80..bf           80..bf
//     f4          3           80..8f           80..bf
//     f5..ff      no lead byte
//
// The array has these rows in this order, each row under its range. The formatter gives every entry a line of its own; the byte stands beside it.

// What a lead byte says: how many bytes follow, and the lowest and the highest that the first of them may be.
#[derive(Clone, Copy, Debug, PartialEq, Eq)]
pub(crate) struct Lead {
    pub(crate) followers: u8,
    pub(crate) lowest: u8,
    pub(crate) highest: u8,
}

// No character begins with such a byte.
const NO_LEAD: Option<Lead> = None;

// No byte follows, so the bounds stand for nothing.
const ASCII: Option<Lead> = Some(Lead {
    followers: 0,
    lowest: 0x80,
    highest: 0xbf,
});

const TWO_BYTES: Option<Lead> = Some(Lead {
    followers: 1,
    lowest: 0x80,
    highest: 0xbf,
});

const THREE_BYTES: Option<Lead> = Some(Lead {
    followers: 2,
    lowest: 0x80,
    highest: 0xbf,
});

const E0: Option<Lead> = Some(Lead {
    followers: 2,
    lowest: 0xa0,
    highest: 0xbf,
});

const ED: Option<Lead> = Some(Lead {
    followers: 2,
    lowest: 0x80,
    highest: 0x9f,
});

const FOUR_BYTES: Option<Lead> = Some(Lead {
    followers: 3,
    lowest: 0x80,
    highest: 0xbf,
});

const F0: Option<Lead> = Some(Lead {
    followers: 3,
    lowest: 0x90,
    highest: 0xbf,
});

const F4: Option<Lead> = Some(Lead {
    followers: 3,
    lowest: 0x80,
    highest: 0x8f,
});

// What each byte says; the index is the byte.
pub(crate) static LEADS: [Option<Lead>; 256] = [
    // 00..7f
    ASCII, // 00
    ASCII, // 01
    ASCII, // 02
    ASCII, // 03
    ASCII, // 04
    ASCII, // 05
    ASCII, // 06
    ASCII, // 07
    ASCII, // 08
    ASCII, // 09
    ASCII, // 0a
    ASCII, // 0b
    ASCII, // 0c
    ASCII, // 0d
    ASCII, // 0e
    ASCII, // 0f
    ASCII, // 10
    ASCII, // 11
    ASCII, // 12
    ASCII, // 13
    ASCII, // 14
    ASCII, // 15
    ASCII, // 16
    ASCII, // 17
    ASCII, // 18
    ASCII, // 19
    ASCII, // 1a
    ASCII, // 1b
    ASCII, // 1c
    ASCII, // 1d
    ASCII, // 1e
    ASCII, // 1f
    ASCII, // 20
    ASCII, // 21
    ASCII, // 22
    ASCII, // 23
    ASCII, // 24
    ASCII, // 25
    ASCII, // 26
    ASCII, // 27
    ASCII, // 28
    ASCII, // 29
    ASCII, // 2a
    ASCII, // 2b
    ASCII, // 2c
    ASCII, // 2d
    ASCII, // 2e
    ASCII, // 2f
    ASCII, // 30
    ASCII, // 31
    ASCII, // 32
    ASCII, // 33
    ASCII, // 34
    ASCII, // 35
    ASCII, // 36
    ASCII, // 37
    ASCII, // 38
    ASCII, // 39
    ASCII, // 3a
    ASCII, // 3b
    ASCII, // 3c
    ASCII, // 3d
    ASCII, // 3e
    ASCII, // 3f
    ASCII, // 40
    ASCII, // 41
    ASCII, // 42
    ASCII, // 43
    ASCII, // 44
    ASCII, // 45
    ASCII, // 46
    ASCII, // 47
    ASCII, // 48
    ASCII, // 49
    ASCII, // 4a
    ASCII, // 4b
    ASCII, // 4c
    ASCII, // 4d
    ASCII, // 4e
    ASCII, // 4f
    ASCII, // 50
    ASCII, // 51
    ASCII, // 52
    ASCII, // 53
    ASCII, // 54
    ASCII, // 55
    ASCII, // 56
    ASCII, // 57
    ASCII, // 58
    ASCII, // 59
    ASCII, // 5a
    ASCII, // 5b
    ASCII, // 5c
    ASCII, // 5d
    ASCII, // 5e
    ASCII, // 5f
    ASCII, // 60
    ASCII, // 61
    ASCII, // 62
    ASCII, // 63
    ASCII, // 64
    ASCII, // 65
    ASCII, // 66
    ASCII, // 67
    ASCII, // 68
    ASCII, // 69
    ASCII, // 6a
    ASCII, // 6b
    ASCII, // 6c
    ASCII, // 6d
    ASCII, // 6e
    ASCII, // 6f
    ASCII, // 70
    ASCII, // 71
    ASCII, // 72
    ASCII, // 73
    ASCII, // 74
    ASCII, // 75
    ASCII, // 76
    ASCII, // 77
    ASCII, // 78
    ASCII, // 79
    ASCII, // 7a
    ASCII, // 7b
    ASCII, // 7c
    ASCII, // 7d
    ASCII, // 7e
    ASCII, // 7f
    // 80..c1
    NO_LEAD, // 80
    NO_LEAD, // 81
    NO_LEAD, // 82
    NO_LEAD, // 83
    NO_LEAD, // 84
    NO_LEAD, // 85
    NO_LEAD, // 86
    NO_LEAD, // 87
    NO_LEAD, // 88
    NO_LEAD, // 89
    NO_LEAD, // 8a
    NO_LEAD, // 8b
    NO_LEAD, // 8c
    NO_LEAD, // 8d
    NO_LEAD, // 8e
    NO_LEAD, // 8f
    NO_LEAD, // 90
    NO_LEAD, // 91
    NO_LEAD, // 92
    NO_LEAD, // 93
    NO_LEAD, // 94
    NO_LEAD, // 95
    NO_LEAD, // 96
    NO_LEAD, // 97
    NO_LEAD, // 98
    NO_LEAD, // 99
    NO_LEAD, // 9a
    NO_LEAD, // 9b
    NO_LEAD, // 9c
    NO_LEAD, // 9d
    NO_LEAD, // 9e
    NO_LEAD, // 9f
    NO_LEAD, // a0
    NO_LEAD, // a1
    NO_LEAD, // a2
    NO_LEAD, // a3
    NO_LEAD, // a4
    NO_LEAD, // a5
    NO_LEAD, // a6
    NO_LEAD, // a7
    NO_LEAD, // a8
    NO_LEAD, // a9
    NO_LEAD, // aa
    NO_LEAD, // ab
    NO_LEAD, // ac
    NO_LEAD, // ad
    NO_LEAD, // ae
    NO_LEAD, // af
    NO_LEAD, // b0
    NO_LEAD, // b1
    NO_LEAD, // b2
    NO_LEAD, // b3
    NO_LEAD, // b4
    NO_LEAD, // b5
    NO_LEAD, // b6
    NO_LEAD, // b7
    NO_LEAD, // b8
    NO_LEAD, // b9
    NO_LEAD, // ba
    NO_LEAD, // bb
    NO_LEAD, // bc
    NO_LEAD, // bd
    NO_LEAD, // be
    NO_LEAD, // bf
    NO_LEAD, // c0
    NO_LEAD, // c1
    // c2..df
    TWO_BYTES, // c2
    TWO_BYTES, // c3
    TWO_BYTES, // c4
    TWO_BYTES, // c5
    TWO_BYTES, // c6
    TWO_BYTES, // c7
    TWO_BYTES, // c8
    TWO_BYTES, // c9
    TWO_BYTES, // ca
    TWO_BYTES, // cb
    TWO_BYTES, // cc
    TWO_BYTES, // cd
    TWO_BYTES, // ce
    TWO_BYTES, // cf
    TWO_BYTES, // d0
    TWO_BYTES, // d1
    TWO_BYTES, // d2
    TWO_BYTES, // d3
    TWO_BYTES, // d4
    TWO_BYTES, // d5
    TWO_BYTES, // d6
    TWO_BYTES, // d7
    TWO_BYTES, // d8
    TWO_BYTES, // d9
    TWO_BYTES, // da
    TWO_BYTES, // db
    TWO_BYTES, // dc
    TWO_BYTES, // dd
    TWO_BYTES, // de
    TWO_BYTES, // df
    // e0
    E0, // e0
    // e1..ec
    THREE_BYTES, // e1
    THREE_BYTES, // e2
    THREE_BYTES, // e3
    THREE_BYTES, // e4
    THREE_BYTES, // e5
    THREE_BYTES, // e6
    THREE_BYTES, // e7
    THREE_BYTES, // e8
    THREE_BYTES, // e9
    THREE_BYTES, // ea
    THREE_BYTES, // eb
    THREE_BYTES, // ec
    // ed
    ED, // ed
    // ee..ef
    THREE_BYTES, // ee
    THREE_BYTES, // ef
    // f0
    F0, // f0
    // f1..f3
    FOUR_BYTES, // f1
    FOUR_BYTES, // f2
    FOUR_BYTES, // f3
    // f4
    F4, // f4
    // f5..ff
    NO_LEAD, // f5
    NO_LEAD, // f6
    NO_LEAD, // f7
    NO_LEAD, // f8
    NO_LEAD, // f9
    NO_LEAD, // fa
    NO_LEAD, // fb
    NO_LEAD, // fc
    NO_LEAD, // fd
    NO_LEAD, // fe
    NO_LEAD, // ff
];
