//! Updates of the tests, in V1.

/// One update of client 1: "abc" in the root `t`.
pub const ABC: [u8; 13] = [1, 1, 1, 0, 4, 1, 1, 116, 3, 97, 98, 99, 0];

/// One struct of each kind and each content, and the deletion of one unit.
///
/// In turn: the JSON units `undefined` and 7 under the key `k` of the root `t`, a byte string, "a",
/// an embed, a mark, an element, any-values of each kind under a key of a unit, deleted units, gone
/// units, and a skip.
pub const EACH: [u8; 112] = [
    1, 10, 2, 0, 0x22, 1, 1, 116, 1, 107, 2, 9, 117, 110, 100, 101, 102, 105, 110, 101, 100, 1, 55,
    0x83, 1, 0, 2, 255, 0, 0x84, 1, 0, 1, 97, 0x85, 1, 0, 2, 45, 55, 0x86, 1, 0, 1, 98, 4, 110,
    117, 108, 108, 0x87, 1, 0, 3, 1, 112, 0x28, 0, 1, 0, 1, 113, 6, 127, 125, 0xc1, 1, 122, 255,
    255, 255, 255, 255, 255, 255, 254, 120, 118, 2, 1, 107, 126, 1, 108, 124, 1, 2, 3, 4, 117, 2,
    116, 2, 9, 8, 119, 2, 120, 121, 0x81, 1, 0, 3, 0, 2, 10, 4, 1, 1, 1, 0, 1,
];
