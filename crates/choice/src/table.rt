// 02's table of corrections: the values from nearest to farthest, a row of sixteen for each wanted value.
pub(crate) const NEAREST_FIRST: [u8; 256] = [
    0, // wanted 0
    8, // one bit from 0
    4, 2, 1, 12, // two bits from 0
    10, 6, 9, 5, 3, 14, // three bits from 0
    13, 11, 7, 15, // four bits from 0
    1, // wanted 1
    9, // one bit from 1
    5, 3, 0, 13, // two bits from 1
    11, 7, 8, 4, 2, 15, // three bits from 1
    12, 10, 6, 14, // four bits from 1
    2, // wanted 2
    10, // one bit from 2
    6, 0, 3, 14, // two bits from 2
    8, 4, 11, 7, 1, 12, // three bits from 2
    15, 9, 5, 13, // four bits from 2
    3, // wanted 3
    11, // one bit from 3
    7, 1, 2, 15, // two bits from 3
    9, 5, 10, 6, 0, 13, // three bits from 3
    14, 8, 4, 12, // four bits from 3
    4, // wanted 4
    12, // one bit from 4
    0, 6, 5, 8, // two bits from 4
    14, 2, 13, 1, 7, 10, // three bits from 4
    9, 15, 3, 11, // four bits from 4
    5, // wanted 5
    13, // one bit from 5
    1, 7, 4, 9, // two bits from 5
    15, 3, 12, 0, 6, 11, // three bits from 5
    8, 14, 2, 10, // four bits from 5
    6, // wanted 6
    14, // one bit from 6
    2, 4, 7, 10, // two bits from 6
    12, 0, 15, 3, 5, 8, // three bits from 6
    11, 13, 1, 9, // four bits from 6
    7, // wanted 7
    15, // one bit from 7
    3, 5, 6, 11, // two bits from 7
    13, 1, 14, 2, 4, 9, // three bits from 7
    10, 12, 0, 8, // four bits from 7
    8, // wanted 8
    0, // one bit from 8
    12, 10, 9, 4, // two bits from 8
    2, 14, 1, 13, 11, 6, // three bits from 8
    5, 3, 15, 7, // four bits from 8
    9, // wanted 9
    1, // one bit from 9
    13, 11, 8, 5, // two bits from 9
    3, 15, 0, 12, 10, 7, // three bits from 9
    4, 2, 14, 6, // four bits from 9
    10, // wanted 10
    2, // one bit from 10
    14, 8, 11, 6, // two bits from 10
    0, 12, 3, 15, 9, 4, // three bits from 10
    7, 1, 13, 5, // four bits from 10
    11, // wanted 11
    3, // one bit from 11
    15, 9, 10, 7, // two bits from 11
    1, 13, 2, 14, 8, 5, // three bits from 11
    6, 0, 12, 4, // four bits from 11
    12, // wanted 12
    4, // one bit from 12
    8, 14, 13, 0, // two bits from 12
    6, 10, 5, 9, 15, 2, // three bits from 12
    1, 7, 11, 3, // four bits from 12
    13, // wanted 13
    5, // one bit from 13
    9, 15, 12, 1, // two bits from 13
    7, 11, 4, 8, 14, 3, // three bits from 13
    0, 6, 10, 2, // four bits from 13
    14, // wanted 14
    6, // one bit from 14
    10, 12, 15, 2, // two bits from 14
    4, 8, 7, 11, 13, 0, // three bits from 14
    3, 5, 9, 1, // four bits from 14
    15, // wanted 15
    7, // one bit from 15
    11, 13, 14, 3, // two bits from 15
    5, 9, 6, 10, 12, 1, // three bits from 15
    2, 4, 8, 0, // four bits from 15
];
