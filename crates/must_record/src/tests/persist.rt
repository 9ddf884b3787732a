//! Records of calls on persistent requests.

use super::Case;

pub const PERSIST: &[Case] = &[
    Case {
        name: "SendInit",
        record: "44 00 00000020 0000000000000000 bbce14ab 00000000 0000e880 00009bf8 00000014 \
            00000080",
        numbers: "0 -1144122197 0 59520 39928 20 128",
    },
    Case {
        name: "SendInit",
        record: "44 01 0000001c ffffffffffffffff 80000000 00000000 00000000 fffffffe 00000005",
        numbers: "18446744073709551615 -2147483648 0 0 -2 5",
    },
    Case {
        name: "SsendInit",
        record: "45 00 00000020 ffffffffffffffff ffffffff 00000085 00007739 8bacb22c 00000011 \
            ffffffff",
        numbers: "18446744073709551615 -1 133 30521 -1951616468 17 4294967295",
    },
    Case {
        name: "SsendInit",
        record: "45 01 0000001c 53ff23e41a521cf3 7fffffff 000000b3 ffffffff 00000000 00000000",
        numbers: "6052595886810340595 2147483647 179 -1 0 0",
    },
    Case {
        name: "RecvInit",
        record: "46 00 00000020 bf31ca946dc1fa44 80000000 00000000 987d9a98 0833a614 00000012 \
            00000000",
        numbers: "13777015473948457540 -2147483648 0 -1736598888 137602580 18 0",
    },
    Case {
        name: "RecvInit",
        record: "46 01 0000001c 000000013ce6f97c 7fffffff 00000000 ffffffff 4aae54a2 ffffffff",
        numbers: "5316737404 2147483647 0 -1 1252938914 4294967295",
    },
    Case {
        name: "Start",
        record: "47 00 00000004 ffffffff",
        numbers: "4294967295",
    },
    Case {
        name: "Start",
        record: "47 01 00000004 d742d66c",
        numbers: "3611481708",
    },
    Case {
        name: "Startall",
        record: "48 00 0000000c 00000002 00000000 ffffffff",
        numbers: "2 0 4294967295",
    },
    Case {
        name: "Startall",
        record: "48 01 00000004 00000000",
        numbers: "0",
    },
];
