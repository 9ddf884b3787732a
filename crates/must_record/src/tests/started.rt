//! Records of nonblocking collective calls.

use super::Case;

pub const STARTED: &[Case] = &[
    Case {
        name: "Ibarrier",
        record: "49 00 00000008 00000094 0000000d",
        numbers: "148 13",
    },
    Case {
        name: "Ibarrier",
        record: "49 01 00000004 00000087",
        numbers: "135",
    },
    Case {
        name: "Ibcast",
        record: "4a 00 0000001c 000000018a46c425 1f3fbe56 e9890104 80000000 00000000 ffffffff",
        numbers: "6614860837 524271190 3918070020 -2147483648 0 4294967295",
    },
    Case {
        name: "Ibcast",
        record: "4a 01 00000018 0000000000000000 df366bd7 00000012 00000000 00000011",
        numbers: "0 -550081577 18 0 17",
    },
    Case {
        name: "Igather",
        record: "4b 00 0000002d 01 0000000000000000 fffffffe 5ce6adfa 0000000000000000 ffffffff \
            00000000 00009f4d 4da49637 00000014",
        numbers: "1 0 -2 1558621690 0 -1 0 40781 1302631991 20",
    },
    Case {
        name: "Igather",
        record: "4b 01 00000029 00 ffffffffffffffff 5c8b7568 98d4507b 0000000000000000 ffffffff \
            00000014 32e08b95 00000000",
        numbers: "0 18446744073709551615 1552643432 2564051067 0 -1 20 853576597 0",
    },
    Case {
        name: "Iallgather",
        record: "4c 00 00000029 00 0000000000000000 c4651018 00000000 000000019a40492a 00000000 \
            ffffffff 00000087 00000011",
        numbers: "0 0 -1000009704 0 6882871594 0 4294967295 135 17",
    },
    Case {
        name: "Iallgather",
        record: "4c 01 00000025 01 b54c29edc365d883 80000000 4418fdb3 ffffffffffffffff 00000000 \
            2d3fc238 ffffffff",
        numbers: "1 13063862720257185923 -2147483648 1142488499 18446744073709551615 0 759153208 \
            4294967295",
    },
    Case {
        name: "Ialltoall",
        record: "4d 00 00000029 01 00000001d26e0fe1 ffffffff 00000000 0000000000000000 00006410 \
            9fa9d6c0 0000001d baa68fcb",
        numbers: "1 7825395681 -1 0 0 25616 2678707904 29 3131477963",
    },
    Case {
        name: "Ialltoall",
        record: "4d 01 00000025 00 ffffffffffffffff fffffffe 00000000 ffffffffffffffff ffffffff \
            ffffffff 3c64d9ce",
        numbers: "0 18446744073709551615 -2 0 18446744073709551615 -1 4294967295 1013242318",
    },
    Case {
        name: "Ireduce",
        record: "4e 00 00000029 00 000000005f730299 eedd9cc972e64a3b 7fffffff 0000001b ffffffff \
            80000000 00000061 00000008",
        numbers: "0 1601372825 17212085739909958203 2147483647 27 4294967295 -2147483648 97 8",
    },
    Case {
        name: "Ireduce",
        record: "4e 01 00000025 01 ffffffffffffffff b4be9f1a40ab9e4a 00000000 ffffffff 00000000 \
            4a3cb66b 00000000",
        numbers: "1 18446744073709551615 13024022107505008202 0 4294967295 0 1245492843 0",
    },
    Case {
        name: "Iallreduce",
        record: "4f 00 00000025 01 00000000f354842d 48f43502c5ae6baf ffffffff 0000001c 000000be \
            2541a3b9 00000089",
        numbers: "1 4082402349 5256884951070960559 -1 28 190 625058745 137",
    },
    Case {
        name: "Iallreduce",
        record: "4f 01 00000021 00 ffffffffffffffff 0000000000000000 80000000 7a99d816 74b717d5 \
            3784f029",
        numbers: "0 18446744073709551615 0 -2147483648 2056902678 1958156245 931459113",
    },
];
