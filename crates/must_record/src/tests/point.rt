//! Records of point-to-point calls, and of Init and Finalize.

use super::Case;

pub const POINT: &[Case] = &[
    Case {
        name: "Init",
        record: "01 00 00000000",
        numbers: "",
    },
    Case {
        name: "Init",
        record: "01 01 00000000",
        numbers: "",
    },
    Case {
        name: "Finalize",
        record: "02 00 00000000",
        numbers: "",
    },
    Case {
        name: "Finalize",
        record: "02 01 00000000",
        numbers: "",
    },
    Case {
        name: "Send",
        record: "03 00 0000001c 00000000f7ad61ff d593930a 000046f1 00000000 ffffffff ffffffff",
        numbers: "4155335167 -711748854 18161 0 -1 4294967295",
    },
    Case {
        name: "Send",
        record: "03 01 0000001c 3ac1f9348ab4f7ca 00003ce0 00000000 fffffffe 000011bf 00000093",
        numbers: "4233939128765708234 15584 0 -2 4543 147",
    },
    Case {
        name: "Ssend",
        record: "04 00 0000001c 8000000000000000 00000007 41bb882d ffff1acc 00000016 00000006",
        numbers: "9223372036854775808 7 1102809133 -58676 22 6",
    },
    Case {
        name: "Ssend",
        record: "04 01 0000001c 3239749cf29a977b ffffa01a 2ffd0167 80000000 00003654 7fffffff",
        numbers: "3619051993002841979 -24550 805110119 -2147483648 13908 2147483647",
    },
    Case {
        name: "Bsend",
        record: "05 00 0000001c 1b3e4621603f7407 ffffd13e 7fffffff ffffffff 0000447d 000000bd",
        numbers: "1963083596742751239 -11970 2147483647 -1 17533 189",
    },
    Case {
        name: "Bsend",
        record: "05 01 0000001c 000000a7ce89d36c ffffffff 80000000 fd53a6eb fffffffe 00000007",
        numbers: "720724677484 -1 2147483648 -44849429 -2 7",
    },
    Case {
        name: "Rsend",
        record: "06 00 0000001c 000000e1a1e17d9e 00000000 672b7d5c 00000001 fffffffe 00003e00",
        numbers: "969083551134 0 1730903388 1 -2 15872",
    },
    Case {
        name: "Rsend",
        record: "06 01 0000001c ffffffffffffffff fffffffe 00000005 ffff943b 00000000 0bd337a5",
        numbers: "18446744073709551615 -2 5 -27589 0 198391717",
    },
    Case {
        name: "Recv",
        record: "07 00 00000025 0000000000000000 000000a5 00000002 ffff6c5d 0000a637 0000002d \
            fffffffa c835641d 01",
        numbers: "0 165 2 -37795 42551 45 -6 -936025059 1",
    },
    Case {
        name: "Recv",
        record: "07 00 00000025 0e35beaf1a6dd42a 00000072 00000004 80000000 fffffffe 0000ddf9 \
            fffffffe ffffffff 00",
        numbers: "1023934149568615466 114 4 -2147483648 -2 56825 -2 -1 0",
    },
    Case {
        name: "Recv",
        record: "07 01 0000001c 0000000000000004 ffffffff 0000ef93 ec0f127b 00000000 25750015",
        numbers: "4 -1 61331 -334556549 0 628424725",
    },
    Case {
        name: "Sendrecv",
        record: "08 00 0000003d 000000000000000f 00001087 00000002 ffff2273 ffffffff \
            0000000000000000 00000032 00000074 7fffffff 00000089 000090a6 6f4c0efe \
            8d72a007 01",
        numbers: "15 4231 2 -56717 -1 0 50 116 2147483647 137 37030 1867255550 -1921867769 1",
    },
    Case {
        name: "Sendrecv",
        record: "08 01 00000034 8000000000000000 fffffffe ffffffff ffffffff 27eaad41 \
            0000000000000000 8d4882d1 000088ba 00000012 00000001 00000040",
        numbers: "9223372036854775808 -2 4294967295 -1 669691201 0 -1924627759 35002 18 1 64",
    },
    Case {
        name: "Probe",
        record: "09 00 00000015 000000bf ffffff57 48135af3 00000038 ffffffff 00",
        numbers: "191 -169 1209228019 56 -1 0",
    },
    Case {
        name: "Probe",
        record: "09 01 0000000c 00003abb 44221a27 0000f9f6",
        numbers: "15035 1143085607 63990",
    },
    Case {
        name: "Iprobe",
        record: "0a 00 0000000d fffffffa dea3a726 7fffffff 00",
        numbers: "-6 -559700186 2147483647 0",
    },
    Case {
        name: "Iprobe",
        record: "0a 00 00000016 00000003 fffffffe 5fdd707e 01 32f6ffa4 ffffffb4 00",
        numbers: "3 -2 1608347774 1 855048100 -76 0",
    },
    Case {
        name: "Iprobe",
        record: "0a 01 0000000c c770231d 7fffffff 00000006",
        numbers: "-948952291 2147483647 6",
    },
    Case {
        name: "Isend",
        record: "0b 00 00000020 0000000000045565 fffffffe 00000000 80000000 0ab3c3a9 ffffffff \
            4b61eff2",
        numbers: "284005 -2 0 -2147483648 179553193 4294967295 1264709618",
    },
    Case {
        name: "Isend",
        record: "0b 01 0000001c 1baf68c35cfe3670 7fffffff 000000ca ffffff69 ffff90e1 80000000",
        numbers: "1994928348236494448 2147483647 202 -151 -28447 2147483648",
    },
    Case {
        name: "Issend",
        record: "0c 00 00000020 00000027a5cdd876 ffffffff 7fffffff 0000007c fffffffe 00000000 \
            0000001f",
        numbers: "170285455478 -1 2147483647 124 -2 0 31",
    },
    Case {
        name: "Issend",
        record: "0c 01 0000001c 8000000000000000 fffffffe ffffffff ffffffff 00005520 7fffffff",
        numbers: "9223372036854775808 -2 4294967295 -1 21792 2147483647",
    },
    Case {
        name: "Ibsend",
        record: "0d 00 00000020 0096511c911f9a03 194b96f0 0000009e 4f18a43d ffffffff 80000000 \
            00000007",
        numbers: "42310429642299907 424384240 158 1327014973 -1 2147483648 7",
    },
    Case {
        name: "Ibsend",
        record: "0d 01 0000001c 2916be59d2fe5187 00000004 80000000 00000003 00000000 00000099",
        numbers: "2960763098043928967 4 2147483648 3 0 153",
    },
    Case {
        name: "Irsend",
        record: "0e 00 00000020 8000000000000000 ffffff28 3d7a54b7 fffffffa 80000000 0000006c \
            00008a82",
        numbers: "9223372036854775808 -216 1031427255 -6 -2147483648 108 35458",
    },
    Case {
        name: "Irsend",
        record: "0e 01 0000001c 05989772e57f07e3 6c89650a 0000f977 00008e2f fffffffb 7636749d",
        numbers: "403238686382032867 1820943626 63863 36399 -5 1983280285",
    },
    Case {
        name: "Irecv",
        record: "0f 00 00000020 7fffffffffffffff ffffffff 0000720d 00000005 80000000 7fffffff \
            000000e7",
        numbers: "9223372036854775807 -1 29197 5 -2147483648 2147483647 231",
    },
    Case {
        name: "Irecv",
        record: "0f 01 0000001c 0707392c2a3e1c45 0000a03d 00000003 c26692f6 fffffff9 ffffffff",
        numbers: "506436344952527941 41021 3 -1033465098 -7 4294967295",
    },
];
