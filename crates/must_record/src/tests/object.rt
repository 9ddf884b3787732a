//! Records of calls on operations, groups and communicators.

use super::Case;

pub const OBJECT: &[Case] = &[
    Case {
        name: "OpCreate",
        record: "27 00 00000005 00 ffffffff",
        numbers: "0 4294967295",
    },
    Case {
        name: "OpCreate",
        record: "27 01 00000001 00",
        numbers: "0",
    },
    Case {
        name: "OpFree",
        record: "28 00 00000004 76bdc10a",
        numbers: "1992147210",
    },
    Case {
        name: "OpFree",
        record: "28 01 00000004 000000da",
        numbers: "218",
    },
    Case {
        name: "CommGroup",
        record: "29 00 00000008 00004987 000081fa",
        numbers: "18823 33274",
    },
    Case {
        name: "CommGroup",
        record: "29 01 00000004 0000006c",
        numbers: "108",
    },
    Case {
        name: "GroupIncl",
        record: "2a 00 0000000c 000000c9 00000000 00000000",
        numbers: "201 0 0",
    },
    Case {
        name: "GroupIncl",
        record: "2a 00 00000010 000000b0 00000001 7fffffff 00000004",
        numbers: "176 1 2147483647 4",
    },
    Case {
        name: "GroupIncl",
        record: "2a 00 00000018 000000c9 00000003 ffff617a 00000000 fffffffe 00000006",
        numbers: "201 3 -40582 0 -2 6",
    },
    Case {
        name: "GroupIncl",
        record: "2a 01 0000000c 000000f2 00000001 7fffffff",
        numbers: "242 1 2147483647",
    },
    Case {
        name: "GroupExcl",
        record: "2b 00 0000000c 00000004 00000000 00000006",
        numbers: "4 0 6",
    },
    Case {
        name: "GroupExcl",
        record: "2b 00 00000010 00000007 00000001 ffffffff 00005ffd",
        numbers: "7 1 -1 24573",
    },
    Case {
        name: "GroupExcl",
        record: "2b 00 00000018 00000004 00000003 0000304f 80000000 ffffffff 80000000",
        numbers: "4 3 12367 -2147483648 -1 2147483648",
    },
    Case {
        name: "GroupExcl",
        record: "2b 01 0000000c 00000e24 00000001 00000099",
        numbers: "3620 1 153",
    },
    Case {
        name: "GroupUnion",
        record: "2c 00 0000000c 00000000 ffffffff 00000039",
        numbers: "0 4294967295 57",
    },
    Case {
        name: "GroupUnion",
        record: "2c 01 00000008 0000002a 32e4779c",
        numbers: "42 853833628",
    },
    Case {
        name: "GroupIntersection",
        record: "2d 00 0000000c 00006ba2 80000000 7fffffff",
        numbers: "27554 2147483648 2147483647",
    },
    Case {
        name: "GroupIntersection",
        record: "2d 01 00000008 00000061 5468f46d",
        numbers: "97 1416164461",
    },
    Case {
        name: "GroupDifference",
        record: "2e 00 0000000c 00004b87 00000000 00000004",
        numbers: "19335 0 4",
    },
    Case {
        name: "GroupDifference",
        record: "2e 01 00000008 00000000 ffffffff",
        numbers: "0 4294967295",
    },
    Case {
        name: "GroupFree",
        record: "2f 00 00000004 7fffffff",
        numbers: "2147483647",
    },
    Case {
        name: "GroupFree",
        record: "2f 01 00000004 0000b017",
        numbers: "45079",
    },
    Case {
        name: "CommDup",
        record: "30 00 00000018 000000b6 ffffffff 00000003 0000a734 80000000 00000050",
        numbers: "182 4294967295 3 42804 2147483648 80",
    },
    Case {
        name: "CommDup",
        record: "30 00 00000010 80000000 00000006 00000001 0000004d",
        numbers: "2147483648 6 1 77",
    },
    Case {
        name: "CommDup",
        record: "30 01 00000004 000000e6",
        numbers: "230",
    },
    Case {
        name: "CommSplit",
        record: "31 00 00000014 0000aa54 e6a15405 00000045 00000000 00000000",
        numbers: "43604 -425634811 69 0 0",
    },
    Case {
        name: "CommSplit",
        record: "31 00 00000020 0000c9df fffffffa 7fffffff 0b9ca277 00000003 00000000 00000003 \
            0000f109",
        numbers: "51679 -6 2147483647 194814583 3 0 3 61705",
    },
    Case {
        name: "CommSplit",
        record: "31 01 0000000c 7fffffff ffffff8a 00000000",
        numbers: "2147483647 -118 0",
    },
    Case {
        name: "CommCreate",
        record: "32 00 00000010 7fffffff 0b6ba79f 00000000 00000000",
        numbers: "2147483647 191604639 0 0",
    },
    Case {
        name: "CommCreate",
        record: "32 00 00000014 1e963bae 00000000 771a90ee 00000001 000000c4",
        numbers: "513162158 0 1998229742 1 196",
    },
    Case {
        name: "CommCreate",
        record: "32 01 00000008 00001375 7fffffff",
        numbers: "4981 2147483647",
    },
    Case {
        name: "CommFree",
        record: "33 00 00000004 000000e4",
        numbers: "228",
    },
    Case {
        name: "CommFree",
        record: "33 01 00000004 0000b8eb",
        numbers: "47339",
    },
];
