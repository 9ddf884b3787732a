//! Records of calls that complete, test, free and cancel requests.

use super::Case;

pub const FINISH: &[Case] = &[
    Case {
        name: "Wait",
        record: "10 00 0000000d 00000000 97e5f7e0 fffffffe 01",
        numbers: "0 -1746536480 -2 1",
    },
    Case {
        name: "Wait",
        record: "10 00 0000000d 000052d1 fffffffe ffffffff 00",
        numbers: "21201 -2 -1 0",
    },
    Case {
        name: "Wait",
        record: "10 01 00000004 0000f449",
        numbers: "62537",
    },
    Case {
        name: "Waitall",
        record: "11 00 00000004 00000000",
        numbers: "0",
    },
    Case {
        name: "Waitall",
        record: "11 00 00000011 00000001 7a11005a ffffffae 0000008c 01",
        numbers: "1 2047934554 -82 140 1",
    },
    Case {
        name: "Waitall",
        record: "11 00 0000002b 00000003 000058f8 00000006 0000a934 fffffffe 80000000 01 \
            0000006b 342d3e0a 00 00000005 0000009a 01",
        numbers: "3 22776 6 43316 -2 -2147483648 1 107 875380234 0 5 154 1",
    },
    Case {
        name: "Waitall",
        record: "11 01 00000004 00000000",
        numbers: "0",
    },
    Case {
        name: "Waitall",
        record: "11 01 00000010 00000003 00000035 21d67ab3 00000038",
        numbers: "3 53 567704243 56",
    },
    Case {
        name: "Waitany",
        record: "12 00 00000011 00000000 ffffffff fffffffe ffffffff 00",
        numbers: "0 -1 -2 -1 0",
    },
    Case {
        name: "Waitany",
        record: "12 00 00000015 00000001 80000000 00000000 fffffffe 00000000 01",
        numbers: "1 2147483648 0 -2 0 1",
    },
    Case {
        name: "Waitany",
        record: "12 00 0000001d 00000003 63e318cb 0000609b 232538e1 ffffffff fffffffe ffffffff \
            00",
        numbers: "3 1675827403 24731 589641953 -1 -2 -1 0",
    },
    Case {
        name: "Waitany",
        record: "12 00 0000001d 00000003 0000c53a ffffffff 00000002 00000000 80000000 00000000 \
            01",
        numbers: "3 50490 4294967295 2 0 -2147483648 0 1",
    },
    Case {
        name: "Waitany",
        record: "12 00 0000001d 00000003 0000b60a 00000076 ffffffff 00000002 80000000 fffffffe \
            00",
        numbers: "3 46602 118 4294967295 2 -2147483648 -2 0",
    },
    Case {
        name: "Waitany",
        record: "12 01 00000008 00000001 000000ea",
        numbers: "1 234",
    },
    Case {
        name: "Waitany",
        record: "12 01 00000010 00000003 80000000 00000001 11901951",
        numbers: "3 2147483648 1 294656337",
    },
    Case {
        name: "Waitsome",
        record: "13 00 00000008 00000000 ffffffff",
        numbers: "0 -1",
    },
    Case {
        name: "Waitsome",
        record: "13 00 00000014 00000003 00000005 5f8418b7 00000004 ffffffff",
        numbers: "3 5 1602492599 4 -1",
    },
    Case {
        name: "Waitsome",
        record: "13 00 00000014 00000003 7fffffff 357a59d9 00000e0e 00000000",
        numbers: "3 2147483647 897210841 3598 0",
    },
    Case {
        name: "Waitsome",
        record: "13 00 0000002e 00000003 00000096 ffffffff 068a206b 00000002 00000000 70d54d5a \
            7fffffff 01 00000002 5afd6621 65946a2a 00",
        numbers: "3 150 4294967295 109715563 2 0 1893027162 2147483647 1 2 1526556193 1704225322 \
            0",
    },
    Case {
        name: "Waitsome",
        record: "13 00 00000021 00000003 00000053 00000013 0000002b 00000001 00000001 fffffffe \
            285ccd5d 01",
        numbers: "3 83 19 43 1 1 -2 677170525 1",
    },
    Case {
        name: "Waitsome",
        record: "13 01 00000010 00000003 ffffffff 00000000 0000b20a",
        numbers: "3 4294967295 0 45578",
    },
    Case {
        name: "Test",
        record: "14 00 00000005 4109ed69 00",
        numbers: "1091169641 0",
    },
    Case {
        name: "Test",
        record: "14 00 0000000e 00001afa 01 00000000 00000002 01",
        numbers: "6906 1 0 2 1",
    },
    Case {
        name: "Test",
        record: "14 01 00000004 00003a09",
        numbers: "14857",
    },
    Case {
        name: "Testall",
        record: "15 00 00000005 00000000 00",
        numbers: "0 0",
    },
    Case {
        name: "Testall",
        record: "15 00 00000011 00000003 000058d4 00000000 00000056 00",
        numbers: "3 22740 0 86 0",
    },
    Case {
        name: "Testall",
        record: "15 00 00000005 00000000 01",
        numbers: "0 1",
    },
    Case {
        name: "Testall",
        record: "15 00 00000012 00000001 00001f4d 01 0dfbb5cf 00000007 00",
        numbers: "1 8013 1 234599887 7 0",
    },
    Case {
        name: "Testall",
        record: "15 00 0000002c 00000003 00000000 5ad438bd 000000dc 01 ffffffff 00000006 00 \
            ffff8cfa 0000b383 00 ffffff68 af6d0c12 01",
        numbers: "3 0 1523857597 220 1 -1 6 0 -29446 45955 0 -152 -1351807982 1",
    },
    Case {
        name: "Testall",
        record: "15 01 00000010 00000003 7fffffff 00000006 00000001",
        numbers: "3 2147483647 6 1",
    },
    Case {
        name: "Testany",
        record: "16 00 00000005 00000000 00",
        numbers: "0 0",
    },
    Case {
        name: "Testany",
        record: "16 00 00000011 00000003 246d84aa 7fffffff 7e422f0b 00",
        numbers: "3 611157162 2147483647 2118266635 0",
    },
    Case {
        name: "Testany",
        record: "16 00 0000001e 00000003 ffffffff 00000042 80000000 01 ffffffff fffffffe \
            ffffffff 00",
        numbers: "3 4294967295 66 2147483648 1 -1 -2 -1 0",
    },
    Case {
        name: "Testany",
        record: "16 00 00000016 00000001 0000cc12 01 00000000 80000000 ffffffc6 00",
        numbers: "1 52242 1 0 -2147483648 -58 0",
    },
    Case {
        name: "Testany",
        record: "16 00 0000001e 00000003 00000004 00002c30 80000000 01 00000002 00000002 \
            80000000 00",
        numbers: "3 4 11312 2147483648 1 2 2 -2147483648 0",
    },
    Case {
        name: "Testany",
        record: "16 01 00000010 00000003 00000005 00000000 0627eff3",
        numbers: "3 5 0 103280627",
    },
    Case {
        name: "Testsome",
        record: "17 00 0000000c 00000001 0000a090 ffffffff",
        numbers: "1 41104 -1",
    },
    Case {
        name: "Testsome",
        record: "17 00 00000008 00000000 00000000",
        numbers: "0 0",
    },
    Case {
        name: "Testsome",
        record: "17 00 00000014 00000003 00000005 7fffffff ffffffff 00000000",
        numbers: "3 5 2147483647 4294967295 0",
    },
    Case {
        name: "Testsome",
        record: "17 00 0000003b 00000003 80000000 0000005c 1e1ce30b 00000003 00000000 80000000 \
            540ba237 01 00000001 ffffffff 5eae4a71 01 00000002 fffffffe ffff380a 01",
        numbers: "3 2147483648 92 505209611 3 0 -2147483648 1410048567 1 1 -1 1588480625 1 2 -2 \
            -51190 1",
    },
    Case {
        name: "Testsome",
        record: "17 00 00000019 00000001 7c6128e3 00000001 00000000 00000000 7fffffff 01",
        numbers: "1 2086742243 1 0 0 2147483647 1",
    },
    Case {
        name: "Testsome",
        record: "17 01 00000010 00000003 80000000 00000001 0000ace2",
        numbers: "3 2147483648 1 44258",
    },
    Case {
        name: "RequestFree",
        record: "18 00 00000004 7fffffff",
        numbers: "2147483647",
    },
    Case {
        name: "RequestFree",
        record: "18 01 00000004 00000000",
        numbers: "0",
    },
    Case {
        name: "Cancel",
        record: "19 00 00000004 000000fe",
        numbers: "254",
    },
    Case {
        name: "Cancel",
        record: "19 01 00000004 ffffffff",
        numbers: "4294967295",
    },
];
