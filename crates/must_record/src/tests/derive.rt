//! Records of constructors of datatypes, of commit and free.

use super::Case;

pub const DERIVE: &[Case] = &[
    Case {
        name: "TypeContiguous",
        record: "1a 00 0000000c fffffffa 00000002 000000bd",
        numbers: "-6 2 189",
    },
    Case {
        name: "TypeContiguous",
        record: "1a 01 00000008 00000005 29f03c55",
        numbers: "5 703609941",
    },
    Case {
        name: "TypeVector",
        record: "1b 00 00000014 d4342175 00000003 fffffffe 80000000 00000001",
        numbers: "-734781067 3 -2 2147483648 1",
    },
    Case {
        name: "TypeVector",
        record: "1b 01 00000010 000000e5 0000142c 7fffffff 00000000",
        numbers: "229 5164 2147483647 0",
    },
    Case {
        name: "TypeHvector",
        record: "1c 00 00000018 0000d39f ffffffff ffffff8058be4a65 000000bb 00000005",
        numbers: "54175 -1 -548266947995 187 5",
    },
    Case {
        name: "TypeHvector",
        record: "1c 01 00000014 0000c4f6 fffff083 000000070ec4648f 0000001c",
        numbers: "50422 -3965 30312522895 28",
    },
    Case {
        name: "TypeIndexed",
        record: "1d 00 0000000c 00000000 00002161 01546230",
        numbers: "0 8545 22307376",
    },
    Case {
        name: "TypeIndexed",
        record: "1d 00 00000014 00000001 ffffffff 80000000 000000f2 00000000",
        numbers: "1 -1 -2147483648 242 0",
    },
    Case {
        name: "TypeIndexed",
        record: "1d 00 00000024 00000003 00000068 4da32bf8 fffffffe 0000001b 4a4c6f01 0000b9fe \
            00000000 00000004",
        numbers: "3 104 1302539256 -2 27 1246523137 47614 0 4",
    },
    Case {
        name: "TypeIndexed",
        record: "1d 01 00000010 00000001 00000005 ffffffff 0000c88a",
        numbers: "1 5 -1 51338",
    },
    Case {
        name: "TypeHindexed",
        record: "1e 00 0000000c 00000000 00002aa6 80000000",
        numbers: "0 10918 2147483648",
    },
    Case {
        name: "TypeHindexed",
        record: "1e 00 00000018 00000001 fffffffe 7fffffffffffffff 0000aa25 5e73064e",
        numbers: "1 -2 9223372036854775807 43557 1584596558",
    },
    Case {
        name: "TypeHindexed",
        record: "1e 00 00000030 00000003 fffffffe 0000000000000000 0cacd314 8000000000000000 \
            ffff237a f1bff10fce26250b 5fb42b63 00000001",
        numbers: "3 -2 0 212652820 -9223372036854775808 -56454 -1026837139831773941 1605643107 1",
    },
    Case {
        name: "TypeHindexed",
        record: "1e 01 00000014 00000001 00000088 000000000000000b 00000000",
        numbers: "1 136 11 0",
    },
    Case {
        name: "TypeIndexedBlock",
        record: "1f 00 00000010 00000055 00000000 0000009b 35d952bc",
        numbers: "85 0 155 903434940",
    },
    Case {
        name: "TypeIndexedBlock",
        record: "1f 00 00000014 09904bfe 00000001 ffffff76 000000b8 0000e5f3",
        numbers: "160451582 1 -138 184 58867",
    },
    Case {
        name: "TypeIndexedBlock",
        record: "1f 00 0000001c ffffa37c 00000003 00000005 fffffffe 7fffffff 7885f1f8 35fd5ae1",
        numbers: "-23684 3 5 -2 2147483647 2022044152 905796321",
    },
    Case {
        name: "TypeIndexedBlock",
        record: "1f 01 00000010 ffffffff 00000001 7fc54f48 00000000",
        numbers: "-1 1 2143637320 0",
    },
    Case {
        name: "TypeHindexedBlock",
        record: "20 00 00000010 ffffff03 00000000 00000003 000000bc",
        numbers: "-253 0 3 188",
    },
    Case {
        name: "TypeHindexedBlock",
        record: "20 00 00000018 00009359 00000001 fffffffffffc4bf8 00000006 6476eded",
        numbers: "37721 1 -242696 6 1685515757",
    },
    Case {
        name: "TypeHindexedBlock",
        record: "20 00 00000028 ffffff25 00000003 000000000000000b 03ccf0b8e30e42fe \
            000000000000c377 405abddc 80000000",
        numbers: "-219 3 11 273858354236769022 50039 1079688668 2147483648",
    },
    Case {
        name: "TypeHindexedBlock",
        record: "20 01 00000014 00000033 00000001 0000003df68dee45 0000b9ed",
        numbers: "51 1 266129501765 47597",
    },
    Case {
        name: "TypeStruct",
        record: "21 00 00000008 00000000 0000005e",
        numbers: "0 94",
    },
    Case {
        name: "TypeStruct",
        record: "21 00 00000018 00000001 7fffffff 8000000000000000 692c4eff 00000006",
        numbers: "1 2147483647 -9223372036854775808 1764511487 6",
    },
    Case {
        name: "TypeStruct",
        record: "21 00 00000038 00000003 80000000 8000000000000000 00000000 00000030 \
            0000000000000003 000000fc ffff9f65 ffffff36e45cfc40 00001adc 80000000",
        numbers: "3 -2147483648 -9223372036854775808 0 48 3 252 -24731 -863752094656 6876 \
            2147483648",
    },
    Case {
        name: "TypeStruct",
        record: "21 01 00000014 00000001 7fffffff ffffffffffffffff 80000000",
        numbers: "1 2147483647 -1 2147483648",
    },
    Case {
        name: "TypeDup",
        record: "22 00 00000008 6e1f4555 000000cc",
        numbers: "1847543125 204",
    },
    Case {
        name: "TypeDup",
        record: "22 01 00000004 5918abcb",
        numbers: "1494789067",
    },
    Case {
        name: "TypeResized",
        record: "23 00 00000018 000000000009e1fe 00000044bd0a6b9b ffffffff 00000007",
        numbers: "647678 295229352859 4294967295 7",
    },
    Case {
        name: "TypeResized",
        record: "23 01 00000014 7fffffffffffffff 00000000000c51ce 80000000",
        numbers: "9223372036854775807 807374 2147483648",
    },
    Case {
        name: "TypeSubarray",
        record: "24 00 0000000d 00 00000000 0000007a 80000000",
        numbers: "0 0 122 2147483648",
    },
    Case {
        name: "TypeSubarray",
        record: "24 00 00000019 00 00000001 00000000 2d275ddc 80000000 00000098 00000078",
        numbers: "0 1 0 757554652 -2147483648 152 120",
    },
    Case {
        name: "TypeSubarray",
        record: "24 00 00000031 00 00000003 0d5329fb 8774a4a2 fffffffe ffffd92f 00000067 \
            7fffffff 00008890 8c7a7664 ffffff34 62e5d522 2930a519",
        numbers: "0 3 223554043 -2022398814 -2 -9937 103 2147483647 34960 -1938131356 -204 \
            1659229474 691053849",
    },
    Case {
        name: "TypeSubarray",
        record: "24 01 00000015 00 00000001 00001f29 fffffffe ffffff6c ffffffff",
        numbers: "0 1 7977 -2 -148 4294967295",
    },
    Case {
        name: "TypeCommit",
        record: "25 00 00000004 0000f235",
        numbers: "62005",
    },
    Case {
        name: "TypeCommit",
        record: "25 01 00000004 7fffffff",
        numbers: "2147483647",
    },
    Case {
        name: "TypeFree",
        record: "26 00 00000004 7fffffff",
        numbers: "2147483647",
    },
    Case {
        name: "TypeFree",
        record: "26 01 00000004 7fffffff",
        numbers: "2147483647",
    },
];
