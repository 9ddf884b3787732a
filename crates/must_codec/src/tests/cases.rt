//! Records and streams byte by byte.

use must_format::Cause;

pub const HEADER: &[u8] = &[
    0x4d, 0x54, 0x52, 0x43, 1, 0, 0, 0, 0, 0, 0, 0, 1, 0, 0, 0x7f, 0xff,
];

/// The header of version 2.
pub const HEADER_2: &[u8] = &[
    0x4d, 0x54, 0x52, 0x43, 2, 0, 0, 0, 0, 0, 0, 0, 1, 0, 0, 0x7f, 0xff,
];

pub const INIT: &[u8] = &[1, 0, 0, 0, 0, 0];

pub const STUCK_INIT: &[u8] = &[1, 1, 0, 0, 0, 0];

pub const FINALIZE: &[u8] = &[2, 0, 0, 0, 0, 0];

pub const SEND: &[u8] = &[
    3, 0, 0, 0, 0, 28, 0, 0, 0, 0, 0, 0, 16, 0, 255, 255, 255, 255, 0, 0, 0, 7, 0, 0, 0, 0, 0, 0,
    0, 0, 0, 0, 0, 1,
];

pub const RECV: &[u8] = &[
    7, 0, 0, 0, 0, 37, 0, 0, 0, 0, 0, 0, 16, 0, 0, 0, 0, 1, 0, 0, 0, 7, 255, 255, 255, 254, 255,
    255, 255, 255, 0, 0, 0, 1, 0, 0, 0, 0, 0, 0, 0, 9, 1,
];

pub const STUCK_RECV: &[u8] = &[
    7, 1, 0, 0, 0, 28, 0, 0, 0, 0, 0, 0, 16, 0, 0, 0, 0, 1, 0, 0, 0, 7, 255, 255, 255, 254, 255,
    255, 255, 255, 0, 0, 0, 1,
];

/// `Isend` of request 64.
pub const ISEND: &[u8] = &[
    11, 0, 0, 0, 0, 32, 0, 0, 0, 0, 0, 0, 16, 0, 0, 0, 0, 2, 0, 0, 0, 7, 0, 0, 0, 0, 0, 0, 0, 5, 0,
    0, 0, 1, 0, 0, 0, 64,
];

/// `Waitall` of requests 64 and 0.
pub const WAITALL: &[u8] = &[
    17, 0, 0, 0, 0, 30, 0, 0, 0, 2, 0, 0, 0, 64, 0, 0, 0, 0, 255, 255, 255, 254, 255, 255, 255,
    255, 0, 255, 255, 255, 254, 255, 255, 255, 255, 0,
];

/// `CommSplit` of the world, with color 0 and key -3, into 65 with rank 0.
pub const COMM_SPLIT: &[u8] = &[
    49, 0, 0, 0, 0, 24, 0, 0, 0, 1, 0, 0, 0, 0, 255, 255, 255, 253, 0, 0, 0, 65, 0, 0, 0, 1, 0, 0,
    0, 0,
];

/// `CommSplit` of the world into 64 with rank 0.
pub const COMM_SPLIT_64: &[u8] = &[
    49, 0, 0, 0, 0, 24, 0, 0, 0, 1, 0, 0, 0, 0, 0, 0, 0, 0, 0, 0, 0, 64, 0, 0, 0, 1, 0, 0, 0, 0,
];

/// `TypeStruct` of an int at 0 and a char at -8, into 66.
pub const TYPE_STRUCT: &[u8] = &[
    33, 0, 0, 0, 0, 40, 0, 0, 0, 2, 0, 0, 0, 1, 0, 0, 0, 0, 0, 0, 0, 0, 0, 0, 0, 7, 0, 0, 0, 1,
    255, 255, 255, 255, 255, 255, 255, 248, 0, 0, 0, 1, 0, 0, 0, 66,
];

/// `Testsome` of requests 67, 0 and 68, of which the first and the last are complete.
pub const TESTSOME: &[u8] = &[
    23, 0, 0, 0, 0, 46, 0, 0, 0, 3, 0, 0, 0, 67, 0, 0, 0, 0, 0, 0, 0, 68, 0, 0, 0, 2, 0, 0, 0, 0,
    0, 0, 0, 0, 0, 0, 0, 5, 0, 0, 0, 0, 2, 255, 255, 255, 254, 255, 255, 255, 255, 1,
];

/// `Reduce` of an int by the sum, to rank 0.
pub const REDUCE: &[u8] = &[
    62, 0, 0, 0, 0, 37, 0, 0, 0, 0, 0, 0, 0, 16, 0, 0, 0, 0, 0, 0, 0, 32, 0, 0, 0, 0, 1, 0, 0, 0,
    7, 0, 0, 0, 3, 0, 0, 0, 0, 0, 0, 0, 1,
];

/// `CommSplit` of the world with no color, into no communicator, without members.
pub const SPLIT_INTO_NONE: &[u8] = &[
    49, 0, 0, 0, 0, 20, 0, 0, 0, 1, 255, 255, 255, 255, 0, 0, 0, 0, 0, 0, 0, 0, 0, 0, 0, 0,
];

/// `CommDup` of the world without members, up to the last byte of the handle.
pub const DUP: &[u8] = &[48, 0, 0, 0, 0, 12, 0, 0, 0, 1, 0, 0, 0];

/// `CommDup` of the world into 64, up to its one member.
pub const DUP_OF_1: &[u8] = &[48, 0, 0, 0, 0, 16, 0, 0, 0, 1, 0, 0, 0, 64];

/// `CommDup` of the world into 64, up to its two members.
pub const DUP_OF_2: &[u8] = &[48, 0, 0, 0, 0, 20, 0, 0, 0, 1, 0, 0, 0, 64];

/// `CommGroup` of the world, up to the last byte of the handle.
pub const COMM_GROUP: &[u8] = &[41, 0, 0, 0, 0, 8, 0, 0, 0, 1, 0, 0, 0];

/// `Ibarrier` on the world of request 64.
pub const IBARRIER: &[u8] = &[73, 0, 0, 0, 0, 8, 0, 0, 0, 1, 0, 0, 0, 64];

/// `Startall` of request 64.
pub const STARTALL: &[u8] = &[72, 0, 0, 0, 0, 8, 0, 0, 0, 1, 0, 0, 0, 64];

pub const END_0: &[u8] = &[0, 0, 0, 0, 0, 4, 0, 0, 0, 0];

pub const END_1: &[u8] = &[0, 0, 0, 0, 0, 4, 0, 0, 0, 1];

pub const END_2: &[u8] = &[0, 0, 0, 0, 0, 4, 0, 0, 0, 2];

pub const END_4: &[u8] = &[0, 0, 0, 0, 0, 4, 0, 0, 0, 4];

pub const END_8: &[u8] = &[0, 0, 0, 0, 0, 4, 0, 0, 0, 8];

/// A stream, how many calls it has, and where and why it is refused.
pub struct Case {
    pub name: &'static str,
    pub parts: &'static [&'static [u8]],
    pub calls: u32,
    pub refused: Option<(u64, Cause)>,
}

/// Complete streams.
pub const ACCEPTED: &[Case] = &[
    Case {
        name: "empty_run",
        parts: &[HEADER, INIT, FINALIZE, END_2],
        calls: 2,
        refused: None,
    },
    Case {
        name: "sends_and_receives",
        parts: &[HEADER, INIT, SEND, RECV, FINALIZE, END_4],
        calls: 4,
        refused: None,
    },
    Case {
        name: "kinds_of_each_family",
        parts: &[
            HEADER,
            INIT,
            ISEND,
            WAITALL,
            COMM_SPLIT,
            TYPE_STRUCT,
            TESTSOME,
            REDUCE,
            FINALIZE,
            END_8,
        ],
        calls: 8,
        refused: None,
    },
    Case {
        name: "outcount_undefined_and_flag_0",
        parts: &[
            HEADER,
            &[23, 0, 0, 0, 0, 8, 0, 0, 0, 0, 255, 255, 255, 255],
            &[10, 0, 0, 0, 0, 13],
            &[0; 13],
            END_2,
        ],
        calls: 2,
        refused: None,
    },
    Case {
        name: "lists_without_outputs_where_the_call_did_not_return",
        parts: &[HEADER, &[17, 1, 0, 0, 0, 12, 0, 0, 0, 2], &[0; 8], END_1],
        calls: 1,
        refused: None,
    },
    Case {
        name: "kinds_of_version_2",
        parts: &[HEADER_2, IBARRIER, STARTALL, END_2],
        calls: 2,
        refused: None,
    },
    Case {
        name: "none_and_the_empty_group_take_no_number",
        parts: &[
            HEADER,
            SPLIT_INTO_NONE,
            COMM_GROUP,
            &[1],
            COMM_SPLIT_64,
            COMM_GROUP,
            &[65],
            END_4,
        ],
        calls: 4,
        refused: None,
    },
    Case {
        name: "no_call",
        parts: &[HEADER, END_0],
        calls: 0,
        refused: None,
    },
    Case {
        name: "last_call_did_not_return",
        parts: &[HEADER, STUCK_RECV, END_1],
        calls: 1,
        refused: None,
    },
    Case {
        name: "large_tag_ub",
        parts: &[
            &[0x4d, 0x54, 0x52, 0x43, 1],
            &[0, 0, 0, 0],
            &[0, 0, 0, 1],
            &[0x7f, 255, 255, 255],
            END_0,
        ],
        calls: 0,
        refused: None,
    },
];

/// Streams with a bad header.
pub const HEADERS: &[Case] = &[
    Case {
        name: "no_byte",
        parts: &[],
        calls: 0,
        refused: Some((0, Cause::Truncated)),
    },
    Case {
        name: "sixteen_bytes",
        parts: &[&[0; 16]],
        calls: 0,
        refused: Some((0, Cause::Truncated)),
    },
    Case {
        name: "another_mark",
        parts: &[&[0x4d, 0x54, 0x52, 0x44], &[0; 13]],
        calls: 0,
        refused: Some((0, Cause::Magic)),
    },
    Case {
        name: "version_3",
        parts: &[&[0x4d, 0x54, 0x52, 0x43, 3], &[9; 12]],
        calls: 0,
        refused: Some((4, Cause::Version)),
    },
    Case {
        name: "version_0",
        parts: &[&[0x4d, 0x54, 0x52, 0x43, 0], &[9; 12]],
        calls: 0,
        refused: Some((4, Cause::Version)),
    },
    Case {
        name: "another_rank_and_size",
        parts: &[
            &[0x4d, 0x54, 0x52, 0x43, 1],
            &[0, 0, 0, 1],
            &[0, 0, 0, 2],
            &[0; 4],
        ],
        calls: 0,
        refused: Some((5, Cause::WrongRank)),
    },
    Case {
        name: "another_size",
        parts: &[
            &[0x4d, 0x54, 0x52, 0x43, 1],
            &[0, 0, 0, 0],
            &[0, 0, 0, 2],
            &[0; 4],
        ],
        calls: 0,
        refused: Some((9, Cause::WrongSize)),
    },
    Case {
        name: "small_tag_ub",
        parts: &[
            &[0x4d, 0x54, 0x52, 0x43, 1],
            &[0, 0, 0, 0],
            &[0, 0, 0, 1],
            &[0, 0, 0x7f, 0xfe],
            INIT,
        ],
        calls: 0,
        refused: Some((13, Cause::TagUb)),
    },
    Case {
        name: "negative_tag_ub",
        parts: &[
            &[0x4d, 0x54, 0x52, 0x43, 1],
            &[0, 0, 0, 0],
            &[0, 0, 0, 1],
            &[255, 255, 255, 255],
        ],
        calls: 0,
        refused: Some((13, Cause::TagUb)),
    },
];

/// Streams with a bad record, whatever stands in its payload.
pub const RECORDS: &[Case] = &[
    Case {
        name: "header_alone",
        parts: &[HEADER],
        calls: 0,
        refused: Some((17, Cause::Truncated)),
    },
    Case {
        name: "end_record_cut",
        parts: &[HEADER, INIT, FINALIZE, &[0, 0, 0, 0, 0, 4, 0, 0, 0]],
        calls: 2,
        refused: Some((29, Cause::Truncated)),
    },
    Case {
        name: "payload_cut",
        parts: &[HEADER, INIT, &[3, 0, 0, 0, 0, 28, 0]],
        calls: 1,
        refused: Some((23, Cause::Truncated)),
    },
    Case {
        name: "longest_payload_missing",
        parts: &[HEADER, &[1, 0, 0, 16, 0, 0]],
        calls: 0,
        refused: Some((17, Cause::Truncated)),
    },
    Case {
        name: "first_kind_of_version_2",
        parts: &[HEADER, &[68, 0, 0, 0, 0, 0], FINALIZE, END_2],
        calls: 0,
        refused: Some((17, Cause::Kind)),
    },
    Case {
        name: "kind_of_a_later_version_alone",
        parts: &[HEADER, INIT, &[71]],
        calls: 1,
        refused: Some((23, Cause::Kind)),
    },
    Case {
        name: "flags_above_1",
        parts: &[HEADER, INIT, &[2, 2]],
        calls: 1,
        refused: Some((23, Cause::Flags)),
    },
    Case {
        name: "end_record_with_flags",
        parts: &[HEADER, INIT, &[0, 1]],
        calls: 1,
        refused: Some((23, Cause::Flags)),
    },
    Case {
        name: "length_above_the_greatest",
        parts: &[HEADER, &[1, 0, 0, 16, 0, 1]],
        calls: 0,
        refused: Some((17, Cause::Length)),
    },
    Case {
        name: "end_record_of_three_bytes",
        parts: &[HEADER, INIT, &[0, 0, 0, 0, 0, 3, 0, 0, 1]],
        calls: 1,
        refused: Some((23, Cause::Length)),
    },
    Case {
        name: "end_record_of_five_bytes",
        parts: &[HEADER, INIT, &[0, 0, 0, 0, 0, 5, 0, 0, 0, 1, 0]],
        calls: 1,
        refused: Some((23, Cause::Length)),
    },
    Case {
        name: "call_behind_one_that_did_not_return",
        parts: &[HEADER, STUCK_INIT, FINALIZE, END_2],
        calls: 1,
        refused: Some((23, Cause::AfterUnreturned)),
    },
    Case {
        name: "bad_call_behind_one_that_did_not_return",
        parts: &[HEADER, STUCK_INIT, &[1, 0, 0, 0, 0, 1, 0]],
        calls: 1,
        refused: Some((23, Cause::Length)),
    },
    Case {
        name: "one_call_too_few",
        parts: &[HEADER, INIT, FINALIZE, END_1],
        calls: 2,
        refused: Some((29, Cause::EndCount)),
    },
    Case {
        name: "one_call_too_many",
        parts: &[HEADER, INIT, END_2, &[0]],
        calls: 1,
        refused: Some((23, Cause::EndCount)),
    },
    Case {
        name: "lone_end_byte",
        parts: &[HEADER, INIT, FINALIZE, END_2, &[0]],
        calls: 2,
        refused: Some((39, Cause::AfterEnd)),
    },
];

/// Streams with a handle or members that can't be, in a run of one rank.
pub const MADE: &[Case] = &[
    Case {
        name: "first_handle_is_65",
        parts: &[HEADER, INIT, COMM_GROUP, &[65], END_2],
        calls: 1,
        refused: Some((23, Cause::HandleNumber)),
    },
    Case {
        name: "handle_again",
        parts: &[HEADER, ISEND, ISEND, END_2],
        calls: 1,
        refused: Some((55, Cause::HandleNumber)),
    },
    Case {
        name: "handle_again_in_another_class",
        parts: &[HEADER, ISEND, COMM_GROUP, &[64], END_2],
        calls: 1,
        refused: Some((55, Cause::HandleNumber)),
    },
    Case {
        name: "group_of_number_0",
        parts: &[HEADER, COMM_GROUP, &[0], END_1],
        calls: 0,
        refused: Some((17, Cause::HandleNumber)),
    },
    Case {
        name: "copy_into_no_communicator",
        parts: &[HEADER, DUP, &[0], &[0; 4], END_1],
        calls: 0,
        refused: Some((17, Cause::HandleNumber)),
    },
    Case {
        name: "none_with_a_member",
        parts: &[
            HEADER,
            INIT,
            &[49, 0, 0, 0, 0, 24, 0, 0, 0, 1],
            &[0; 12],
            &[0, 0, 0, 1, 0, 0, 0, 0],
        ],
        calls: 1,
        refused: Some((23, Cause::Members)),
    },
    Case {
        name: "no_member",
        parts: &[HEADER, DUP, &[64], &[0; 4], END_1],
        calls: 0,
        refused: Some((17, Cause::Members)),
    },
    Case {
        name: "member_that_is_no_rank",
        parts: &[HEADER, DUP_OF_1, &[0, 0, 0, 1, 0, 0, 0, 1], END_1],
        calls: 0,
        refused: Some((17, Cause::Members)),
    },
    Case {
        name: "member_twice",
        parts: &[HEADER, DUP_OF_2, &[0, 0, 0, 2], &[0; 8], END_1],
        calls: 0,
        refused: Some((17, Cause::Members)),
    },
    Case {
        name: "another_handle_and_other_members",
        parts: &[HEADER, ISEND, DUP_OF_1, &[0, 0, 0, 1, 0, 0, 0, 1], END_2],
        calls: 1,
        refused: Some((55, Cause::HandleNumber)),
    },
    Case {
        name: "another_handle_behind_a_call_that_did_not_return",
        parts: &[HEADER, STUCK_INIT, COMM_GROUP, &[65], END_2],
        calls: 1,
        refused: Some((23, Cause::AfterUnreturned)),
    },
];

/// Streams with a bad payload.
pub const PAYLOADS: &[Case] = &[
    Case {
        name: "payload_of_a_call_without_fields",
        parts: &[HEADER, &[1, 0, 0, 0, 0, 1, 0], FINALIZE, END_2],
        calls: 0,
        refused: Some((17, Cause::Length)),
    },
    Case {
        name: "field_cut_by_the_length",
        parts: &[HEADER, &[3, 0, 0, 0, 0, 27], &[0; 27]],
        calls: 0,
        refused: Some((17, Cause::Length)),
    },
    Case {
        name: "byte_left_over",
        parts: &[HEADER, &[3, 0, 0, 0, 0, 29], &[0; 29]],
        calls: 0,
        refused: Some((17, Cause::Length)),
    },
    Case {
        name: "status_missing",
        parts: &[HEADER, &[7, 0, 0, 0, 0, 28], &[0; 28]],
        calls: 0,
        refused: Some((17, Cause::Length)),
    },
    Case {
        name: "status_where_the_call_did_not_return",
        parts: &[HEADER, &[7, 1, 0, 0, 0, 37], &[0; 37]],
        calls: 0,
        refused: Some((17, Cause::Length)),
    },
    Case {
        name: "cancelled_is_2",
        parts: &[HEADER, &[7, 0, 0, 0, 0, 37], &[0; 36], &[2], END_1],
        calls: 0,
        refused: Some((17, Cause::Field)),
    },
    Case {
        name: "cancelled_is_2_with_a_byte_left_over",
        parts: &[HEADER, &[7, 0, 0, 0, 0, 38], &[0; 36], &[2, 0], END_1],
        calls: 0,
        refused: Some((17, Cause::Field)),
    },
    Case {
        name: "list_cut_by_the_length",
        parts: &[HEADER, INIT, &[17, 0, 0, 0, 0, 12, 0, 0, 0, 3], &[0; 8]],
        calls: 1,
        refused: Some((23, Cause::Length)),
    },
    Case {
        name: "list_longer_than_any_payload",
        parts: &[HEADER, &[29, 0, 0, 0, 0, 12], &[255; 12]],
        calls: 0,
        refused: Some((17, Cause::Length)),
    },
    Case {
        name: "one_status_too_few",
        parts: &[HEADER, &[17, 0, 0, 0, 0, 21, 0, 0, 0, 2], &[0; 17]],
        calls: 0,
        refused: Some((17, Cause::Length)),
    },
    Case {
        name: "index_equal_to_the_number_of_requests",
        parts: &[
            HEADER,
            INIT,
            &[18, 0, 0, 0, 0, 25, 0, 0, 0, 2],
            &[0; 8],
            &[0, 0, 0, 2],
            &[0; 9],
        ],
        calls: 1,
        refused: Some((23, Cause::Field)),
    },
    Case {
        name: "outcount_below_undefined",
        parts: &[
            HEADER,
            ISEND,
            &[23, 0, 0, 0, 0, 12, 0, 0, 0, 1, 0, 0, 0, 64],
            &[255, 255, 255, 254],
        ],
        calls: 1,
        refused: Some((55, Cause::Field)),
    },
    Case {
        name: "indices_that_do_not_rise",
        parts: &[
            HEADER,
            INIT,
            &[23, 0, 0, 0, 0, 46, 0, 0, 0, 3],
            &[0; 12],
            &[0, 0, 0, 2],
            &[0, 0, 0, 1, 0, 0, 0, 0, 0, 0, 0, 0, 0],
            &[0, 0, 0, 1, 0, 0, 0, 0, 0, 0, 0, 0, 0],
        ],
        calls: 1,
        refused: Some((23, Cause::Field)),
    },
    Case {
        name: "completed_index_equal_to_the_number_of_requests",
        parts: &[
            HEADER,
            &[19, 0, 0, 0, 0, 25, 0, 0, 0, 1, 0, 0, 0, 64],
            &[0, 0, 0, 1],
            &[0, 0, 0, 1, 0, 0, 0, 0, 0, 0, 0, 0, 0],
        ],
        calls: 0,
        refused: Some((17, Cause::Field)),
    },
    Case {
        name: "flag_of_a_probe_is_2",
        parts: &[HEADER, INIT, &[10, 0, 0, 0, 0, 13], &[0; 12], &[2]],
        calls: 1,
        refused: Some((23, Cause::Field)),
    },
    Case {
        name: "in_place_is_2",
        parts: &[HEADER, INIT, &[62, 0, 0, 0, 0, 37, 2], &[0; 36]],
        calls: 1,
        refused: Some((23, Cause::Field)),
    },
    Case {
        name: "in_place_is_2_and_the_rest_is_cut",
        parts: &[HEADER, INIT, &[62, 0, 0, 0, 0, 1, 2]],
        calls: 1,
        refused: Some((23, Cause::Field)),
    },
];
