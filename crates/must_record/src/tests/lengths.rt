//! Records with counts, lengths, kinds and flags that fit and that do not.

use super::Judged;
use must_format::Cause;

pub const LENGTHS: &[Judged] = &[
    Judged {
        name: "waitall_of_two",
        record: "11 00 0000001e 00000002 00000040 00000041 00000003 00000007 00 00000004 \
            00000008 00",
        fault: None,
    },
    Judged {
        name: "waitall_one_status_too_few",
        record: "11 00 00000015 00000002 00000040 00000041 00000003 00000007 00",
        fault: Some(Cause::Length),
    },
    Judged {
        name: "waitall_one_status_too_many",
        record: "11 00 00000027 00000002 00000040 00000041 00000003 00000007 00 00000004 \
            00000008 00 00000005 00000009 00",
        fault: Some(Cause::Length),
    },
    Judged {
        name: "waitall_byte_left_over",
        record: "11 00 0000001f 00000002 00000040 00000041 00000003 00000007 00 00000004 \
            00000008 00 00",
        fault: Some(Cause::Length),
    },
    Judged {
        name: "waitall_last_status_cut",
        record: "11 00 0000001d 00000002 00000040 00000041 00000003 00000007 00 00000004 \
            00000008",
        fault: Some(Cause::Length),
    },
    Judged {
        name: "waitall_statuses_where_it_did_not_return",
        record: "11 01 0000001e 00000002 00000040 00000041 00000003 00000007 00 00000004 \
            00000008 00",
        fault: Some(Cause::Length),
    },
    Judged {
        name: "testall_one_status_too_few",
        record: "15 00 00000016 00000002 00000040 00000041 01 00000003 00000007 00",
        fault: Some(Cause::Length),
    },
    Judged {
        name: "testall_byte_left_over",
        record: "15 00 00000020 00000002 00000040 00000041 01 00000003 00000007 00 00000004 \
            00000008 00 00",
        fault: Some(Cause::Length),
    },
    Judged {
        name: "testall_flag_missing",
        record: "15 00 0000000c 00000002 00000040 00000041",
        fault: Some(Cause::Length),
    },
    Judged {
        name: "two_ranks",
        record: "2a 00 00000014 00000041 00000002 00000000 00000000 00000042",
        fault: None,
    },
    Judged {
        name: "count_of_ranks_one_above_the_items",
        record: "2a 00 00000010 00000041 00000003 00000000 00000000",
        fault: Some(Cause::Length),
    },
    Judged {
        name: "count_of_ranks_one_below_the_items",
        record: "2a 00 00000014 00000041 00000001 00000000 00000000 00000042",
        fault: Some(Cause::Length),
    },
    Judged {
        name: "two_disps_in_bytes",
        record: "20 00 00000020 00000001 00000002 0000000000000008 0000000000000008 00000007 \
            00000042",
        fault: None,
    },
    Judged {
        name: "count_of_disps_in_bytes_one_above_the_items",
        record: "20 00 00000018 00000001 00000003 0000000000000008 0000000000000008",
        fault: Some(Cause::Length),
    },
    Judged {
        name: "count_of_disps_in_bytes_one_below_the_items",
        record: "20 00 00000020 00000001 00000001 0000000000000008 0000000000000008 00000007 \
            00000042",
        fault: Some(Cause::Length),
    },
    Judged {
        name: "two_blocks",
        record: "1d 00 0000001c 00000002 00000001 00000000 00000001 00000000 00000007 00000042",
        fault: None,
    },
    Judged {
        name: "count_of_blocks_one_above_the_items",
        record: "1d 00 00000014 00000003 00000001 00000000 00000001 00000000",
        fault: Some(Cause::Length),
    },
    Judged {
        name: "count_of_blocks_one_below_the_items",
        record: "1d 00 0000001c 00000001 00000001 00000000 00000001 00000000 00000007 00000042",
        fault: Some(Cause::Length),
    },
    Judged {
        name: "two_blocks_in_bytes",
        record: "1e 00 00000024 00000002 00000001 0000000000000000 00000001 0000000000000000 \
            00000007 00000042",
        fault: None,
    },
    Judged {
        name: "count_of_blocks_in_bytes_one_above_the_items",
        record: "1e 00 0000001c 00000003 00000001 0000000000000000 00000001 0000000000000000",
        fault: Some(Cause::Length),
    },
    Judged {
        name: "count_of_blocks_in_bytes_one_below_the_items",
        record: "1e 00 00000024 00000001 00000001 0000000000000000 00000001 0000000000000000 \
            00000007 00000042",
        fault: Some(Cause::Length),
    },
    Judged {
        name: "two_blocks_of_a_struct",
        record: "21 00 00000028 00000002 00000001 0000000000000000 00000007 00000001 \
            0000000000000000 00000007 00000042",
        fault: None,
    },
    Judged {
        name: "count_of_blocks_of_a_struct_one_above_the_items",
        record: "21 00 00000024 00000003 00000001 0000000000000000 00000007 00000001 \
            0000000000000000 00000007",
        fault: Some(Cause::Length),
    },
    Judged {
        name: "count_of_blocks_of_a_struct_one_below_the_items",
        record: "21 00 00000028 00000001 00000001 0000000000000000 00000007 00000001 \
            0000000000000000 00000007 00000042",
        fault: Some(Cause::Length),
    },
    Judged {
        name: "two_dims",
        record: "24 00 00000025 00 00000002 00000004 00000002 00000001 00000004 00000002 \
            00000001 00000007 00000042",
        fault: None,
    },
    Judged {
        name: "count_of_dims_one_above_the_items",
        record: "24 00 0000001d 00 00000003 00000004 00000002 00000001 00000004 00000002 \
            00000001",
        fault: Some(Cause::Length),
    },
    Judged {
        name: "count_of_dims_one_below_the_items",
        record: "24 00 00000025 00 00000001 00000004 00000002 00000001 00000004 00000002 \
            00000001 00000007 00000042",
        fault: Some(Cause::Length),
    },
    Judged {
        name: "count_of_requests_one_above_the_items",
        record: "11 01 0000000c 00000003 00000040 00000041",
        fault: Some(Cause::Length),
    },
    Judged {
        name: "count_of_requests_one_below_the_items",
        record: "11 01 0000000c 00000001 00000040 00000041",
        fault: Some(Cause::Length),
    },
    Judged {
        name: "count_of_requests_cut",
        record: "11 01 00000003 000000",
        fault: Some(Cause::Length),
    },
    Judged {
        name: "greatest_count_of_requests",
        record: "11 01 00000008 ffffffff 00000040",
        fault: Some(Cause::Length),
    },
    Judged {
        name: "greatest_count_of_requests_with_statuses",
        record: "11 00 00000011 ffffffff 00000040 00000003 00000007 00",
        fault: Some(Cause::Length),
    },
    Judged {
        name: "greatest_count_of_blocks_of_a_struct",
        record: "21 00 00000018 ffffffff 00000001 0000000000000000 00000007 00000042",
        fault: Some(Cause::Length),
    },
    Judged {
        name: "greatest_count_of_no_items",
        record: "2a 01 00000008 00000041 ffffffff",
        fault: Some(Cause::Length),
    },
    Judged {
        name: "two_members",
        record: "30 00 00000014 00000001 00000040 00000002 00000000 00000001",
        fault: None,
    },
    Judged {
        name: "count_of_members_one_above_the_items",
        record: "30 00 00000014 00000001 00000040 00000003 00000000 00000001",
        fault: Some(Cause::Length),
    },
    Judged {
        name: "count_of_members_one_below_the_items",
        record: "30 00 00000014 00000001 00000040 00000001 00000000 00000001",
        fault: Some(Cause::Length),
    },
    Judged {
        name: "greatest_count_of_members",
        record: "31 00 00000018 00000001 00000000 00000000 00000040 ffffffff 00000000",
        fault: Some(Cause::Length),
    },
    Judged {
        name: "members_missing",
        record: "32 00 0000000c 00000001 00000040 00000041",
        fault: Some(Cause::Length),
    },
    Judged {
        name: "made_handle_missing",
        record: "0b 00 0000001c 0000000000001000 00000001 00000007 fffffffe ffffffff 00000001",
        fault: Some(Cause::Length),
    },
    Judged {
        name: "made_handle_where_it_did_not_return",
        record: "0b 01 00000020 0000000000001000 00000001 00000007 fffffffe ffffffff 00000001 \
            00000040",
        fault: Some(Cause::Length),
    },
    Judged {
        name: "byte_in_a_call_without_fields",
        record: "01 00 00000001 00",
        fault: Some(Cause::Length),
    },
    Judged {
        name: "byte_behind_the_last_field",
        record: "03 00 0000001d 0000000000001000 00000001 00000007 fffffffe ffffffff 00000001 \
            00",
        fault: Some(Cause::Length),
    },
    Judged {
        name: "last_field_cut",
        record: "03 00 0000001b 0000000000001000 00000001 00000007 fffffffe ffffffff 000000",
        fault: Some(Cause::Length),
    },
    Judged {
        name: "byte_behind_the_last_field_of_many",
        record: "3d 00 00000026 00 0000000000000000 00000000 00000007 0000000000000000 00000000 \
            00000007 00000001 00",
        fault: Some(Cause::Length),
    },
    Judged {
        name: "byte_behind_the_made_handle",
        record: "0b 00 00000021 0000000000001000 00000001 00000007 fffffffe ffffffff 00000001 \
            00000040 00",
        fault: Some(Cause::Length),
    },
    Judged {
        name: "no_payload",
        record: "34 00 00000000",
        fault: Some(Cause::Length),
    },
    Judged {
        name: "length_above_the_greatest",
        record: "11 00 00100001",
        fault: Some(Cause::Length),
    },
    Judged {
        name: "greatest_length_of_four_bytes",
        record: "01 00 ffffffff",
        fault: Some(Cause::Length),
    },
    Judged {
        name: "kind_68",
        record: "44 00 00000000",
        fault: Some(Cause::Kind),
    },
    Judged {
        name: "kind_68_with_bad_flags",
        record: "44 02 00000000",
        fault: Some(Cause::Kind),
    },
    Judged {
        name: "kind_79",
        record: "4f 00 00000000",
        fault: Some(Cause::Kind),
    },
    Judged {
        name: "kind_255",
        record: "ff 00 00000000",
        fault: Some(Cause::Kind),
    },
    Judged {
        name: "flags_2",
        record: "01 02 00000000",
        fault: Some(Cause::Flags),
    },
    Judged {
        name: "flags_255",
        record: "43 ff 00000000",
        fault: Some(Cause::Flags),
    },
    Judged {
        name: "flags_2_before_a_bad_length",
        record: "01 02 00100001",
        fault: Some(Cause::Flags),
    },
    Judged {
        name: "end_record_with_flags_1",
        record: "00 01 00000004 00000000",
        fault: Some(Cause::Flags),
    },
    Judged {
        name: "end_record_with_flags_2",
        record: "00 02 00000004 00000000",
        fault: Some(Cause::Flags),
    },
    Judged {
        name: "end_record_of_three_bytes",
        record: "00 00 00000003 000001",
        fault: Some(Cause::Length),
    },
    Judged {
        name: "end_record_of_five_bytes",
        record: "00 00 00000005 00000001 00",
        fault: Some(Cause::Length),
    },
];
