//! Records just inside and just outside of what a field may hold.

use super::Judged;
use must_format::Cause;

/// Flags, truth values and orders.
pub const BITS: &[Judged] = &[
    Judged {
        name: "iprobe_flag_1",
        record: "0a 00 00000016 fffffffe 00000007 00000001 01 00000003 00000007 00",
        fault: None,
    },
    Judged {
        name: "iprobe_flag_2",
        record: "0a 00 00000016 fffffffe 00000007 00000001 02 00000003 00000007 00",
        fault: Some(Cause::Field),
    },
    Judged {
        name: "iprobe_flag_2_alone",
        record: "0a 00 0000000d fffffffe 00000007 00000001 02",
        fault: Some(Cause::Field),
    },
    Judged {
        name: "iprobe_flag_255",
        record: "0a 00 0000000d fffffffe 00000007 00000001 ff",
        fault: Some(Cause::Field),
    },
    Judged {
        name: "iprobe_flag_missing",
        record: "0a 00 0000000c fffffffe 00000007 00000001",
        fault: Some(Cause::Length),
    },
    Judged {
        name: "iprobe_flag_0_with_a_status",
        record: "0a 00 00000016 fffffffe 00000007 00000001 00 00000003 00000007 00",
        fault: Some(Cause::Length),
    },
    Judged {
        name: "iprobe_flag_1_with_no_status",
        record: "0a 00 0000000d fffffffe 00000007 00000001 01",
        fault: Some(Cause::Length),
    },
    Judged {
        name: "iprobe_flag_where_it_did_not_return",
        record: "0a 01 0000000d fffffffe 00000007 00000001 00",
        fault: Some(Cause::Length),
    },
    Judged {
        name: "test_flag_1",
        record: "14 00 0000000e 00000040 01 00000003 00000007 00",
        fault: None,
    },
    Judged {
        name: "test_flag_2",
        record: "14 00 0000000e 00000040 02 00000003 00000007 00",
        fault: Some(Cause::Field),
    },
    Judged {
        name: "testall_flag_1",
        record: "15 00 00000012 00000001 00000040 01 00000003 00000007 00",
        fault: None,
    },
    Judged {
        name: "testall_flag_2",
        record: "15 00 00000012 00000001 00000040 02 00000003 00000007 00",
        fault: Some(Cause::Field),
    },
    Judged {
        name: "testall_flag_0_with_statuses",
        record: "15 00 00000012 00000001 00000040 00 00000003 00000007 00",
        fault: Some(Cause::Length),
    },
    Judged {
        name: "testany_flag_1",
        record: "16 00 00000016 00000001 00000040 01 00000000 00000003 00000007 00",
        fault: None,
    },
    Judged {
        name: "testany_flag_2",
        record: "16 00 00000016 00000001 00000040 02 00000000 00000003 00000007 00",
        fault: Some(Cause::Field),
    },
    Judged {
        name: "testany_flag_0_with_an_index",
        record: "16 00 00000016 00000001 00000040 00 00000000 00000003 00000007 00",
        fault: Some(Cause::Length),
    },
    Judged {
        name: "gather_in_place_1",
        record: "36 00 00000029 01 0000000000000000 00000001 00000007 0000000000000000 00000001 \
            00000007 00000000 00000001",
        fault: None,
    },
    Judged {
        name: "gather_in_place_2",
        record: "36 00 00000029 02 0000000000000000 00000001 00000007 0000000000000000 00000001 \
            00000007 00000000 00000001",
        fault: Some(Cause::Field),
    },
    Judged {
        name: "gather_in_place_2_alone",
        record: "36 00 00000001 02",
        fault: Some(Cause::Field),
    },
    Judged {
        name: "alltoallv_in_place_1",
        record: "3d 00 0000002d 01 0000000000000000 00000000 00000007 0000000000000000 00000001 \
            00000001 00000000 00000007 00000001",
        fault: None,
    },
    Judged {
        name: "alltoallv_in_place_2",
        record: "3d 00 0000002d 02 0000000000000000 00000000 00000007 0000000000000000 00000001 \
            00000001 00000000 00000007 00000001",
        fault: Some(Cause::Field),
    },
    Judged {
        name: "exscan_in_place_1",
        record: "43 00 00000021 01 0000000000000000 0000000000000008 00000001 00000007 00000003 \
            00000001",
        fault: None,
    },
    Judged {
        name: "exscan_in_place_128",
        record: "43 00 00000021 80 0000000000000000 0000000000000008 00000001 00000007 00000003 \
            00000001",
        fault: Some(Cause::Field),
    },
    Judged {
        name: "commute_1",
        record: "27 00 00000005 01 00000040",
        fault: None,
    },
    Judged {
        name: "commute_2",
        record: "27 00 00000005 02 00000040",
        fault: Some(Cause::Field),
    },
    Judged {
        name: "commute_2_where_it_did_not_return",
        record: "27 01 00000001 02",
        fault: Some(Cause::Field),
    },
    Judged {
        name: "cancelled_1",
        record: "07 00 00000025 0000000000001000 00000001 00000007 fffffffe ffffffff 00000001 \
            00000000 00000009 01",
        fault: None,
    },
    Judged {
        name: "cancelled_2",
        record: "07 00 00000025 0000000000001000 00000001 00000007 fffffffe ffffffff 00000001 \
            00000000 00000009 02",
        fault: Some(Cause::Field),
    },
    Judged {
        name: "cancelled_2_with_a_byte_left_over",
        record: "07 00 00000026 0000000000001000 00000001 00000007 fffffffe ffffffff 00000001 \
            00000000 00000009 02 00",
        fault: Some(Cause::Field),
    },
    Judged {
        name: "cancelled_1_of_sendrecv",
        record: "08 00 0000003d 0000000000001000 00000001 00000007 00000001 00000005 \
            0000000000002000 00000002 00000007 fffffffe ffffffff 00000001 00000000 \
            00000009 01",
        fault: None,
    },
    Judged {
        name: "cancelled_2_of_sendrecv",
        record: "08 00 0000003d 0000000000001000 00000001 00000007 00000001 00000005 \
            0000000000002000 00000002 00000007 fffffffe ffffffff 00000001 00000000 \
            00000009 02",
        fault: Some(Cause::Field),
    },
    Judged {
        name: "cancelled_1_of_the_second_of_all",
        record: "11 00 0000001e 00000002 00000040 00000041 00000000 00000009 00 00000001 \
            00000009 01",
        fault: None,
    },
    Judged {
        name: "cancelled_2_of_the_second_of_all",
        record: "11 00 0000001e 00000002 00000040 00000041 00000000 00000009 00 00000001 \
            00000009 02",
        fault: Some(Cause::Field),
    },
    Judged {
        name: "cancelled_2_of_the_first_before_a_missing_status",
        record: "11 00 00000015 00000002 00000040 00000041 00000000 00000009 02",
        fault: Some(Cause::Field),
    },
    Judged {
        name: "cancelled_1_of_some",
        record: "13 00 00000019 00000001 00000040 00000001 00000000 00000000 00000009 01",
        fault: None,
    },
    Judged {
        name: "cancelled_2_of_some",
        record: "13 00 00000019 00000001 00000040 00000001 00000000 00000000 00000009 02",
        fault: Some(Cause::Field),
    },
    Judged {
        name: "order_1",
        record: "24 00 00000019 01 00000001 00000004 00000002 00000001 00000007 00000040",
        fault: None,
    },
    Judged {
        name: "order_2",
        record: "24 00 00000019 02 00000001 00000004 00000002 00000001 00000007 00000040",
        fault: Some(Cause::Field),
    },
];

/// Indices of one of some requests.
pub const CHOICES: &[Judged] = &[
    Judged {
        name: "waitany_last_index",
        record: "12 00 0000001d 00000003 00000040 00000041 00000042 00000002 00000003 00000007 \
            00",
        fault: None,
    },
    Judged {
        name: "waitany_index_past_the_last",
        record: "12 00 0000001d 00000003 00000040 00000041 00000042 00000003 00000003 00000007 \
            00",
        fault: Some(Cause::Field),
    },
    Judged {
        name: "waitany_index_undefined",
        record: "12 00 0000001d 00000003 00000040 00000041 00000042 ffffffff fffffffe ffffffff \
            00",
        fault: None,
    },
    Judged {
        name: "waitany_index_below_undefined",
        record: "12 00 0000001d 00000003 00000040 00000041 00000042 fffffffe fffffffe ffffffff \
            00",
        fault: Some(Cause::Field),
    },
    Judged {
        name: "waitany_of_no_request",
        record: "12 00 00000011 00000000 ffffffff fffffffe ffffffff 00",
        fault: None,
    },
    Judged {
        name: "waitany_index_of_no_request",
        record: "12 00 00000011 00000000 00000000 fffffffe ffffffff 00",
        fault: Some(Cause::Field),
    },
    Judged {
        name: "waitany_least_index",
        record: "12 00 00000015 00000001 00000040 80000000 00000003 00000007 00",
        fault: Some(Cause::Field),
    },
    Judged {
        name: "waitany_greatest_index",
        record: "12 00 00000015 00000001 00000040 7fffffff 00000003 00000007 00",
        fault: Some(Cause::Field),
    },
    Judged {
        name: "waitany_bad_index_before_a_missing_status",
        record: "12 00 0000000c 00000001 00000040 00000001",
        fault: Some(Cause::Field),
    },
    Judged {
        name: "waitany_index_cut",
        record: "12 00 0000000b 00000001 00000040 000000",
        fault: Some(Cause::Length),
    },
    Judged {
        name: "waitany_status_missing",
        record: "12 00 0000000c 00000001 00000040 00000000",
        fault: Some(Cause::Length),
    },
    Judged {
        name: "testany_last_index",
        record: "16 00 0000001e 00000003 00000040 00000041 00000042 01 00000002 00000003 \
            00000007 00",
        fault: None,
    },
    Judged {
        name: "testany_index_past_the_last",
        record: "16 00 0000001e 00000003 00000040 00000041 00000042 01 00000003 00000003 \
            00000007 00",
        fault: Some(Cause::Field),
    },
    Judged {
        name: "testany_index_undefined",
        record: "16 00 0000001e 00000003 00000040 00000041 00000042 01 ffffffff fffffffe \
            ffffffff 00",
        fault: None,
    },
    Judged {
        name: "testany_index_below_undefined",
        record: "16 00 0000001e 00000003 00000040 00000041 00000042 01 fffffffe fffffffe \
            ffffffff 00",
        fault: Some(Cause::Field),
    },
    Judged {
        name: "testany_of_no_request",
        record: "16 00 00000012 00000000 01 ffffffff fffffffe ffffffff 00",
        fault: None,
    },
    Judged {
        name: "testany_index_of_no_request",
        record: "16 00 00000012 00000000 01 00000000 fffffffe ffffffff 00",
        fault: Some(Cause::Field),
    },
    Judged {
        name: "testany_least_index",
        record: "16 00 00000016 00000001 00000040 01 80000000 00000003 00000007 00",
        fault: Some(Cause::Field),
    },
    Judged {
        name: "testany_greatest_index",
        record: "16 00 00000016 00000001 00000040 01 7fffffff 00000003 00000007 00",
        fault: Some(Cause::Field),
    },
    Judged {
        name: "testany_bad_index_before_a_missing_status",
        record: "16 00 0000000d 00000001 00000040 01 00000001",
        fault: Some(Cause::Field),
    },
    Judged {
        name: "testany_index_cut",
        record: "16 00 0000000c 00000001 00000040 01 000000",
        fault: Some(Cause::Length),
    },
    Judged {
        name: "testany_status_missing",
        record: "16 00 0000000d 00000001 00000040 01 00000000",
        fault: Some(Cause::Length),
    },
];

/// Counts and indices of some of some requests.
pub const COMPLETIONS: &[Judged] = &[
    Judged {
        name: "waitsome_outcount_0",
        record: "13 00 00000010 00000002 00000040 00000041 00000000",
        fault: None,
    },
    Judged {
        name: "waitsome_outcount_undefined",
        record: "13 00 00000010 00000002 00000040 00000041 ffffffff",
        fault: None,
    },
    Judged {
        name: "waitsome_outcount_below_undefined",
        record: "13 00 00000010 00000002 00000040 00000041 fffffffe",
        fault: Some(Cause::Field),
    },
    Judged {
        name: "waitsome_least_outcount",
        record: "13 00 00000010 00000002 00000040 00000041 80000000",
        fault: Some(Cause::Field),
    },
    Judged {
        name: "waitsome_greatest_outcount",
        record: "13 00 00000010 00000002 00000040 00000041 7fffffff",
        fault: Some(Cause::Length),
    },
    Judged {
        name: "waitsome_outcount_undefined_with_a_byte",
        record: "13 00 00000011 00000002 00000040 00000041 ffffffff 00",
        fault: Some(Cause::Length),
    },
    Judged {
        name: "waitsome_indices_rise",
        record: "13 00 0000002e 00000003 00000040 00000041 00000042 00000002 00000000 00000003 \
            00000007 00 00000002 00000004 00000008 00",
        fault: None,
    },
    Judged {
        name: "waitsome_indices_equal",
        record: "13 00 0000002e 00000003 00000040 00000041 00000042 00000002 00000001 00000003 \
            00000007 00 00000001 00000004 00000008 00",
        fault: Some(Cause::Field),
    },
    Judged {
        name: "waitsome_indices_fall",
        record: "13 00 0000002e 00000003 00000040 00000041 00000042 00000002 00000002 00000003 \
            00000007 00 00000000 00000004 00000008 00",
        fault: Some(Cause::Field),
    },
    Judged {
        name: "waitsome_last_index",
        record: "13 00 00000021 00000003 00000040 00000041 00000042 00000001 00000002 00000003 \
            00000007 00",
        fault: None,
    },
    Judged {
        name: "waitsome_index_past_the_last",
        record: "13 00 00000021 00000003 00000040 00000041 00000042 00000001 00000003 00000003 \
            00000007 00",
        fault: Some(Cause::Field),
    },
    Judged {
        name: "waitsome_greatest_index",
        record: "13 00 00000021 00000003 00000040 00000041 00000042 00000001 ffffffff 00000003 \
            00000007 00",
        fault: Some(Cause::Field),
    },
    Judged {
        name: "waitsome_bad_index_before_a_missing_status",
        record: "13 00 00000018 00000003 00000040 00000041 00000042 00000002 00000003",
        fault: Some(Cause::Field),
    },
    Judged {
        name: "waitsome_missing_status_before_a_bad_index",
        record: "13 00 00000020 00000003 00000040 00000041 00000042 00000002 00000000 00000003 \
            00000007",
        fault: Some(Cause::Length),
    },
    Judged {
        name: "waitsome_status_cut_before_a_bad_index",
        record: "13 00 00000027 00000003 00000040 00000041 00000042 00000003 00000000 00000003 \
            00000007 00 00000001 0000",
        fault: Some(Cause::Length),
    },
    Judged {
        name: "waitsome_more_indices_than_requests",
        record: "13 00 00000026 00000001 00000040 00000002 00000000 00000003 00000007 00 \
            00000001 00000004 00000008 00",
        fault: Some(Cause::Field),
    },
    Judged {
        name: "waitsome_one_completion_too_few",
        record: "13 00 00000021 00000003 00000040 00000041 00000042 00000002 00000000 00000003 \
            00000007 00",
        fault: Some(Cause::Length),
    },
    Judged {
        name: "waitsome_byte_left_over",
        record: "13 00 00000022 00000003 00000040 00000041 00000042 00000001 00000000 00000003 \
            00000007 00 00",
        fault: Some(Cause::Length),
    },
    Judged {
        name: "testsome_outcount_0",
        record: "17 00 00000010 00000002 00000040 00000041 00000000",
        fault: None,
    },
    Judged {
        name: "testsome_outcount_undefined",
        record: "17 00 00000010 00000002 00000040 00000041 ffffffff",
        fault: None,
    },
    Judged {
        name: "testsome_outcount_below_undefined",
        record: "17 00 00000010 00000002 00000040 00000041 fffffffe",
        fault: Some(Cause::Field),
    },
    Judged {
        name: "testsome_least_outcount",
        record: "17 00 00000010 00000002 00000040 00000041 80000000",
        fault: Some(Cause::Field),
    },
    Judged {
        name: "testsome_greatest_outcount",
        record: "17 00 00000010 00000002 00000040 00000041 7fffffff",
        fault: Some(Cause::Length),
    },
    Judged {
        name: "testsome_outcount_undefined_with_a_byte",
        record: "17 00 00000011 00000002 00000040 00000041 ffffffff 00",
        fault: Some(Cause::Length),
    },
    Judged {
        name: "testsome_indices_rise",
        record: "17 00 0000002e 00000003 00000040 00000041 00000042 00000002 00000000 00000003 \
            00000007 00 00000002 00000004 00000008 00",
        fault: None,
    },
    Judged {
        name: "testsome_indices_equal",
        record: "17 00 0000002e 00000003 00000040 00000041 00000042 00000002 00000001 00000003 \
            00000007 00 00000001 00000004 00000008 00",
        fault: Some(Cause::Field),
    },
    Judged {
        name: "testsome_indices_fall",
        record: "17 00 0000002e 00000003 00000040 00000041 00000042 00000002 00000002 00000003 \
            00000007 00 00000000 00000004 00000008 00",
        fault: Some(Cause::Field),
    },
    Judged {
        name: "testsome_last_index",
        record: "17 00 00000021 00000003 00000040 00000041 00000042 00000001 00000002 00000003 \
            00000007 00",
        fault: None,
    },
    Judged {
        name: "testsome_index_past_the_last",
        record: "17 00 00000021 00000003 00000040 00000041 00000042 00000001 00000003 00000003 \
            00000007 00",
        fault: Some(Cause::Field),
    },
    Judged {
        name: "testsome_greatest_index",
        record: "17 00 00000021 00000003 00000040 00000041 00000042 00000001 ffffffff 00000003 \
            00000007 00",
        fault: Some(Cause::Field),
    },
    Judged {
        name: "testsome_bad_index_before_a_missing_status",
        record: "17 00 00000018 00000003 00000040 00000041 00000042 00000002 00000003",
        fault: Some(Cause::Field),
    },
    Judged {
        name: "testsome_missing_status_before_a_bad_index",
        record: "17 00 00000020 00000003 00000040 00000041 00000042 00000002 00000000 00000003 \
            00000007",
        fault: Some(Cause::Length),
    },
    Judged {
        name: "testsome_status_cut_before_a_bad_index",
        record: "17 00 00000027 00000003 00000040 00000041 00000042 00000003 00000000 00000003 \
            00000007 00 00000001 0000",
        fault: Some(Cause::Length),
    },
    Judged {
        name: "testsome_more_indices_than_requests",
        record: "17 00 00000026 00000001 00000040 00000002 00000000 00000003 00000007 00 \
            00000001 00000004 00000008 00",
        fault: Some(Cause::Field),
    },
    Judged {
        name: "testsome_one_completion_too_few",
        record: "17 00 00000021 00000003 00000040 00000041 00000042 00000002 00000000 00000003 \
            00000007 00",
        fault: Some(Cause::Length),
    },
    Judged {
        name: "testsome_byte_left_over",
        record: "17 00 00000022 00000003 00000040 00000041 00000042 00000001 00000000 00000003 \
            00000007 00 00",
        fault: Some(Cause::Length),
    },
];
