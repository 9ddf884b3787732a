//! Kinds by number and by name, and the basic types.

use crate::{Basic, Kind};
use std::test::Fail;

/// The names of the kinds, that of number 1 first.
const NAMES: [&str; 79] = [
    "Init",
    "Finalize",
    "Send",
    "Ssend",
    "Bsend",
    "Rsend",
    "Recv",
    "Sendrecv",
    "Probe",
    "Iprobe",
    "Isend",
    "Issend",
    "Ibsend",
    "Irsend",
    "Irecv",
    "Wait",
    "Waitall",
    "Waitany",
    "Waitsome",
    "Test",
    "Testall",
    "Testany",
    "Testsome",
    "RequestFree",
    "Cancel",
    "TypeContiguous",
    "TypeVector",
    "TypeHvector",
    "TypeIndexed",
    "TypeHindexed",
    "TypeIndexedBlock",
    "TypeHindexedBlock",
    "TypeStruct",
    "TypeDup",
    "TypeResized",
    "TypeSubarray",
    "TypeCommit",
    "TypeFree",
    "OpCreate",
    "OpFree",
    "CommGroup",
    "GroupIncl",
    "GroupExcl",
    "GroupUnion",
    "GroupIntersection",
    "GroupDifference",
    "GroupFree",
    "CommDup",
    "CommSplit",
    "CommCreate",
    "CommFree",
    "Barrier",
    "Bcast",
    "Gather",
    "Gatherv",
    "Scatter",
    "Scatterv",
    "Allgather",
    "Allgatherv",
    "Alltoall",
    "Alltoallv",
    "Reduce",
    "Allreduce",
    "ReduceScatter",
    "ReduceScatterBlock",
    "Scan",
    "Exscan",
    "SendInit",
    "SsendInit",
    "RecvInit",
    "Start",
    "Startall",
    "Ibarrier",
    "Ibcast",
    "Igather",
    "Iallgather",
    "Ialltoall",
    "Ireduce",
    "Iallreduce",
];

#[test]
fn kinds_by_number(rt: HostRuntime) -> Result<(), Fail> {
    let alloc = rt.alloc();
    for n in 0..=255u8 {
        for version in [0, 3, 255] {
            assert_eq!(rt;
                Kind::from_number(version, n),
                None,
                "{n} in version {version}"
            );
        }
        let found = Kind::from_number(2, n);
        assert_eq!(rt; found.is_some(), 1 <= n && n <= 79, "{n}");
        let first = if n <= 67 { found } else { None };
        assert_eq!(rt; Kind::from_number(1, n), first, "{n} in version 1");
        if let Some(kind) = found {
            let name = NAMES.get(n as usize - 1).copied();
            assert_eq!(rt; kind.number(), n);
            assert_eq!(rt; Some(kind.name()), name, "{n}");
            assert_eq!(rt; Some(format!(in alloc; "{kind:?}")?.as_str()), name, "{n}");
        }
    }
    Ok(())
}

#[test]
fn basic_types(rt: HostRuntime) {
    for (basic, number, size) in [
        (Basic::Char, 1, 1),
        (Basic::SignedChar, 2, 1),
        (Basic::UnsignedChar, 3, 1),
        (Basic::Byte, 4, 1),
        (Basic::Short, 5, 2),
        (Basic::UnsignedShort, 6, 2),
        (Basic::Int, 7, 4),
        (Basic::Unsigned, 8, 4),
        (Basic::Long, 9, 8),
        (Basic::UnsignedLong, 10, 8),
        (Basic::LongLong, 11, 8),
        (Basic::UnsignedLongLong, 12, 8),
        (Basic::Float, 13, 4),
        (Basic::Double, 14, 8),
        (Basic::LongDouble, 15, 16),
        (Basic::Wchar, 16, 4),
        (Basic::CBool, 17, 1),
        (Basic::Int8, 18, 1),
        (Basic::Int16, 19, 2),
        (Basic::Int32, 20, 4),
        (Basic::Int64, 21, 8),
        (Basic::Uint8, 22, 1),
        (Basic::Uint16, 23, 2),
        (Basic::Uint32, 24, 4),
        (Basic::Uint64, 25, 8),
    ] {
        assert_eq!(rt; (basic.number(), basic.size()), (number, size), "{basic:?}");
    }
}
