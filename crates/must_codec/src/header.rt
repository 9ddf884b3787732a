//! Judging a header.

ghost use Rattle.std.specs.Prelude.{◌≡◌, ◌+◌, ◌≤◌, length, drop, slice_index, IfSome, IfErr, Some, None};
ghost use Rattle.must_format.specs.Decoding.{u32_at, i32_at};
ghost use Rattle.must_format.specs.Stream.{expected_fault, is_version as is_version_of};
ghost use Rattle.must_codec.specs.Views.{HeaderIs, IsRefusal};

use must_format::{Cause, Expect, Header, LEAST_TAG_UB, MOST_RANKS, StreamFault};

/// `MTRC` as a number.
const MARK: u32 = 1_297_371_715;

/// The header of a stream of whom is expected, or what is wrong with it first.
#[tactic(auto, using(std::proofs::lemmas::Grind::common_steps), unfolding(must_format::specs::Stream::header_fault))]
pub(crate) fn judge_header(expect: Option<Expect>, bytes: &[u8]) -> Result<Header, StreamFault>
    ensures exact { HeaderIs expect bytes.now result }
    ensures refusal { IfErr result IsRefusal }
{
    if bytes.len() < 17 {
        return Err(malformed(0, Cause::Truncated));
    }
    let header = Header {
        version: byte_at(bytes, 4),
        rank: unsigned_at(bytes, 5),
        size: unsigned_at(bytes, 9),
        tag_ub: signed_at(bytes, 13),
    };
    if unsigned_at(bytes, 0) != MARK {
        return Err(malformed(0, Cause::Magic));
    }
    if !is_version(header.version) {
        return Err(malformed(4, Cause::Version));
    }
    if let Some(fault) = unexpected(expect, header.rank, header.size) {
        return Err(fault);
    }
    if header.tag_ub < LEAST_TAG_UB {
        return Err(malformed(13, Cause::TagUb));
    }
    Ok(header)
}

fn is_version(version: u8) -> bool
    ensures { result ≡ is_version_of version }
{
    version == 1 || version == 2
}

/// What is wrong with this rank and size first.
fn unexpected(expect: Option<Expect>, rank: u32, size: u32) -> Option<StreamFault>
    ensures exact { result ≡ expected_fault expect rank size }
    ensures refusal { IfSome result IsRefusal }
{
    match expect {
        Some(expect) => not_expected(expect, rank, size),
        None => no_run(rank, size),
    }
}

fn not_expected(expect: Expect, rank: u32, size: u32) -> Option<StreamFault>
    ensures exact { result ≡ expected_fault (Some expect) rank size }
    ensures refusal { IfSome result IsRefusal }
{
    if rank != expect.rank {
        Some(malformed(5, Cause::WrongRank))
    } else if size != expect.size {
        Some(malformed(9, Cause::WrongSize))
    } else {
        None
    }
}

/// A run has 1 to 1024 ranks.
fn no_run(rank: u32, size: u32) -> Option<StreamFault>
    ensures exact { result ≡ expected_fault None rank size }
    ensures refusal { IfSome result IsRefusal }
{
    if size == 0 || size > MOST_RANKS {
        Some(malformed(9, Cause::WrongSize))
    } else if rank >= size {
        Some(malformed(5, Cause::WrongRank))
    } else {
        None
    }
}

/// The byte at an offset.
fn byte_at(bytes: &[u8], at: usize) -> u8
    requires { at + 1 ≤ length bytes.now }
    ensures { result ≡ slice_index (drop at bytes.now) 0 }
{
    let (_, rest) = bytes.split_at(at);
    rest[0]
}

/// The number in the four bytes at an offset.
#[tactic(auto, unfolding(must_format::specs::Decoding::u32_at))]
fn unsigned_at(bytes: &[u8], at: usize) -> u32
    requires { at + 4 ≤ length bytes.now }
    ensures { result ≡ u32_at (drop at bytes.now) }
{
    let (_, rest) = bytes.split_at(at);
    u32::from_be_bytes([rest[0], rest[1], rest[2], rest[3]])
}

/// The number with a sign in the four bytes at an offset.
#[tactic(auto, unfolding(must_format::specs::Decoding::i32_at))]
fn signed_at(bytes: &[u8], at: usize) -> i32
    requires { at + 4 ≤ length bytes.now }
    ensures { result ≡ i32_at (drop at bytes.now) }
{
    let (_, rest) = bytes.split_at(at);
    i32::from_be_bytes([rest[0], rest[1], rest[2], rest[3]])
}

fn malformed(at: u64, cause: Cause) -> StreamFault
    ensures { result ≡ StreamFault.Malformed at cause }
{
    StreamFault::Malformed { at, cause }
}
