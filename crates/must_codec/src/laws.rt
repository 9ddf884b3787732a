//! Laws of streams. Each call does nothing; its contract is a fact about all streams.

ghost use Rattle.std.specs.Prelude.{◌≡◌, ◌≤◌, ℕ, List, Option, Some, None};
ghost use Rattle.must_call.specs.declared.call.Call.{Call};
ghost use Rattle.must_format.specs.declared.expect.Expect.{Expect};
ghost use Rattle.must_format.specs.declared.fault.StreamFault.{StreamFault};
ghost use Rattle.must_format.specs.Values.{IsBytes};
ghost use Rattle.must_format.specs.Stream.{byte_limit, size_of, header_fault, IsStream};
ghost use Rattle.must_format.specs.Complete.{IsRefusedBehind};
ghost use Rattle.must_format.specs.CompleteLaws.{IsWithin};

/// The bytes of a stream determine its calls, and its end or its refusal.
pub fn one_reading()
    ensures some { (e : Option Expect) (bytes : List ℕ) → (calls : List Call) × ((end : Option StreamFault) × IsStream e bytes calls end) }
    ensures one { (e : Option Expect) (bytes : List ℕ) (calls others : List Call) (end other : Option StreamFault)
        → IsStream e bytes calls end → IsStream e bytes others other → (calls ≡ others) × (end ≡ other) }
{}

/// A stream is accepted exactly where it is complete, as a recorder writes it, and within the limits of bytes and calls.
pub fn complete_streams()
    ensures complete { (e : Option Expect) (bytes : List ℕ) (calls : List Call) → IsBytes bytes → IsStream e bytes calls None → IsWithin e bytes calls }
    ensures accepted { (e : Option Expect) (bytes : List ℕ) (calls : List Call) → IsWithin e bytes calls → IsStream e bytes calls None }
{}

/// A stream with a good header is refused behind exactly these calls where their records stand in front, and what stands behind
/// them is wrong by the first cause or limit that applies.
pub fn refused_streams()
    ensures refused { (e : Option Expect) (bytes : List ℕ) (calls : List Call) (fault : StreamFault) → IsBytes bytes → header_fault e bytes ≡ None → 17 ≤ byte_limit (size_of bytes)
        → IsStream e bytes calls (Some fault) → IsRefusedBehind e bytes calls fault }
    ensures behind { (e : Option Expect) (bytes : List ℕ) (calls : List Call) (fault : StreamFault) → IsRefusedBehind e bytes calls fault → IsStream e bytes calls (Some fault) }
{}
