//! One step of reading a stream.

ghost use Rattle.std.specs.Prelude.{◌≡◌, ◌≢◌, ◌≤◌, ℕ, List, [], length, Some, OnOk, IfOk, IfErr, Err};
ghost use Rattle.must_base.specs.Causes.{Rose, HasCause};
ghost use Rattle.must_call.specs.declared.call.Call.{Call};
ghost use Rattle.must_codec.specs.Reader.{IsPlace};
ghost use Rattle.must_codec.specs.Views.{IsReady, IsExpect, Stepped, KeepsPlace, Headed, HeaderIs, TakesFront, IsRefusal, start};

use crate::arrival::{Arrival, arrival_at, byte_limit_of, place_behind};
use crate::header::judge_header;
use crate::window::Window;
use must_base::{Failed, Source};
use must_call::Call;
use must_format::{Expect, Header, StreamFault, StreamPlace};
use std::alloc::Global;

/// Takes the bytes of a header and no more, or all that there are.
fn take_front<S: Source>(window: &mut Window, src: &mut S) -> Result<(), Failed>
    requires { window.old ≡ [] }
    ensures front { (rest : List ℕ) → S.left src.old ≡ Some rest → TakesFront rest (S.left src.new) window.new result }
    ensures few { length window.new ≤ 17 }
    ensures cause { HasCause (S.faults src.old) (S.faults src.new) result }
    ensures kept { OnOk result (S.faults src.new ≡ S.faults src.old) }
{
    loop {
        let len = window.bytes().len();
        if len == 17 {
            return Ok(());
        }
        let count = window.fill(src, 17 - len)?;
        if count == 0 {
            return Ok(());
        }
    }
}

/// The header of the stream of whom is expected, or why there is none. It takes the bytes of a header and no more, and uses
/// them up.
pub(crate) fn take_header<S: Source>(
    expect: Option<Expect>,
    window: &mut Window,
    src: &mut S,
) -> Result<Header, StreamFault>
    requires empty { window.old ≡ [] }
    requires expect { IsExpect expect }
    ensures header { (rest : List ℕ) → S.left src.old ≡ Some rest → Headed expect rest (S.left src.new) result }
    ensures ready { IfOk result (λ header. IsReady header start window.new) }
    ensures empty { OnOk result (window.new ≡ []) }
    ensures read { result ≡ Err StreamFault.Read → Rose (S.faults src.old) (S.faults src.new) }
    ensures later { S.faults src.old ≤ S.faults src.new }
    ensures kept { result ≢ Err StreamFault.Read → S.faults src.new ≡ S.faults src.old }
{
    match take_front(window, src) {
        Ok(()) => judge_front(expect, window),
        Err(_) => Err(StreamFault::Read),
    }
}

/// The header that stands in the window, which is then used up, or what is wrong with it.
fn judge_front(expect: Option<Expect>, window: &mut Window) -> Result<Header, StreamFault>
    requires few { length window.old ≤ 17 }
    requires expect { IsExpect expect }
    ensures says { HeaderIs expect window.old result }
    ensures empty { OnOk result (window.new ≡ []) }
    ensures ready { IfOk result (λ header. IsReady header start window.new) }
    ensures refusal { IfErr result IsRefusal }
{
    match judge_header(expect, window.bytes()) {
        Ok(header) => {
            window.skip(17);
            Ok(header)
        }
        Err(fault) => Err(fault),
    }
}

/// One call, or the end, or why the stream is refused. Bytes are judged before more are taken. At a call the place moves behind
/// its record.
pub(crate) fn next_call<S: Source>(
    alloc: Global,
    window: &mut Window,
    src: &mut S,
    header: Header,
    place: &mut StreamPlace,
) -> Result<Option<Call>, StreamFault>
    requires ready { IsReady header place.old window.old }
    ensures step { (given : List Call) (rest : List ℕ) → S.left src.old ≡ Some rest → IsPlace place.old given
        → Stepped header given window.old rest window.new (S.left src.new) place.new result }
    ensures ready { IsReady header place.new window.new }
    ensures place { KeepsPlace place.old place.new result }
    ensures read { result ≡ Err StreamFault.Read → Rose (S.faults src.old) (S.faults src.new) }
    ensures later { S.faults src.old ≤ S.faults src.new }
    ensures kept { result ≢ Err StreamFault.Read → S.faults src.new ≡ S.faults src.old }
{
    let mut ended = false;
    loop {
        match arrival_at(header, *place, window.bytes(), ended) {
            Arrival::Stop(fault) => return Err(fault),
            Arrival::Done => return Ok(None),
            Arrival::Next(view) => {
                let behind = place_behind(*place, &view);
                let len = 6 + view.payload.len();
                return match view.to_call(alloc) {
                    Ok(call) => {
                        window.skip(len);
                        *place = behind;
                        Ok(Some(call))
                    }
                    Err(_) => Err(StreamFault::NoMemory),
                };
            }
            Arrival::Short => {}
        }
        let taken = place.at + window.bytes().len() as u64;
        let most = u64::from(byte_limit_of(header.size)) + 1 - taken;
        match window.fill(src, most as usize) {
            Ok(count) => ended = count == 0,
            Err(_) => return Err(StreamFault::Read),
        }
    }
}
