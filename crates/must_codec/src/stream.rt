//! A reader of one stream.

ghost use Rattle.std.specs.Prelude.{◌≡◌, ◌≢◌, ◌<◌, ◌≤◌, ◌⊎◌, ℕ, List, [], IfOk, IfErr, Some, None, Ok, Err};
ghost use Rattle.std.specs.Option.{option_map};
ghost use Rattle.must_base.specs.Causes.{Rose};
ghost use Rattle.must_call.specs.declared.call.Call.{Call};
ghost use Rattle.must_format.specs.declared.fault.StreamFault.{StreamFault};
ghost use Rattle.must_format.specs.declared.limits.TheConstants.{MOST_RANKS};
ghost use Rattle.must_codec.specs.Reader.{Fresh, Before, Ended, Failed, StandsFor, Gave, ReaderState};
ghost use Rattle.must_codec.specs.Views.{Leaves, KeepsAt, IsOpen, Opened, IsExpect, start};

use crate::step::{next_call, take_header};
use crate::window::Window;
use must_base::{NoMemory, Source};
use must_call::{Call, FIRST_MADE};
use must_format::{Expect, Header, StreamFault, StreamPlace};
use std::alloc::Global;
use std::marker::Model;

/// Where a reader is, with the header where it accepted one.
#[derive(Clone, Copy, Debug, PartialEq, Eq)]
enum State {
    Fresh,
    Running(Header, StreamPlace),
    Ended(Header),
    Failed(Option<Header>, StreamFault),
}

/// The place of the first record, behind the header.
const START: StreamPlace = StreamPlace {
    at: 17,
    number: 0,
    next_handle: FIRST_MADE,
    stuck: false,
};

/// Reads the calls of one stream from a source that the caller keeps. It holds one record.
///
/// Its stream is the bytes that it took so far, followed by those that the source has left.
#[derive(Drop)]
pub struct StreamReader {
    expect: Option<Expect>,
    window: Window,
    last_at: u64,
    state: State,
}

impl Model for StreamReader {
    ghost use Rattle.must_codec.specs.Reader.{ReaderState};
    ghost use Rattle.must_codec.specs.Inside.{phase_of, header_in, HoldsReady};

    ghost Value = { ReaderState };

    ghost view = { λ r. record { expect = r.expect; unread = r.window; header = header_in r.state; at = r.last_at; phase = phase_of r.state } };

    ghost invariant = { λ r. HoldsReady r.state r.expect r.window };
}

impl StreamReader {
    /// A reader of a rank's stream that has read nothing. Its buffer takes memory once.
    pub fn new(alloc: Global, expect: Expect) -> Result<StreamReader, NoMemory>
        requires size { (1 ≤ expect.size) × (expect.size ≤ MOST_RANKS) }
        requires rank { expect.rank < expect.size }
        ensures { IfOk result (λ r. r ≡ record { expect = Some expect; unread = []; header = None; at = 0; phase = Fresh }) }
    {
        reader_of(alloc, Some(expect))
    }

    /// A reader of any rank's stream of any run, for a dump. Its buffer takes memory once.
    pub fn any(alloc: Global) -> Result<StreamReader, NoMemory>
        ensures { IfOk result (λ r. r ≡ record { expect = None; unread = []; header = None; at = 0; phase = Fresh }) }
    {
        reader_of(alloc, None)
    }

    /// The offset of the record of the call that `next` gave last, 0 before it gave one.
    pub fn at(&self) -> u64
        ensures { result ≡ self.now.at }
    {
        self.last_at
    }

    /// The header, none exactly where none was accepted yet. An accepted header stays, whatever is answered.
    pub fn header(&self) -> Option<Header>
        ensures { result ≡ self.now.header }
    {
        match self.state {
            State::Fresh | State::Failed(None, _) => None,
            State::Running(header, _) | State::Ended(header) | State::Failed(Some(header), _) =>
                Some(header),
        }
    }

    /// The greatest tag by the header, none exactly where no header was accepted yet.
    pub fn tag_ub(&self) -> Option<i32>
        ensures { result ≡ option_map (λ h. h.tag_ub) self.now.header }
    {
        match self.header() {
            Some(header) => Some(header.tag_ub),
            None => None,
        }
    }

    /// The next call, or the end, or why there is none. After an error it answers the same again, and after the end too.
    ///
    /// Bytes that were taken are judged before more are taken; a header takes 17 bytes, and no more than one byte past the byte
    /// limit is taken. Want of memory is answered only where a call comes.
    pub fn next<S: Source>(
        &mut self,
        alloc: Global,
        src: &mut S,
    ) -> Result<Option<Call>, StreamFault>
        // Where the reader has given some calls of the bytes that it took, and neither ended nor failed, it takes some more of those that the source has left,
        // and gives the next call, or the end, or the refusal.
        ensures given { (h : List Call) (taken rest : List ℕ) → IsOpen self.old.phase → S.left src.old ≡ Some rest → StandsFor self.old taken h
            → Gave self.new (S.left src.new) taken rest h result }
        // Only a read that failed in this call, or that was already answered, is answered as such.
        ensures read { result ≡ Err StreamFault.Read → (self.old.phase ≡ Failed StreamFault.Read) ⊎ Rose (S.faults src.old) (S.faults src.new) }
        ensures later { S.faults src.old ≤ S.faults src.new }
        ensures kept { result ≢ Err StreamFault.Read → S.faults src.new ≡ S.faults src.old }
        // After an error or the end nothing more is taken.
        ensures again { (f : StreamFault) → self.old.phase ≡ Failed f → (result ≡ Err f) × (src.new ≡ src.old) × (self.new ≡ self.old) }
        ensures ended { self.old.phase ≡ Ended → (result ≡ Ok None) × (src.new ≡ src.old) × (self.new ≡ self.old) }
        ensures phase { Leaves self.new.phase result }
        ensures whose { self.new.expect ≡ self.old.expect }
        // Only a call moves the offset.
        ensures at { KeepsAt self.old.at self.new.at result }
    {
        match self.state {
            State::Failed(_, fault) => Err(fault),
            State::Ended(_) => Ok(None),
            State::Running(header, place) => self.proceed(alloc, src, header, place),
            State::Fresh => {
                let header = self.open(src)?;
                self.proceed(alloc, src, header, START)
            }
        }
    }

    /// Takes the header, and judges it.
    fn open<S: Source>(&mut self, src: &mut S) -> Result<Header, StreamFault>
        requires { self.old.phase ≡ Fresh }
        ensures given { (h : List Call) (taken rest : List ℕ) → S.left src.old ≡ Some rest → StandsFor self.old taken h
            → Opened self.new (S.left src.new) taken rest h result }
        ensures read { result ≡ Err StreamFault.Read → Rose (S.faults src.old) (S.faults src.new) }
        ensures later { S.faults src.old ≤ S.faults src.new }
        ensures kept { result ≢ Err StreamFault.Read → S.faults src.new ≡ S.faults src.old }
        ensures ok { IfOk result (λ header. (self.new.phase ≡ Before start) × (self.new.header ≡ Some header)) }
        ensures err { IfErr result (λ f. self.new.phase ≡ Failed f) }
        ensures at { self.new.at ≡ self.old.at }
        ensures whose { self.new.expect ≡ self.old.expect }
    {
        match take_header(self.expect, &mut self.window, src) {
            Ok(header) => {
                self.state = State::Running(header, START);
                Ok(header)
            }
            Err(fault) => {
                self.state = State::Failed(None, fault);
                Err(fault)
            }
        }
    }

    /// One step behind the header.
    fn proceed<S: Source>(
        &mut self,
        alloc: Global,
        src: &mut S,
        header: Header,
        place: StreamPlace,
    ) -> Result<Option<Call>, StreamFault>
        requires phase { self.old.phase ≡ Before place }
        requires header { self.old.header ≡ Some header }
        ensures given { (h : List Call) (taken rest : List ℕ) → S.left src.old ≡ Some rest → StandsFor self.old taken h
            → Gave self.new (S.left src.new) taken rest h result }
        ensures read { result ≡ Err StreamFault.Read → Rose (S.faults src.old) (S.faults src.new) }
        ensures later { S.faults src.old ≤ S.faults src.new }
        ensures kept { result ≢ Err StreamFault.Read → S.faults src.new ≡ S.faults src.old }
        ensures phase { Leaves self.new.phase result }
        ensures whose { self.new.expect ≡ self.old.expect }
        ensures at { KeepsAt self.old.at self.new.at result }
    {
        let mut behind = place;
        match next_call(alloc, &mut self.window, src, header, &mut behind) {
            Ok(Some(call)) => {
                self.last_at = place.at;
                self.state = State::Running(header, behind);
                Ok(Some(call))
            }
            Ok(None) => {
                self.state = State::Ended(header);
                Ok(None)
            }
            Err(fault) => {
                self.state = State::Failed(Some(header), fault);
                Err(fault)
            }
        }
    }
}

fn reader_of(alloc: Global, expect: Option<Expect>) -> Result<StreamReader, NoMemory>
    requires { IsExpect expect }
    ensures { IfOk result (λ r. r ≡ record { expect = expect; unread = []; header = None; at = 0; phase = Fresh }) }
{
    let window = Window::new(alloc)?;
    Ok(StreamReader {
        expect,
        window,
        last_at: 0,
        state: State::Fresh,
    })
}
