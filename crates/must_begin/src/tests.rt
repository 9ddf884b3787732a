//! Calls, and what they begin. What is expected comes from the documents (docs/MESSAGES.md), not from the program.

ghost use Rattle.std.specs.Prelude.{◌≡◌, ◌==◌, ◌&&◌, length, nat_lt, IfOk};
ghost use Rattle.must_rules.specs.Clear.{is_clear};
ghost use Rattle.must_rules.specs.UsableParts.{usable_parts};

use crate::{Named, Requests, own_contradiction, own_part, waits_for_wave};
use must_args::{Usable, View, check_args};
use must_base::NoMemory;
use must_call::{
    Body, Call, Class, Collective, Finish, HandleList, Life, PROC_NULL, Persist, Place, Point,
    Status3,
};
use must_derived::Datatypes;
use must_find::Findings;
use must_group::{CommName, Group};
use must_messages::{Begun, Deed, Mode};
use std::alloc::Global;
use std::process::Abort;
use std::test::Fail;

const INT: u32 = 7;

/// A datatype that was made of an unsound one.
const UNSOUND: u32 = 64;

/// The first handle that is made.
const FIRST: u32 = 64;

/// What rank 0 of a world of two knows: numbers below 64 are predefined, those from 64 to below `next` were made, and one of these may
/// be freed. Predefined types are sound, and no request is active.
#[derive(Drop)]
struct Known {
    world: Group,
    next: u32,
    freed: u32,
}

impl Known {
    fn has_comm(&self, number: u32) -> bool
        ensures { result ≡ (number == 1 && nat_lt (length self.now.world) 4294967296) }
    {
        number == 1 && self.world.ranks().len() < 4294967296
    }
}

impl View for Known {
    ghost use Rattle.std.specs.Prelude.{◌==◌, ◌&&◌, nat_lt, length, pos, true, Some, None, if◌then◌else◌};
    ghost use Rattle.must_call.specs.declared.life.Life.TheVariants.{Never, Live, Freed, Predefined};

    ghost facts = { λ k. record {
      tag_ub = pos 32767;
      life = λ class n. if n == 0 then Never else if nat_lt n 64 then Predefined else if n == k.freed then Freed 0 1 else if nat_lt n k.next then Live 0 else Never;
      committed = λ n. true;
      comm = λ n. if n == 1 && nat_lt (length k.world) 4294967296 then Some (record { members = k.world; position = 0 }) else None;
      group = λ n. None;
    } };

    ghost sound = { λ k n. nat_lt n 64 };

    ghost starts = { λ k n. None };

    fn life(&self, _class: Class, number: u32) -> Life {
        if number == 0 {
            Life::Never
        } else if number < 64 {
            Life::Predefined
        } else if number == self.freed {
            Life::Freed { made: 0, freed: 1 }
        } else if number < self.next {
            Life::Live { made: 0 }
        } else {
            Life::Never
        }
    }

    fn committed(&self, _number: u32) -> bool {
        true
    }

    fn comm_size(&self, number: u32) -> Option<u32> {
        if self.has_comm(number) {
            Some(self.world.ranks().len() as u32)
        } else {
            None
        }
    }

    fn own_rank(&self, number: u32) -> Option<u32> {
        if self.has_comm(number) { Some(0) } else { None }
    }

    fn group(&self, _number: u32) -> Option<&Group> {
        None
    }

    fn comm_group(&self, number: u32) -> Option<&Group> {
        if self.has_comm(number) {
            Some(&self.world)
        } else {
            None
        }
    }

    fn sound_type(&self, number: u32) -> bool {
        number < 64
    }

    fn tag_ub(&self) -> i32 {
        32767
    }

    fn start_of(&self, _number: u32) -> Option<u32> {
        None
    }
}

fn of_two(alloc: Global) -> Result<Group, NoMemory> {
    let group = Group::of(alloc, &[0, 1])?;
    Ok(group)
}

fn world(alloc: Global, next: u32, freed: u32) -> Result<Known, NoMemory> {
    let world = of_two(alloc)?;
    Ok(Known { world, next, freed })
}

fn name(alloc: Global) -> Result<CommName, NoMemory> {
    CommName::start(alloc, 0, of_two(alloc)?)
}

/// An operation in short: its part, its request, what it does, the other end and the tag.
type Short = (u32, Option<u32>, Deed, i32, i32);

fn short(begun: &Begun) -> Short {
    let asked = &begun.asked;
    (begun.part, begun.request, asked.deed, asked.peer, asked.tag)
}

const SEND: Deed = Deed::Send {
    mode: Mode::Standard,
};

/// What the argument rules leave of a call.
fn usable_at<V: View>(
    rt: &impl Abort,
    alloc: Global,
    view: &V,
    call: &Call,
) -> Result<Usable, NoMemory>
    ensures clear { IfOk result (λ usable. usable.clear ≡ is_clear (V.facts view.now) call.now.body) }
    ensures parts { IfOk result (λ usable. usable.parts ≡ usable_parts (V.facts view.now) (V.sound view.now) call.now.body) }
{
    assert!(rt; call.handle(u32::MAX).is_none());
    let mut rows = Findings::new(alloc);
    let at = Place { rank: 0, call: 1 };
    let usable = check_args(alloc, view, at, call, &mut rows)?;
    Ok(usable)
}

/// The operations that a call on the world begins.
fn begin<V: View>(
    rt: &impl Abort,
    alloc: Global,
    requests: &Requests,
    view: &V,
    call: &Call,
) -> Result<Vec<Begun>, NoMemory> {
    let types = Datatypes::new(alloc, 1 << 26)?;
    let usable = usable_at(rt, alloc, view, call)?;
    let name = name(alloc)?;
    let on = Named {
        comm: 1,
        name: &name,
    };
    let at = Place { rank: 0, call: 1 };
    requests.begins(alloc, view, &types, Some(on), at, call, &usable)
}

/// Takes a call on the world.
fn take<V: View>(
    rt: &impl Abort,
    alloc: Global,
    requests: &mut Requests,
    view: &V,
    call: &Call,
) -> Result<(), NoMemory> {
    let types = Datatypes::new(alloc, 1 << 26)?;
    let usable = usable_at(rt, alloc, view, call)?;
    let name = name(alloc)?;
    let on = Named {
        comm: 1,
        name: &name,
    };
    requests.take(alloc, view, &types, Some(on), call, &usable)
}

/// What the status in the record of a call on the world contradicts.
fn contradicts<V: View>(
    rt: &impl Abort,
    alloc: Global,
    view: &V,
    call: &Call,
) -> Result<Option<i32>, NoMemory> {
    let types = Datatypes::new(alloc, 1 << 26)?;
    let usable = usable_at(rt, alloc, view, call)?;
    let name = name(alloc)?;
    let on = Named {
        comm: 1,
        name: &name,
    };
    own_contradiction(alloc, view, &types, Some(on), call, &usable)
}

/// Whether a call on the world waits for its wave.
fn waits<V: View>(rt: &impl Abort, alloc: Global, view: &V, call: &Call) -> Result<bool, NoMemory> {
    let types = Datatypes::new(alloc, 1 << 26)?;
    let usable = usable_at(rt, alloc, view, call)?;
    Ok(waits_for_wave(view, &types, call, usable.clear))
}

/// These operations are begun.
fn expect(rt: &impl Abort, begun: &[Begun], wanted: &[Short]) -> Result<(), Fail> {
    assert_eq!(rt; begun.len(), wanted.len());
    for (i, one) in begun.iter().enumerate() {
        assert_eq!(rt; Some(short(one)), wanted.get(i).copied(), "operation {i}");
    }
    Ok(())
}

/// A call that begins these operations.
fn expect_call(rt: &impl Abort, alloc: Global, call: &Call, wanted: &[Short]) -> Result<(), Fail> {
    let view = world(alloc, FIRST, 0)?;
    let requests = Requests::new(alloc);
    let begun = begin(rt, alloc, &requests, &view, call)?;
    expect(rt, begun.as_slice(), wanted)
}

fn returned(body: Body) -> Call {
    Call {
        returned: true,
        body,
    }
}

fn isend(dest: i32) -> Call {
    returned(Body::Point(Point::Isend {
        buf: 4096,
        count: 2,
        dtype: INT,
        dest,
        tag: 5,
        comm: 1,
        request: Some(FIRST),
    }))
}

fn irecv(returned: bool) -> Call {
    Call {
        returned,
        body: Body::Point(Point::Irecv {
            buf: 4096,
            count: 2,
            dtype: INT,
            source: 1,
            tag: 5,
            comm: 1,
            request: if returned { Some(FIRST) } else { None },
        }),
    }
}

fn recv(status: Status3) -> Call {
    returned(Body::Point(Point::Recv {
        buf: 4096,
        count: 2,
        dtype: INT,
        source: 1,
        tag: 5,
        comm: 1,
        status: Some(status),
    }))
}

fn exchange(status: Status3) -> Call {
    returned(Body::Point(Point::Sendrecv {
        sbuf: 4096,
        scount: 2,
        stype: INT,
        dest: 1,
        stag: 5,
        rbuf: 8192,
        rcount: 2,
        rtype: INT,
        source: 1,
        rtag: 6,
        comm: 1,
        status: Some(status),
    }))
}

fn send_init(request: u32) -> Call {
    returned(Body::Persist(Persist::SendInit {
        buf: 4096,
        count: 2,
        dtype: INT,
        dest: 1,
        tag: 5,
        comm: 1,
        request: Some(request),
    }))
}

fn bcast(dtype: u32) -> Call {
    returned(Body::Collective(Collective::Bcast {
        buf: 4096,
        count: 2,
        dtype,
        root: 0,
        comm: 1,
    }))
}

const DONE: Status3 = Status3 {
    source: 1,
    tag: 5,
    cancelled: false,
};

#[test]
fn synchronous_send(rt: HostRuntime) -> Result<(), Fail> {
    let alloc = rt.alloc();
    let call = returned(Body::Point(Point::Ssend {
        buf: 4096,
        count: 2,
        dtype: INT,
        dest: 1,
        tag: 5,
        comm: 1,
    }));
    let deed = Deed::Send {
        mode: Mode::Synchronous,
    };
    expect_call(&rt, alloc, &call, &[(0, None, deed, 1, 5)])
}

#[test]
fn both_sides_of_an_exchange(rt: HostRuntime) -> Result<(), Fail> {
    let alloc = rt.alloc();
    let wanted = [(0, None, SEND, 1, 5), (1, None, Deed::Receive, 1, 6)];
    expect_call(&rt, alloc, &exchange(DONE), &wanted)
}

#[test]
fn receive_with_its_request(rt: HostRuntime) -> Result<(), Fail> {
    let alloc = rt.alloc();
    expect_call(
        &rt,
        alloc,
        &irecv(true),
        &[(0, Some(FIRST), Deed::Receive, 1, 5)],
    )
}

#[test]
fn receive_that_never_returned(rt: HostRuntime) -> Result<(), Fail> {
    let alloc = rt.alloc();
    expect_call(&rt, alloc, &irecv(false), &[(0, None, Deed::Receive, 1, 5)])
}

#[test]
fn send_to_nobody(rt: HostRuntime) -> Result<(), Fail> {
    let alloc = rt.alloc();
    expect_call(&rt, alloc, &isend(PROC_NULL), &[])
}

#[test]
fn probe(rt: HostRuntime) -> Result<(), Fail> {
    let alloc = rt.alloc();
    let call = returned(Body::Point(Point::Probe {
        source: 1,
        tag: 5,
        comm: 1,
        status: Some(DONE),
    }));
    expect_call(&rt, alloc, &call, &[(0, None, Deed::Probe, 1, 5)])
}

/// The requests 64 and 65 are made, and 64 is freed where `free` says so. Then a call starts these.
fn start(
    rt: &impl Abort,
    alloc: Global,
    free: bool,
    started: Vec<u32>,
    wanted: &[Short],
) -> Result<(), Fail> {
    let mut requests = Requests::new(alloc);
    take(
        rt,
        alloc,
        &mut requests,
        &world(alloc, 64, 0)?,
        &send_init(64),
    )?;
    take(
        rt,
        alloc,
        &mut requests,
        &world(alloc, 65, 0)?,
        &send_init(65),
    )?;
    if free {
        let call = returned(Body::Finish(Finish::RequestFree { request: 64 }));
        take(rt, alloc, &mut requests, &world(alloc, 66, 0)?, &call)?;
    }
    let view = world(alloc, 66, if free { 64 } else { 0 })?;
    let call = returned(Body::Persist(Persist::Startall {
        requests: HandleList::from_vec(started),
    }));
    let begun = begin(rt, alloc, &requests, &view, &call)?;
    expect(rt, begun.as_slice(), wanted)
}

#[test]
fn start_of_two(rt: HostRuntime) -> Result<(), Fail> {
    let alloc = rt.alloc();
    let wanted = [(0, Some(65), SEND, 1, 5), (1, Some(64), SEND, 1, 5)];
    start(&rt, alloc, false, vec![in alloc; 65, 64]?, &wanted)
}

#[test]
fn start_of_a_freed_request(rt: HostRuntime) -> Result<(), Fail> {
    let alloc = rt.alloc();
    start(&rt, alloc, true, vec![in alloc; 65, 64]?, &[])
}

#[test]
fn start_of_a_repeated_request(rt: HostRuntime) -> Result<(), Fail> {
    let alloc = rt.alloc();
    let wanted = [(0, Some(65), SEND, 1, 5)];
    start(&rt, alloc, true, vec![in alloc; 65, 65]?, &wanted)
}

/// The status in the record of a call contradicts this.
fn expect_contradiction(
    rt: &impl Abort,
    alloc: Global,
    call: &Call,
    wanted: Option<i32>,
) -> Result<(), Fail> {
    let view = world(alloc, FIRST, 0)?;
    assert_eq!(rt; contradicts(rt, alloc, &view, call)?, wanted);
    Ok(())
}

fn iprobe() -> Call {
    returned(Body::Point(Point::Iprobe {
        source: 1,
        tag: 6,
        comm: 1,
        status: Some(Some(DONE)),
    }))
}

#[test]
fn probe_that_found_another_tag(rt: HostRuntime) -> Result<(), Fail> {
    let alloc = rt.alloc();
    expect_contradiction(&rt, alloc, &iprobe(), Some(2))
}

#[test]
fn probe_that_goes_on(rt: HostRuntime) -> Result<(), Fail> {
    let alloc = rt.alloc();
    expect_call(&rt, alloc, &iprobe(), &[])
}

#[test]
fn receive_that_nobody_cancelled(rt: HostRuntime) -> Result<(), Fail> {
    let alloc = rt.alloc();
    let cancelled = Status3 {
        source: 1,
        tag: 5,
        cancelled: true,
    };
    expect_contradiction(&rt, alloc, &recv(cancelled), Some(3))
}

#[test]
fn receive_of_what_it_named(rt: HostRuntime) -> Result<(), Fail> {
    let alloc = rt.alloc();
    expect_contradiction(&rt, alloc, &recv(DONE), None)
}

#[test]
fn part_of_a_contradiction(rt: HostRuntime) -> Result<(), Fail> {
    assert_eq!(&rt; own_part(&exchange(DONE)), 1);
    Ok(())
}

fn expect_wait(rt: &impl Abort, alloc: Global, dtype: u32, wanted: bool) -> Result<(), Fail> {
    let view = world(alloc, 65, 0)?;
    assert_eq!(rt; waits(rt, alloc, &view, &bcast(dtype))?, wanted);
    Ok(())
}

#[test]
fn broadcast_that_waits(rt: HostRuntime) -> Result<(), Fail> {
    let alloc = rt.alloc();
    expect_wait(&rt, alloc, INT, true)
}

#[test]
fn broadcast_of_an_unsound_type(rt: HostRuntime) -> Result<(), Fail> {
    let alloc = rt.alloc();
    expect_wait(&rt, alloc, UNSOUND, false)
}
