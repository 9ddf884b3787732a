//! Calls of rank 0 of two, and what they wait for. What is expected comes from docs/MESSAGES.md, not from the program.

ghost use Rattle.std.specs.Prelude.{◌≡◌, ◌==◌, ◌&&◌, length, nat_lt, IfOk};
ghost use Rattle.must_rules.specs.Clear.{is_clear};
ghost use Rattle.must_rules.specs.UsableParts.{usable_parts};

use crate::Needs;
use must_args::{Usable, View, check_args};
use must_base::NoMemory;
use must_begin::{Named, Requests};
use must_call::{Body, Call, Class, Collective, Finish, HandleList, Life, Place, Point, Started};
use must_derived::Datatypes;
use must_entry::{Entry, Want};
use must_find::Findings;
use must_group::{CommName, Group};
use must_hold::{Messages, Need};
use must_messages::Begun;
use std::alloc::Global;
use std::process::Abort;
use std::test::Fail;

const INT: u32 = 7;

/// What rank 0 of a world of two knows: handles below 64 are predefined, those from 64 to below `next` live. A live request is
/// active, but for the one that is idle, and was started by the call whose number is 64 less.
#[derive(Drop)]
struct Known {
    world: Group,
    next: u32,
    idle: u32,
}

impl Known {
    fn has_comm(&self, number: u32) -> bool
        ensures { result ≡ (number == 1 && nat_lt (length self.now.world) 4294967296) }
    {
        number == 1 && self.world.ranks().len() < 4294967296
    }
}

impl View for Known {
    ghost use Rattle.std.specs.Prelude.{◌==◌, ◌-◌, ◌&&◌, nat_lt, length, pos, true, Some, None, if◌then◌else◌};
    ghost use Rattle.must_call.specs.declared.life.Life.TheVariants.{Never, Live, Predefined};

    ghost facts = { λ k. record {
      tag_ub = pos 32767;
      life = λ class n. if n == 0 then Never else if nat_lt n 64 then Predefined else if nat_lt n k.next then Live 0 else Never;
      committed = λ n. true;
      comm = λ n. if n == 1 && nat_lt (length k.world) 4294967296 then Some (record { members = k.world; position = 0 }) else None;
      group = λ n. None;
    } };

    ghost sound = { λ k n. nat_lt n 64 };

    ghost starts = { λ k n. if nat_lt n 64 then None else if n == k.idle then None else if nat_lt n k.next then Some (n - 64) else None };

    fn life(&self, _class: Class, number: u32) -> Life {
        if number == 0 {
            Life::Never
        } else if number < 64 {
            Life::Predefined
        } else if number < self.next {
            Life::Live { made: 0 }
        } else {
            Life::Never
        }
    }

    fn committed(&self, _number: u32) -> bool {
        true
    }

    fn comm_size(&self, number: u32) -> Option<u32> {
        if self.has_comm(number) {
            Some(self.world.ranks().len() as u32)
        } else {
            None
        }
    }

    fn own_rank(&self, number: u32) -> Option<u32> {
        if self.has_comm(number) { Some(0) } else { None }
    }

    fn group(&self, _number: u32) -> Option<&Group> {
        None
    }

    fn comm_group(&self, number: u32) -> Option<&Group> {
        if self.has_comm(number) {
            Some(&self.world)
        } else {
            None
        }
    }

    fn sound_type(&self, number: u32) -> bool {
        number < 64
    }

    fn tag_ub(&self) -> i32 {
        32767
    }

    fn start_of(&self, number: u32) -> Option<u32> {
        if number < 64 {
            None
        } else if number == self.idle {
            None
        } else if number < self.next {
            Some(number - 64)
        } else {
            None
        }
    }
}

fn of_two(alloc: Global) -> Result<Group, NoMemory> {
    let group = Group::of(alloc, &[0, 1])?;
    Ok(group)
}

/// What the argument rules leave of a call.
fn usable_at<V: View>(
    rt: &impl Abort,
    alloc: Global,
    view: &V,
    call: &Call,
) -> Result<Usable, NoMemory>
    ensures clear { IfOk result (λ usable. usable.clear ≡ is_clear (V.facts view.now) call.now.body) }
    ensures parts { IfOk result (λ usable. usable.parts ≡ usable_parts (V.facts view.now) (V.sound view.now) call.now.body) }
{
    assert!(rt; call.handle(u32::MAX).is_none());
    let mut rows = Findings::new(alloc);
    let at = Place { rank: 0, call: 1 };
    let usable = check_args(alloc, view, at, call, &mut rows)?;
    Ok(usable)
}

fn seen_at(alloc: Global, next: u32, idle: u32) -> Result<Known, NoMemory> {
    let world = of_two(alloc)?;
    Ok(Known { world, next, idle })
}

/// The operations that a call begins.
fn begin<V: View>(
    rt: &impl Abort,
    alloc: Global,
    view: &V,
    at: Place,
    call: &Call,
) -> Result<Vec<Begun>, NoMemory> {
    let types = Datatypes::new(alloc, 1 << 26)?;
    let usable = usable_at(rt, alloc, view, call)?;
    let name = CommName::start(alloc, 0, of_two(alloc)?)?;
    let on = Named {
        comm: 1,
        name: &name,
    };
    let requests = Requests::new(alloc);
    requests.begins(alloc, view, &types, Some(on), at, call, &usable)
}

/// Takes a call that begins so many operations.
fn take<V: View>(
    rt: &impl Abort,
    alloc: Global,
    needs: &mut Needs,
    view: &V,
    messages: &Messages,
    at: Place,
    call: &Call,
    begun: usize,
) -> Result<(), NoMemory> {
    let types = Datatypes::new(alloc, 1 << 26)?;
    let usable = usable_at(rt, alloc, view, call)?;
    let clear = usable.clear;
    needs.step(alloc, view, &types, messages, at, call, clear, begun)
}

/// Holds the operations that a call begins.
fn hold(
    alloc: Global,
    messages: &mut Messages,
    call: &Call,
    begun: Vec<Begun>,
) -> Result<(), NoMemory> {
    let mut entries = Vec::new(alloc);
    let mut rows = Findings::new(alloc);
    messages.step(alloc, call, begun, &mut entries, &mut rows)
}

/// What call `k` begins.
fn begin_at(
    rt: &impl Abort,
    alloc: Global,
    idle: u32,
    k: u32,
    call: &Call,
) -> Result<Vec<Begun>, NoMemory> {
    assert!(rt; k < 64);
    let view = seen_at(alloc, 64 + k, idle)?;
    begin(rt, alloc, &view, Place { rank: 0, call: k }, call)
}

/// Takes call `k`, which begins so many operations.
fn take_at(
    rt: &impl Abort,
    alloc: Global,
    needs: &mut Needs,
    messages: &Messages,
    idle: u32,
    k: u32,
    call: &Call,
    begun: usize,
) -> Result<(), NoMemory> {
    assert!(rt; k < 64);
    let view = seen_at(alloc, 64 + k, idle)?;
    let at = Place { rank: 0, call: k };
    take(rt, alloc, needs, &view, messages, at, call, begun)
}

/// Takes call `k`, which makes the request whose number is 64 more, if it makes one.
fn step(
    rt: &impl Abort,
    alloc: Global,
    idle: u32,
    k: u32,
    call: &Call,
    messages: &mut Messages,
    needs: &mut Needs,
) -> Result<(), NoMemory> {
    let begun = begin_at(rt, alloc, idle, k, call)?;
    let count = begun.len();
    take_at(rt, alloc, needs, messages, idle, k, call, count)?;
    hold(alloc, messages, call, begun)
}

fn returned(body: Body) -> Call {
    Call {
        returned: true,
        body,
    }
}

/// The needs of these calls, where this is what their operations need; one request may be idle.
fn needs_of(
    rt: &impl Abort,
    alloc: Global,
    idle: u32,
    calls: Vec<Body>,
    needed: &[Need],
) -> Result<Vec<Entry>, NoMemory> {
    let mut messages = Messages::new(alloc, 0, 32767)?;
    let mut needs = Needs::new(alloc)?;
    let mut k = 0;
    for body in calls {
        step(
            rt,
            alloc,
            idle,
            k,
            &returned(body),
            &mut messages,
            &mut needs,
        )?;
        assert!(rt; k < 64);
        k += 1;
    }
    let mut entries = Vec::new(alloc);
    needs.finish(0, needed, &mut entries)?;
    Ok(entries)
}

/// The entry with this number is the need of that call, and has these alternatives.
fn expect(rt: &impl Abort, entries: &[Entry], call: u32, wanted: &[&[Want]]) {
    match entries.get(call as usize) {
        Some(Entry::Need { place, ways }) => {
            assert_eq!(rt; *place, Place { rank: 0, call });
            assert_eq!(rt; ways.items().len(), wanted.len());
            for (way, wants) in ways.items().iter().zip(wanted.iter()) {
                expect_way(rt, way.items(), wants);
            }
        }
        _ => assert!(rt; false),
    }
}

fn expect_way(rt: &impl Abort, way: &[Want], wants: &[Want]) {
    assert_eq!(rt; way.len(), wants.len());
    for (found, wanted) in way.iter().zip(wants.iter()) {
        assert_eq!(rt; *found, *wanted);
    }
}

/// What an operation needs whose partner is there.
fn partner(call: u32, part: u32, standard: bool) -> Need {
    Need::Partner {
        call,
        part,
        standard,
    }
}

/// The partner of an operation.
fn op(call: u32, part: u32, standard: bool) -> Want {
    Want::Op {
        place: Place { rank: 0, call },
        part,
        standard,
    }
}

fn wave(call: u32) -> Want {
    Want::Wave {
        place: Place { rank: 0, call },
    }
}

fn send(count: i32) -> Body {
    Body::Point(Point::Send {
        buf: 4096,
        count,
        dtype: INT,
        dest: 1,
        tag: 5,
        comm: 1,
    })
}

fn irecv(request: u32) -> Body {
    Body::Point(Point::Irecv {
        buf: 4096,
        count: 1,
        dtype: INT,
        source: 1,
        tag: 5,
        comm: 1,
        request: Some(request),
    })
}

fn exchange() -> Body {
    Body::Point(Point::Sendrecv {
        sbuf: 4096,
        scount: 1,
        stype: INT,
        dest: 1,
        stag: 5,
        rbuf: 8192,
        rcount: 1,
        rtype: INT,
        source: 1,
        rtag: 6,
        comm: 1,
        status: None,
    })
}

fn wait(request: u32) -> Body {
    Body::Finish(Finish::Wait {
        request,
        status: None,
    })
}

fn waitall(requests: Vec<u32>) -> Body {
    Body::Finish(Finish::Waitall {
        requests: HandleList::from_vec(requests),
        statuses: None,
    })
}

fn waitany(requests: Vec<u32>) -> Body {
    Body::Finish(Finish::Waitany {
        requests: HandleList::from_vec(requests),
        choice: None,
    })
}

fn ibarrier(request: u32) -> Body {
    Body::Started(Started::Ibarrier {
        comm: 1,
        request: Some(request),
    })
}

fn barrier() -> Body {
    Body::Collective(Collective::Barrier { comm: 1 })
}

#[test]
fn blocking_send_waits_for_its_receive(rt: HostRuntime) -> Result<(), Fail> {
    let alloc = rt.alloc();
    let calls = vec![in alloc; send(1)]?;
    let entries = needs_of(&rt, alloc, 0, calls, &[partner(0, 0, true)])?;
    assert_eq!(&rt; entries.len(), 1);
    expect(&rt, &entries, 0, &[&[op(0, 0, true)]]);
    Ok(())
}

#[test]
fn call_that_is_not_clear_waits_for_nothing(rt: HostRuntime) -> Result<(), Fail> {
    let alloc = rt.alloc();
    let calls = vec![in alloc; send(-1)]?;
    let entries = needs_of(&rt, alloc, 0, calls, &[])?;
    expect(&rt, &entries, 0, &[&[]]);
    Ok(())
}

/// The operations of the second call have the numbers 1 and 2.
#[test]
fn exchange_waits_for_both_parts(rt: HostRuntime) -> Result<(), Fail> {
    let alloc = rt.alloc();
    let calls = vec![in alloc; irecv(64), exchange()]?;
    let needed = [Need::Never, partner(1, 0, true), partner(1, 1, false)];
    let entries = needs_of(&rt, alloc, 0, calls, &needed)?;
    expect(&rt, &entries, 0, &[&[]]);
    expect(&rt, &entries, 1, &[&[op(1, 0, true), op(1, 1, false)]]);
    Ok(())
}

/// Two receives are started, and a call waits for them, which has these alternatives.
fn expect_after_two(
    rt: &impl Abort,
    alloc: Global,
    waits: Body,
    needed: &[Need],
    wanted: &[&[Want]],
) -> Result<(), Fail> {
    let calls = vec![in alloc; irecv(64), irecv(65), waits]?;
    let entries = needs_of(rt, alloc, 0, calls, needed)?;
    expect(rt, &entries, 2, wanted);
    Ok(())
}

#[test]
fn waitall_waits_for_each(rt: HostRuntime) -> Result<(), Fail> {
    let alloc = rt.alloc();
    let waits = waitall(vec![in alloc; 65, 64]?);
    let needed = [partner(0, 0, false), partner(1, 0, false)];
    let wanted = [op(1, 0, false), op(0, 0, false)];
    expect_after_two(&rt, alloc, waits, &needed, &[&wanted])
}

#[test]
fn waitall_never_goes_on_without_one(rt: HostRuntime) -> Result<(), Fail> {
    let alloc = rt.alloc();
    let waits = waitall(vec![in alloc; 64, 65]?);
    let needed = [partner(0, 0, false), Need::Unmet { call: 1, part: 0 }];
    expect_after_two(&rt, alloc, waits, &needed, &[])
}

#[test]
fn waitany_goes_on_by_what_can_be_met(rt: HostRuntime) -> Result<(), Fail> {
    let alloc = rt.alloc();
    let waits = waitany(vec![in alloc; 64, 65]?);
    let needed = [Need::Never, partner(1, 0, false)];
    expect_after_two(&rt, alloc, waits, &needed, &[&[op(1, 0, false)]])
}

/// Request 64 isn't active.
#[test]
fn inactive_request_needs_nothing(rt: HostRuntime) -> Result<(), Fail> {
    let alloc = rt.alloc();
    let any = waitany(vec![in alloc; 64]?);
    let calls = vec![in alloc; irecv(64), wait(64), any]?;
    let entries = needs_of(&rt, alloc, 64, calls, &[Need::Never])?;
    expect(&rt, &entries, 1, &[&[]]);
    expect(&rt, &entries, 2, &[&[]]);
    Ok(())
}

#[test]
fn waves_of_the_start_and_of_the_call(rt: HostRuntime) -> Result<(), Fail> {
    let alloc = rt.alloc();
    let calls = vec![in alloc; ibarrier(64), wait(64), barrier()]?;
    let entries = needs_of(&rt, alloc, 0, calls, &[])?;
    expect(&rt, &entries, 0, &[&[]]);
    expect(&rt, &entries, 1, &[&[wave(0)]]);
    expect(&rt, &entries, 2, &[&[wave(2)]]);
    Ok(())
}
