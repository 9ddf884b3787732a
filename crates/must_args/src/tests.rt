//! Calls with wrong arguments. What is expected comes from the rules, not from the program.

ghost use Rattle.std.specs.Prelude.{◌≡◌, ◌==◌, ◌&&◌, length, nat_lt};

use super::*;
use must_base::NoMemory;
use must_call::{
    Body, Call, Class, Collective, Derive, Dim, DimList, Finish, HandleList, IntList, Life, Object,
    Persist, Place, Point,
};
use must_find::{Findings, Rule};
use must_group::Group;
use std::alloc::Global;
use std::process::Abort;
use std::test::Fail;

/// What a rank of a small run knows: numbers below 64 are predefined, 64 to 67 were made by call 1, 65 was freed by call 4,
/// 66 is a request that call 2 started, and 67 is a persistent request that isn't active. Communicator 1 has the members 0
/// and 1, group 64 is its group, and group 66 has other members. No other communicator is sound, and type 64 isn't.
#[derive(Drop)]
struct Known {
    world: Group,
    others: Group,
    position: u32,
}

impl Known {
    fn has_comm(&self, number: u32) -> bool
        ensures { result ≡ (number == 1 && nat_lt (length self.now.world) 4294967296) }
    {
        number == 1 && self.world.ranks().len() < 4294967296
    }
}

impl View for Known {
    ghost use Rattle.std.specs.Prelude.{◌==◌, ◌&&◌, not, nat_lt, length, pos, Some, None, if◌then◌else◌};
    ghost use Rattle.must_call.specs.declared.life.Life.TheVariants.{Never, Live, Freed, Predefined};

    ghost facts = { λ k. record {
      tag_ub = pos 32767;
      life = λ class n. if n == 0 then Never else if nat_lt n 64 then Predefined else if n == 65 then Freed 1 4 else if nat_lt n 68 then Live 1 else Never;
      committed = λ n. nat_lt n 64;
      comm = λ n. if n == 1 && nat_lt (length k.world) 4294967296 then Some (record { members = k.world; position = k.position }) else None;
      group = λ n. if n == 64 then Some k.world else if n == 66 then Some k.others else None;
    } };

    ghost sound = { λ k n. not (n == 64) };

    ghost starts = { λ k n. if n == 66 then Some 2 else None };

    fn life(&self, _class: Class, number: u32) -> Life {
        match number {
            0 => Life::Never,
            1..=63 => Life::Predefined,
            65 => Life::Freed { made: 1, freed: 4 },
            64..=67 => Life::Live { made: 1 },
            _ => Life::Never,
        }
    }

    fn committed(&self, number: u32) -> bool {
        number < 64
    }

    fn comm_size(&self, number: u32) -> Option<u32> {
        if self.has_comm(number) {
            Some(self.world.ranks().len() as u32)
        } else {
            None
        }
    }

    fn own_rank(&self, number: u32) -> Option<u32> {
        if self.has_comm(number) {
            Some(self.position)
        } else {
            None
        }
    }

    fn group(&self, number: u32) -> Option<&Group> {
        match number {
            64 => Some(&self.world),
            66 => Some(&self.others),
            _ => None,
        }
    }

    fn comm_group(&self, number: u32) -> Option<&Group> {
        if self.has_comm(number) {
            Some(&self.world)
        } else {
            None
        }
    }

    fn sound_type(&self, number: u32) -> bool {
        number != 64
    }

    fn tag_ub(&self) -> i32 {
        32767
    }

    fn start_of(&self, number: u32) -> Option<u32> {
        if number == 66 { Some(2) } else { None }
    }
}

/// A finding: its rule, its part, the call that it sees, and its value.
type Row = (Rule, u32, Option<u32>, i128);

/// The rank at this position of a world of two ranks.
fn rank_at(alloc: Global, position: u32) -> Result<Known, NoMemory> {
    let world = Group::of(alloc, &[0, 1])?;
    let others = Group::of(alloc, &[1, 5])?;
    Ok(Known {
        world,
        others,
        position,
    })
}

fn row_of(rows: &Findings, i: usize) -> Option<Row> {
    match rows.get(i) {
        Some(f) => Some((f.rule, f.part, f.see.map(|see| see.call), f.value)),
        None => None,
    }
}

/// Call 5 of the rank with this body has these findings and no others, and these parts are usable.
fn expect(
    rt: &impl Abort,
    alloc: Global,
    position: u32,
    body: Body,
    parts: u8,
    findings: &[Row],
) -> Result<(), Fail> {
    let view = rank_at(alloc, position)?;
    let call = Call {
        returned: false,
        body,
    };
    let at = Place { rank: 7, call: 5 };
    let mut out = Findings::new(alloc);
    assert!(rt; call.handle(u32::MAX).is_none());
    let usable = check_args(alloc, &view, at, &call, &mut out)?;
    assert_eq!(rt; usable.parts, parts);
    assert_eq!(rt; out.len(), findings.len());
    for (i, finding) in findings.iter().enumerate() {
        assert_eq!(rt; row_of(&out, i), Some(*finding));
    }
    Ok(())
}

fn send(count: i32, dtype: u32, dest: i32, tag: i32, comm: u32) -> Body {
    Body::Point(Point::Send {
        buf: 4096,
        count,
        dtype,
        dest,
        tag,
        comm,
    })
}

#[test]
fn sends(rt: HostRuntime) -> Result<(), Fail> {
    let alloc = rt.alloc();
    expect(&rt, alloc, 0, send(1, 7, 1, 0, 1), 1, &[])?;
    expect(&rt, alloc, 0, send(1, 7, -1, 32767, 1), 0, &[])?;
    expect(
        &rt,
        alloc,
        0,
        send(-1, 7, 0, 0, 1),
        0,
        &[(Rule::A1, 0, None, -1)],
    )?;
    expect(
        &rt,
        alloc,
        0,
        send(1, 7, 2, 0, 1),
        0,
        &[(Rule::A2, 0, None, 2)],
    )?;
    expect(
        &rt,
        alloc,
        0,
        send(1, 7, -2, 0, 1),
        0,
        &[(Rule::A2, 0, None, -2)],
    )?;
    expect(
        &rt,
        alloc,
        0,
        send(1, 7, 1, 32768, 1),
        0,
        &[(Rule::A3, 0, None, 32768)],
    )?;
    expect(
        &rt,
        alloc,
        0,
        send(1, 64, 1, 0, 1),
        0,
        &[(Rule::H4, 0, Some(1), 64)],
    )?;
    let handles = [(Rule::H1, 1, None, 99), (Rule::H2, 0, Some(4), 65)];
    expect(&rt, alloc, 0, send(1, 65, 9, 0, 99), 0, &handles)
}

fn sendrecv(dest: i32, stag: i32, rcount: i32, source: i32) -> Body {
    Body::Point(Point::Sendrecv {
        sbuf: 4096,
        scount: 1,
        stype: 7,
        dest,
        stag,
        rbuf: 8192,
        rcount,
        rtype: 7,
        source,
        rtag: -1,
        comm: 1,
        status: None,
    })
}

#[test]
fn both_sides(rt: HostRuntime) -> Result<(), Fail> {
    let alloc = rt.alloc();
    let wrong = [
        (Rule::A1, 1, None, -3),
        (Rule::A2, 1, None, 5),
        (Rule::A3, 0, None, -1),
    ];
    expect(&rt, alloc, 0, sendrecv(1, -1, -3, 5), 0, &wrong)?;
    expect(&rt, alloc, 0, sendrecv(1, 0, 1, -2), 3, &[])?;
    expect(&rt, alloc, 0, sendrecv(-1, 0, 1, 1), 2, &[])
}

fn gather(in_place: bool, scount: i32, rcount: i32, root: i32, comm: u32) -> Body {
    Body::Collective(Collective::Gather {
        in_place,
        sbuf: 4096,
        scount,
        stype: 7,
        rbuf: 8192,
        rcount,
        rtype: 7,
        root,
        comm,
    })
}

fn exscan() -> Body {
    Body::Collective(Collective::Exscan {
        in_place: false,
        sbuf: 4096,
        rbuf: 8192,
        count: 1,
        dtype: 7,
        op: 3,
        comm: 1,
    })
}

#[test]
fn significant_arguments(rt: HostRuntime) -> Result<(), Fail> {
    let alloc = rt.alloc();
    expect(&rt, alloc, 1, gather(true, 1, -1, 0, 1), 1, &[])?;
    expect(&rt, alloc, 0, gather(true, -1, 1, 0, 1), 2, &[])?;
    expect(
        &rt,
        alloc,
        0,
        gather(false, 1, -1, 0, 1),
        0,
        &[(Rule::A1, 1, None, -1)],
    )?;
    expect(
        &rt,
        alloc,
        0,
        gather(false, -1, -1, 2, 1),
        0,
        &[(Rule::A4, 0, None, 2)],
    )?;
    expect(&rt, alloc, 0, gather(false, -1, -1, 2, 2), 0, &[])?;
    expect(&rt, alloc, 0, exscan(), 1, &[])?;
    expect(&rt, alloc, 1, exscan(), 3, &[])
}

fn requests(alloc: Global, numbers: &[u32]) -> Result<HandleList, Fail> {
    Ok(HandleList::from_vec(numbers.to_vec(alloc)?))
}

#[test]
fn handles(rt: HostRuntime) -> Result<(), Fail> {
    let alloc = rt.alloc();
    let null = Body::Finish(Finish::Waitany {
        requests: requests(alloc, &[0])?,
        choice: None,
    });
    expect(&rt, alloc, 0, null, 0, &[])?;
    let all = Body::Finish(Finish::Waitall {
        requests: requests(alloc, &[66, 65, 4294967295])?,
        statuses: None,
    });
    let unknown = (Rule::H1, 2, None, 4294967295);
    expect(
        &rt,
        alloc,
        0,
        all,
        0,
        &[unknown, (Rule::H2, 1, Some(4), 65)],
    )?;
    let freed = Body::Finish(Finish::RequestFree { request: 0 });
    expect(&rt, alloc, 0, freed, 0, &[(Rule::H1, 0, None, 0)])?;
    let basic = Body::Derive(Derive::TypeFree { dtype: 7 });
    expect(&rt, alloc, 0, basic, 0, &[(Rule::H3, 0, None, 7)])
}

fn incl(alloc: Global, group: u32, ranks: &[i32]) -> Result<Body, Fail> {
    let ranks = IntList::from_vec(ranks.to_vec(alloc)?);
    Ok(Body::Object(Object::GroupIncl {
        group,
        ranks,
        made: None,
    }))
}

fn create(group: u32) -> Body {
    Body::Object(Object::CommCreate {
        comm: 1,
        group,
        made: None,
    })
}

#[test]
fn groups_and_colors(rt: HostRuntime) -> Result<(), Fail> {
    let alloc = rt.alloc();
    expect(&rt, alloc, 0, incl(alloc, 64, &[1, 0])?, 0, &[])?;
    expect(
        &rt,
        alloc,
        0,
        incl(alloc, 64, &[0, 0])?,
        0,
        &[(Rule::A6, 0, None, 1)],
    )?;
    expect(
        &rt,
        alloc,
        0,
        incl(alloc, 64, &[2])?,
        0,
        &[(Rule::A6, 0, None, 0)],
    )?;
    expect(&rt, alloc, 0, create(64), 0, &[])?;
    expect(&rt, alloc, 0, create(66), 0, &[(Rule::A6, 0, None, 1)])?;
    let split = Body::Object(Object::CommSplit {
        comm: 1,
        color: -2,
        key: 0,
        made: None,
    });
    expect(&rt, alloc, 0, split, 0, &[(Rule::A7, 0, None, -2)])
}

fn subarray(alloc: Global, dims: &[Dim]) -> Result<Body, Fail> {
    let dims = DimList::from_vec(dims.to_vec(alloc)?);
    Ok(Body::Derive(Derive::TypeSubarray {
        order: 0,
        dims,
        old: 7,
        made: None,
    }))
}

fn dim(size: i32, subsize: i32, start: i32) -> Dim {
    Dim {
        size,
        subsize,
        start,
    }
}

#[test]
fn constructors(rt: HostRuntime) -> Result<(), Fail> {
    let alloc = rt.alloc();
    expect(
        &rt,
        alloc,
        0,
        subarray(alloc, &[])?,
        0,
        &[(Rule::A5, 0, None, 0)],
    )?;
    let dims = [dim(4, 2, 2), dim(4, 2, 3)];
    expect(
        &rt,
        alloc,
        0,
        subarray(alloc, &dims)?,
        0,
        &[(Rule::A5, 0, None, 1)],
    )?;
    let vector = Body::Derive(Derive::TypeVector {
        count: -1,
        block: -2,
        stride: -3,
        old: 7,
        made: None,
    });
    let broken = [(Rule::A1, 0, None, -1), (Rule::A5, 0, None, 0)];
    expect(&rt, alloc, 0, vector, 0, &broken)
}

fn startall(alloc: Global, numbers: &[u32]) -> Result<Body, Fail> {
    Ok(Body::Persist(Persist::Startall {
        requests: requests(alloc, numbers)?,
    }))
}

#[test]
fn starts(rt: HostRuntime) -> Result<(), Fail> {
    let alloc = rt.alloc();
    let active = Body::Persist(Persist::Start { request: 66 });
    expect(&rt, alloc, 0, active, 0, &[(Rule::H5, 0, Some(2), 66)])?;
    let twice = startall(alloc, &[67, 67])?;
    expect(&rt, alloc, 0, twice, 0, &[(Rule::H5, 1, Some(5), 67)])?;
    let unclear = startall(alloc, &[67, 99, 67])?;
    expect(&rt, alloc, 0, unclear, 0, &[(Rule::H1, 1, None, 99)])
}
