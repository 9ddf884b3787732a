//! Calls of rank 0 of two, with the items and rows that docs/MESSAGES.md gives them.

ghost use Rattle.std.specs.Prelude.{◌≡◌, nat_eq, true};
ghost use Rattle.std.specs.List.{IsDistinct};

use crate::{Messages, Need};
use must_base::NoMemory;
use must_call::{ANY_SOURCE, Body, Call, Finish, HandleList, Point, Status3, StatusList};
use must_entry::Entry;
use must_find::{Findings, Rule};
use must_group::{CommName, Group};
use must_messages::{Asked, Begun, Deed, Mode};
use must_sig::Sig;
use must_type::{TypeNo, TypeTable};
use std::alloc::Global;
use std::process::Abort;
use std::test::Fail;

/// An item in short.
#[derive(Clone, Copy, Debug, PartialEq, Eq)]
struct Seen {
    call: u32,
    source: u32,
    dest: u32,
    tag: i32,
    done: Option<u32>,
}

fn item_at(call: u32, source: u32, dest: u32, tag: i32, done: Option<u32>) -> Seen {
    Seen {
        call,
        source,
        dest,
        tag,
        done,
    }
}

fn is_distinct(ranks: &[u32]) -> bool
    ensures { result ≡ true → IsDistinct nat_eq ranks.now }
{
    for (place, rank) in ranks.iter().enumerate() {
        if ranks[..place].contains(rank) {
            return false;
        }
    }
    true
}

#[derive(Drop)]
struct Walk {
    alloc: Global,
    types: TypeTable,
    world: CommName,
    messages: Messages,
    entries: Vec<Entry>,
    rows: Findings,
}

impl Walk {
    fn new(rt: &impl Abort, alloc: Global) -> Result<Walk, NoMemory> {
        let ranks: Vec<u32> = (0..2).collect(alloc)?;
        assert!(rt; is_distinct(&ranks));
        Ok(Walk {
            alloc,
            types: TypeTable::new(alloc, 1000)?,
            world: CommName::start(alloc, 0, Group::of(alloc, &ranks)?)?,
            messages: Messages::new(alloc, 0, 100)?,
            entries: Vec::new(alloc),
            rows: Findings::new(alloc),
        })
    }

    /// What an operation with this request asks of rank 1, or of any.
    fn begun(
        &self,
        rt: &impl Abort,
        request: Option<u32>,
        deed: Deed,
        peer: i32,
        tag: i32,
    ) -> Result<Begun, NoMemory> {
        let no = TypeNo { number: 7 };
        assert!(rt; self.types.is_live(no));
        Ok(Begun {
            part: 0,
            request,
            asked: Asked {
                deed,
                comm: 1,
                name: self.world.copy()?,
                peer,
                tag,
                sig: Sig::of(self.alloc, &self.types, no, 1)?,
            },
        })
    }

    fn step(&mut self, body: Body, begun: Option<Begun>) -> Result<(), NoMemory> {
        let call = Call {
            returned: true,
            body,
        };
        let mut all = Vec::new(self.alloc);
        if let Some(begun) = begun {
            all.push(begun)?;
        }
        self.messages
            .step(self.alloc, &call, all, &mut self.entries, &mut self.rows)
    }

    fn send(&mut self, rt: &impl Abort, tag: i32) -> Result<(), NoMemory> {
        self.send_as(rt, STANDARD, tag)
    }

    /// A send that is done in its call.
    fn send_as(&mut self, rt: &impl Abort, deed: Deed, tag: i32) -> Result<(), NoMemory> {
        let begun = self.begun(rt, None, deed, 1, tag)?;
        self.step(
            Body::Point(Point::Send {
                buf: 4096,
                count: 1,
                dtype: 7,
                dest: 1,
                tag,
                comm: 1,
            }),
            Some(begun),
        )
    }

    fn isend(&mut self, rt: &impl Abort, request: u32, tag: i32) -> Result<(), NoMemory> {
        let begun = self.begun(rt, Some(request), STANDARD, 1, tag)?;
        self.step(
            Body::Point(Point::Isend {
                buf: 4096,
                count: 1,
                dtype: 7,
                dest: 1,
                tag,
                comm: 1,
                request: Some(request),
            }),
            Some(begun),
        )
    }

    fn irecv(
        &mut self,
        rt: &impl Abort,
        request: u32,
        source: i32,
        tag: i32,
    ) -> Result<(), NoMemory> {
        let begun = self.begun(rt, Some(request), Deed::Receive, source, tag)?;
        self.step(
            Body::Point(Point::Irecv {
                buf: 4096,
                count: 1,
                dtype: 7,
                source,
                tag,
                comm: 1,
                request: Some(request),
            }),
            Some(begun),
        )
    }

    fn wait(&mut self, request: u32, status: Status3) -> Result<(), NoMemory> {
        self.step(
            Body::Finish(Finish::Wait {
                request,
                status: Some(status),
            }),
            None,
        )
    }

    fn waitall(&mut self, requests: &[u32], statuses: &[Status3]) -> Result<(), NoMemory> {
        let requests = HandleList::from_vec(requests.to_vec(self.alloc)?);
        let statuses = StatusList::from_vec(statuses.to_vec(self.alloc)?);
        self.step(
            Body::Finish(Finish::Waitall {
                requests,
                statuses: Some(statuses),
            }),
            None,
        )
    }

    fn expect(&self, rt: &impl Abort, want: &[Seen]) {
        assert_eq!(rt; self.entries.len(), want.len());
        for (entry, want) in self.entries.iter().zip(want.iter()) {
            match entry {
                Entry::Message { item } => {
                    let found = item_at(
                        item.place.call,
                        item.source,
                        item.dest,
                        item.tag,
                        item.wild.done,
                    );
                    assert!(rt; found == *want);
                }
                _ => assert!(rt; false),
            }
        }
    }
}

/// Ends the calls, and compares what each operation needs, and the rules and calls of the rows.
fn ends(
    rt: &impl Abort,
    walk: Walk,
    needs: &[Need],
    places: &[(Rule, u32)],
) -> Result<(), NoMemory> {
    let Walk {
        messages,
        entries,
        rows,
        ..
    } = walk;
    let mut entries = entries;
    let mut rows = rows;
    let found = messages.finish(&mut entries, &mut rows)?;
    assert_eq!(rt; found.len(), needs.len());
    for (found, want) in found.iter().zip(needs.iter()) {
        assert!(rt; *found == *want);
    }
    assert_eq!(rt; rows.len(), places.len());
    for (row, want) in rows.as_slice().iter().zip(places.iter()) {
        assert!(rt; row.rule == want.0);
        assert_eq!(rt; row.call, want.1);
        assert_eq!(rt; row.part, 0);
        assert_eq!(rt; row.value, 0);
    }
    Ok(())
}

fn partner(call: u32, standard: bool) -> Need {
    Need::Partner {
        call,
        part: 0,
        standard,
    }
}

const STANDARD: Deed = Deed::Send {
    mode: Mode::Standard,
};

fn status(source: i32, tag: i32, cancelled: bool) -> Status3 {
    Status3 {
        source,
        tag,
        cancelled,
    }
}

#[test]
fn send_gives_its_item_at_once(rt: HostRuntime) -> Result<(), Fail> {
    let mut walk = Walk::new(&rt, rt.alloc())?;
    walk.send(&rt, 3)?;
    walk.expect(&rt, &[item_at(0, 0, 1, 3, None)]);
    Ok(())
}

#[test]
fn wildcard_holds_back_what_stands_behind_it(rt: HostRuntime) -> Result<(), Fail> {
    let mut walk = Walk::new(&rt, rt.alloc())?;
    walk.irecv(&rt, 64, ANY_SOURCE, 5)?;
    walk.send(&rt, 3)?;
    walk.expect(&rt, &[]);
    walk.wait(64, status(1, 5, false))?;
    walk.expect(
        &rt,
        &[item_at(0, 1, 0, 5, Some(2)), item_at(1, 0, 1, 3, None)],
    );
    Ok(())
}

#[test]
fn cancelled_send_is_no_item(rt: HostRuntime) -> Result<(), Fail> {
    let mut walk = Walk::new(&rt, rt.alloc())?;
    walk.isend(&rt, 64, 3)?;
    walk.isend(&rt, 65, 4)?;
    walk.step(Body::Finish(Finish::Cancel { request: 64 }), None)?;
    walk.waitall(&[64, 65], &[status(0, 0, true), status(0, 0, false)])?;
    walk.expect(&rt, &[item_at(1, 0, 1, 4, None)]);
    assert_eq!(&rt; walk.rows.len(), 0);
    Ok(())
}

#[test]
fn second_status_contradicts(rt: HostRuntime) -> Result<(), Fail> {
    let mut walk = Walk::new(&rt, rt.alloc())?;
    walk.isend(&rt, 64, 3)?;
    walk.irecv(&rt, 65, 1, 4)?;
    walk.waitall(&[64, 65], &[status(0, 0, false), status(1, 9, false)])?;
    walk.expect(&rt, &[item_at(0, 0, 1, 3, None)]);
    assert_eq!(&rt; walk.rows.len(), 1);
    match walk.rows.get(0) {
        Some(row) => {
            assert!(&rt; row.rule == Rule::S1);
            assert_eq!(&rt; row.call, 2);
            assert_eq!(&rt; row.part, 1);
            assert_eq!(&rt; row.value, 2);
        }
        None => assert!(&rt; false),
    }
    Ok(())
}

/// A send has no source and tag that its status could contradict, and both of its statuses are judged all the same.
#[test]
fn send_named_twice_stays_an_item(rt: HostRuntime) -> Result<(), Fail> {
    let mut walk = Walk::new(&rt, rt.alloc())?;
    walk.isend(&rt, 64, 3)?;
    walk.waitall(&[64, 64], &[status(0, 0, false), status(0, 0, true)])?;
    walk.expect(&rt, &[item_at(0, 0, 1, 3, None)]);
    assert_eq!(&rt; walk.rows.len(), 1);
    Ok(())
}

#[test]
fn freed_receive_is_an_item_where_it_named_both(rt: HostRuntime) -> Result<(), Fail> {
    let mut walk = Walk::new(&rt, rt.alloc())?;
    walk.irecv(&rt, 64, 1, 5)?;
    walk.irecv(&rt, 65, ANY_SOURCE, 5)?;
    walk.step(Body::Finish(Finish::RequestFree { request: 64 }), None)?;
    walk.step(Body::Finish(Finish::RequestFree { request: 65 }), None)?;
    walk.expect(&rt, &[item_at(0, 1, 0, 5, None)]);
    Ok(())
}

#[test]
fn the_rest_is_given_in_the_end(rt: HostRuntime) -> Result<(), Fail> {
    let mut walk = Walk::new(&rt, rt.alloc())?;
    walk.isend(&rt, 64, 3)?;
    walk.send(&rt, 4)?;
    walk.expect(&rt, &[]);
    let Walk {
        alloc,
        types,
        world,
        messages,
        entries,
        rows,
    } = walk;
    let mut entries = entries;
    let mut rows = rows;
    messages.finish(&mut entries, &mut rows)?;
    let walk = Walk {
        alloc,
        types,
        world,
        messages: Messages::new(alloc, 0, 100)?,
        entries,
        rows,
    };
    walk.expect(&rt, &[item_at(0, 0, 1, 3, None), item_at(1, 0, 1, 4, None)]);
    Ok(())
}

/// One of them is open when the calls end, one is freed, and one is completed.
#[test]
fn open_wildcards(rt: HostRuntime) -> Result<(), Fail> {
    let mut walk = Walk::new(&rt, rt.alloc())?;
    walk.irecv(&rt, 64, ANY_SOURCE, 5)?;
    walk.irecv(&rt, 65, ANY_SOURCE, 6)?;
    walk.step(Body::Finish(Finish::RequestFree { request: 65 }), None)?;
    walk.irecv(&rt, 66, ANY_SOURCE, 7)?;
    walk.wait(66, status(1, 7, false))?;
    assert_eq!(&rt; walk.messages.count(), 3);
    assert_eq!(&rt; walk.messages.under_way(64), Some(0));
    assert_eq!(&rt; walk.messages.under_way(66), None);
    let needs = [
        Need::Unmet { call: 0, part: 0 },
        Need::Unmet { call: 1, part: 0 },
        partner(3, false),
    ];
    ends(&rt, walk, &needs, &[(Rule::N1, 0), (Rule::N1, 1)])?;
    Ok(())
}

/// Sends need their partner by their mode, a cancelled one nothing, and a receive that named its source its partner.
#[test]
fn needs_of_operations(rt: HostRuntime) -> Result<(), Fail> {
    let mut walk = Walk::new(&rt, rt.alloc())?;
    walk.send(&rt, 3)?;
    walk.send_as(
        &rt,
        Deed::Send {
            mode: Mode::Buffered,
        },
        3,
    )?;
    walk.send_as(
        &rt,
        Deed::Send {
            mode: Mode::Synchronous,
        },
        3,
    )?;
    walk.isend(&rt, 64, 3)?;
    walk.step(Body::Finish(Finish::Cancel { request: 64 }), None)?;
    walk.wait(64, status(0, 0, true))?;
    walk.irecv(&rt, 65, 1, 4)?;
    let needs = [
        partner(0, true),
        Need::Nothing,
        partner(2, false),
        Need::Nothing,
        partner(6, false),
    ];
    ends(&rt, walk, &needs, &[])?;
    Ok(())
}
