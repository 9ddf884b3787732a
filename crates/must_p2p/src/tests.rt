//! Worked items, and generated ones in many interleavings against a plain program that counts over all items.

ghost use Rattle.std.specs.Prelude.{◌≡◌, nat_eq, true};
ghost use Rattle.std.specs.List.{IsDistinct};

use crate::channels::Channels;
use crate::item::MsgItem;
use crate::matched::Matched;
use crate::side::Side;
use crate::wild::Wild;
use must_base::NoMemory;
use must_call::Place;
use must_find::{Finding, Findings, Rule};
use must_group::{CommName, Group};
use must_sig::Sig;
use must_type::{TypeNo, TypeTable};
use std::alloc::Global;
use std::process::Abort;
use std::test::Fail;

const BYTE: u32 = 4;

const INT: u32 = 7;

/// An item in short: `old` is the number of a basic type, and `comm` is 0 or 1 for one of two communicators.
#[derive(Clone, Copy)]
struct Case {
    side: Side,
    comm: u32,
    source: u32,
    dest: u32,
    tag: i32,
    call: u32,
    part: u32,
    old: u32,
    count: u64,
}

impl Case {
    fn place(&self) -> Place {
        let rank = match self.side {
            Side::Send => self.source,
            Side::Receive => self.dest,
            Side::Probe => self.dest,
        };
        Place {
            rank,
            call: self.call,
        }
    }

    fn is_of_class(&self, other: &Case) -> bool {
        self.comm == other.comm
            && self.source == other.source
            && self.dest == other.dest
            && self.tag == other.tag
    }

    fn is_earlier(&self, other: &Case) -> bool {
        self.call < other.call || (self.call == other.call && self.part < other.part)
    }

    /// How many of these items of its class are of this side and earlier.
    fn number(&self, cases: &[Case], side: Side) -> u64 {
        let mut number = 0;
        for case in cases {
            if case.side == side && case.is_of_class(self) && case.is_earlier(self) {
                number = u64::saturating_add(number, 1);
            }
        }
        number
    }

    /// The item of the other side, of its class and number.
    fn partner(&self, cases: &[Case]) -> Option<Case> {
        let other = match self.side {
            Side::Send => Side::Receive,
            Side::Receive => Side::Send,
            Side::Probe => return None,
        };
        for case in cases {
            if case.side == other
                && case.is_of_class(self)
                && case.number(cases, other) == self.number(cases, self.side)
            {
                return Some(*case);
            }
        }
        None
    }
}

fn one(side: Side, ends: (u32, u32), tag: i32, call: u32, old: u32, count: u64) -> Case {
    Case {
        side,
        comm: 0,
        source: ends.0,
        dest: ends.1,
        tag,
        call,
        part: 0,
        old,
        count,
    }
}

fn finding(rank: u32, call: u32, rule: Rule, see: Option<(u32, u32)>, value: i128) -> Finding {
    Finding {
        rank,
        call,
        rule,
        part: 0,
        see: match see {
            Some((rank, call)) => Some(Place { rank, call }),
            None => None,
        },
        value,
    }
}

/// The rows of these items, by the words of the rules.
fn add_rows(cases: &[Case], out: &mut Findings) -> Result<(), NoMemory> {
    for case in cases {
        if let Some(row) = row_of(case, case.partner(cases)) {
            out.add(row)?;
        }
    }
    Ok(())
}

fn row_of(case: &Case, partner: Option<Case>) -> Option<Finding> {
    let (rule, see, value) = match (case.side, partner) {
        (Side::Send, None) => (Rule::M3, None, 0),
        (Side::Receive, None) => (Rule::M4, None, 0),
        (Side::Receive, Some(send)) => {
            if send.old != case.old && send.count > 0 && case.count > 0 {
                (Rule::M1, Some(send.place()), 0)
            } else if send.count > case.count {
                (Rule::M2, Some(send.place()), i128::from(case.count))
            } else {
                return None;
            }
        }
        _ => return None,
    };
    let place = case.place();
    Some(Finding {
        rank: place.rank,
        call: place.call,
        rule,
        part: case.part,
        see,
        value,
    })
}

/// What an item's match is to be.
fn matched(case: &Case, partner: &Case) -> Matched {
    let (send, recv) = match case.side {
        Side::Send => (case, partner),
        Side::Receive => (partner, case),
        Side::Probe => (partner, case),
    };
    Matched {
        send: send.place(),
        send_part: send.part,
        recv: recv.place(),
        recv_part: recv.part,
    }
}

fn is_distinct(ranks: &[u32]) -> bool
    ensures { result ≡ true → IsDistinct nat_eq ranks.now }
{
    for (place, rank) in ranks.iter().enumerate() {
        if ranks[..place].contains(rank) {
            return false;
        }
    }
    true
}

/// A name with the ranks from 0 to one less than `size` as members.
fn name(rt: &impl Abort, alloc: Global, root: u8, size: u32) -> Result<CommName, NoMemory> {
    let ranks: Vec<u32> = (0..size).collect(alloc)?;
    assert!(rt; is_distinct(&ranks));
    CommName::start(alloc, root, Group::of(alloc, &ranks)?)
}

/// The types and the communicators of items.
#[derive(Drop)]
struct Frame {
    alloc: Global,
    table: TypeTable,
    world: CommName,
    other: CommName,
}

impl Frame {
    fn new(rt: &impl Abort, alloc: Global, size: u32) -> Result<Frame, NoMemory> {
        Ok(Frame {
            alloc,
            table: TypeTable::new(alloc, 1000)?,
            world: name(rt, alloc, 0, size)?,
            other: name(rt, alloc, 1, size)?,
        })
    }

    /// The item; handle numbers of a communicator differ between ranks.
    fn item(&self, rt: &impl Abort, case: &Case) -> Result<MsgItem, NoMemory> {
        let no = TypeNo { number: case.old };
        assert!(rt; self.table.is_live(no));
        let name = if case.comm == 0 {
            self.world.copy()?
        } else {
            self.other.copy()?
        };
        let place = case.place();
        Ok(MsgItem {
            place,
            part: case.part,
            side: case.side,
            name,
            comm: (place.rank & 0xffff) * 2 + (case.comm & 1),
            source: case.source,
            dest: case.dest,
            tag: case.tag,
            sig: Sig::of(self.alloc, &self.table, no, case.count)?,
            wild: Wild {
                source: false,
                tag: false,
                done: None,
            },
        })
    }
}

fn expect_findings(rt: &impl Abort, found: &Findings, want: &[Finding]) {
    assert_eq!(rt; found.len(), want.len());
    for (a, b) in found.as_slice().iter().zip(want.iter()) {
        assert_eq!(rt; *a, *b);
    }
}

/// Puts the items in, and closes. It answers how many matches came.
fn put_all(
    rt: &impl Abort,
    alloc: Global,
    frame: &Frame,
    cases: &[Case],
    out: &mut Findings,
) -> Result<u32, NoMemory> {
    let mut channels = Channels::new(alloc)?;
    let mut count = 0;
    for case in cases {
        let item = frame.item(rt, case)?;
        let side = match case.side {
            Side::Send => Side::Send,
            Side::Receive => Side::Receive,
            Side::Probe => Side::Receive,
        };
        assert_eq!(rt; channels.next_number(&item), case.number(cases, side));
        if let Some(found) = channels.put(item, out)? {
            count = u32::saturating_add(count, 1);
            match case.partner(cases) {
                Some(partner) => assert_eq!(rt; found, matched(case, &partner)),
                None => assert!(rt; false, "a match of an item without a partner"),
            }
        }
    }
    channels.close(out)?;
    Ok(count)
}

/// The items have these rows and so many matches, as the channels and as the plain program tell.
fn expect(
    rt: &impl Abort,
    alloc: Global,
    cases: &[Case],
    want: &[Finding],
    matches: u32,
) -> Result<(), Fail> {
    let frame = Frame::new(rt, alloc, 8)?;
    let mut found = Findings::new(alloc);
    assert_eq!(rt; put_all(rt, alloc, &frame, cases, &mut found)?, matches);
    expect_findings(rt, &found, want);
    let mut plain = Findings::new(alloc);
    add_rows(cases, &mut plain)?;
    expect_findings(rt, &plain, want);
    Ok(())
}

#[test]
fn third_receive_of_another_type(rt: HostRuntime) -> Result<(), Fail> {
    let cases = [
        one(Side::Send, (0, 1), 0, 1, INT, 4),
        one(Side::Send, (0, 1), 0, 2, INT, 8),
        one(Side::Send, (0, 1), 0, 3, INT, 1),
        one(Side::Receive, (0, 1), 0, 1, INT, 8),
        one(Side::Receive, (0, 1), 0, 2, INT, 4),
        one(Side::Receive, (0, 1), 0, 3, BYTE, 4),
    ];
    let want = [
        finding(1, 2, Rule::M2, Some((0, 2)), 4),
        finding(1, 3, Rule::M1, Some((0, 3)), 0),
    ];
    expect(&rt, rt.alloc(), &cases, &want, 3)
}

#[test]
fn wildcard_takes_the_first_send(rt: HostRuntime) -> Result<(), Fail> {
    // The first receive named any tag; its status told 5.
    let cases = [
        one(Side::Receive, (0, 1), 5, 1, INT, 1),
        one(Side::Send, (0, 1), 5, 1, INT, 1),
        one(Side::Receive, (0, 1), 5, 2, INT, 1),
        one(Side::Send, (0, 1), 5, 2, INT, 2),
    ];
    expect(
        &rt,
        rt.alloc(),
        &cases,
        &[finding(1, 2, Rule::M2, Some((0, 2)), 1)],
        2,
    )
}

#[test]
fn other_tags_and_probes_do_not_match(rt: HostRuntime) -> Result<(), Fail> {
    let cases = [
        one(Side::Send, (0, 1), 7, 1, INT, 1),
        one(Side::Probe, (0, 1), 7, 1, INT, 1),
        one(Side::Receive, (0, 1), 8, 2, INT, 1),
        one(Side::Receive, (1, 0), 7, 2, INT, 1),
    ];
    let want = [
        finding(0, 1, Rule::M3, None, 0),
        finding(0, 2, Rule::M4, None, 0),
        finding(1, 2, Rule::M4, None, 0),
    ];
    expect(&rt, rt.alloc(), &cases, &want, 0)
}

fn next(seed: &mut u64) -> u64 {
    *seed = seed
        .wrapping_mul(6_364_136_223_846_793_005)
        .wrapping_add(1_442_695_040_888_963_407);
    *seed >> 33
}

/// Items of 8 ranks, of few classes, so that many of them meet.
fn generated(alloc: Global, seed: &mut u64, count: u32) -> Result<Vec<Case>, NoMemory> {
    let mut cases = Vec::new(alloc);
    for call in 0..count {
        let (side, part) = match next(seed) % 5 {
            0 => (Side::Probe, 0),
            1 => (Side::Send, 0),
            2 => (Side::Send, 0),
            _ => (Side::Receive, 1),
        };
        let source = (next(seed) % 8) as u32;
        cases.push(Case {
            side,
            comm: (next(seed) % 2) as u32,
            source,
            dest: ((u64::from(source) + next(seed) % 2) % 8) as u32,
            tag: (next(seed) % 2) as i32,
            call,
            part,
            old: if next(seed) % 4 == 0 { BYTE } else { INT },
            count: next(seed) % 4,
        })?;
    }
    Ok(cases)
}

/// An interleaving of the items that keeps the order at each rank: each item has a time, which rises at a rank.
fn interleaved(alloc: Global, seed: &mut u64, cases: &[Case]) -> Result<Vec<Case>, NoMemory> {
    let mut times = [0u64; 8];
    let mut timed = Vec::new(alloc);
    for case in cases {
        if let Some(time) = times.get_mut(case.place().rank as usize) {
            *time = time.wrapping_add(next(seed) % 16);
            timed.push((*time, *case))?;
        }
    }
    timed.sort_by_key(|item| item.0)?;
    let mut all = Vec::new(alloc);
    for item in &timed {
        all.push(item.1)?;
    }
    Ok(all)
}

#[test]
fn interleavings_of_8_ranks(rt: HostRuntime) -> Result<(), Fail> {
    let alloc = rt.alloc();
    let mut seed = 7;
    let cases = generated(alloc, &mut seed, 300)?;
    let frame = Frame::new(&rt, alloc, 8)?;
    let mut want = Findings::new(alloc);
    add_rows(&cases, &mut want)?;
    let mut pairs = 0;
    for case in &cases {
        if case.side == Side::Send && case.partner(&cases).is_some() {
            pairs = u32::saturating_add(pairs, 1);
        }
    }
    assert!(rt; pairs > 40, "only {pairs} pairs");
    for _ in 0..50 {
        let mixed = interleaved(alloc, &mut seed, &cases)?;
        assert_eq!(rt; mixed.len(), cases.len());
        let mut found = Findings::new(alloc);
        assert_eq!(rt; put_all(&rt, alloc, &frame, &mixed, &mut found)?, pairs);
        expect_findings(&rt, &found, want.as_slice());
    }
    Ok(())
}
