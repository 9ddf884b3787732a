//! Where in a tree a child stands, for the gate.

/// The number of a node, and that of one of its children. The nodes are counted level by level from the lowest.
#[derive(Clone, Copy, Debug, PartialEq, Eq)]
pub(crate) struct Spot {
    pub node: u32,
    pub child: u32,
}

/// The place of the child of this level whose ranks begin at `from`. The numbers have no effect on any promise.
pub(crate) fn spot_at(size: u32, fan_in: u32, level: u32, from: u32) -> Spot {
    let mut nodes = 0u32;
    let mut width = 1u32;
    for _ in 0..level {
        width = width.saturating_mul(fan_in);
        nodes = nodes.saturating_add(size.div_ceil(width.max(1)));
    }
    let above = width.saturating_mul(fan_in);
    Spot {
        node: nodes.saturating_add(from / above.max(1)),
        child: from / width.max(1) % fan_in.max(1),
    }
}
