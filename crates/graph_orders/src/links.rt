//! A network whose arcs can be taken away and added: each node has lists of the arcs that lead out of it and into it.

use crate::NoMemory;
use crate::network::Network;
use crate::tables::{count_of, number_at, put_number};
use std::alloc::Global;

/// No arc, and no node.
pub const NONE: u32 = u32::MAX;

/// An arc: the nodes at its ends, and the arcs before and after it in the lists of both.
#[derive(Clone, Copy, Debug, PartialEq, Eq, Drop)]
pub struct Link {
    pub earlier: u32,
    pub later: u32,
    next_out: u32,
    last_out: u32,
    next_in: u32,
    last_in: u32,
}

const NO_LINK: Link = Link {
    earlier: NONE,
    later: NONE,
    next_out: NONE,
    last_out: NONE,
    next_in: NONE,
    last_in: NONE,
};

/// The first arcs of each node, how many it has, and numbers that tell which nodes are at their other ends, up to chance.
#[derive(Clone, Copy, Debug, PartialEq, Eq, Drop)]
pub struct Ends {
    first_out: u32,
    first_in: u32,
    outs: u32,
    ins: u32,
    out_key: u64,
    in_key: u64,
}

const NO_ENDS: Ends = Ends {
    first_out: NONE,
    first_in: NONE,
    outs: 0,
    ins: 0,
    out_key: 0,
    in_key: 0,
};

/// The arcs of a network.
#[derive(Drop)]
pub struct Links {
    links: Vec<Link>,
    ends: Vec<Ends>,
    // Arcs that were taken away, as a list by `next_out`.
    free: u32,
}

// A number that looks random for each node.
#[inline]
fn key_of(node: u32) -> u64 {
    let mixed = (node as u64)
        .wrapping_add(1)
        .wrapping_mul(0x9e37_79b9_7f4a_7c15);
    let mixed = (mixed ^ (mixed >> 30)).wrapping_mul(0xbf58_476d_1ce4_e5b9);
    let mixed = (mixed ^ (mixed >> 27)).wrapping_mul(0x94d0_49bb_1331_11eb);
    mixed ^ (mixed >> 31)
}

impl Links {
    /// The arcs of a network, each once.
    pub fn new(alloc: Global, network: &Network) -> Result<Links, NoMemory> {
        let mut links = Links {
            links: Vec::with_capacity(alloc, network.size())?,
            ends: vec![in alloc; NO_ENDS; network.nodes() as usize]?,
            free: NONE,
        };
        let mut marks = vec![in alloc; NONE; network.nodes() as usize]?;
        for node in 0..network.nodes() {
            for later in network.after(node) {
                if number_at(&marks, *later) != node {
                    put_number(&mut marks, *later, node);
                    links.add(node, *later)?;
                }
            }
        }
        Ok(links)
    }

    #[inline]
    fn at(&self, arc: u32) -> Link {
        self.links.get(arc as usize).copied().unwrap_or(NO_LINK)
    }

    fn put(&mut self, arc: u32, link: Link) {
        if (arc as usize) < self.links.len() {
            self.links[arc as usize] = link;
        }
    }

    #[inline]
    fn ends(&self, node: u32) -> Ends {
        self.ends.get(node as usize).copied().unwrap_or(NO_ENDS)
    }

    fn put_ends(&mut self, node: u32, ends: Ends) {
        if (node as usize) < self.ends.len() {
            self.ends[node as usize] = ends;
        }
    }

    /// How many nodes there are.
    pub fn nodes(&self) -> u32 {
        count_of(self.ends.len())
    }

    /// How many arcs lead out of a node.
    #[inline]
    pub fn outs(&self, node: u32) -> u32 {
        self.ends(node).outs
    }

    /// How many arcs lead into a node.
    #[inline]
    pub fn ins(&self, node: u32) -> u32 {
        self.ends(node).ins
    }

    /// What tells which nodes come right before and right after a node, up to chance.
    pub fn keys(&self, node: u32) -> (u64, u64) {
        let ends = self.ends(node);
        (ends.in_key, ends.out_key)
    }

    /// The first arc out of a node.
    #[inline]
    pub fn first_out(&self, node: u32) -> u32 {
        self.ends(node).first_out
    }

    /// The first arc into a node.
    #[inline]
    pub fn first_in(&self, node: u32) -> u32 {
        self.ends(node).first_in
    }

    /// The arc after one of those out of a node.
    #[inline]
    pub fn next_out(&self, arc: u32) -> u32 {
        self.at(arc).next_out
    }

    /// The arc after one of those into a node.
    #[inline]
    pub fn next_in(&self, arc: u32) -> u32 {
        self.at(arc).next_in
    }

    /// The node that an arc leads from.
    #[inline]
    pub fn earlier(&self, arc: u32) -> u32 {
        self.at(arc).earlier
    }

    /// The node that an arc leads to.
    #[inline]
    pub fn later(&self, arc: u32) -> u32 {
        self.at(arc).later
    }

    // A place for an arc.
    fn place(&mut self, link: Link) -> Result<u32, NoMemory> {
        if self.free == NONE {
            let arc = count_of(self.links.len());
            self.links.push(link)?;
            return Ok(arc);
        }
        let arc = self.free;
        self.free = self.at(arc).next_out;
        self.put(arc, link);
        Ok(arc)
    }

    // Puts an arc first among those out of the node that it leads from.
    fn link_out(&mut self, arc: u32, link: Link) {
        let ends = self.ends(link.earlier);
        let after = self.at(ends.first_out);
        self.put(
            ends.first_out,
            Link {
                last_out: arc,
                ..after
            },
        );
        self.put_ends(
            link.earlier,
            Ends {
                first_out: arc,
                outs: ends.outs.saturating_add(1),
                out_key: ends.out_key ^ key_of(link.later),
                ..ends
            },
        );
    }

    // Puts an arc first among those into the node that it leads to.
    fn link_in(&mut self, arc: u32, link: Link) {
        let ends = self.ends(link.later);
        let after = self.at(ends.first_in);
        self.put(
            ends.first_in,
            Link {
                last_in: arc,
                ..after
            },
        );
        self.put_ends(
            link.later,
            Ends {
                first_in: arc,
                ins: ends.ins.saturating_add(1),
                in_key: ends.in_key ^ key_of(link.earlier),
                ..ends
            },
        );
    }

    /// Adds an arc.
    pub fn add(&mut self, earlier: u32, later: u32) -> Result<(), NoMemory> {
        let link = Link {
            earlier,
            later,
            next_out: self.first_out(earlier),
            last_out: NONE,
            next_in: self.first_in(later),
            last_in: NONE,
        };
        let arc = self.place(link)?;
        self.link_out(arc, link);
        self.link_in(arc, link);
        Ok(())
    }

    // Takes an arc out of the list of the node that it leads from.
    fn unlink_out(&mut self, link: Link) {
        let ends = self.ends(link.earlier);
        let first_out = if link.last_out == NONE {
            link.next_out
        } else {
            ends.first_out
        };
        self.put_ends(
            link.earlier,
            Ends {
                first_out,
                outs: ends.outs.saturating_sub(1),
                out_key: ends.out_key ^ key_of(link.later),
                ..ends
            },
        );
        let before = self.at(link.last_out);
        self.put(
            link.last_out,
            Link {
                next_out: link.next_out,
                ..before
            },
        );
        let after = self.at(link.next_out);
        self.put(
            link.next_out,
            Link {
                last_out: link.last_out,
                ..after
            },
        );
    }

    // Takes an arc out of the list of the node that it leads to.
    fn unlink_in(&mut self, link: Link) {
        let ends = self.ends(link.later);
        let first_in = if link.last_in == NONE {
            link.next_in
        } else {
            ends.first_in
        };
        self.put_ends(
            link.later,
            Ends {
                first_in,
                ins: ends.ins.saturating_sub(1),
                in_key: ends.in_key ^ key_of(link.earlier),
                ..ends
            },
        );
        let before = self.at(link.last_in);
        self.put(
            link.last_in,
            Link {
                next_in: link.next_in,
                ..before
            },
        );
        let after = self.at(link.next_in);
        self.put(
            link.next_in,
            Link {
                last_in: link.last_in,
                ..after
            },
        );
    }

    /// Takes an arc away.
    pub fn remove(&mut self, arc: u32) {
        let link = self.at(arc);
        if link.earlier == NONE {
            return;
        }
        self.unlink_out(link);
        self.unlink_in(link);
        self.put(
            arc,
            Link {
                next_out: self.free,
                ..NO_LINK
            },
        );
        self.free = arc;
    }

    /// The arc between two nodes; none if there is none. As many steps as the shorter of their lists has arcs.
    pub fn find(&self, earlier: u32, later: u32) -> u32 {
        let outs = self.outs(earlier);
        if outs <= self.ins(later) {
            let mut arc = self.first_out(earlier);
            for _ in 0..outs {
                if self.later(arc) == later {
                    return arc;
                }
                arc = self.next_out(arc);
            }
            return NONE;
        }
        let mut arc = self.first_in(later);
        for _ in 0..self.ins(later) {
            if self.earlier(arc) == earlier {
                return arc;
            }
            arc = self.next_in(arc);
        }
        NONE
    }

    /// Whether an arc leads from one node to another.
    pub fn has(&self, earlier: u32, later: u32) -> bool {
        self.find(earlier, later) != NONE
    }

    /// The nodes right after a node, into a list.
    pub fn list_after(&self, node: u32, list: &mut Vec<u32>) -> Result<(), NoMemory> {
        list.clear();
        let mut arc = self.first_out(node);
        for _ in 0..self.outs(node) {
            list.push(self.later(arc))?;
            arc = self.next_out(arc);
        }
        Ok(())
    }

    /// The nodes right before a node, into a list.
    pub fn list_before(&self, node: u32, list: &mut Vec<u32>) -> Result<(), NoMemory> {
        list.clear();
        let mut arc = self.first_in(node);
        for _ in 0..self.ins(node) {
            list.push(self.earlier(arc))?;
            arc = self.next_in(arc);
        }
        Ok(())
    }

    /// Takes all arcs of a node away.
    pub fn clear(&mut self, node: u32) {
        for _ in 0..self.outs(node) {
            self.remove(self.first_out(node));
        }
        for _ in 0..self.ins(node) {
            self.remove(self.first_in(node));
        }
    }
}
