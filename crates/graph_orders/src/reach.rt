//! Whether one node comes before another, seen within so many steps.

use crate::NoMemory;
use crate::effort::Effort;
use crate::links::Links;
use crate::tables::{count_of, number_at, put_number};
use std::alloc::Global;

/// Marks and a list for a short look back.
#[derive(Drop)]
pub struct Reach {
    marks: Vec<u32>,
    stamp: u32,
    list: Vec<u32>,
    pub effort: Effort,
}

impl Reach {
    /// Marks for so many nodes.
    pub fn new(alloc: Global, nodes: u32, effort: Effort) -> Result<Reach, NoMemory> {
        Ok(Reach {
            marks: vec![in alloc; 0; nodes as usize]?,
            stamp: 0,
            list: Vec::new(alloc),
            effort,
        })
    }

    fn see(&mut self, node: u32) -> Result<(), NoMemory> {
        put_number(&mut self.marks, node, self.stamp);
        self.list.push(node)?;
        Ok(())
    }

    // Looks at the nodes right before one; whether the one that is sought is among them. At most so many steps.
    fn look_back(
        &mut self,
        links: &Links,
        node: u32,
        sought: u32,
        most: u32,
    ) -> Result<bool, NoMemory> {
        let count = links.ins(node).min(most);
        let mut arc = links.first_in(node);
        for _ in 0..count {
            let earlier = links.earlier(arc);
            if earlier == sought {
                return Ok(true);
            }
            if number_at(&self.marks, earlier) != self.stamp {
                self.see(earlier)?;
            }
            arc = links.next_in(arc);
        }
        self.effort.spend(count as usize);
        Ok(false)
    }

    /// Whether a node is found to come before another, over so many nodes in between at most.
    pub fn comes_before(
        &mut self,
        links: &Links,
        earlier: u32,
        later: u32,
        most: u32,
    ) -> Result<bool, NoMemory> {
        self.stamp = self.stamp.saturating_add(1);
        self.list.clear();
        self.see(later)?;
        for place in 0..most {
            if place >= count_of(self.list.len()) || count_of(self.list.len()) >= most {
                break;
            }
            let node = number_at(&self.list, place);
            if self.look_back(links, node, earlier, most.saturating_mul(4))? {
                return Ok(true);
            }
        }
        Ok(false)
    }
}
