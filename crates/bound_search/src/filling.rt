//! Flow that comes in from outside, so that no room is left.

use crate::NoMemory;
use crate::kept_flow::{KeptFlow, MUCH};
use crate::legs::Source;
use crate::network::Network;
use crate::tables::{count_of, number_at};

// Lists the arcs by which something may come in from outside, as much as finds room.
fn list_filled(kept: &mut KeptFlow, network: &Network) -> Result<(), NoMemory> {
    kept.pusher.sources.clear();
    for node in 0..network.nodes() {
        if !kept.is_inside(node) {
            let row = network.earlier(node);
            kept.spend(row.len());
            for (k, before) in row.iter().enumerate() {
                if kept.is_inside(*before) {
                    kept.pusher.sources.push(Source {
                        node: *before,
                        arc: number_at(network.down(node), count_of(k)),
                        other: node,
                        left: MUCH,
                        pushed: 0,
                    })?;
                }
            }
        }
    }
    Ok(())
}

// Lets in what the ranks let.
fn fill_once(kept: &mut KeptFlow, network: &Network) -> Result<(), NoMemory> {
    for k in 0..kept.pusher.sources.len() {
        let pushed = kept.pusher.push_from(network, k)?;
        if pushed > 0
            && let Some(source) = kept.pusher.sources.get(k).copied()
        {
            kept.pusher.flows.add_flow(source.arc, pushed)?;
        }
    }
    Ok(())
}

// What flows in from outside may flow back there.
fn open_outside(kept: &mut KeptFlow, network: &Network) {
    for node in 0..network.nodes() {
        if !kept.is_inside(node) && node != network.root() {
            kept.pusher.open(node);
            kept.pusher.flows.put_room(node, MUCH);
        }
    }
}

/// Lets flow come in from outside until no room is left.
pub fn fill(kept: &mut KeptFlow, network: &Network) -> Result<(), NoMemory> {
    list_filled(kept, network)?;
    for _ in 0..kept.effort().left() {
        if kept.effort().is_spent() || !kept.pusher.rank_all(network, MUCH)? {
            break;
        }
        fill_once(kept, network)?;
    }
    open_outside(kept, network);
    Ok(())
}
