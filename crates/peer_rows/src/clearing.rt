// Rule 7.3: on a higher number one pass over the ids clears promises sent and held together, and
// the guards with them. The Rust empties its guard tables and then goes over the ids once for each
// promise table (difference 10).

ghost use Rattle.std.specs.Prelude.{◌≡◌, ◌≤◌};
ghost use Rattle.lease.specs.Bitmaps.{capacity};
ghost use Rattle.lease.specs.Passes.{higher_number_row};
ghost use Rattle.peer_rows.specs.Clearing.{ClearedBelow};

use crate::entries::{drop_held, drop_sent};
use lease::{Peer, ROWS};

// One turn: the id's entries in all four tables go, the mark stays.
fn clear_row(row: &mut Peer)
    ensures { row.new ≡ (higher_number_row row.old).peer }
{
    drop_sent(row);
    drop_held(row);
}

/// Clears the rows of the ids below `k`, as a higher number asks for the ids below the population.
pub fn clear_below(peers: &mut [Peer; ROWS], k: usize)
    requires k_le_capacity { k ≤ capacity }
    ensures { ClearedBelow k peers.old peers.new }
{
    for row in peers[..k].iter_mut() {
        clear_row(row);
    }
}
