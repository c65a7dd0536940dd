// The pass that a higher number asks for, on flat rows (rule 7.3), as `peer_rows::clearing` on a manager's.

ghost use Rattle.std.specs.Prelude.{◌≡◌, ◌≤◌, true, map};
ghost use Rattle.std.specs.List.{list_all};
ghost use Rattle.lease.specs.Bitmaps.{capacity};
ghost use Rattle.lease.specs.Passes.{higher_number_row};
ghost use Rattle.peer_rows.specs.Clearing.{ClearedBelow};
ghost use Rattle.wire.specs.Flat.{flat_row};
ghost use Rattle.wire.specs.FromFlat.{peer_of};
ghost use Rattle.wire.specs.Form.{is_row};

use flat_record::from_flat::peer_of;
use flat_record::to_flat::flat_row;
use lease::ROWS;
use peer_rows::entries::{drop_held, drop_sent};
use wire::flat::PeerC;

// One turn: the id's entries in all four tables go, the mark stays.
fn clear_flat(p: &mut PeerC)
    ensures { p.new ≡ flat_row (higher_number_row (peer_of p.old)).peer }
{
    let mut row = peer_of(*p);
    drop_sent(&mut row);
    drop_held(&mut row);
    *p = flat_row(row);
}

/// Clears the flat rows of the ids below `k`, as a higher number asks for the ids below the population.
pub fn flat_clear_below(rows: &mut [PeerC; ROWS], k: usize)
    requires k_le_capacity { k ≤ capacity }
    ensures cleared { ClearedBelow k (map peer_of rows.old) (map peer_of rows.new) }
    ensures form { list_all is_row rows.old ≡ true → list_all is_row rows.new ≡ true }
{
    for p in rows[..k].iter_mut() {
        clear_flat(p);
    }
}
