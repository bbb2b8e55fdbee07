// A record put into the table. Records of any width, the id their first four bytes.
ghost use Rattle.std.specs.Prelude.{◌≡◌};
ghost use Rattle.wing_mirror.specs.Rows.{takes};
ghost use Rattle.wing_mirror.specs.Record.{key_of};
ghost use Rattle.wing_mirror.specs.Table.{table as table_of};
ghost use Rattle.wing_mirror.specs.Puts.{put_effect};
ghost use Rattle.wing_mirror.specs.Order.{InOrder, put_row};

use crate::bytes::{lay, open_gap};
use crate::order::{places_of, search};
use crate::record;

// Its id has a record, or a place is free.
pub(crate) fn has_room<const W: usize>(table: &[u8], count: usize, rec: &[u8; W]) -> bool
    requires { InOrder W (table_of table.now count) }
    ensures { result ≡ takes W key_of rec.now (table_of table.now count) }
{
    search::<W>(table, count, record::key(rec)).is_ok() || count < places_of::<W>(table)
}

// Into its place, or instead of the record with its id: how many records there are then. None, and nothing is done, where its id is new and
// no place is free.
pub(crate) fn put<const W: usize>(table: &mut [u8], count: usize, rec: &[u8; W]) -> Option<usize>
    requires { InOrder W (table_of table.old count) }
    ensures { put_effect count result table.new ≡ put_row W rec.now (table_of table.old count) }
{
    match search::<W>(table, count, record::key(rec)) {
        Ok(number) => {
            lay(table, W * number, rec);
            Some(count)
        }
        Err(number) => {
            if places_of::<W>(table) <= count {
                return None;
            }
            // Where ids come in rising order, the gap is after the last record and nothing moves.
            let at = W * number;
            open_gap(table, at, W * count, W);
            lay(table, at, rec);
            Some(count + 1)
        }
    }
}
