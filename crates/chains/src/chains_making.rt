//! Making a store of the rows of a table: a check that moves nothing, and then the making, which cannot refuse.
ghost use Rattle.std.specs.Prelude.{◌≡◌, length, Ok};
ghost use Rattle.stores.specs.Piles.{empty_pile};
ghost use Rattle.stores.specs.Table.{pile_of, table_answer};
ghost use Rattle.chains.specs.Rows.{rows_of};
ghost use Rattle.chains.specs.Acts.{AllFree};

use crate::chain_types::{CHAINS, ChainRow, Heads, LinkedTable, NO_ROW};
use crate::chains_type::Chains;
use crate::ways::free_row;
use stores::{TableFault, check_rows};

impl<'a> Chains<'a> {
    /// Whether the table can be a store: 15 where it has no row, or more than 1,024.
    pub fn check(table: &[ChainRow]) -> Result<(), TableFault>
        ensures { result ≡ table_answer (length table.now) }
    {
        check_rows(table.len())
    }

    /// An empty store over the table, whose rows are freed.
    pub fn new(table: &'a mut [ChainRow]) -> Chains<'a>
        requires { table_answer (length table.old) ≡ Ok tt }
        ensures { pile_of (rows_of result.linked.table.now) ≡ empty_pile (length table.old) }
    {
        free_all(table);
        let heads = Heads {
            firsts: [[NO_ROW; CHAINS]; 3],
            lasts: [[NO_ROW; CHAINS]; 3],
            free: Some(0),
            count: 0,
        };
        Chains {
            linked: LinkedTable { table, heads },
        }
    }
}

/// Frees every row: each names the one behind it, and the last names no row.
fn free_all(table: &mut [ChainRow])
    requires { table_answer (length table.old) ≡ Ok tt }
    ensures { AllFree table.new }
{
    let rows = table.len();
    for (i, row) in table.iter_mut().enumerate() {
        // By hand: a row's number is below 1,024, and `try_from` would answer an error that cannot come.
        *row = free_row((i + 1 < rows).then_some((i + 1) as u32));
    }
}
