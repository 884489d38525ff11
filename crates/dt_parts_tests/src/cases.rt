//! A table of cases: one row for each key, and tables with two rows or none.
ghost use Rattle.std.specs.Prelude.{◌<◌};

use crate::rows::{holds, holds_at};
use dt_cases::{Row, covers, pick};
use std::process::Abort;

macro_rules! table {
    ($($mask:literal $value:literal $action:literal;)*) => {
        [$(Row { mask: $mask, value: $value, action: $action }),*]
    };
}

// A receiver's table, as the crate of receive records has it. Rows 1 to 9 are for data: a key has 1
// where the octets fit, 2 where the data-run flag is on, 4 where there is a record, and 8 times the
// relation of the number: 0 below, 1 equal, 2 above. Rows 10 and 11 are for closing packets: a key
// has 24, 4 where there is a record, and 1 where the number is the expected one. The actions are
// 0 drop, 1 make, 2 tell the number, 3 tell the expected one, 4 accept, 5 skip, 6 close.
const RECEIVE: [Row; 11] = table! {
    6 0 0;
    7 3 1;
    7 2 2;
    28 4 3;
    29 13 4;
    29 12 3;
    31 23 5;
    31 22 2;
    30 20 3;
    29 29 6;
    29 28 0;
};

// As a crate above uses a table: its rule is proved by the table alone, and not tested.
fn received(key: u8) -> u8
    requires { key < 32 }
{
    pick(&RECEIVE, key)
}

fn is_each_received() -> bool {
    covers(&RECEIVE, 32)
}

/// The action at each key below 32.
static ACTIONS: [u8; 32] = [
    0, 0, 2, 1, 3, 3, 3, 3, 0, 0, 2, 1, 3, 4, 3, 4, 0, 0, 2, 1, 3, 3, 2, 5, 0, 0, 2, 1, 0, 6, 0, 6,
];

fn is_received(rt: &impl Abort, key: u8)
    requires { key < 32 }
{
    let place = usize::from(key);
    let action = ACTIONS[place];
    holds_at(rt, received(key) == action, place, usize::from(action));
}

#[test]
fn the_receive_table_has_one_row_for_each_key(rt: HostRuntime) {
    let is = is_each_received();
    assert!(rt; is);
    for key in 0..32 {
        is_received(&rt, key);
    }
}

/// Key 3 has two rows.
static TWO_ROWS: [Row; 4] = table! { 1 0 7; 3 1 8; 3 3 9; 2 2 6; };

/// Key 3 has none.
static NO_ROW: [Row; 2] = table! { 1 0 7; 3 1 8; };

/// A value has a bit outside the mask.
static BIT_OUTSIDE: [Row; 1] = table! { 1 2 7; };

static NO_ROWS: [Row; 0] = [];

/// A table keeps the rule for so many keys, and not for one more.
fn covers_at_most<const N: usize>(rt: &impl Abort, rows: &[Row; N], keys: u8, name: &str)
    requires { keys < 255 }
{
    holds(rt, covers(rows, keys) && !covers(rows, keys + 1), name);
}

#[test]
fn a_key_with_two_rows_or_none_breaks_the_rule(rt: HostRuntime) {
    covers_at_most(&rt, &TWO_ROWS, 2, "two rows");
    covers_at_most(&rt, &NO_ROW, 3, "no row");
    covers_at_most(&rt, &BIT_OUTSIDE, 0, "a bit outside");
    covers_at_most(&rt, &NO_ROWS, 0, "no rows");
}
