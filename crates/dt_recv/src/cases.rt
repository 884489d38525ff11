//! The table of cases: what a receiver does with a packet, as masked rows.
ghost use Rattle.std.specs.Prelude.{◌≡◌, ◌<◌, ◌≤◌, ◌==◌, [], ◌∷◌, Bool, Option, option_map};
ghost use Rattle.dt_cases.specs.Tables.{EachMeetsOne, actions_at};
ghost use Rattle.dt_units.specs.declared.order.Relation.{Relation};
ghost use Rattle.dt_units.specs.Numbers.{relation_of};
ghost use Rattle.dt_flow_model.specs.ReceiveRecord.{action_of, close_action};
ghost use Rattle.dt_recv.specs.Keys.{bit, rank, data_key, close_key, data_action, closing_action, action_code};

use dt_cases::{Row, pick};
use dt_flow_model::Action;
use dt_units::Relation;
use dt_units::numbers::relation;

macro_rules! rows {
    ($($mask:literal $value:literal $action:ident;)*) => {
        [$(Row { mask: $mask, value: $value, action: Action::$action as u8 }),*]
    };
}

/// The action with this number.
fn coded(code: u8) -> Action
    requires { code < 7 }
    ensures { code ≡ action_code result }
{
    match code {
        0 => Action::Drop,
        1 => Action::Make,
        2 => Action::TellNumber,
        3 => Action::TellExpected,
        4 => Action::Accept,
        5 => Action::Skip,
        6 => Action::Close,
        _ => unreachable!(),
    }
}

// Rows 1 to 3 are without a record, rows 4 to 9 with one; 10 and 11 are for closing packets, which
// rows 1 to 3 drop where no record stands.
const CASES: [Row; 11] = rows! {
    6 0 Drop;
    7 3 Make;
    7 2 TellNumber;
    28 4 TellExpected;
    29 13 Accept;
    29 12 TellExpected;
    31 23 Skip;
    31 22 TellNumber;
    30 20 TellExpected;
    29 29 Close;
    29 28 Drop;
};

/// The rows, as they are written above.
fn table() -> [Row; 11]
    ensures { result ≡ CASES }
{
    CASES
}

/// The table of cases: each key below 32 meets exactly one of its rows. The proof computes that, and
/// nothing does as a packet comes.
fn cases() -> [Row; 11]
    ensures table { result ≡ CASES }
    ensures covered { EachMeetsOne result 32 }
{
    table()
}

/// The action at a key, which is below 32: that of the one row of the table which the key meets.
pub fn action_at(key: u8) -> Action
    requires { key < 32 }
    ensures row { actions_at CASES key ≡ action_code result ∷ [] }
    ensures data { (fits drf : Bool) (relation : Option Relation)
        → key ≡ data_key fits drf relation → result ≡ data_action relation drf fits }
    ensures close { (equal : Option Bool)
        → key ≡ close_key equal → result ≡ closing_action equal }
{
    coded(pick(&cases(), key))
}

/// The key of a data packet, whose number has this relation to the expected one, or where no record
/// stands none.
fn data_key(fits: bool, drf: bool, relation: Option<Relation>) -> u8
    ensures value { result ≡ data_key fits drf relation }
    ensures below { result < 24 }
{
    let standing = match relation {
        None => 0,
        Some(Relation::Below) => 4,
        Some(Relation::Equal) => 12,
        Some(Relation::Above) => 20,
    };
    u8::from(fits) + 2 * u8::from(drf) + standing
}

/// The key of a closing packet, whose number is the expected one or isn't, or where no record stands
/// none.
fn close_key(equal: Option<bool>) -> u8
    ensures value { result ≡ close_key equal }
    ensures below { result < 32 }
{
    match equal {
        None => 24,
        Some(equal) => 28 + u8::from(equal),
    }
}

/// Where a packet's number stands against the expected one, or none where no record stands.
fn relation_to(expected: Option<u32>, number: u32) -> Option<Relation>
    ensures { result ≡ option_map (λ expected. relation_of number expected) expected }
{
    expected.map(|expected| relation(number, expected))
}

/// What a receiver does with a data packet: what it expects, or none where no receive record stands,
/// against the packet's data-run flag, number and length in octets, and the free room of its queue in
/// octets. All of them may be any.
///
/// | record | flag | number against the expected one | fits into the room | action |
/// |---|---|---|---|---|
/// | none | off | any | any | `Drop` |
/// | none | on | any | yes | `Make` |
/// | none | on | any | no | `TellNumber` |
/// | there | any | below | any | `TellExpected` |
/// | there | any | equal | yes | `Accept` |
/// | there | any | equal | no | `TellExpected` |
/// | there | on | above | yes | `Skip` |
/// | there | on | above | no | `TellNumber` |
/// | there | off | above | any | `TellExpected` |
pub fn action(expected: Option<u32>, drf: bool, number: u32, length: u32, free: u32) -> Action
    ensures { result ≡ action_of expected drf number length free }
{
    let relation = relation_to(expected, number);
    action_at(data_key(length <= free, drf, relation))
}

/// What a receiver does with a closing packet of this number: `Close` where a receive record stands
/// that expects the number, else `Drop`.
pub fn closing(expected: Option<u32>, number: u32) -> Action
    ensures { result ≡ close_action expected number }
{
    let equal = expected.map(|expected| number == expected);
    action_at(close_key(equal))
}
