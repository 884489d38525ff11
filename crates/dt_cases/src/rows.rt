//! A row of a table of cases, the check that each key meets exactly one row, and the lookup of its action.
ghost use Rattle.std.specs.Prelude.{◌≡◌, ◌==◌, ◌↔◌, [], ◌∷◌, IsTrue, count_by, filter, find};
ghost use Rattle.dt_cases.specs.Tables.{meets, actions_at, MeetsOne, EachMeetsOne, is_covered};

/// A row of a table: which keys it meets, and the action at them. It meets a key where `key & mask`
/// is the value. Where the value has a bit outside the mask, the row meets no key.
#[derive(Clone, Copy)]
pub struct Row {
    /// The bits of a key that the row looks at.
    pub mask: u8,
    /// What those bits must be.
    pub value: u8,
    /// The number of the action.
    pub action: u8,
}

/// Whether the row meets the key.
fn is_met(row: &Row, key: u8) -> bool
    ensures { result ≡ meets key row.now }
{
    key & row.mask == row.value
}

/// Whether the key meets exactly one of these rows.
fn meets_one(rows: &[Row], key: u8) -> bool
    ensures { result ≡ (count_by (meets key) rows.now == 1) }
{
    rows.iter().filter(|row| is_met(row, key)).count() == 1
}

/// Whether each key below `keys` meets exactly one of these rows.
fn each_meets_one(rows: &[Row], keys: u8) -> bool
    ensures { result ≡ is_covered rows.now keys }
{
    (0..keys).all(|key| meets_one(rows, key))
}

/// The first of these rows that the key meets.
fn first_met(rows: &[Row], key: u8) -> Option<Row>
    ensures { result ≡ find (meets key) rows.now }
{
    rows.iter().copied().find(|row| is_met(row, key))
}

/// Whether each key below `keys` meets exactly one row. It looks at each row once for each key.
pub fn covers<const N: usize>(rows: &[Row; N], keys: u8) -> bool
    ensures each { IsTrue result ↔ EachMeetsOne rows.now keys }
    ensures test { result ≡ is_covered rows.now keys }
{
    each_meets_one(rows, keys)
}

/// The action of the one row that the key meets. The key meets exactly one row; where [`covers`] is
/// true, each key below its `keys` does. It looks at each row at most once.
pub fn pick<const N: usize>(rows: &[Row; N], key: u8) -> u8
    requires { MeetsOne rows.now key }
    ensures { actions_at rows.now key ≡ result ∷ [] }
{
    match first_met(rows, key) {
        Some(row) => row.action,
        None => unreachable!(),
    }
}
