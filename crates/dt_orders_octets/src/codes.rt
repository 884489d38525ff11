//! What has a few values, as numbers.
ghost use Rattle.std.specs.Prelude.{◌≡◌};
ghost use Rattle.dt_orders_octets.specs.Codes.{code_of_kind, code_of_state, code_of_word, kind_of_code, state_of_code, word_of_code};

use dt_orders_model::{Kind, RowState, Word};

/// The number of a kind of request.
pub fn kind_code(kind: Kind) -> u8
    ensures { result ≡ code_of_kind kind }
{
    match kind {
        Kind::Order => 1,
        Kind::Cancel => 2,
        Kind::Ask => 3,
    }
}

/// The kind of a number from 1 to 3.
pub fn kind_of(code: u64) -> Kind
    ensures { result ≡ kind_of_code code }
{
    if code == 1 {
        Kind::Order
    } else if code == 2 {
        Kind::Cancel
    } else {
        Kind::Ask
    }
}

/// The number of a row's state: 1 at work, 2 cancelled, 3 done.
pub fn state_code(state: RowState) -> u8
    ensures { result ≡ code_of_state state }
{
    match state {
        RowState::AtWork => 1,
        RowState::Cancelled => 2,
        RowState::Done => 3,
    }
}

/// The state of a number from 1 to 3.
pub fn state_of(code: u64) -> RowState
    ensures { result ≡ state_of_code code }
{
    if code == 1 {
        RowState::AtWork
    } else if code == 2 {
        RowState::Cancelled
    } else {
        RowState::Done
    }
}

/// The number of an answer's word, from 1 on in the order in which [`Word`] has them.
pub fn word_code(word: Word) -> u8
    ensures { result ≡ code_of_word word }
{
    match word {
        Word::Done => 1,
        Word::Never => 2,
        Word::AtWork => 3,
        Word::NotNow => 4,
        Word::Old => 5,
        Word::Stale => 6,
        Word::Forked => 7,
        Word::Hello => 8,
        Word::Told => 9,
    }
}

/// The word of a number from 1 to 9.
pub fn word_of(code: u64) -> Word
    ensures { result ≡ word_of_code code }
{
    match code {
        1 => Word::Done,
        2 => Word::Never,
        3 => Word::AtWork,
        4 => Word::NotNow,
        5 => Word::Old,
        6 => Word::Stale,
        7 => Word::Forked,
        8 => Word::Hello,
        _ => Word::Told,
    }
}
