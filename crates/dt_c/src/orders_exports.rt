//! The exports of orders: each hands on what it is given to the call of that name of dt_orders_turns.
ghost use Rattle.std.specs.Prelude.{◌≡◌};
ghost use Rattle.dt_orders_turns.specs.Giving.{adopts, answers, asks, calls, cancels, gave, hears, made_in, started, unsure_in, word_said};
ghost use Rattle.dt_orders_turns.specs.Serving.{answered, executed, finished, forgotten, judged, looked, opened};

use dt_orders_turns::{OrdersLane, OrdersLook, OrdersServer};

/// A store is opened.
#[unsafe(no_mangle)]
pub extern "C" fn dt_orders_open(turn: &mut OrdersServer, nonce: u64) -> u8
    ensures answer { result ≡ (opened turn.old nonce).0 }
    ensures octets { turn.new ≡ (opened turn.old nonce).1 }
{
    dt_orders_turns::open(turn, nonce)
}

/// What a server looks up for a request.
#[unsafe(no_mangle)]
pub extern "C" fn dt_orders_look_up(request: &[u8], look: &mut OrdersLook) -> u8
    ensures answer { result ≡ (looked request.now look.old).0 }
    ensures look { look.new ≡ (looked request.now look.old).1 }
{
    dt_orders_turns::look_up(request, look)
}

/// A request is judged.
#[unsafe(no_mangle)]
pub extern "C" fn dt_orders_judge(turn: &mut OrdersServer, request: &[u8], strict: bool) -> u8
    ensures answer { result ≡ (judged request.now strict turn.old).0 }
    ensures octets { turn.new ≡ (judged request.now strict turn.old).1 }
{
    dt_orders_turns::judge(turn, request, strict)
}

/// A handler executed an order.
#[unsafe(no_mangle)]
pub extern "C" fn dt_orders_executed(
    turn: &mut OrdersServer,
    request: &[u8],
    strict: bool,
    done: bool,
) -> u8
    ensures answer { result ≡ (executed request.now strict done turn.old).0 }
    ensures octets { turn.new ≡ (executed request.now strict done turn.old).1 }
{
    dt_orders_turns::executed(turn, request, strict, done)
}

/// An order that was at work has its result.
#[unsafe(no_mangle)]
pub extern "C" fn dt_orders_finish(turn: &mut OrdersServer) -> u8
    ensures answer { result ≡ (finished turn.old).0 }
    ensures octets { turn.new ≡ (finished turn.old).1 }
{
    dt_orders_turns::finish(turn)
}

/// A row is forgotten.
#[unsafe(no_mangle)]
pub extern "C" fn dt_orders_forget(turn: &mut OrdersServer) -> u8
    ensures answer { result ≡ (forgotten turn.old).0 }
    ensures octets { turn.new ≡ (forgotten turn.old).1 }
{
    dt_orders_turns::forget(turn)
}

/// The answer to a request.
#[unsafe(no_mangle)]
pub extern "C" fn dt_orders_answer(turn: &mut OrdersServer, request: &[u8], said: u8) -> u8
    ensures answer { result ≡ (answered request.now said turn.old).0 }
    ensures octets { turn.new ≡ (answered request.now said turn.old).1 }
{
    dt_orders_turns::answer(turn, request, said)
}

/// A client's store is opened.
#[unsafe(no_mangle)]
pub extern "C" fn dt_orders_start(turn: &mut OrdersLane, nonce: u64, number: u32, once: bool) -> u8
    ensures answer { result ≡ (started nonce number once turn.old).0 }
    ensures octets { turn.new ≡ (started nonce number once turn.old).1 }
{
    dt_orders_turns::start(turn, nonce, number, once)
}

/// An order is noted.
#[unsafe(no_mangle)]
pub extern "C" fn dt_orders_give(turn: &mut OrdersLane, uid: u64, record_number: u64) -> u8
    ensures answer { result ≡ (gave uid record_number turn.old).0 }
    ensures octets { turn.new ≡ (gave uid record_number turn.old).1 }
{
    dt_orders_turns::give(turn, uid, record_number)
}

/// The request of a lane's order.
#[unsafe(no_mangle)]
pub extern "C" fn dt_orders_call(turn: &mut OrdersLane, stored: u64, count: u32) -> u8
    ensures answer { result ≡ (calls stored count turn.old).0 }
    ensures octets { turn.new ≡ (calls stored count turn.old).1 }
{
    dt_orders_turns::call(turn, stored, count)
}

/// The request of a question.
#[unsafe(no_mangle)]
pub extern "C" fn dt_orders_ask(turn: &mut OrdersLane, answer: &[u8], count: u32) -> u8
    ensures answer { result ≡ (asks answer.now count turn.old).0 }
    ensures octets { turn.new ≡ (asks answer.now count turn.old).1 }
{
    dt_orders_turns::ask(turn, answer, count)
}

/// A call was sent, or certainly wasn't.
#[unsafe(no_mangle)]
pub extern "C" fn dt_orders_made(turn: &mut OrdersLane, sent: bool) -> u8
    ensures answer { result ≡ (made_in sent turn.old).0 }
    ensures octets { turn.new ≡ (made_in sent turn.old).1 }
{
    dt_orders_turns::made(turn, sent)
}

/// A call ended without an answer.
#[unsafe(no_mangle)]
pub extern "C" fn dt_orders_unsure(turn: &mut OrdersLane) -> u8
    ensures answer { result ≡ (unsure_in turn.old).0 }
    ensures octets { turn.new ≡ (unsure_in turn.old).1 }
{
    dt_orders_turns::unsure(turn)
}

/// An answer to the call of the request.
#[unsafe(no_mangle)]
pub extern "C" fn dt_orders_hear(turn: &mut OrdersLane, answer: &[u8], record_number: u64) -> u8
    ensures answer { result ≡ (hears answer.now record_number turn.old).0 }
    ensures octets { turn.new ≡ (hears answer.now record_number turn.old).1 }
{
    dt_orders_turns::hear(turn, answer, record_number)
}

/// The word of an answer.
#[unsafe(no_mangle)]
pub extern "C" fn dt_orders_word(answer: &[u8]) -> u8
    ensures { result ≡ word_said (answers answer.now) }
{
    dt_orders_turns::word_of_answer(answer)
}

/// The lane's order is cancelled.
#[unsafe(no_mangle)]
pub extern "C" fn dt_orders_cancel(turn: &mut OrdersLane) -> u8
    ensures answer { result ≡ (cancels turn.old).0 }
    ensures octets { turn.new ≡ (cancels turn.old).1 }
{
    dt_orders_turns::cancel(turn)
}

/// The client goes on after an alarm.
#[unsafe(no_mangle)]
pub extern "C" fn dt_orders_adopt(turn: &mut OrdersLane) -> u8
    ensures answer { result ≡ (adopts turn.old).0 }
    ensures octets { turn.new ≡ (adopts turn.old).1 }
{
    dt_orders_turns::adopt(turn)
}
