//! Each kind of line by its words, and the lines of each form.
ghost use Rattle.std.specs.Prelude.{◌≡◌, ◌≢◌, ◌==◌, ◌⊎◌, ◌∷◌, [], ◌<◌, length, IfOk, IfErr, OnOk, if◌then◌else◌};
ghost use Rattle.dt_text.specs.Said.{ReadAs, said};
ghost use Rattle.dt_text.specs.Spelling.{IsLine};
ghost use Rattle.dt_text.specs.Lines.{line_of, said_as, said_at, said_in};
ghost use Rattle.dt_text.specs.declared.lines.Form.TheVariants.{Calls, Schedule, Script};
ghost use Rattle.dt_text.specs.Rows as rows;
ghost use Rattle.dt_text.specs.Splitting.{word};
ghost use Rattle.dt_text.specs.WordKinds.{value_read};

use crate::fields::{address, again, day, flow, has, hex, link, marks, max, number, payload, room};
use crate::lines::{Form, Line, NodeLine, RunLine, ScriptLine, SetupLine, UserLine, WorldLine};
use crate::splitting::{Words, is};
use dt_reports::LineFault;
use dt_units::Params;

/// Whether `params` has ten or eleven numbers.
fn has_parameters(words: &Words<'_>) -> Result<(), LineFault>
    ensures ok { OnOk result ((length words.now ≡ 11) ⊎ (length words.now ≡ 12)) }
    ensures err { IfErr result (λ fault. (fault ≡ LineFault.Count) × (length words.now ≢ 11) × (length words.now ≢ 12)) }
{
    if words.has_exactly(11) {
        Ok(())
    } else {
        has(12, words)
    }
}

/// The first sequence number: the eleventh number of `params`, or 0 where there are ten.
fn start(words: &Words<'_>) -> Result<u32, LineFault>
    ensures { result ≡ (if length words.now == 12 then value_read rows.any_number (word 11 words.now) else Ok 0) }
{
    if words.has_exactly(12) {
        number(words.word(11))
    } else {
        Ok(0)
    }
}

/// `params MPL R A RTO PROBE SEG CAP RCAP WINDOW RUN_LIMIT START`, or without START, which is 0 then
#[tactic(auto, unfolding(crate::specs::Lines::said_as))]
fn params_line<'a>(words: &Words<'a>) -> Result<Line<'a>, LineFault>
    ensures { ReadAs result (said_as (rows.params_row ∷ rows.params_start_row ∷ []) words.now) }
{
    has_parameters(words)?;
    let mpl = number(words.word(1))?;
    let r = number(words.word(2))?;
    let a = number(words.word(3))?;
    let rto = number(words.word(4))?;
    let probe = number(words.word(5))?;
    let seg = number(words.word(6))?;
    let cap = number(words.word(7))?;
    let rcap = number(words.word(8))?;
    let window = number(words.word(9))?;
    let run_limit = number(words.word(10))?;
    let start = start(words)?;
    Ok(Line::Params(Params {
        mpl,
        r,
        a,
        rto,
        probe,
        seg,
        cap,
        rcap,
        window,
        run_limit,
        start,
    }))
}

/// A line of so many words, of which these are read from left to right, each by its place.
macro_rules! read_words {
    ($words:expr, $count:expr; $($name:pat = $read:ident($place:expr)),*; $line:expr) => {{
        has($count, $words)?;
        $(let $name = $read($words.word($place))?;)*
        Ok($line)
    }};
}

/// `station N ZERO`
#[tactic(auto, unfolding(crate::specs::Lines::said_as))]
fn station_line<'a>(words: &Words<'a>) -> Result<Line<'a>, LineFault>
    ensures { ReadAs result (said_as (rows.station_row ∷ []) words.now) }
{
    read_words! { words, 3;
        n = number(1),
        zero = number(2);
        Line::Setup(SetupLine::Station { n, zero })
    }
}

/// `link L FROM TO CHARGE PACE`
#[tactic(auto, unfolding(crate::specs::Lines::said_as))]
fn link_line<'a>(words: &Words<'a>) -> Result<Line<'a>, LineFault>
    ensures { ReadAs result (said_as (rows.link_row ∷ []) words.now) }
{
    read_words! { words, 6;
        link = link(1),
        from = number(2),
        to = number(3),
        charge = day(4),
        pace = day(5);
        Line::Setup(SetupLine::Link { link, from, to, charge, pace })
    }
}

/// `route AT TO L`
#[tactic(auto, unfolding(crate::specs::Lines::said_as))]
fn route_line<'a>(words: &Words<'a>) -> Result<Line<'a>, LineFault>
    ensures { ReadAs result (said_as (rows.route_row ∷ []) words.now) }
{
    read_words! { words, 4;
        at = number(1),
        to = number(2),
        link = link(3);
        Line::Setup(SetupLine::Route { at, to, link })
    }
}

/// `go`
#[tactic(auto, unfolding(crate::specs::Lines::said_as))]
fn go_line<'a>(words: &Words<'_>) -> Result<Line<'a>, LineFault>
    ensures { ReadAs result (said_as (rows.go_row ∷ []) words.now) }
{
    has(1, words)?;
    Ok(Line::Go)
}

/// `pass D`
#[tactic(auto, unfolding(crate::specs::Lines::said_as))]
fn pass_line<'a>(words: &Words<'a>) -> Result<Line<'a>, LineFault>
    ensures { ReadAs result (said_as (rows.pass_row ∷ []) words.now) }
{
    read_words! { words, 2;
        by = number(1);
        Line::Run(RunLine::World(WorldLine::Pass { by }))
    }
}

/// `send FLOW MARKS HEX`
#[tactic(auto, unfolding(crate::specs::Lines::said_as))]
fn send_line<'a>(words: &Words<'a>) -> Result<Line<'a>, LineFault>
    ensures { ReadAs result (said_as (rows.send_row ∷ []) words.now) }
{
    read_words! { words, 4;
        flow = flow(1),
        (begin, end) = marks(2),
        hex = hex(3);
        Line::Run(RunLine::User(UserLine::Send { flow, begin, end, hex }))
    }
}

/// `read FLOW MAX`
#[tactic(auto, unfolding(crate::specs::Lines::said_as))]
fn reading_line<'a>(words: &Words<'a>) -> Result<Line<'a>, LineFault>
    ensures { ReadAs result (said_as (rows.read_row ∷ []) words.now) }
{
    read_words! { words, 3;
        flow = flow(1),
        max = max(2);
        Line::Run(RunLine::User(UserLine::Read { flow, max }))
    }
}

/// `tick N`
#[tactic(auto, unfolding(crate::specs::Lines::said_as))]
fn tick_line<'a>(words: &Words<'a>) -> Result<Line<'a>, LineFault>
    ensures { ReadAs result (said_as (rows.tick_row ∷ []) words.now) }
{
    read_words! { words, 2;
        n = number(1);
        Line::Run(RunLine::World(WorldLine::Tick { n }))
    }
}

/// `arrive C`
#[tactic(auto, unfolding(crate::specs::Lines::said_as))]
fn arrive_line<'a>(words: &Words<'a>) -> Result<Line<'a>, LineFault>
    ensures { ReadAs result (said_as (rows.arrive_row ∷ []) words.now) }
{
    read_words! { words, 2;
        copy = number(1);
        Line::Run(RunLine::World(WorldLine::Arrive { copy }))
    }
}

/// `lose C`
#[tactic(auto, unfolding(crate::specs::Lines::said_as))]
fn lose_line<'a>(words: &Words<'a>) -> Result<Line<'a>, LineFault>
    ensures { ReadAs result (said_as (rows.lose_row ∷ []) words.now) }
{
    read_words! { words, 2;
        copy = number(1);
        Line::Run(RunLine::World(WorldLine::Lose { copy }))
    }
}

/// `restart N`
#[tactic(auto, unfolding(crate::specs::Lines::said_as))]
fn restart_line<'a>(words: &Words<'a>) -> Result<Line<'a>, LineFault>
    ensures { ReadAs result (said_as (rows.restart_row ∷ []) words.now) }
{
    read_words! { words, 2;
        n = number(1);
        Line::Run(RunLine::World(WorldLine::Restart { n }))
    }
}

/// `me N first` or `me N again`
#[tactic(auto, unfolding(crate::specs::Lines::said_as))]
fn me_line<'a>(words: &Words<'a>) -> Result<Line<'a>, LineFault>
    ensures { ReadAs result (said_as (rows.me_row ∷ []) words.now) }
{
    read_words! { words, 3;
        n = number(1),
        again = again(2);
        Line::Script(ScriptLine::Me { n, again })
    }
}

/// `local ADDRESS`
#[tactic(auto, unfolding(crate::specs::Lines::said_as))]
fn local_line<'a>(words: &Words<'a>) -> Result<Line<'a>, LineFault>
    ensures { ReadAs result (said_as (rows.local_row ∷ []) words.now) }
{
    read_words! { words, 2;
        address = address(1);
        Line::Script(ScriptLine::Local(address))
    }
}

/// `peer L ADDRESS CHARGE PACE`
#[tactic(auto, unfolding(crate::specs::Lines::said_as))]
fn peer_line<'a>(words: &Words<'a>) -> Result<Line<'a>, LineFault>
    ensures { ReadAs result (said_as (rows.peer_row ∷ []) words.now) }
{
    read_words! { words, 5;
        link = link(1),
        address = address(2),
        charge = day(3),
        pace = day(4);
        Line::Script(ScriptLine::Node(NodeLine::Peer { link, address, charge, pace }))
    }
}

/// `route TO L`
#[tactic(auto, unfolding(crate::specs::Lines::said_as))]
fn own_route_line<'a>(words: &Words<'a>) -> Result<Line<'a>, LineFault>
    ensures { ReadAs result (said_as (rows.own_route_row ∷ []) words.now) }
{
    read_words! { words, 3;
        to = number(1),
        link = link(2);
        Line::Script(ScriptLine::Node(NodeLine::Route { to, link }))
    }
}

/// `shelf N`
#[tactic(auto, unfolding(crate::specs::Lines::said_as))]
fn shelf_line<'a>(words: &Words<'a>) -> Result<Line<'a>, LineFault>
    ensures { ReadAs result (said_as (rows.shelf_row ∷ []) words.now) }
{
    read_words! { words, 2;
        room = room(1);
        Line::Script(ScriptLine::Node(NodeLine::Shelf { room }))
    }
}

/// `at T send FLOW MARKS HEX`
#[tactic(auto, unfolding(crate::specs::Lines::said_as))]
fn at_send_line<'a>(words: &Words<'a>) -> Result<Line<'a>, LineFault>
    ensures { ReadAs result (said_as (rows.at_send_row ∷ []) words.now) }
{
    read_words! { words, 6;
        at = number(1),
        flow = flow(3),
        (begin, end) = marks(4),
        hex = hex(5);
        Line::Script(ScriptLine::At { at, does: UserLine::Send { flow, begin, end, hex } })
    }
}

/// `at T read FLOW MAX`
#[tactic(auto, unfolding(crate::specs::Lines::said_as))]
fn at_read_line<'a>(words: &Words<'a>) -> Result<Line<'a>, LineFault>
    ensures { ReadAs result (said_as (rows.at_read_row ∷ []) words.now) }
{
    read_words! { words, 5;
        at = number(1),
        flow = flow(3),
        max = max(4);
        Line::Script(ScriptLine::At { at, does: UserLine::Read { flow, max } })
    }
}

/// `at T stop`
#[tactic(auto, unfolding(crate::specs::Lines::said_as))]
fn at_stop_line<'a>(words: &Words<'a>) -> Result<Line<'a>, LineFault>
    ensures { ReadAs result (said_as (rows.at_stop_row ∷ []) words.now) }
{
    read_words! { words, 3;
        at = number(1);
        Line::Script(ScriptLine::Stop { at })
    }
}

/// `call FLOW HEX`
#[tactic(auto, unfolding(crate::specs::Lines::said_as))]
fn call_line<'a>(words: &Words<'a>) -> Result<Line<'a>, LineFault>
    ensures { ReadAs result (said_as (rows.call_row ∷ []) words.now) }
{
    read_words! { words, 3;
        flow = flow(1),
        hex = payload(2);
        Line::Run(RunLine::Call { flow, hex })
    }
}

/// The reader that a word names, one row a kind of line, or the fault of a word that names none.
macro_rules! by_name {
    ($name:expr, $words:expr; $($text:literal => $read:ident,)*) => {
        $(if is($name, $text) { $read($words) } else)* { Err(LineFault::Word) }
    };
}

/// The same for lines of a world: those of its setup, what happens in it, and these.
macro_rules! by_world_name {
    ($name:expr, $words:expr; $($text:literal => $read:ident,)*) => {
        by_name! { $name, $words;
            "params" => params_line,
            "station" => station_line,
            "link" => link_line,
            "route" => route_line,
            "go" => go_line,
            $($text => $read,)*
            "pass" => pass_line,
            "tick" => tick_line,
            "arrive" => arrive_line,
            "lose" => lose_line,
            "restart" => restart_line,
        }
    };
}

/// A line of a script after `at T`, which its third word chooses.
#[tactic(auto, unfolding(crate::specs::Lines::said_at))]
fn at_line<'a>(words: &Words<'a>) -> Result<Line<'a>, LineFault>
    ensures { ReadAs result (said_at words.now) }
{
    if words.has_fewer_than(3) {
        return Err(LineFault::Count);
    }
    let name = words.word(2);
    by_name! { name, words;
        "send" => at_send_line,
        "read" => at_read_line,
        "stop" => at_stop_line,
    }
}

/// A line of a schedule, by its first word.
fn schedule_line<'a>(words: &Words<'a>) -> Result<Line<'a>, LineFault>
    requires { 0 < length words.now }
    ensures { ReadAs result (said_in Schedule words.now) }
{
    let name = words.word(0);
    by_world_name! { name, words;
        "send" => send_line,
        "read" => reading_line,
    }
}

/// A line of an input of calls, by its first word.
fn calls_line<'a>(words: &Words<'a>) -> Result<Line<'a>, LineFault>
    requires { 0 < length words.now }
    ensures { ReadAs result (said_in Calls words.now) }
{
    let name = words.word(0);
    by_world_name! { name, words;
        "call" => call_line,
    }
}

/// A line of a script, by its first word.
fn script_line<'a>(words: &Words<'a>) -> Result<Line<'a>, LineFault>
    requires { 0 < length words.now }
    ensures { ReadAs result (said_in Script words.now) }
{
    let name = words.word(0);
    by_name! { name, words;
        "at" => at_line,
        "params" => params_line,
        "me" => me_line,
        "local" => local_line,
        "peer" => peer_line,
        "route" => own_route_line,
        "shelf" => shelf_line,
        "go" => go_line,
    }
}

/// The line of this form that the octets spell, without the line feed after it. Any octets are
/// read, or refused by the first test that fails: the first word, the number of words, and then the
/// words from left to right; never [`LineFault::Order`]. After `at T` the third word chooses the
/// line. The cost is the line, and no memory is taken.
#[tactic(auto, unfolding(crate::specs::Lines::line_of))]
pub fn read_line(form: Form, bytes: &[u8]) -> Result<Line<'_>, LineFault>
    ensures exact { ReadAs result (line_of form bytes.now) }
    ensures within { IfOk result (λ line. IsLine form (said line)) }
    ensures not_order { result ≢ Err LineFault.Order }
{
    if bytes.is_empty() || bytes[0] == b'#' {
        return Ok(Line::Blank);
    }
    let words = Words::new(bytes);
    match form {
        Form::Schedule => schedule_line(&words),
        Form::Script => script_line(&words),
        Form::Calls => calls_line(&words),
    }
}
