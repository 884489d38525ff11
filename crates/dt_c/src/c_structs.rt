//! Arguments and results as they lie in C.
ghost use Rattle.std.specs.Prelude.{◌≡◌, find, nat_le};
ghost use Rattle.dt_reports.specs.Told.{told};
ghost use Rattle.dt_c.specs.CStructs.{about, about_none, again_of, bad_report, blocked_counts, c_flow, c_report, capped, datagram, elsewhere, fault_result, faulty, field_number, flow_counts, flow_of, has_fit_links, is_fit, is_unfit, marked, message_in, message_of, message_status, message_with, no_flow, no_piece, node_counts, numbered, open_result, params_of, read_result, receive_result, received_as, refused_report, released, report_in, route, routed_status, send_result, sent_as, station_report, ticked_status, until_time, wake_time};

use dt_endpoint::{
    Counts, Delivered, Guard, Octets, OutFrame, Received, Route, Routed, Sent, Ticked,
};
use dt_inbox::Handed;
use dt_layout::LayoutFault;
use dt_reports::{Refusal, Report, StationReport};
use dt_units::{Field, Flow, NodeId, ParamFault, Params};
use std::mem::size_of;

/// The call did what it was asked.
pub const OK: u8 = 0;
/// Out of memory.
pub const NO_MEMORY: u8 = 1;
/// The handle isn't open, and nothing changed.
pub const NOT_OPEN: u8 = 2;
/// An argument is out of its range, and nothing changed.
pub const INVALID: u8 = 3;
/// The handle is open already, and nothing changed.
pub const EXISTS: u8 = 4;
/// There is nothing to return.
pub const NONE: u8 = 5;
/// The buffer is too small, and nothing changed.
pub const BUFFER_TOO_SMALL: u8 = 6;
/// A send doesn't fit.
pub const FULL: u8 = 7;
/// The node is silent.
pub const QUIET: u8 = 8;
/// An earlier call ran out of memory, and nothing changed.
pub const STOPPED: u8 = 9;
/// The datagram isn't valid, and nothing changed.
pub const MALFORMED: u8 = 11;
/// The datagram's lifetime is over, and nothing changed.
pub const EXPIRED: u8 = 12;
/// The guard doesn't admit the datagram, which is lost and counted. Nothing else changed.
pub const BLOCKED: u8 = 13;
/// Many flows without a message were looked at, so the call ends. Others may have one.
pub const MORE: u8 = 14;
/// Out of memory for octets that were read. They are lost, and the node is usable.
pub const LOST: u8 = 15;

/// The start of a node whose number wasn't used before.
pub const START_FIRST: u8 = 1;
/// The start of a node whose number may have been used: it is silent at first.
pub const START_AGAIN: u8 = 2;

/// What a wake is where nothing is due.
pub const NEVER: u64 = 18_446_744_073_709_551_615;

/// The parameters of the protocol, as [`Params`] has them.
#[repr(C)]
#[derive(Clone, Copy)]
pub struct CParams {
    pub size: u32,
    pub mpl: u32,
    pub r: u32,
    pub a: u32,
    pub rto: u32,
    pub probe: u32,
    pub seg: u32,
    pub cap: u32,
    pub rcap: u32,
    pub window: u32,
    pub run_limit: u32,
    pub start: u32,
}

/// A flow.
#[repr(C)]
#[derive(Clone, Copy)]
pub struct CFlow {
    pub source: u32,
    pub target: u32,
    pub source_port: u16,
    pub target_port: u16,
}

/// A link on which packets leave and arrive.
#[repr(C)]
#[derive(Clone, Copy)]
pub struct CLink {
    /// What a packet that arrives pays of its lifetime, in milliseconds.
    pub charge: u32,
    /// The least time from one packet that leaves to the next, in milliseconds.
    pub pace: u32,
    pub number: u16,
    /// 0.
    pub reserved: u16,
}

/// Packets to this node leave on this link.
#[repr(C)]
#[derive(Clone, Copy)]
pub struct CRoute {
    pub to: u32,
    pub link: u16,
}

/// How a node starts.
#[repr(C)]
#[derive(Clone, Copy)]
pub struct NodeOptions<'a> {
    pub size: u32,
    /// The node's number.
    pub node: u32,
    /// The time, in milliseconds.
    pub at: u64,
    pub links: &'a [CLink],
    pub routes: &'a [CRoute],
    /// [`START_FIRST`] or [`START_AGAIN`].
    pub start_as: u8,
}

/// The result of an opening. If a parameter is out of its range: its place in [`CParams`], where
/// the first is 1, and its value. If another argument is unfit: 0 and 0.
#[repr(C)]
#[derive(Clone, Copy)]
pub struct OpenResult {
    pub value: u32,
    pub status: u8,
    pub field: u8,
}

/// The result for a datagram. If it isn't valid, the number of the first test that fails and
/// what was tested.
#[repr(C)]
#[derive(Clone, Copy)]
pub struct ReceiveResult {
    pub value: u32,
    pub status: u8,
    pub fault: u8,
}

/// How many datagrams a guard blocked: for ports that aren't open, and of flows too many.
#[repr(C)]
#[derive(Clone, Copy)]
pub struct BlockedCounts {
    pub closed_port: u64,
    pub too_many_flows: u64,
}

/// The result of a send.
#[repr(C)]
#[derive(Clone, Copy)]
pub struct SendResult {
    /// Until when the node is silent.
    pub quiet_until: u64,
    /// How many octets fit.
    pub free: u32,
    pub status: u8,
}

/// The result of a read: `len` octets are at the head of the buffer.
#[repr(C)]
#[derive(Clone, Copy)]
pub struct ReadResult {
    pub len: usize,
    pub status: u8,
    pub begin: bool,
    pub end: bool,
    /// Octets before these may be missing.
    pub gap: bool,
}

/// A message: `len` octets are at the head of the buffer, or are needed.
#[repr(C)]
#[derive(Clone, Copy)]
pub struct Message {
    pub size: u32,
    pub flow: CFlow,
    pub len: usize,
    /// How many messages were longer than the longest so far.
    pub dropped_too_long: u64,
    /// Octets before the message are lost, or may be.
    pub gap: bool,
}

/// A datagram that leaves: `len` octets are at the head of the buffer, or are needed.
#[repr(C)]
#[derive(Clone, Copy)]
pub struct Datagram {
    pub size: u32,
    pub to: u32,
    pub len: usize,
    pub link: u16,
}

/// What a node did or met. The kind says which of its fields are set.
#[repr(C)]
#[derive(Clone, Copy)]
pub struct CReport {
    pub size: u32,
    pub flow: CFlow,
    pub time: u64,
    pub number: u32,
    pub count: u32,
    pub window: u32,
    pub kind: u8,
    pub begin: bool,
    pub end: bool,
    pub run: bool,
    pub sending: bool,
}

/// What a node has counted since it was opened: datagrams that it handled and that it refused,
/// datagrams that left, and octets of all flows by what was reported of them.
#[repr(C)]
#[derive(Clone, Copy)]
pub struct NodeCounts {
    pub size: u32,
    pub reserved: u32,
    pub datagrams_in: u64,
    pub datagrams_refused: u64,
    pub datagrams_out: u64,
    pub octets_queued: u64,
    pub octets_acknowledged: u64,
    pub octets_uncertain: u64,
    pub octets_accepted: u64,
    pub octets_read: u64,
}

/// What was reported of the octets of a flow since it is counted.
#[repr(C)]
#[derive(Clone, Copy)]
pub struct FlowCounts {
    pub size: u32,
    pub reserved: u32,
    pub octets_queued: u64,
    pub octets_acknowledged: u64,
    pub octets_uncertain: u64,
    pub octets_accepted: u64,
    pub octets_read: u64,
}

/// The answer to an opening.
#[derive(Clone, Copy)]
pub enum Opened {
    Done,
    NoMemory,
    /// The handle is open already.
    Held,
    /// An argument that is no parameter of the protocol is out of its range.
    Unfit,
    /// The first of the parameters that is out of its range.
    Refused { fault: ParamFault },
}

/// How many octets a struct has that says its own size.
pub const PARAMS_SIZE: u32 = 48;

pub const NODE_OPTIONS_SIZE: u32 = 56;

pub const MESSAGE_SIZE: u32 = 40;

pub const DATAGRAM_SIZE: u32 = 24;

pub const REPORT_SIZE: u32 = 48;

pub const NODE_COUNTS_SIZE: u32 = 72;

pub const FLOW_COUNTS_SIZE: u32 = 48;

// What lies in C is as large there: tests/library/layout.c has the same numbers.
const _: () = prove!(size_of::<CParams>() == PARAMS_SIZE as usize);

const _: () = prove!(size_of::<CFlow>() == 12);

const _: () = prove!(size_of::<CLink>() == 12);

const _: () = prove!(size_of::<CRoute>() == 8);

const _: () = prove!(size_of::<NodeOptions<'_>>() == NODE_OPTIONS_SIZE as usize);

const _: () = prove!(size_of::<OpenResult>() == 8);

const _: () = prove!(size_of::<ReceiveResult>() == 8);

const _: () = prove!(size_of::<BlockedCounts>() == 16);

const _: () = prove!(size_of::<SendResult>() == 16);

const _: () = prove!(size_of::<ReadResult>() == 16);

const _: () = prove!(size_of::<Message>() == MESSAGE_SIZE as usize);

const _: () = prove!(size_of::<Datagram>() == DATAGRAM_SIZE as usize);

const _: () = prove!(size_of::<CReport>() == REPORT_SIZE as usize);

const _: () = prove!(size_of::<NodeCounts>() == NODE_COUNTS_SIZE as usize);

const _: () = prove!(size_of::<FlowCounts>() == FLOW_COUNTS_SIZE as usize);

/// Whether a struct that the caller lends has room for all that is known of it here.
pub fn has_room(size: u32, least: u32) -> bool
    ensures { result ≡ nat_le least size }
{
    least <= size
}

impl CParams {
    pub fn params(&self) -> Params
        ensures { result ≡ params_of self.now }
    {
        Params {
            mpl: self.mpl,
            r: self.r,
            a: self.a,
            rto: self.rto,
            probe: self.probe,
            seg: self.seg,
            cap: self.cap,
            rcap: self.rcap,
            window: self.window,
            run_limit: self.run_limit,
            start: self.start,
        }
    }
}

impl CFlow {
    pub fn flow(&self) -> Flow
        ensures { result ≡ flow_of self.now }
    {
        Flow {
            from: NodeId(self.source),
            from_port: self.source_port,
            to: NodeId(self.target),
            to_port: self.target_port,
        }
    }
}

impl CRoute {
    pub fn route(&self) -> Route
        ensures { result ≡ route self.now }
    {
        Route {
            to: self.to,
            link: self.link,
        }
    }
}

/// The first link of which something reserved isn't 0.
fn unfit_link(links: &[CLink]) -> Option<CLink>
    ensures { result ≡ find is_unfit links.now }
{
    links.iter().copied().find(|link| link.reserved != 0)
}

/// Whether what is reserved of each link is 0.
fn has_fit_links(links: &[CLink]) -> bool
    ensures { result ≡ has_fit_links links.now }
{
    unfit_link(links).is_none()
}

impl NodeOptions<'_> {
    /// The time, where the node starts again.
    pub fn again(&self) -> Option<u64>
        ensures { result ≡ again_of self.now }
    {
        if self.start_as == START_AGAIN {
            Some(self.at)
        } else {
            None
        }
    }

    /// Whether the options, and the size of the parameters beside them, are those that are known here.
    pub fn is_fit(&self, params: &CParams) -> bool
        ensures { result ≡ is_fit params.now self.now }
    {
        params.size == PARAMS_SIZE
            && self.size == NODE_OPTIONS_SIZE
            && (self.start_as == START_FIRST || self.start_as == START_AGAIN)
            && has_fit_links(self.links)
    }
}

pub fn ticked_status(answer: Ticked) -> u8
    ensures { result ≡ ticked_status answer }
{
    match answer {
        Ticked::Done => OK,
        Ticked::NoMemory => NO_MEMORY,
        Ticked::Spent => STOPPED,
    }
}

pub fn routed_status(answer: Routed) -> u8
    ensures { result ≡ routed_status answer }
{
    match answer {
        Routed::Done => OK,
        Routed::NoMemory => NO_MEMORY,
        Routed::Spent => STOPPED,
        Routed::NoLink => INVALID,
        Routed::Known => EXISTS,
    }
}

/// A result for a datagram with nothing but a status.
pub fn received_as(status: u8) -> ReceiveResult
    ensures { result ≡ received_as status }
{
    ReceiveResult {
        value: 0,
        status,
        fault: 0,
    }
}

/// The result for a datagram that fails a test.
fn faulty(fault: u8, value: u32) -> ReceiveResult
    ensures { result ≡ faulty fault value }
{
    ReceiveResult {
        value,
        status: MALFORMED,
        fault,
    }
}

/// A count as it fits in 32 bits.
fn capped(count: usize) -> u32
    ensures { result ≡ capped count }
{
    count.min(4_294_967_295) as u32
}

fn fault_result(fault: LayoutFault) -> ReceiveResult
    ensures { result ≡ fault_result fault }
{
    match fault {
        LayoutFault::Short { len } => faulty(1, capped(len)),
        LayoutFault::Version { octet } => faulty(2, octet as u32),
        LayoutFault::Length { told, .. } => faulty(3, capped(told)),
        LayoutFault::Dead => faulty(4, 0),
        LayoutFault::Protocol { octet } => faulty(5, octet as u32),
        LayoutFault::Kind { octet } => faulty(6, octet as u32),
        LayoutFault::Flags { octet } => faulty(7, octet as u32),
        LayoutFault::Window { value } => faulty(8, value),
        LayoutFault::Size { len } => faulty(9, capped(len)),
    }
}

pub fn receive_result(answer: Received) -> ReceiveResult
    ensures { result ≡ receive_result answer }
{
    match answer {
        Received::Done => received_as(OK),
        Received::NoMemory => received_as(NO_MEMORY),
        Received::Spent => received_as(STOPPED),
        Received::NoLink => received_as(INVALID),
        Received::Bad { fault } => fault_result(fault),
        Received::Stale => received_as(EXPIRED),
    }
}

pub fn blocked_counts(guard: &Guard) -> BlockedCounts
    ensures { result ≡ blocked_counts guard.now }
{
    BlockedCounts {
        closed_port: guard.closed(),
        too_many_flows: guard.crowded(),
    }
}

/// What a node counted goes into the caller's struct.
pub fn fill_node_counts(out: &mut NodeCounts, counts: Counts)
    ensures { out.new ≡ node_counts counts out.old }
{
    out.datagrams_in = counts.came;
    out.datagrams_refused = counts.refused;
    out.datagrams_out = counts.left;
    out.octets_queued = counts.octets.taken;
    out.octets_acknowledged = counts.octets.settled;
    out.octets_uncertain = counts.octets.uncertain;
    out.octets_accepted = counts.octets.accepted;
    out.octets_read = counts.octets.read;
}

/// What was reported of a flow's octets goes into the caller's struct.
pub fn fill_flow_counts(out: &mut FlowCounts, octets: Octets)
    ensures { out.new ≡ flow_counts octets out.old }
{
    out.octets_queued = octets.taken;
    out.octets_acknowledged = octets.settled;
    out.octets_uncertain = octets.uncertain;
    out.octets_accepted = octets.accepted;
    out.octets_read = octets.read;
}

/// A result of a send with nothing but a status.
pub fn sent_as(status: u8) -> SendResult
    ensures { result ≡ sent_as status }
{
    SendResult {
        quiet_until: 0,
        free: 0,
        status,
    }
}

pub fn send_result(answer: Sent) -> SendResult
    ensures { result ≡ send_result answer }
{
    match answer {
        Sent::Done => sent_as(OK),
        Sent::Quiet { until } => SendResult {
            quiet_until: until,
            free: 0,
            status: QUIET,
        },
        Sent::Full { free } => SendResult {
            quiet_until: 0,
            free,
            status: FULL,
        },
        Sent::NoMemory => sent_as(NO_MEMORY),
        Sent::Spent => sent_as(STOPPED),
        Sent::BadFlow | Sent::Empty | Sent::TooMany => sent_as(INVALID),
    }
}

/// A result of a read with no octets.
pub fn no_piece(status: u8) -> ReadResult
    ensures { result ≡ no_piece status }
{
    ReadResult {
        len: 0,
        status,
        begin: false,
        end: false,
        gap: false,
    }
}

pub fn read_result(answer: Delivered) -> ReadResult
    ensures { result ≡ read_result answer }
{
    match answer {
        Delivered::Read {
            len,
            run,
            begin,
            end,
        } => ReadResult {
            len,
            status: OK,
            begin,
            end,
            gap: run,
        },
        Delivered::Nothing => no_piece(NONE),
        Delivered::NoMemory => no_piece(NO_MEMORY),
        Delivered::Spent => no_piece(STOPPED),
        Delivered::BadFlow => no_piece(INVALID),
        Delivered::NoRoom => no_piece(BUFFER_TOO_SMALL),
    }
}

/// Of no flow.
pub fn no_flow() -> CFlow
    ensures { result ≡ no_flow }
{
    CFlow {
        source: 0,
        target: 0,
        source_port: 0,
        target_port: 0,
    }
}

/// The status where a message is taken.
pub fn message_status(answer: Handed) -> u8
    ensures { result ≡ message_status answer }
{
    match answer {
        Handed::Done { .. } => OK,
        Handed::NoRoom { .. } => BUFFER_TOO_SMALL,
        Handed::Lost { .. } => LOST,
        Handed::Nothing => NONE,
        Handed::More => MORE,
        Handed::NoMemory => NO_MEMORY,
        Handed::Spent => STOPPED,
    }
}

/// A message, without its size.
fn message_with(flow: CFlow, len: usize, gap: bool, dropped_too_long: u64) -> Message
    ensures { result ≡ message_with flow len gap dropped_too_long }
{
    Message {
        size: 0,
        flow,
        len,
        dropped_too_long,
        gap,
    }
}

/// What the caller's struct has where a message is taken, when `dropped` were too long so far.
fn message_of(answer: Handed, dropped: u64) -> Message
    ensures { result ≡ message_of answer dropped }
{
    match answer {
        Handed::Done { flow, len, gap } | Handed::NoRoom { flow, len, gap } => {
            message_with(c_flow(flow), len, gap, dropped)
        }
        Handed::Lost { flow } => message_with(c_flow(flow), 0, false, dropped),
        Handed::Nothing | Handed::More | Handed::NoMemory | Handed::Spent => {
            message_with(no_flow(), 0, false, dropped)
        }
    }
}

/// What there is of a message goes into the caller's struct.
pub fn fill_message(out: &mut Message, answer: Handed, dropped: u64)
    ensures { out.new ≡ message_in answer dropped out.old }
{
    let size = out.size;
    *out = message_of(answer, dropped);
    out.size = size;
}

/// What there is of a datagram beside its octets goes into the caller's struct.
pub fn fill_datagram(out: &mut Datagram, frame: &OutFrame)
    ensures { out.new ≡ datagram frame.now out.old }
{
    out.to = frame.to();
    out.len = frame.octets().len();
    out.link = frame.link();
}

/// The time of the next tick. No moment is as late as [`NEVER`].
pub fn wake_time(moment: Option<u64>) -> u64
    ensures { result ≡ wake_time moment }
{
    match moment {
        Some(at) => at.min(NEVER - 1),
        None => NEVER,
    }
}

/// The place of a parameter, where the first is 1.
fn field_number(field: Field) -> u8
    ensures { result ≡ field_number field }
{
    match field {
        Field::Mpl => 1,
        Field::R => 2,
        Field::A => 3,
        Field::Rto => 4,
        Field::Probe => 5,
        Field::Seg => 6,
        Field::Cap => 7,
        Field::Rcap => 8,
        Field::Window => 9,
        Field::RunLimit => 10,
    }
}

pub fn open_result(answer: Opened) -> OpenResult
    ensures { result ≡ open_result answer }
{
    let (value, status, field) = match answer {
        Opened::Done => (0, OK, 0),
        Opened::NoMemory => (0, NO_MEMORY, 0),
        Opened::Held => (0, EXISTS, 0),
        Opened::Unfit => (0, INVALID, 0),
        Opened::Refused { fault } => (fault.value, INVALID, field_number(fault.field)),
    };
    OpenResult {
        value,
        status,
        field,
    }
}

/// A flow in C.
pub fn c_flow(flow: Flow) -> CFlow
    ensures { result ≡ c_flow flow }
{
    CFlow {
        source: flow.from.0,
        target: flow.to.0,
        source_port: flow.from_port,
        target_port: flow.to_port,
    }
}

/// A report of a kind about a flow, without its size.
fn about(kind: u8, flow: CFlow) -> CReport
    ensures { result ≡ about kind flow }
{
    CReport {
        size: 0,
        flow,
        time: 0,
        number: 0,
        count: 0,
        window: 0,
        kind,
        begin: false,
        end: false,
        run: false,
        sending: false,
    }
}

/// A report of a kind about no flow.
fn about_none(kind: u8) -> CReport
    ensures { result ≡ about_none kind }
{
    about(kind, no_flow())
}

/// A report of a kind about a flow, with its numbers.
fn numbered(kind: u8, flow: Flow, number: u32, count: u32, window: u32) -> CReport
    ensures { result ≡ numbered kind flow number count window }
{
    let mut report = about(kind, c_flow(flow));
    report.number = number;
    report.count = count;
    report.window = window;
    report
}

/// A report of a kind about a link, a node or a fault.
fn elsewhere(kind: u8, number: u32, count: u32) -> CReport
    ensures { result ≡ elsewhere kind number count }
{
    let mut report = about_none(kind);
    report.number = number;
    report.count = count;
    report
}

/// The report with its marks.
fn marked(report: CReport, begin: bool, end: bool, run: bool) -> CReport
    ensures { result ≡ marked report begin end run }
{
    let mut report = report;
    report.begin = begin;
    report.end = end;
    report.run = run;
    report
}

/// The report with a time.
fn until_time(report: CReport, time: u64) -> CReport
    ensures { result ≡ until_time report time }
{
    let mut report = report;
    report.time = time;
    report
}

fn released(flow: Flow, sending: bool) -> CReport
    ensures { result ≡ released flow sending }
{
    let mut report = about(8, c_flow(flow));
    report.sending = sending;
    report
}

fn refused_report(flow: Flow, fault: Refusal) -> CReport
    ensures { result ≡ refused_report flow fault }
{
    match fault {
        Refusal::Quiet { until } => until_time(numbered(2, flow, 0, 0, 0), until),
        Refusal::Full { free } => numbered(3, flow, 0, free, 0),
    }
}

fn bad_report(fault: LayoutFault) -> CReport
    ensures { result ≡ bad_report fault }
{
    let tested = fault_result(fault);
    elsewhere(25, tested.fault as u32, tested.value)
}

/// A match on a station's report, with one row a report: its row in C.
macro_rules! station_rows {
    ($report:expr; $($name:ident { $($field:ident),* } => $row:expr,)*) => {
        match $report {
            $(StationReport::$name { $($field),* } => $row,)*
        }
    };
}

/// What a station reports.
fn station_report(report: StationReport) -> CReport
    ensures { result ≡ station_report report }
{
    station_rows! { report;
        Took { flow, count } => numbered(1, flow, 0, count, 0),
        Refused { flow, fault } => refused_report(flow, fault),
        Sent { flow, number, length, drf, begin, end } =>
            marked(numbered(4, flow, number, length, 0), begin, end, drf),
        Resent { flow, number, length, drf, begin, end } =>
            marked(numbered(5, flow, number, length, 0), begin, end, drf),
        Met { flow, number } => numbered(6, flow, number, 0, 0),
        Uncertain { flow, count } => numbered(7, flow, 0, count, 0),
        Released { flow, sending } => released(flow, sending),
        Renewed { flow } => numbered(9, flow, 0, 0, 0),
        Acked { flow, number, window } => numbered(10, flow, number, 0, window),
        Replied { flow, number, window } => numbered(11, flow, number, 0, window),
        Accepted { flow, number, length, run } =>
            marked(numbered(12, flow, number, length, 0), false, false, run),
        Dropped { flow, number } => numbered(13, flow, number, 0, 0),
        Closing { flow, number } => numbered(14, flow, number, 0, 0),
        Settled { flow, count, window } => numbered(15, flow, 0, count, window),
        Ignored { flow, number, window } => numbered(16, flow, number, 0, window),
        Quiet { until } => until_time(about_none(17), until),
        Read { flow, run, begin, end } => marked(numbered(18, flow, 0, 0, 0), begin, end, run),
        Nothing { flow } => numbered(19, flow, 0, 0, 0),
        Put { link, life } => elsewhere(20, link as u32, life),
        ExpiredIn { link } => elsewhere(21, link as u32, 0),
        ExpiredOut { link } => elsewhere(22, link as u32, 0),
        NoRoute { to } => elsewhere(23, to, 0),
        Full { link } => elsewhere(24, link as u32, 0),
        Bad { fault } => bad_report(fault),
    }
}

/// A report in C without its size, of kind 0 where no station makes it.
fn c_report(report: &Report<'_>) -> CReport
    ensures { result ≡ c_report (told report.now) }
{
    match report.station_report() {
        Some(report) => station_report(report),
        None => about_none(0),
    }
}

/// A report goes into the caller's struct.
pub fn fill_report(out: &mut CReport, report: &Report<'_>)
    ensures { out.new ≡ report_in (told report.now) out.old }
{
    let size = out.size;
    *out = c_report(report);
    out.size = size;
}
