ghost use Rattle.std.specs.Prelude.{◌≡◌, ◌*◌, ◌≤◌, ◌<◌, ◌^◌};
ghost use Rattle.dt_params.specs.Networks.{IsLeastLife, IsNetwork, IsNetworkIf, ack_delay, ceil, charge_of, has_counts, has_sizes, has_times, is_network, life_of, retry_span, retry_time, segment_size};

/// A network, and what is wanted of it.
#[derive(Clone, Copy, Debug)]
pub struct Network {
    /// The longest time under way on one link, with all queues: at most a day, in microseconds.
    pub delay: u64,
    /// A usual round trip from end to end: at most a day, in microseconds.
    pub round_trip: u64,
    /// The links of the longest path: 1 to 256.
    pub hops: u32,
    /// By how many parts in a million a clock may be wrong: at most 100,000.
    pub drift: u32,
    /// How often a segment goes out before it is given up: 1 to 1,000.
    pub tries: u32,
    /// The least MTU of the links: 59 to 65,535 octets.
    pub mtu: u32,
    /// The octets of a flow that may be under way, or unread: 1 to 65,536.
    pub room: u32,
    /// The longest that a packet waits for its turn at a station: at most a day, in milliseconds.
    pub wait: u32,
    /// How often a lost packet may go again while those after it wait on a shelf: at most 1,000.
    pub shelved: u32,
}

/// A day, in milliseconds.
pub const DAY: u64 = 86_400_000;
/// The milliseconds that a packet may spend in the machines at the ends of a link, and what is lost
/// because clocks have whole milliseconds.
const MACHINES: u64 = 43;
/// The octets of headers that a packet has at most: IPv4 and UDP, the Deltagram, and the packet.
const HEADERS: u32 = 58;

/// How many parts of this size there are at least, where the last one may be smaller.
fn ceil(whole: u64, part: u64) -> u64
    requires some { 0 < part }
    requires small { part ≤ 1000000 }
    requires fits { whole ≤ 2 ^ 62 }
    ensures { result ≡ ceil whole part }
{
    (whole + (part - 1)) / part
}

/// A product of numbers that are bounded.
fn product<const A: u64, const B: u64>(a: u64, b: u64) -> u64
    requires first { a ≤ A }
    requires second { b ≤ B }
    requires fits { A * B ≤ 2 ^ 62 }
    ensures value { result ≡ a * b }
    ensures bound { result ≤ A * B }
{
    a * b
}

impl Network {
    /// Whether the times are in their ranges.
    fn has_times(&self) -> bool
        ensures { result ≡ has_times self.now }
    {
        self.delay <= 1000 * DAY && self.round_trip <= 1000 * DAY && u64::from(self.wait) <= DAY
    }

    /// Whether what counts links, losses and parts in a million is in its range.
    fn has_counts(&self) -> bool
        ensures { result ≡ has_counts self.now }
    {
        (1..=256).contains(&self.hops)
            && self.drift <= 100_000
            && (1..=1000).contains(&self.tries)
            && self.shelved <= 1000
    }

    /// Whether the sizes are in their ranges.
    fn has_sizes(&self) -> bool
        ensures { result ≡ has_sizes self.now }
    {
        (59..=65_535).contains(&self.mtu) && (1..=65_536).contains(&self.room)
    }

    /// Whether each number is in its range.
    pub fn is_network(&self) -> bool
        ensures value { result ≡ is_network self.now }
        ensures ranges { IsNetworkIf result self.now }
    {
        self.has_times() && self.has_counts() && self.has_sizes()
    }

    /// The longest delay of an acknowledgement: a tenth of a round trip.
    pub fn ack_delay(&self) -> u64
        requires { IsNetwork self.now }
        ensures value { result ≡ ack_delay self.now }
        ensures bound { result ≤ 8640000 }
    {
        ceil(self.round_trip, 10_000).max(1)
    }

    /// From one transmission to the next: one and a half round trips, and twice the delay of an
    /// acknowledgement.
    pub fn retry_time(&self) -> u64
        requires { IsNetwork self.now }
        ensures value { result ≡ retry_time self.now }
        ensures bound { result ≤ 146880005 }
    {
        ceil(3 * self.round_trip, 2000) + 2 * self.ack_delay() + 5
    }

    /// From the first transmission to the last.
    pub fn retry_span(&self) -> u64
        requires { IsNetwork self.now }
        ensures value { result ≡ retry_span self.now }
    {
        product::<146_880_005, 1000>(self.retry_time(), u64::from(self.tries))
    }

    /// The most octets of a segment: what the MTU leaves.
    pub fn segment_size(&self) -> u32
        requires { IsNetwork self.now }
        ensures { result ≡ segment_size self.now }
    {
        (self.mtu - HEADERS).min(8192).min(self.room)
    }

    /// The charge of a link, where packets live at most so long.
    pub fn charge(&self, span: u64, mpl: u64) -> u64
        requires network { IsNetwork self.now }
        requires span { span ≡ retry_span self.now }
        requires a_day { span ≤ 86400000 }
        requires life { mpl ≤ 86400000 }
        ensures value { result ≡ charge_of self.now mpl }
        ensures bound { result ≤ 200000000 }
    {
        let spacing = 3 * mpl + 2 * span + self.ack_delay();
        let drift = product::<200_000, 440_640_000>(2 * u64::from(self.drift), spacing);
        ceil(self.delay, 1000) + MACHINES + ceil(drift, 1_000_000)
    }

    /// The life that a packet needs on the longest path, where packets live at most so long.
    pub fn life(&self, span: u64, mpl: u64) -> u64
        requires network { IsNetwork self.now }
        requires span { span ≡ retry_span self.now }
        requires a_day { span ≤ 86400000 }
        requires life { mpl ≤ 86400000 }
        ensures { result ≡ life_of self.now mpl }
    {
        let link = self.charge(span, mpl) + u64::from(self.wait) + 1;
        let path = product::<256, 300_000_000>(u64::from(self.hops), link);
        path + 5 + product::<1000, 146_880_005>(u64::from(self.shelved), self.retry_time())
    }

    /// The least life that is long enough for the longest path, if it is no longer than a day.
    pub fn least_life(&self, span: u64) -> Option<u64>
        requires network { IsNetwork self.now }
        requires span { span ≡ retry_span self.now }
        requires a_day { span ≤ 86400000 }
        ensures { IsLeastLife result self.now }
    {
        let mut mpl = 2;
        for _step in 0..DAY {
            let life = self.life(span, mpl);
            if life <= mpl {
                return Some(mpl);
            }
            if life > DAY {
                return None;
            }
            mpl = life;
        }
        None
    }
}
