//! The generator's schedules, in memory.
use crate::writing::leaves;
use dt_edges::{Failed, MemSink};
use dt_make::make;

const ONE: &[u8] = b"params 1000 3000 200 500 800 100 4096 4096 512 2147483648
station 1 0
station 2 0
link 1 1 2 50 0
link 2 2 1 50 0
route 1 2 1
route 2 1 2
go
send 1:10>2:20 be 0001
lose 0
pass 500
tick 1
pass 10
arrive 1
pass 10
arrive 2
read 1:10>2:20 65536
";

fn make_one(out: &mut MemSink) -> Result<(), Failed> {
    make(1, out)
}

#[test]
fn one_round(rt: HostRuntime) {
    assert!(rt; leaves(rt.alloc(), 1024, make_one, Ok(()), ONE));
}
