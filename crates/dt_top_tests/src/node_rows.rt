//! The rows of runs: the script, the clock's readings, the datagrams that the takes find, what fails,
//! how the run ends, the datagrams that it gives, and what it writes, in which `;` ends each line. Where
//! a row has no names of datagrams that are given, they aren't looked at.

/// Node 1 sends and is acknowledged.
pub const ACKNOWLEDGED: &str =
    "first|1000 1040 1100|ack,-||done|data,-|0 1 took 1:10>2:20 5;0 1 sent 1:10>2:20 0 5 dbe;0 1 put 1 999;40 1 settled 1:10>2:20 5 4091;end 100;";

/// Nodes that hear one another, and node 1 with fifteen octets that don't read.
pub const LOGS: &str =
    "first|1000 1040 1100|ack,-||done|data,-|0 1 took 1:10>2:20 5;0 1 sent 1:10>2:20 0 5 dbe;0 1 put 1 999;40 1 settled 1:10>2:20 5 4091;end 100;
again|1000 1040 1100|ack,-||done||0 1 refused 1:10>2:20 quiet 6200;40 1 quiet 6200;end 100;
other|2000 2005 2100|data,-||done|ack|5 2 accepted 1:10>2:20 0 5 run;5 2 acked 1:10>2:20 5 4091;5 2 put 1 999;100 2 read 1:10>2:20 rbe 68656c6c6f;end 100;
hears|1000 1010 1020 1100|data,close,-||done||10 2 accepted 1:10>2:20 0 5 run;10 2 acked 1:10>2:20 5 4091;10 2 put 1 999;20 2 closing 1:10>2:20 5;end 100;
first|1000 1040 1100|fifteen,-||done||0 1 took 1:10>2:20 5;0 1 sent 1:10>2:20 0 5 dbe;0 1 put 1 999;40 1 bad short 15;end 100;";

/// The wire doesn't open; the first take fails, the second, the third; the clock stands still; a frame is
/// lost, which is told after its line; scripts are refused before anything is called.
pub const FAILURES: &str = "first|1000 1040 1100|ack,-|open|wire||
first|1000 1040 1100|ack,-|take 1|wire||0 1 took 1:10>2:20 5;0 1 sent 1:10>2:20 0 5 dbe;0 1 put 1 999;
first|1000 1040 1100|ack,-|take 2|wire||0 1 took 1:10>2:20 5;0 1 sent 1:10>2:20 0 5 dbe;0 1 put 1 999;40 1 settled 1:10>2:20 5 4091;
first|1000 1040 1060|-,-|take 3|wire||0 1 took 1:10>2:20 5;0 1 sent 1:10>2:20 0 5 dbe;0 1 put 1 999;
first|1000|||still||0 1 took 1:10>2:20 5;0 1 sent 1:10>2:20 0 5 dbe;0 1 put 1 999;
first|1000 1040 1100|ack,-|give 1|done|-|0 1 took 1:10>2:20 5;0 1 sent 1:10>2:20 0 5 dbe;0 1 put 1 999;0 1 unsent 1;40 1 settled 1:10>2:20 5 4091;end 100;
unfinished|1000 1040 1100|ack,-||refused||line 3: order;
stray|1000 1040 1100|ack,-||refused||line 4: stray 1;
foreign|1000 1040 1100|ack,-||refused||line 5: bad flow;
twice|1000 1040 1100|ack,-||refused||line 5: twice 5;
behind|1000 1040 1100|ack,-||refused||line 6: order;";

/// Data that came too early, with a shelf for four packets, for one, and without.
pub const SHELVES: &str =
    "shelf|1000 1010 1020 1100|efgh,abcd,-||done||10 2 dropped 1:10>2:20 4;10 2 shelved 1:10>2:20 4;20 2 accepted 1:10>2:20 0 4 run;20 2 again 1:10>2:20 4;20 2 accepted 1:10>2:20 4 4 on;20 2 acked 1:10>2:20 8 4088;20 2 put 1 999;end 100;
shelf|1000 1010 1020 1100|old efgh,old abcd,-||done||10 2 dropped 1:10>2:20 4;10 2 shelved 1:10>2:20 4;20 2 accepted 1:10>2:20 0 4 run;20 2 again 1:10>2:20 4;20 2 expired in 1;end 100;
shelf|1000 1010 1020 1030 1100|ijkl,efgh,abcd,-||done||10 2 dropped 1:10>2:20 8;10 2 shelved 1:10>2:20 8;20 2 dropped 1:10>2:20 4;20 2 shelved 1:10>2:20 4;30 2 accepted 1:10>2:20 0 4 run;30 2 again 1:10>2:20 4;30 2 accepted 1:10>2:20 4 4 on;30 2 acked 1:10>2:20 8 4088;30 2 put 1 999;30 2 again 1:10>2:20 8;30 2 accepted 1:10>2:20 8 4 on;30 2 acked 1:10>2:20 12 4084;30 2 put 1 999;end 100;
small shelf|1000 1010 1020 1030 1100|ijkl,efgh,abcd,-||done||10 2 dropped 1:10>2:20 8;10 2 shelved 1:10>2:20 8;20 2 dropped 1:10>2:20 4;20 2 noshelf 1:10>2:20 4;30 2 accepted 1:10>2:20 0 4 run;end 100;
shelf|1000 1010 1020 1030 1100|abcd,ijkl,efgh,-||done||10 2 accepted 1:10>2:20 0 4 run;20 2 replied 1:10>2:20 4 4092;20 2 put 1 999;20 2 shelved 1:10>2:20 8;30 2 accepted 1:10>2:20 4 4 on;30 2 acked 1:10>2:20 8 4088;30 2 put 1 999;30 2 again 1:10>2:20 8;30 2 accepted 1:10>2:20 8 4 on;30 2 acked 1:10>2:20 12 4084;30 2 put 1 999;end 100;
shelf|1000 1010 1061 1100|old efgh,abcd,-||done||10 2 dropped 1:10>2:20 4;10 2 shelved 1:10>2:20 4;61 2 accepted 1:10>2:20 0 4 run;61 2 stale 1:10>2:20 4;end 100;
hears|1000 1010 1020 1100|efgh,abcd,-||done||10 2 dropped 1:10>2:20 4;20 2 accepted 1:10>2:20 0 4 run;end 100;";

/// Traces in place of logs.
pub const TRACES: &str =
    "first|1000 1040 1100|ack,-||done||@ 1000;< 1 0101000e000003e7000000020000000102000014000a0000000500000ffb;@ 1040;< -;@ 1100;
first|1000 1040 1100|ack,-|give 1|done||@ 1000;! 1;< 1 0101000e000003e7000000020000000102000014000a0000000500000ffb;@ 1040;< -;@ 1100;
first|1000 1040 1100|ack,-|open|wire||! 0;
first|1000 1040 1100|ack,-|take 2|wire||@ 1000;< 1 0101000e000003e7000000020000000102000014000a0000000500000ffb;@ 1040;< x;
short|1000 1040 1100|ack,-||refused||line 1: count;";
